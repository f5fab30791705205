//! The files of a system whose run is to be held, or goes on from where it was held.
ghost use Rattle.std.specs.Prelude.{◌≡◌, ◌≤◌, ◌^◌, ◌↔◌, All, IfErr, IfOk, IsTrue, None, Some, length};
ghost use Rattle.doc_tables.specs.Violations.{FindsLeast};
ghost use Rattle.flatten.specs.Rules.{earlier};
ghost use Rattle.system_model.specs.Bounds.{BindsParameters};
ghost use Rattle.system_model.specs.Sound.{IsSound};
ghost use Rattle.trace_text.specs.Holding.{IsHoldable};
ghost use Rattle.system_files.specs.Holding.{EndsHeld, HoldsBack, IsUnheld, LoadsHeld, TellsUnheld, search_by};
ghost use Rattle.system_files.specs.Loads.{IsNamed};
ghost use Rattle.system_files.specs.Order.{Found};

use crate::bindings::name_told;
use crate::loaded::Loaded;
use crate::loading::{LoadError, load_models, load_outline};
use crate::named::FileFault;
use crate::subject::Subject;
use doc_tree::Rule;
use nesting_laws::nest_laws;
use sim_base::{CompId, Folder, Items};
use std::alloc::Global;
use system_loading::{Outline, loading_laws};
use system_model::{Component, Plan, System};
use trace_text::passing_component;

/// Reads the files in a directory as `load` reads those of a system, with the plan's resolution. Where they make a system
/// whose run can't be held by the plan, the first component is told that keeps it from that: one whose state can't be
/// serialized (FMI 3.0, 2.2.6.4), or with whose ports the header of the trace has more than 2^27 bytes.
pub fn load_held<F: Folder>(
    alloc: Global,
    directory: &str,
    plan: Plan,
    folder: &mut F,
) -> Result<Loaded, LoadError>
    requires above { 1 ≤ plan.resolution }
    requires within { plan.resolution ≤ 2 ^ 62 }
    ensures ok { IfOk result (λ loaded. LoadsHeld (search_by directory.now plan) plan
        (Found loaded) (F.view folder.old) (F.view folder.new)) }
    ensures holdable { IfOk result (λ loaded. IsHoldable loaded.system plan) }
    ensures sound { IfOk result (λ loaded. IsSound loaded.system) }
    ensures named { IfOk result (λ loaded. All IsNamed loaded.system.components) }
    ensures counts { IfOk result
        (λ loaded. All (λ (c : Component). c.shape.resolution ≡ plan.resolution)
        loaded.system.components) }
    ensures bound { IfOk result (λ loaded. BindsParameters loaded.system loaded.bound) }
    ensures err { IfErr result (λ end. EndsHeld (search_by directory.now plan) plan end
        (F.view folder.old) (F.view folder.new)) }
{
    loading_laws();
    nest_laws();
    match load_outline(alloc, Subject::System, directory, folder) {
        Ok(outline) => match load_models(alloc, directory, plan.resolution, &outline, folder) {
            Ok(loaded) => match first_unheld(&outline, &loaded.system, plan) {
                None => Ok(loaded),
                Some(node) => Err(refuse_unheld(alloc, directory, &outline, node)),
            },
            Err(end) => Err(end),
        },
        Err(end) => Err(end),
    }
}

// The first element of a component that keeps the run from being held.
fn first_unheld(outline: &Outline, system: &System, plan: Plan) -> Option<usize>
    requires sound { IsSound system.now }
    requires same { length system.now.components ≡ length outline.now.systems.components }
    ensures least { FindsLeast (IsUnheld outline.now system.now plan) result }
    ensures none { result ≡ None → IsHoldable system.now plan }
{
    let parts = outline.systems.components.as_slice();
    let components = system.components.as_slice();
    let passing = passing_component(system, plan);
    let mut first = None;
    for number in 0..parts.len() {
        if keeps_from_holding(&components[number], passing, number) {
            first = earlier(first, parts[number].node);
        }
    }
    first
}

// Whether the component of this number can't serialize its state, or is the one with whose port lines the header passes
// its limit.
fn keeps_from_holding(component: &Component, passing: Option<CompId>, number: usize) -> bool
    ensures { IsTrue result ↔ HoldsBack component.now passing number }
{
    let passes = match passing {
        Some(id) => id.0 as usize == number,
        None => false,
    };
    passes || !component.shape.can_serialize_state
}

// The lesser of two elements, where there are both.
fn earlier(first: Option<usize>, node: usize) -> Option<usize>
    ensures { result ≡ earlier first (Some node) }
{
    match first {
        Some(first) => Some(first.min(node)),
        None => Some(node),
    }
}

// The end at a component that keeps the run from being held.
fn refuse_unheld(alloc: Global, directory: &str, outline: &Outline, node: usize) -> LoadError
    ensures { TellsUnheld directory.now outline.now node result }
{
    match name_told(alloc, directory, outline, node) {
        Ok(file) => match outline.place(alloc, node) {
            Ok(place) => LoadError::File {
                file,
                fault: FileFault::Broken {
                    rule: Rule::CannotBeHeld,
                    place,
                    ports: Items::from_vec(Vec::new(alloc)),
                },
            },
            Err(_) => LoadError::Memory,
        },
        Err(_) => LoadError::Memory,
    }
}
