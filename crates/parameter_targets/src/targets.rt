//! The parameters that Systems and Components see.
ghost use Rattle.std.specs.Prelude.{◌≡◌, ◌⊎◌, ◌↔◌, ◌<◌, IfOk, OnOk, Contains, length};
ghost use Rattle.value_types.specs.declared.shape.Shape.{Shape};
ghost use Rattle.parameter_targets.specs.declared.target.Target.{Target};
ghost use Rattle.ssd_tree.specs.Named.{IsNamedTree, IsOwner};
ghost use Rattle.parameter_targets.specs.Scopes.{Sees};
ghost use Rattle.parameter_targets.specs.Tables.{AreAllPrefixes, AreFullNames, AreNear, AreRows, AreTargets, IsNamedIn, IsSeenBelow, row_texts};

use crate::Target;
use crate::paths::{Paths, after};
use crate::shared::SharedNames;
use name_prefixes::Prefixes;
use sim_base::Text;
use ssd_tree::{Owner, SystemTree};
use std::alloc::{AllocError, Global};
use value_types::Shape;

/// The parameters of the components of a tree of systems, as its Systems and Components see them.
#[derive(Drop)]
pub struct Targets<'a> {
    tree: &'a SystemTree,
    shapes: &'a [Shape],
    names: SharedNames<'a>,
    paths: Paths<'a>,
    /// for each System its paths, ready for the question which of them begin a name
    prefixes: Vec<Prefixes<'a>>,
}

// The paths of a System, made ready.
fn row_prefixes<'a>(
    alloc: Global,
    paths: &Paths<'a>,
    system: usize,
) -> Result<Prefixes<'a>, AllocError>
    requires rows { AreRows (length paths.now.below) paths.now }
    requires within { system < length paths.now.below }
    ensures { IfOk result (λ prefixes. prefixes ≡ row_texts paths.now system) }
{
    let mut texts = Vec::new(alloc);
    for at in paths.below.row(system) {
        texts.push(paths.all[*at].text.as_bytes())?;
    }
    Prefixes::new(alloc, texts)
}

fn all_prefixes<'a>(alloc: Global, paths: &Paths<'a>) -> Result<Vec<Prefixes<'a>>, AllocError>
    requires { AreRows (length paths.now.below) paths.now }
    ensures { IfOk result
        (λ prefixes. AreAllPrefixes paths.now (length paths.now.below) prefixes.items) }
{
    let mut prefixes = Vec::new(alloc);
    for system in 0..paths.below.len() {
        prefixes.push(row_prefixes(alloc, paths, system)?)?;
    }
    Ok(prefixes)
}

impl<'a> Targets<'a> {
    /// The parameters of all components, where each shape is a component's, and each name a component's full name.
    pub fn new(
        alloc: Global,
        tree: &'a SystemTree,
        names: &'a [Text],
        shapes: &'a [Shape],
    ) -> Result<Targets<'a>, AllocError>
        requires tree { IsNamedTree tree.now }
        requires names { AreFullNames tree.now names.now }
        requires shapes { length shapes.now ≡ length tree.now.components }
        ensures targets { IfOk result AreTargets }
        ensures tree { IfOk result (λ targets. targets.tree.now ≡ tree.now) }
        ensures shapes { IfOk result (λ targets. targets.shapes.now ≡ shapes.now) }
    {
        let paths = Paths::of(alloc, tree, names)?;
        let prefixes = all_prefixes(alloc, &paths)?;
        Ok(Targets {
            tree,
            shapes,
            names: SharedNames::new(alloc, tree.components.as_slice(), shapes)?,
            paths,
            prefixes,
        })
    }

    // Appends the parameters of a component that have the name to others.
    fn put_named(
        &self,
        alloc: Global,
        seen: &mut Vec<Target>,
        component: usize,
        name: &str,
    ) -> Result<(), AllocError>
        requires targets { AreTargets self.now }
        requires within { component < length self.now.shapes.now }
        ensures { OnOk result ((target : Target) → Contains seen.new.items target ↔
            (Contains seen.old.items target ⊎
            ((target.component ≡ component) × IsNamedIn self.now.shapes.now component name.now
            target.variable))) }
    {
        let names = &self.names.tables[self.names.of[component]];
        let places = names.places_of(alloc, name)?;
        for variable in &places {
            seen.push(Target {
                component,
                variable: *variable,
            })?;
        }
        Ok(())
    }

    // The paths of a System that begin the name.
    fn near_paths(&self, alloc: Global, system: usize, name: &str) -> Result<Vec<usize>, AllocError>
        requires targets { AreTargets self.now }
        requires within { system < length self.now.tree.now.systems }
        ensures { IfOk result (λ ats. AreNear self.now.paths system name.now ats.items) }
    {
        let row = self.paths.below.row(system);
        let places = self.prefixes[system].prefixes(alloc, name.as_bytes())?;
        let mut ats = Vec::new(alloc);
        for place in &places {
            ats.push(row[*place])?;
        }
        Ok(ats)
    }

    // The parameters that a System sees under the name.
    fn seen_below(
        &self,
        alloc: Global,
        system: usize,
        name: &str,
    ) -> Result<Vec<Target>, AllocError>
        requires targets { AreTargets self.now }
        requires within { system < length self.now.tree.now.systems }
        ensures { IfOk result (λ seen. (target : Target) →
            Contains seen.items target ↔ IsSeenBelow self.now system name.now target) }
    {
        let mut seen = Vec::new(alloc);
        let ats = self.near_paths(alloc, system, name)?;
        for at in &ats {
            let path = &self.paths.all[*at];
            if let Some(own) = after(name, path.text) {
                self.put_named(alloc, &mut seen, path.component, own)?;
            }
        }
        Ok(seen)
    }

    /// All parameters that the element sees under the name; one may stand there more than once.
    pub fn seen_targets(
        &self,
        alloc: Global,
        owner: Owner,
        name: &str,
    ) -> Result<Vec<Target>, AllocError>
        requires targets { AreTargets self.now }
        requires owner { IsOwner self.now.tree.now owner }
        ensures { IfOk result (λ seen. (target : Target) →
            Contains seen.items target ↔ Sees self.now.tree.now self.now.shapes.now owner name.now
            target) }
    {
        match owner {
            Owner::System(system) => self.seen_below(alloc, system, name),
            Owner::Component(component) => {
                let mut seen = Vec::new(alloc);
                self.put_named(alloc, &mut seen, component, name)?;
                Ok(seen)
            }
        }
    }
}
