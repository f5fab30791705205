//! The paths of components from the Systems that they stand in.
ghost use Rattle.std.specs.Prelude.{◌≡◌, ◌⊎◌, ◌↔◌, ◌<◌, ℕ, List, ◌++◌, ◌∷◌, Option, Some, IfOk, IfSome, IfNone, OnOk, length, slice_get};
ghost use Rattle.ssd_tree.specs.declared.tree.SystemTree.{SystemTree};
ghost use Rattle.ssd_tree.specs.declared.tree.ComponentPart.{ComponentPart};
ghost use Rattle.ssd_tree.specs.Named.{IsNamedTree, BeginsWithScope};
ghost use Rattle.parameter_targets.specs.Scopes.{IsWithin};
ghost use Rattle.parameter_targets.specs.Tables.{AreFullNames, ArePaths, AreRows, IsPath, IsPathText, TellsPath};

use dependency_order::Lists;
use sim_base::Text;
use ssd_tree::SystemTree;
use std::alloc::{AllocError, Global};

/// The path of a component from a System that it stands in: the element names below the System, joined with dots.
#[derive(Drop)]
pub struct Path<'a> {
    pub component: usize,
    pub text: &'a str,
}

/// The paths of all components from each System that they stand in.
#[derive(Drop)]
pub struct Paths<'a> {
    pub(crate) all: Vec<Path<'a>>,
    /// for each System the places of its paths
    pub(crate) below: Lists,
}

/// The full names of the components of a tree, each as one text.
pub fn full_names(alloc: Global, tree: &SystemTree) -> Result<Vec<Text>, AllocError>
    ensures { IfOk result (λ names. AreFullNames tree.now names.items) }
{
    let mut names = Vec::with_capacity(alloc, tree.components.len())?;
    for part in tree.components.as_slice() {
        names.push(part.name.text(alloc)?)?;
    }
    Ok(names)
}

// What is left after an element's name and its dot.
pub(crate) fn after<'a>(text: &'a str, name: &str) -> Option<&'a str>
    ensures found { IfSome result (λ rest. text.now ≡ name.now ++ 46 ∷ rest.now) }
    ensures none { IfNone result ((rest : List ℕ) → text.now ≡ name.now ++ 46 ∷ rest → ⊥) }
{
    text.strip_prefix(name)?.strip_prefix('.')
}

// What is left of a full name after the scope of a System.
fn path_from<'a>(tree: &SystemTree, system: usize, name: &'a str) -> &'a str
    requires tree { IsNamedTree tree.now }
    requires within { system < length tree.now.systems }
    requires scope { BeginsWithScope tree.now system name.now }
    ensures { IsPathText tree.now system name.now result.now }
{
    let part = &tree.systems.as_slice()[system];
    match part.parent {
        None => name,
        Some(above) => after(path_from(tree, above, name), part.name.as_str()).unwrap(),
    }
}

impl<'a> Paths<'a> {
    fn put(&mut self, system: usize, component: usize, text: &'a str) -> Result<(), AllocError>
        requires within { system < length self.old.below }
        requires rows { AreRows (length self.old.below) self.old }
        ensures rows { OnOk result (AreRows (length self.old.below) self.new) }
        ensures told { OnOk result ((s c : ℕ) (path : List ℕ) →
            TellsPath self.new s c path ↔ (TellsPath self.old s c path ⊎
            ((s ≡ system) × (c ≡ component) × (path ≡ text.now)))) }
    {
        let at = self.all.len();
        self.all.push(Path { component, text })?;
        self.below.push(system, at)?;
        Ok(())
    }

    // Puts the paths of a component from all Systems that it stands in.
    fn put_component(
        &mut self,
        tree: &SystemTree,
        names: &'a [Text],
        component: usize,
    ) -> Result<(), AllocError>
        requires tree { IsNamedTree tree.now }
        requires names { AreFullNames tree.now names.now }
        requires within { component < length tree.now.components }
        requires rows { AreRows (length tree.now.systems) self.old }
        ensures rows { OnOk result (AreRows (length tree.now.systems) self.new) }
        ensures told { OnOk result ((s c : ℕ) (text : List ℕ) →
            TellsPath self.new s c text ↔ (TellsPath self.old s c text ⊎
            ((c ≡ component) × IsPath tree.now s c text))) }
    {
        let part = &tree.components.as_slice()[component];
        let name = names[component].as_str();
        let mut current = Some(part.system);
        while let Some(system) = current {
            self.put(system, component, path_from(tree, system, name))?;
            current = tree.systems.as_slice()[system].parent;
        }
        Ok(())
    }

    /// The paths of all components.
    pub(crate) fn of(
        alloc: Global,
        tree: &SystemTree,
        names: &'a [Text],
    ) -> Result<Paths<'a>, AllocError>
        requires tree { IsNamedTree tree.now }
        requires names { AreFullNames tree.now names.now }
        ensures { IfOk result (ArePaths tree.now) }
    {
        let mut paths = Paths {
            all: Vec::new(alloc),
            below: Lists::new(alloc, tree.systems.len())?,
        };
        for component in 0..tree.components.len() {
            paths.put_component(tree, names, component)?;
        }
        Ok(paths)
    }
}
