//! The names of the parameters of all components.
ghost use Rattle.std.specs.Prelude.{◌≡◌, ℕ, List, ◌∷◌, ◌++◌, [], Some, IfOk, IfSome, OnOk, length, slice_get};
ghost use Rattle.value_types.specs.declared.shape.Shape.{Shape};
ghost use Rattle.parameter_targets.specs.declared.names.ParameterNames.{ParameterNames};
ghost use Rattle.parameter_targets.specs.Tables.{AreAllNames, AreEntries};

use crate::chains::NameChains;
use crate::names::ParameterNames;
use ssd_tree::ComponentPart;
use std::alloc::{AllocError, Global};
use value_types::{Shape, Variable};

/// For each component the names of its parameters. Components of one source have them in common.
#[derive(Drop)]
pub struct SharedNames<'a> {
    pub(crate) tables: Vec<ParameterNames<'a>>,
    /// of each component, where its names stand among the tables
    pub(crate) of: Vec<usize>,
}

// The source of each component, with its place.
fn sources_of<'a>(
    alloc: Global,
    components: &'a [ComponentPart],
) -> Result<Vec<(&'a str, usize)>, AllocError> {
    let mut sources = Vec::new(alloc);
    for place in 0..components.len() {
        sources.push((components[place].source.as_str(), place))?;
    }
    Ok(sources)
}

impl<'a> SharedNames<'a> {
    // Where the names of an earlier component stand, if they are those of these variables.
    fn found(&self, earlier: Option<usize>, variables: &[Variable]) -> Option<usize>
        ensures { IfSome result (λ at. (first : ℕ) × (table : ParameterNames) ×
            (slice_get self.now.of.items first ≡ Some at) ×
            (slice_get self.now.tables.items at ≡ Some table) ×
            AreEntries variables.now table.entries.items) }
    {
        let first = earlier?;
        if self.of.len() <= first {
            return None;
        }
        let at = self.of[first];
        if self.tables.len() <= at {
            return None;
        }
        if self.tables[at].are_of(variables) {
            Some(at)
        } else {
            None
        }
    }

    // Where the names of the next component stand, which may be those of an earlier one.
    fn place(
        &mut self,
        alloc: Global,
        earlier: Option<usize>,
        shape: &'a Shape,
    ) -> Result<usize, AllocError>
        ensures more { IfOk result (λ at. (shapes : List Shape) →
            AreAllNames shapes self.old.tables.items self.old.of.items →
            AreAllNames (shapes ++ shape.now ∷ []) self.new.tables.items
            (self.old.of.items ++ at ∷ [])) }
        ensures of { self.new.of ≡ self.old.of }
    {
        match self.found(earlier, shape.variables.as_slice()) {
            Some(at) => Ok(at),
            None => {
                let at = self.tables.len();
                let names = ParameterNames::of(alloc, shape.variables.as_slice())?;
                self.tables.push(names)?;
                Ok(at)
            }
        }
    }

    /// The names of the parameters of these components, which have these shapes.
    pub(crate) fn new(
        alloc: Global,
        components: &'a [ComponentPart],
        shapes: &'a [Shape],
    ) -> Result<SharedNames<'a>, AllocError>
        requires { length shapes.now ≡ length components.now }
        ensures { IfOk result (λ names. AreAllNames shapes.now names.tables.items names.of.items) }
    {
        let sources = sources_of(alloc, components)?;
        let chains = NameChains::of(alloc, sources.as_slice())?;
        let mut names = SharedNames {
            tables: Vec::new(alloc),
            of: Vec::new(alloc),
        };
        for place in 0..shapes.len() {
            let earlier = chains.find(components[place].source.as_str());
            let at = names.place(alloc, earlier, &shapes[place])?;
            names.of.push(at)?;
        }
        Ok(names)
    }
}
