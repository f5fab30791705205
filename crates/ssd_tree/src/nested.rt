//! The Components of a document that are systems of their own.
ghost use Rattle.std.specs.Prelude.{◌≡◌, ◌+◌, ◌++◌, ◌∷◌, [], ℕ, List, IfOk, OnOk, length, slice_get, vec_len};
ghost use Rattle.std.specs.List.{AllZip};
ghost use Rattle.ssd_tree.specs.Indexed.{IsIndexed};
ghost use Rattle.ssd_tree.specs.Lists.{AreBetween, places_of, tree_of};
ghost use Rattle.ssd_tree.specs.Nested.{DescribesNested, IsNestedPart, nested_nodes};
ghost use Rattle.ssd_tree.specs.Parts.{Describes};
ghost use Rattle.ssd_tree.specs.Rules.{IsSoundStructure, kind_in};
ghost use Rattle.ssd_tree.specs.Elements.{IsComponent};

use crate::indexed::IndexedTree;
use crate::kinds::kind_in;
use crate::lists::DocumentParts;
use crate::parts::text;
use crate::tree::{NestedComponent, NestedKind};
use std::alloc::{AllocError, Global};

impl IndexedTree<'_> {
    // A Component at a place that is a system of its own.
    fn nested_part(
        &self,
        alloc: Global,
        component: usize,
        node: usize,
        kind: NestedKind,
    ) -> Result<NestedComponent, AllocError>
        requires sound { IsSoundStructure self.now.tree.now }
        requires is { IsComponent self.now.tree.now node }
        requires place { slice_get self.now.lists.components.items component ≡ Some node }
        requires kind { kind_in self.now.setting self.now.tree.now node ≡ Some kind }
        ensures is { IfOk result (IsNestedPart self.now.setting self.now.tree.now
            self.now.lists.components.items node) }
        ensures place { IfOk result (λ part. part.component ≡ component) }
    {
        Ok(NestedComponent {
            component,
            node,
            own_name: text(alloc, self.tree, node, "name")?,
            kind,
        })
    }

    // The Component at a place after others, if it is a system of its own.
    fn push_nested(
        &self,
        alloc: Global,
        parts: &mut Vec<NestedComponent>,
        component: usize,
        node: usize,
    ) -> Result<(), AllocError>
        requires sound { IsSoundStructure self.now.tree.now }
        requires is { IsComponent self.now.tree.now node }
        requires place { slice_get self.now.lists.components.items component ≡ Some node }
        ensures each { OnOk result ((nodes : List ℕ) →
            AllZip (IsNestedPart self.now.setting self.now.tree.now self.now.lists.components.items)
            nodes parts.old.items →
            AllZip (IsNestedPart self.now.setting self.now.tree.now self.now.lists.components.items)
            (nodes ++ nested_nodes self.now.setting self.now.tree.now (node ∷ [])) parts.new.items) }
        ensures placed { OnOk result (AreBetween 0 component (places_of parts.old.items) →
            AreBetween 0 (component + 1) (places_of parts.new.items)) }
    {
        match kind_in(self.setting, self.tree, node) {
            Some(kind) => {
                let part = self.nested_part(alloc, component, node, kind)?;
                parts.push(part)?;
                Ok(())
            }
            None => Ok(()),
        }
    }

    /// All Components that are systems of their own.
    pub(crate) fn nested_parts(&self, alloc: Global) -> Result<Vec<NestedComponent>, AllocError>
        requires indexed { IsIndexed self.now }
        requires sound { IsSoundStructure self.now.tree.now }
        ensures found { IfOk result (λ v. DescribesNested self.now.setting self.now.tree.now v.items) }
        ensures placed { IfOk result (λ v. AreBetween 0 (vec_len self.now.lists.components)
            (places_of v.items)) }
    {
        let components = self.lists.components.as_slice();
        let mut parts = Vec::new(alloc);
        for (component, node) in components.iter().enumerate() {
            self.push_nested(alloc, &mut parts, component, *node)?;
        }
        Ok(parts)
    }

    /// What a sound document says, and which of its Components are systems of their own.
    pub(crate) fn document(&self, alloc: Global) -> Result<DocumentParts, AllocError>
        requires indexed { IsIndexed self.now }
        requires sound { IsSoundStructure self.now.tree.now }
        ensures found { IfOk result (λ d. Describes self.now.tree.now (tree_of d.parts)) }
        ensures nested { IfOk result
            (λ d. DescribesNested self.now.setting self.now.tree.now d.nested.items) }
        ensures elements { IfOk result (λ d. d.elements ≡ length self.now.tree.now) }
    {
        let parts = self.describe(alloc)?;
        let nested = self.nested_parts(alloc)?;
        Ok(DocumentParts {
            parts,
            nested,
            elements: self.tree.len(),
        })
    }
}
