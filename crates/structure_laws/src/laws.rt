ghost use Rattle.std.specs.Prelude.{ℕ, All, List, length};
ghost use Rattle.doc_grammar.specs.Nodes.{Denotes, Node};
ghost use Rattle.ssd_tree.specs.declared.tree.NestedComponent.{NestedComponent};
ghost use Rattle.ssd_tree.specs.declared.tree.Setting.{Setting};
ghost use Rattle.ssd_tree.specs.declared.tree.SystemTree.{SystemTree};
ghost use Rattle.ssd_tree.specs.Lists.{AreBetween, places_of};
ghost use Rattle.ssd_tree.specs.Nested.{DescribesNested};
ghost use Rattle.ssd_tree.specs.Parts.{Describes};
ghost use Rattle.ssd_tree.specs.Rules.{IsSoundStructure};
ghost use Rattle.ssd_tree.specs.Named.{IsNamedTree};
ghost use Rattle.structure_laws.specs.Orderly.{IsOrderly};
ghost use Rattle.structure_laws.specs.OwnNames.{HasOwnName};

use doc_grammar::document_laws;

/// A law: what a system structure description without violation says is a tree in which each System comes after the
/// one that it stands in, and the full name of each component begins with the names of the Systems around it.
pub fn named_trees()
    ensures { (bytes : List ℕ) (document : List Node) (tree : SystemTree) → Denotes bytes document →
        IsSoundStructure document → Describes document tree → IsNamedTree tree }
{
    document_laws();
}

/// Laws: what a system structure description without violation says is a tree in which Systems and Components stand in
/// document order, each after the System that it stands in; and those of its Components that are systems of their own stand
/// among its Components in document order, with the full names of the Systems around them and then their own.
pub fn orderly_trees()
    ensures orderly { (bytes : List ℕ) (document : List Node) (tree : SystemTree) →
        Denotes bytes document → IsSoundStructure document → Describes document tree →
        IsOrderly (length document) tree }
    ensures placed { (bytes : List ℕ) (document : List Node) (tree : SystemTree) (s : Setting)
        (nested : List NestedComponent) → Denotes bytes document → IsSoundStructure document →
        Describes document tree → DescribesNested s document nested →
        AreBetween 0 (length tree.components) (places_of nested) }
    ensures named { (bytes : List ℕ) (document : List Node) (tree : SystemTree) (s : Setting)
        (nested : List NestedComponent) → Denotes bytes document → IsSoundStructure document →
        Describes document tree → DescribesNested s document nested →
        All (λ (x : NestedComponent). HasOwnName tree x.component x.own_name) nested }
{
    document_laws();
}
