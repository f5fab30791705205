ghost use Rattle.std.specs.Prelude.{◌≡◌, List};
ghost use Rattle.doc_grammar.specs.Nodes.{Node};
ghost use Rattle.ssd_tree.specs.declared.tree.NestedComponent.{NestedComponent};
ghost use Rattle.ssd_tree.specs.declared.tree.Setting.{Setting};
ghost use Rattle.ssd_tree.specs.declared.tree.SystemTree.{SystemTree};
ghost use Rattle.ssd_tree.specs.Nested.{DescribesNested};
ghost use Rattle.ssd_tree.specs.Parts.{Describes, NamesPlainPaths};
ghost use Rattle.ssd_tree.specs.Rules.{IsSoundStructure};

/// A law: a sound document has one tree of systems.
pub fn one_tree()
    ensures { (t : List Node) (a b : SystemTree) → IsSoundStructure t → Describes t a → Describes t b →
        a ≡ b }
{}

/// A law: a document has one list of Components that are systems of their own.
pub fn one_nested()
    ensures { (s : Setting) (t : List Node) (a b : List NestedComponent) →
        DescribesNested s t a → DescribesNested s t b → a ≡ b }
{}

/// A law: what a sound document says names each file by a path without segments that lead nowhere.
pub fn plain_paths()
    ensures { (t : List Node) (tree : SystemTree) → IsSoundStructure t → Describes t tree →
        NamesPlainPaths tree }
{}
