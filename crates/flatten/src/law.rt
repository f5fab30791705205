//! What is asked of a tree of systems holds of each document that is read.
ghost use Rattle.std.specs.Prelude.{List};
ghost use Rattle.doc_grammar.specs.Nodes.{Node};
ghost use Rattle.ssd_tree.specs.declared.tree.NestedComponent.{NestedComponent};
ghost use Rattle.ssd_tree.specs.declared.tree.Setting.{Setting};
ghost use Rattle.ssd_tree.specs.declared.tree.SystemTree.{SystemTree};
ghost use Rattle.ssd_tree.specs.Nested.{DescribesNested};
ghost use Rattle.ssd_tree.specs.Parts.{Describes};
ghost use Rattle.ssd_tree.specs.Rules.{IsSoundIn};
ghost use Rattle.flatten.specs.Given.{IsWholeDocument};

/// A law: what a document without violations says may be flattened, together with the documents before it.
pub fn whole_documents()
    ensures { (s : Setting) (document : List Node) (tree : SystemTree)
        (nested : List NestedComponent) → IsSoundIn s document → Describes document tree →
        DescribesNested s document nested → IsWholeDocument s tree nested }
{}
