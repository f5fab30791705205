//! The reader of documents, and its step by one character.
ghost use Rattle.std.specs.Prelude.{ℕ, List, IfOk, IfErr};
ghost use Rattle.doc_grammar.specs.Characters.{class};
ghost use Rattle.doc_grammar.specs.Faults.{IsFault};
ghost use Rattle.doc_grammar.specs.Grammar.{strict};
ghost use Rattle.doc_grammar.specs.Machine as m;
ghost use Rattle.doc_grammar.specs.Nodes.{Node, Denotes};
ghost use Rattle.doc_grammar.specs.declared.reasons.Rule.{Rule};
ghost use Rattle.doc_events.specs.Answers.{Faults};
ghost use Rattle.doc_events.specs.View.{state_of, Takes};
ghost use Rattle.doc_tree.specs.Answers.{Gives, Refuses};

use doc_events::{Reader, Stop, Token};
use doc_tree::{DocError, Tree, read_tree};
use std::alloc::Global;

/// One character more, and what it completes.
pub fn take_character(reader: &mut Reader, alloc: Global, c: char) -> Result<Token, Stop>
    ensures { Takes (m.step strict (state_of reader.old) (class c) c) result reader.new }
{
    reader.take(alloc, c)
}

/// The tree of a document, or the rule that the bytes break and the place.
pub fn read_document(alloc: Global, bytes: &[u8]) -> Result<Tree, DocError>
    ensures found { IfOk result (λ t. Denotes bytes.now t) }
    ensures fault { IfErr result (λ e. Faults e bytes.now) }
    ensures only { (nodes : List Node) → Denotes bytes.now nodes → Gives result nodes }
    ensures exact { (rule : Rule) (place : ℕ) → IsFault bytes.now rule place →
        Refuses result rule place }
{
    read_tree(alloc, bytes)
}
