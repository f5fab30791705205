ghost use Rattle.std.specs.Prelude.{◌≡◌, ◌∷◌, [], ◌++◌, ℕ, List, length, reverse, map, IfOk, IfErr};
ghost use Rattle.doc_grammar.specs.Faults.{IsFault};
ghost use Rattle.doc_grammar.specs.Nodes.{Node, Denotes, node};
ghost use Rattle.doc_grammar.specs.Nodes as n;
ghost use Rattle.doc_tree.specs.Building.{AllBelow};
ghost use Rattle.doc_tree.specs.Elements.{IsBelow};
ghost use Rattle.doc_grammar.specs.declared.reasons.Rule.{Rule};
ghost use Rattle.doc_grammar.specs.Grammar as g;
ghost use Rattle.doc_grammar.specs.Nodes.{nodes_after};
ghost use Rattle.doc_events.specs.Pairs.{pair_of};
ghost use Rattle.doc_events.specs.View.{events_at};
ghost use Rattle.doc_events.specs.Answers.{Faults};
ghost use Rattle.doc_tree.specs.Answers.{Gives, Refuses};

use crate::element::element;
use crate::tree::Tree;
use doc_events::{Attribute, DocError, Reader, Rule as DocumentRule, Token, refusal};
use std::alloc::{AllocError, Global};
use std::marker::Model;
use std::str;

/// The innermost of the open elements.
#[tactic(auto, using(crate::proofs::BuildLemmas::last_is, crate::proofs::BuildLemmas::last_below))]
fn innermost(around: &[usize]) -> Option<usize>
    ensures value { result ≡ n.innermost (reverse around.now) }
    ensures below { (count : ℕ) → AllBelow count around.now → IsBelow count result }
{
    around.last().copied()
}

/// The elements so far, and the numbers of the open ones. A clause sees these, the innermost first, and those.
#[derive(Drop)]
struct Builder {
    around: Vec<usize>,
    tree: Tree,
}

impl Model for Builder {
    ghost use Rattle.std.specs.Prelude.{List, ℕ, reverse, length};
    ghost use Rattle.doc_grammar.specs.Nodes.{Node};
    ghost use Rattle.doc_tree.specs.Building.{AllBelow};

    ghost Value = { List ℕ × List Node };

    ghost view = { λ b. (reverse b.around.items, b.tree) };

    ghost invariant = { λ b. AllBelow (length b.tree) b.around.items };
}

impl Builder {
    fn new(alloc: Global) -> Builder
        ensures { result ≡ ([], []) }
    {
        Builder {
            around: Vec::new(alloc),
            tree: Tree::new(alloc),
        }
    }

    /// An element with this full name and these attributes begins.
    fn begin(
        self,
        alloc: Global,
        name: &[char],
        attributes: &[Attribute],
    ) -> Result<Builder, AllocError>
        ensures { IfOk result (λ b. b ≡ (
          length self.1 ∷ self.0,
          self.1 ++ node name.now (map pair_of attributes.now) (n.innermost self.0) ∷ [],
        )) }
    {
        let Builder { mut around, tree } = self;
        let parent = innermost(around.as_slice());
        around.push(tree.len())?;
        let tree = tree.with(alloc, element(alloc, name, attributes, parent)?)?;
        Ok(Builder { around, tree })
    }

    /// The innermost element ends.
    fn close(self) -> Builder
        ensures { result ≡ (n.outer self.0, self.1) }
    {
        let Builder { mut around, tree } = self;
        around.pop();
        Builder { around, tree }
    }

    /// What the reader's last character completed.
    fn take(self, alloc: Global, token: Token, reader: &Reader) -> Result<Builder, AllocError>
        ensures { IfOk result (λ b. (more : List g.Event) → nodes_after more b.0 b.1
            ≡ nodes_after (events_at token reader.now ++ more) self.0 self.1) }
    {
        match token {
            Token::Nothing => Ok(self),
            Token::Begin => self.begin(alloc, reader.name(), reader.attributes()),
            Token::Empty => {
                let begun = self.begin(alloc, reader.name(), reader.attributes())?;
                Ok(begun.close())
            }
            Token::End => Ok(self.close()),
        }
    }
}

/// The tree of a text, or the rule that it breaks and the place.
fn read_text(alloc: Global, text: &str) -> Result<Tree, DocError>
    ensures found { IfOk result (λ t. Denotes text.now t) }
    ensures fault { IfErr result (λ e. Faults e text.now) }
{
    let mut reader = Reader::new(alloc);
    let mut builder = Builder::new(alloc);
    for (at, c) in text.char_indices() {
        let token = match reader.take(alloc, c) {
            Ok(token) => token,
            Err(stop) => return Err(refusal(stop, &text.as_bytes()[at..], at)),
        };
        if let Token::Nothing = token {
            continue;
        }
        builder = match builder.take(alloc, token, &reader) {
            Ok(builder) => builder,
            Err(_) => return Err(DocError::Memory),
        };
    }
    if reader.is_final() {
        Ok(builder.tree)
    } else {
        Err(DocError::At {
            rule: DocumentRule::Malformed,
            byte: text.len(),
        })
    }
}

/// The tree of a document, or the rule that the bytes break and the place.
pub fn read_tree(alloc: Global, bytes: &[u8]) -> Result<Tree, DocError>
    ensures found { IfOk result (λ t. Denotes bytes.now t) }
    ensures fault { IfErr result (λ e. Faults e bytes.now) }
    ensures only { (nodes : List Node) → Denotes bytes.now nodes → Gives result nodes }
    ensures exact { (rule : Rule) (place : ℕ) → IsFault bytes.now rule place →
        Refuses result rule place }
{
    match str::from_utf8(bytes) {
        Ok(text) => read_text(alloc, text),
        Err(e) => Err(DocError::At {
            rule: DocumentRule::NotUtf8,
            byte: e.valid_up_to(),
        }),
    }
}
