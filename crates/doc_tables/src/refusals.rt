ghost use Rattle.doc_tables.specs.Answers.{IsRefusal};

use doc_tree::{Refusal, Rule};
use sim_base::Items;
use std::alloc::Global;

/// A rule that the first file breaks at one of its elements; no ports.
pub fn refusal(alloc: Global, node: usize, rule: Rule) -> Refusal
    ensures { IsRefusal result rule node }
{
    Refusal::At {
        file: 0,
        node,
        rule,
        ports: Items::from_vec(Vec::new(alloc)),
    }
}
