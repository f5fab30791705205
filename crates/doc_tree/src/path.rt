ghost use Rattle.std.specs.Prelude.{◌≡◌, ◌++◌, IfOk, OnOk, string_bytes, decimal};
ghost use Rattle.doc_tree.specs.Path.{is_same, name_at, parent_at, place_at, path_to, path_within, step_text};

use crate::Tree;
use itoa::Buffer;
use std::alloc::{AllocError, Global};

// No element is deeper.
const MOST_LEVELS: u32 = 64;

impl Tree {
    /// The path to an element: `/NAME[i]` for each level from the root on, where i counts the elements beside it from 1.
    pub fn path(&self, alloc: Global, node: usize) -> Result<String, AllocError>
        ensures { IfOk result (λ path. string_bytes path ≡ path_to self.now node) }
    {
        self.path_within(alloc, MOST_LEVELS, node)
    }

    // The last levels of the path.
    #[tactic(auto, using(crate::proofs::PathLemmas::path_none, crate::proofs::PathLemmas::path_some))]
    fn path_within(&self, alloc: Global, levels: u32, node: usize) -> Result<String, AllocError>
        ensures { IfOk result (λ path. string_bytes path ≡ path_within levels self.now node) }
    {
        if levels == 0 {
            return Ok(String::new(alloc));
        }
        let mut path = match self.parent_at(node) {
            Some(parent) => self.path_within(alloc, levels - 1, parent)?,
            None => String::new(alloc),
        };
        self.push_step(&mut path, node)?;
        Ok(path)
    }

    fn push_step(&self, path: &mut String, node: usize) -> Result<(), AllocError>
        ensures { OnOk result (string_bytes path.new ≡ string_bytes path.old ++ step_text self.now
            node) }
    {
        path.push_str("/")?;
        path.push_str(self.name_at(node))?;
        path.push_str("[")?;
        push_number(path, self.place_at(node))?;
        path.push_str("]")
    }

    fn name_at(&self, node: usize) -> &str
        ensures { result.now ≡ name_at self.now node }
    {
        if node < self.len() {
            self.name(node)
        } else {
            ""
        }
    }

    fn parent_at(&self, node: usize) -> Option<usize>
        ensures { result ≡ parent_at self.now node }
    {
        if node < self.len() {
            self.parent(node)
        } else {
            None
        }
    }

    // The place among the elements beside it, from 1.
    fn place_at(&self, node: usize) -> usize
        ensures { result ≡ place_at self.now node }
    {
        let parent = self.parent_at(node);
        let count = self.len();
        let end = if node < count { node + 1 } else { count };
        let mut place = 0;
        for beside in 0..end {
            if is_same(self.parent(beside), parent) {
                place += 1;
            }
        }
        place
    }
}

fn is_same(one: Option<usize>, other: Option<usize>) -> bool
    ensures { result ≡ is_same one other }
{
    match (one, other) {
        (None, None) => true,
        (Some(one), Some(other)) => one == other,
        _ => false,
    }
}

fn push_number(path: &mut String, number: usize) -> Result<(), AllocError>
    ensures { OnOk result (string_bytes path.new ≡ string_bytes path.old ++ decimal number) }
{
    path.push_str(Buffer::new().format(number))
}
