//! What the documents say that are put together so far.
ghost use Rattle.std.specs.Prelude.{vec_len};
ghost use Rattle.ssd_tree.specs.Lists.{AreBetween, AreBetween-prop};
ghost use Rattle.nested_documents.specs.Between.{waiting_places};

use crate::components::Waiting;
use crate::numbers::{Numbers, Place};
use ssd_tree::Parts;

/// What the documents say that are read so far, put together; and the Components that wait for their documents, in document
/// order of the whole.
#[derive(Drop)]
pub struct Nest {
    pub(crate) parts: Parts,
    pub(crate) waiting: Vec<Waiting>,
    pub(crate) numbers: Numbers,
    pub(crate) documents: usize,
    pub(crate) lacking: Option<Place>,
    ghost placed: { AreBetween 0 (vec_len parts.components) (waiting_places waiting.items) } by { AreBetween-prop 0 (vec_len parts.components) (waiting_places waiting.items) },
}
