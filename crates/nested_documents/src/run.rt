//! Elements of a document that stand one after the other in the whole.
ghost use Rattle.std.specs.Prelude.{◌+◌, ◌<◌, ◌^◌};

/// So many elements of a document, one after the other.
#[derive(Clone, Copy, Drop)]
pub(crate) struct Run {
    pub(crate) document: usize,
    pub(crate) node: usize,
    pub(crate) count: usize,
    ghost fits: { node + count < 2 ^ 64 },
}
