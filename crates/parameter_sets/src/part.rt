/// A part of a set or of a mapping that has a rule of its own.
#[derive(Clone, Copy, Debug, PartialEq, Eq)]
pub(crate) enum Part {
    Parameter,
    Entry,
    Transformation,
}
