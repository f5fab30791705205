/// The rules that a file breaks which is no document.
#[derive(Clone, Copy, Debug, PartialEq, Eq)]
pub enum Rule {
    /// The bytes are no UTF-8.
    NotUtf8,
    /// No document begins so, or the file ends too early.
    Malformed,
    /// There is a document type declaration.
    Doctype,
    /// An element stands deeper than 64.
    TooDeep,
    /// One full name stands twice in a tag.
    AttributeTwice,
}

/// Why no document goes on with a character.
#[derive(Clone, Copy, Debug)]
pub enum Why {
    /// No rule beside the grammar's.
    Plain,
    /// It comes after `<!`.
    Bang,
    /// An element would stand too deep.
    Deep,
    /// The tag has the name before the character, of so many bytes, already.
    Twice(usize),
    /// A document goes on with so many bytes of it, but not with one more.
    Partly(usize),
}
