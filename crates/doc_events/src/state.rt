ghost use Rattle.std.specs.Prelude.{◌≡◌};
ghost use Rattle.doc_events.specs.declared.state.Stop.TheVariants.{Memory};

use crate::attributes::Attributes;
use doc_grammar::Why;
use std::alloc::{AllocError, AllocFailed};

/// Where the reader is between tokens.
#[derive(Drop)]
pub(crate) enum Place {
    Before,
    /// Inside these open elements, the innermost last; none: after the root.
    Within(Vec<Vec<char>>),
}

#[derive(Clone, Copy)]
pub(crate) enum Quote {
    Double,
    Single,
}

/// A part of the declaration.
#[derive(Clone, Copy)]
pub(crate) enum Part {
    Version,
    Encoding,
    Standalone,
}

/// What a part of the declaration says.
#[derive(Clone, Copy)]
pub(crate) enum Saying {
    OnePointZero,
    Utf8,
    Yes,
    No,
}

#[derive(Clone, Copy)]
pub(crate) enum Base {
    Ten,
    Sixteen,
}

/// Where a reference stands.
#[derive(Clone, Copy)]
pub(crate) enum Hole {
    InText,
    InValue(Quote),
}

/// What a reference still waits for after its next character.
#[derive(Clone, Copy)]
pub(crate) enum Tail {
    Nothing,
    Semicolon,
    T,
    Ot,
    S,
}

/// What may follow. The names and values that it goes with stand in the reader.
#[derive(Clone, Copy)]
pub(crate) enum State {
    Start,
    AfterByteOrderMark,
    DocumentTagOpen,
    DocumentProcessingInstruction,
    DocumentInstructionTarget,
    BeforeVersion,
    AfterSetting(Part),
    BetweenSettings(Part),
    /// In a part's word, of which so many characters were read.
    SettingName(Part, usize),
    AfterSettingName(Part),
    BeforeSettingValue(Part),
    StandaloneValue(Quote),
    SettingValue(Saying, Quote, usize),
    DeclarationEnd,
    Content,
    TagOpen,
    MarkupDeclaration,
    CommentStart,
    Comment,
    CommentDash,
    CommentEnd,
    ProcessingInstruction,
    InstructionTarget,
    InstructionTargetEnd,
    InstructionText,
    InstructionEnd,
    /// In `CDATA[`, of which so many characters were read.
    CdataStart(usize),
    CdataSection,
    CdataSectionBracket,
    CdataSectionEnd,
    TagName,
    BeforeAttributeName,
    AttributeName,
    AfterAttributeName,
    BeforeAttributeValue,
    /// Whether the character before was a raw carriage return.
    AttributeValue(Quote, bool),
    AfterAttributeValue,
    SelfClosingStartTag,
    /// Of the name so many characters were read.
    EndTagName(usize),
    AfterEndTagName,
    Reference(Hole),
    ReferenceA(Hole),
    NamedReference(Hole, char, char, Tail),
    NumericReference(Hole),
    HexadecimalReference(Hole),
    ReferenceDigits(Hole, Base, u32),
}

/// A reader of a document, which takes it character by character.
#[derive(Drop)]
pub struct Reader {
    pub(crate) state: State,
    pub(crate) place: Place,
    /// Of a tag or of a target; in text, of the element that a reference or a section stands in.
    pub(crate) name: Vec<char>,
    /// Of the tag, as far as it was read.
    pub(crate) attributes: Attributes,
    /// The name of the attribute that is read.
    pub(crate) attribute: Vec<char>,
    /// Its value, as far as it was read.
    pub(crate) value: Vec<char>,
}

/// What a character completes.
#[derive(Clone, Copy, Debug, PartialEq, Eq)]
pub enum Token {
    Nothing,
    /// An element begins.
    Begin,
    /// An element begins and ends.
    Empty,
    /// The innermost element ends.
    End,
}

/// Why a character was not taken.
#[derive(Debug, Drop)]
pub enum Stop {
    /// No document goes on with it.
    Dead(Why),
    /// There isn't enough memory.
    Memory,
}

impl From<AllocError> for Stop {
    ghost from_gives = { λ _ e. e ≡ Memory };

    fn from(_e: AllocError) -> Self {
        Stop::Memory
    }
}

impl<T: Drop> From<AllocFailed<T>> for Stop {
    ghost from_gives = { λ _ e. e ≡ Memory };

    fn from(_e: AllocFailed<T>) -> Self {
        Stop::Memory
    }
}
