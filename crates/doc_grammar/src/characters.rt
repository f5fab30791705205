ghost use Rattle.std.specs.Prelude.{◌≡◌};
ghost use Rattle.doc_grammar.specs.Characters.{class};

/// What a character is for.
#[derive(Clone, Copy, Debug, PartialEq, Eq)]
pub enum Class {
    Less,
    Greater,
    Slash,
    Bang,
    Question,
    Dash,
    Ampersand,
    Equal,
    DoubleQuote,
    SingleQuote,
    OpenBracket,
    CloseBracket,
    Blank,
    /// It may begin a name.
    Letter,
    /// It may stand in a name after its first character, as a dash may.
    Digit,
    Plain,
    /// It may stand nowhere.
    Bad,
}

/// The class of a character.
#[tactic(auto, unfolding(crate::specs::Characters::class, crate::specs::Characters::other_class))]
pub fn class_of(c: char) -> Class
    ensures { result ≡ class c }
{
    match c {
        '<' => Class::Less,
        '>' => Class::Greater,
        '/' => Class::Slash,
        '!' => Class::Bang,
        '?' => Class::Question,
        '-' => Class::Dash,
        '&' => Class::Ampersand,
        '=' => Class::Equal,
        '"' => Class::DoubleQuote,
        '\'' => Class::SingleQuote,
        '[' => Class::OpenBracket,
        ']' => Class::CloseBracket,
        ' ' | '\t' | '\n' | '\r' => Class::Blank,
        'A'..='Z' | 'a'..='z' | '_' | ':' => Class::Letter,
        '0'..='9' | '.' => Class::Digit,
        '\u{0}'..='\u{1f}' | '\u{fffe}' | '\u{ffff}' => Class::Bad,
        '\u{80}'.. => Class::Letter,
        _ => Class::Plain,
    }
}
