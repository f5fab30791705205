//! Whether a whole text is a part of a document. The numbers in parentheses are the productions of XML 1.0.
ghost use Rattle.std.specs.Prelude.{◌≤◌, length, IfSome};

/// White space, or nothing (3).
pub(crate) fn is_space(text: &[u8]) -> bool {
    for b in text {
        if !matches!(*b, b' ' | b'\t' | b'\n' | b'\r') {
            return false;
        }
    }
    true
}

/// A character of ASCII that may stand in a document (2).
fn is_char(b: u8) -> bool {
    matches!(b, b'\t' | b'\n' | b'\r' | 32..=127)
}

/// Characters, or nothing.
fn are_chars(text: &[u8]) -> bool {
    for b in text {
        if !is_char(*b) {
            return false;
        }
    }
    true
}

/// A character that may begin a name (4).
fn is_letter(b: u8) -> bool {
    matches!(b, b'A'..=b'Z' | b'a'..=b'z' | b'_' | b':')
}

/// A name (5).
pub(crate) fn is_name(text: &[u8]) -> bool {
    for b in text {
        if !is_letter(*b) && !matches!(*b, b'0'..=b'9' | b'-' | b'.') {
            return false;
        }
    }
    match text.first() {
        Some(b) => is_letter(*b),
        None => false,
    }
}

/// Whether a part stands somewhere in a text.
fn contains(text: &[u8], part: &[u8]) -> bool {
    for i in 0..text.len() {
        if text[i..].starts_with(part) {
            return true;
        }
    }
    false
}

/// What stands between a beginning and an end that don't overlap.
pub(crate) fn between<'a>(text: &'a [u8], prefix: &[u8], back: &[u8]) -> Option<&'a [u8]> {
    match text.strip_prefix(prefix) {
        Some(rest) => rest.strip_suffix(back),
        None => None,
    }
}

/// A comment (15).
fn is_comment(text: &[u8]) -> bool {
    match between(text, b"<!--", b"-->") {
        Some(inside) => are_chars(inside) && !contains(inside, b"--") && !inside.ends_with(b"-"),
        None => false,
    }
}

/// The target of a processing instruction (17).
fn is_target(text: &[u8]) -> bool {
    is_name(text) && !text.eq_ignore_ascii_case(b"xml")
}

/// A processing instruction (16).
fn is_instruction(text: &[u8]) -> bool {
    let Some(inside) = between(text, b"<?", b"?>") else {
        return false;
    };
    if !are_chars(inside) || contains(inside, b"?>") {
        return false;
    }
    for i in 0..inside.len() {
        if is_target(&inside[..i]) && is_space(&inside[i..i + 1]) {
            return true;
        }
    }
    is_target(inside)
}

/// What may stand outside the root (27).
pub(crate) fn is_misc(text: &[u8]) -> bool {
    text.len() == 1 && is_space(text) || is_comment(text) || is_instruction(text)
}

/// The number of a digit.
fn digit(b: u8, base: u32) -> Option<u32> {
    match b {
        b'0'..=b'9' => Some(u32::from(b - b'0')),
        b'a'..=b'f' if base == 16 => Some(u32::from(b - b'a') + 10),
        b'A'..=b'F' if base == 16 => Some(u32::from(b - b'A') + 10),
        _ => None,
    }
}

/// The digits of a character's number.
fn is_number(text: &[u8], base: u32) -> bool {
    let mut number = 0u32;
    for b in text {
        match digit(*b, base) {
            Some(more) => number = number.saturating_mul(base).saturating_add(more),
            None => return false,
        }
    }
    let is_known = matches!(number, 9 | 10 | 13 | 32..=55295 | 57344..=65533 | 65536..=1_114_111);
    !text.is_empty() && is_known
}

/// A reference (66, 68).
fn is_reference(text: &[u8]) -> bool {
    let Some(name) = between(text, b"&", b";") else {
        return false;
    };
    if let Some(digits) = name.strip_prefix(b"#x") {
        return is_number(digits, 16);
    }
    match name.strip_prefix(b"#") {
        Some(digits) => is_number(digits, 10),
        None => matches!(name, b"lt" | b"gt" | b"amp" | b"apos" | b"quot"),
    }
}

/// A CDATA section (18 to 21).
fn is_section(text: &[u8]) -> bool {
    match between(text, b"<![CDATA[", b"]]>") {
        Some(inside) => are_chars(inside) && !contains(inside, b"]]>"),
        None => false,
    }
}

/// One character that isn't `<` or `&`.
fn is_raw(text: &[u8]) -> bool {
    match text.first() {
        Some(b) => text.len() == 1 && is_char(*b) && *b != b'<' && *b != b'&',
        None => false,
    }
}

/// A piece of an element's content that is no element (43).
pub(crate) fn is_piece(text: &[u8]) -> bool {
    is_raw(text)
        || is_reference(text)
        || is_section(text)
        || is_comment(text)
        || is_instruction(text)
}

/// The pieces of a value: characters, but no raw `<` and `&`, and references.
pub(crate) fn has_pieces(text: &[u8]) -> bool {
    let mut rest = text;
    for _ in 0..text.len() {
        if rest.is_empty() {
            return true;
        }
        match first_piece(rest) {
            Some(end) => rest = &rest[end..],
            None => return false,
        }
    }
    rest.is_empty()
}

/// The length of the piece of a value that a text begins with.
fn first_piece(text: &[u8]) -> Option<usize>
    ensures { IfSome result (λ n. n ≤ length text.now) }
{
    for end in 0..text.len() {
        let part = &text[..end + 1];
        if is_raw(part) || is_reference(part) {
            return Some(end + 1);
        }
    }
    None
}
