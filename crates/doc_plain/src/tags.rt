//! Whether a whole text is a tag, and of which name.
ghost use Rattle.std.specs.Prelude.{◌≤◌, length, IfSome};

use crate::parts::{between, has_pieces, is_name, is_space};

/// A value in its quotes (10).
fn is_value(text: &[u8]) -> bool {
    let inside = match (between(text, b"\"", b"\""), between(text, b"'", b"'")) {
        (Some(inside), _) if !inside.contains(&b'"') => inside,
        (_, Some(inside)) if !inside.contains(&b'\'') => inside,
        _ => return false,
    };
    has_pieces(inside)
}

/// `=` with white space around, and a value (25).
fn is_given(text: &[u8]) -> bool {
    for at in 0..text.len() {
        if text[at] == b'=' && is_space(&text[..at]) {
            let rest = &text[at + 1..];
            for after in 0..rest.len() {
                if is_space(&rest[..after]) && is_value(&rest[after..]) {
                    return true;
                }
            }
        }
    }
    false
}

/// The name of an attribute (41) with the white space before it.
fn attribute_name(text: &[u8]) -> Option<&[u8]> {
    for from in 1..text.len() {
        let rest = &text[from..];
        for to in 0..rest.len() {
            if is_space(&text[..from]) && is_name(&rest[..to]) && is_given(&rest[to..]) {
                return Some(&rest[..to]);
            }
        }
    }
    None
}

/// The attribute that a text begins with: its name, and the length.
fn first_attribute(text: &[u8]) -> Option<(&[u8], usize)>
    ensures { IfSome result (λ r. r.1 ≤ length text.now) }
{
    for end in 0..text.len() {
        if let Some(name) = attribute_name(&text[..end + 1]) {
            return Some((name, end + 1));
        }
    }
    None
}

/// Whether one of these attributes has the name.
fn has_name(text: &[u8], name: &[u8]) -> bool {
    let mut rest = text;
    for _ in 0..text.len() {
        match first_attribute(rest) {
            Some((other, _)) if other == name => return true,
            Some((_, end)) => rest = &rest[end..],
            None => return false,
        }
    }
    false
}

/// Attributes of different names, and white space after them.
fn are_attributes(text: &[u8]) -> bool {
    let mut rest = text;
    for _ in 0..text.len() {
        match first_attribute(rest) {
            Some((name, end)) => {
                if has_name(&rest[end..], name) {
                    return false;
                }
                rest = &rest[end..];
            }
            None => return is_space(rest),
        }
    }
    is_space(rest)
}

/// The name of what stands between the brackets of a tag.
fn tag_name(inside: &[u8]) -> Option<&[u8]> {
    for end in 0..inside.len() {
        if is_name(&inside[..end + 1]) && are_attributes(&inside[end + 1..]) {
            return Some(&inside[..end + 1]);
        }
    }
    None
}

/// The name of a start tag (40).
pub(crate) fn start_name(text: &[u8]) -> Option<&[u8]> {
    tag_name(between(text, b"<", b">")?)
}

/// A tag of an empty element (44).
pub(crate) fn is_empty_tag(text: &[u8]) -> bool {
    match between(text, b"<", b"/>") {
        Some(inside) => tag_name(inside).is_some(),
        None => false,
    }
}

/// The name of an end tag (42).
pub(crate) fn end_name(text: &[u8]) -> Option<&[u8]> {
    let inside = between(text, b"</", b">")?;
    for end in 0..inside.len() {
        if is_name(&inside[..end + 1]) && is_space(&inside[end + 1..]) {
            return Some(&inside[..end + 1]);
        }
    }
    None
}
