use crate::parts::{is_misc, is_piece};
use crate::tags::{end_name, is_empty_tag, start_name};

/// The length from which on no text is looked at.
const MOST: usize = 64;

/// Parts of a text: bit `j` of row `i` stands for the part from `i` to `j`.
type Parts = [u64; MOST];

fn has(parts: &Parts, from: usize, to: usize) -> bool {
    from < MOST && to < MOST && parts[from] >> to & 1 == 1
}

fn put(parts: &mut Parts, from: usize, to: usize) {
    if from < MOST && to < MOST {
        parts[from] |= 1 << to;
    }
}

/// An element with its start tag, its content and its end tag (39).
fn is_long(text: &[u8], contents: &Parts, at: usize) -> bool {
    for prefix in 0..text.len() {
        if let Some(name) = start_name(&text[..prefix]) {
            for back in prefix..text.len() {
                let from = at.saturating_add(prefix);
                let to = at.saturating_add(back);
                if has(contents, from, to) && end_name(&text[back..]) == Some(name) {
                    return true;
                }
            }
        }
    }
    false
}

/// The elements of a text, from its end on.
fn elements(text: &[u8]) -> Parts {
    let mut found = [0; MOST];
    let mut contents = [0; MOST];
    for after in 0..text.len() + 1 {
        let from = text.len() - after;
        put(&mut contents, from, from);
        for to in from + 1..text.len() + 1 {
            let part = &text[from..to];
            if is_empty_tag(part) || is_long(part, &contents, from) {
                put(&mut found, from, to);
            }
            if is_piece(part) || has(&found, from, to) {
                for end in to..text.len() + 1 {
                    if has(&contents, to, end) {
                        put(&mut contents, from, end);
                    }
                }
            }
        }
    }
    found
}

/// What may stand outside the root, or nothing (27).
fn are_misc(text: &[u8]) -> bool {
    let mut reached = [0; MOST];
    put(&mut reached, 0, 0);
    for to in 1..text.len() + 1 {
        for from in 0..to {
            if has(&reached, 0, from) && is_misc(&text[from..to]) {
                put(&mut reached, 0, to);
            }
        }
    }
    has(&reached, 0, text.len())
}

/// Whether a text of ASCII, of less than 64 bytes, is a document without a declaration (1).
pub fn is_document(text: &[u8]) -> bool {
    if MOST <= text.len() {
        return false;
    }
    let found = elements(text);
    for from in 0..text.len() {
        for to in from + 1..text.len() + 1 {
            if has(&found, from, to) && are_misc(&text[..from]) && are_misc(&text[to..]) {
                return true;
            }
        }
    }
    false
}
