use doc_plain::is_document;
use doc_tree::{DocError, DocumentRule, read_tree};
use std::alloc::{AllocError, Global};

/// Characters, and how long the texts of them are that are tried, all of each length.
static ALPHABETS: [(&[u8], usize); 5] = [
    (b"<a/>", 8),
    (b"<a/> ", 6),
    (b"<a/>='", 5),
    (b"<!-a/>", 5),
    (b"<?a />", 5),
];

/// Texts that are tried with each of their characters left out, and each other put in its place.
static LONGER: [&[u8]; 10] = [
    b"<a><b/>t&lt;</a>",
    b"<a b='&#9;' c=\"\"/>",
    b"<a b='' c=''/>",
    b"<a p:b='' b=''></a >",
    b"<!-- - --><a/>",
    b"<a><?p x?></a><?p?>",
    b"<a><![CDATA[<]]></a>",
    b"<a><a></a>]]></a>",
    b"<a>&amp;&#x9;</a>",
    b" <?xmlx?><a.1/> ",
];

const CHARACTERS: &[u8] = b"<>/ ='\"&;abx?!-[]:1";

/// The text with this number of those with a length.
fn text_of(
    alloc: Global,
    letters: &[u8],
    length: usize,
    number: usize,
) -> Result<Vec<u8>, AllocError> {
    let mut text = Vec::new(alloc);
    let mut left = number;
    for _ in 0..length {
        if letters.len() > 0 {
            if let Some(letter) = letters.get(left % letters.len()) {
                text.push(*letter)?;
            }
            left /= letters.len();
        }
    }
    Ok(text)
}

/// A text, where another stands in place of a byte.
fn edit(alloc: Global, text: &[u8], at: usize, other: &[u8]) -> Result<Vec<u8>, AllocError> {
    let mut new = Vec::new(alloc);
    for (i, b) in text.iter().enumerate() {
        if i == at {
            new.extend_from_slice(other)?;
        } else {
            new.push(*b)?;
        }
    }
    Ok(new)
}

/// Whether the reader reads the text where it is a document, and each prefix of a document up to its end.
fn agrees(alloc: Global, text: &[u8]) -> bool {
    let is_one = is_document(text);
    if read_tree(alloc, text).is_ok() != is_one {
        return false;
    }
    if is_one {
        for byte in 0..text.len() {
            let expected = DocError::At {
                rule: DocumentRule::Malformed,
                byte,
            };
            let prefix = &text[..byte];
            match read_tree(alloc, prefix) {
                Ok(_) if is_document(prefix) => {}
                Err(error) if error == expected => {}
                _ => return false,
            }
        }
    }
    true
}

// Whether the reader agrees on all texts of a length.
fn agrees_on_length(alloc: Global, letters: &[u8], length: usize, many: usize) -> bool {
    for number in 0..many {
        match text_of(alloc, letters, length, number) {
            Ok(text) if agrees(alloc, text.as_slice()) => {}
            _ => return false,
        }
    }
    true
}

fn agrees_up_to(alloc: Global, letters: &[u8], most: usize) -> bool {
    let mut many = 1usize;
    for length in 1..most.saturating_add(1) {
        many = many.saturating_mul(letters.len());
        if !agrees_on_length(alloc, letters, length, many) {
            return false;
        }
    }
    true
}

#[test]
fn short_texts_are_read_where_they_are_documents(rt: HostRuntime) {
    let alloc = rt.alloc();
    assert_eq!(rt;
        ALPHABETS
            .iter()
            .position(|row| !agrees_up_to(alloc, row.0, row.1)),
        None
    );
}

// Whether the reader agrees on a text with another in place of a byte.
fn agrees_edited(alloc: Global, document: &[u8], at: usize, other: &[u8]) -> bool {
    match edit(alloc, document, at, other) {
        Ok(text) => agrees(alloc, text.as_slice()),
        Err(_) => false,
    }
}

fn agrees_around(alloc: Global, document: &[u8], at: usize) -> bool {
    agrees_edited(alloc, document, at, b"")
        && CHARACTERS
            .iter()
            .all(|b| agrees_edited(alloc, document, at, &[*b]))
}

fn agrees_near(alloc: Global, document: &[u8]) -> bool {
    is_document(document) && (0..document.len()).all(|at| agrees_around(alloc, document, at))
}

#[test]
fn edited_texts_are_read_where_they_are_documents(rt: HostRuntime) {
    let alloc = rt.alloc();
    assert_eq!(rt;
        LONGER
            .iter()
            .position(|document| !agrees_near(alloc, document)),
        None
    );
}
