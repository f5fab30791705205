ghost use Rattle.std.specs.Prelude.{◌≤◌, length};

use sim_base::{
    Folder, Items, MOST_COUNTS, MOST_FILE_BYTES, MOST_INSTANTS, MOST_NAME_BYTES, MemFile,
    MemFolder, MemSink, MemSource, ReadFault, ReadNote, Sink, Source, SourceFault, Text, escape,
    escaped_byte, join_path,
};
use std::alloc::{AllocError, Global};
use std::test::Fail;

static NAMES: [(&str, &str); 5] = [
    ("", ""),
    ("c.y", "c.y"),
    ("100 %", "100%20%25"),
    ("a\n\tb\u{7f}", "a%0A%09b%7F"),
    ("größe!", "größe!"),
];

static PATHS: [(&str, &str, &str); 8] = [
    ("d", "a.fmu", "d/a.fmu"),
    ("d", "./a/./b/", "d/a/b"),
    ("d", "a/.", "d/a"),
    ("d", "a//b", "d/a//b"),
    ("d", "a/..", "d/a/.."),
    ("d", "", "d/"),
    ("d", "./", "d/"),
    ("/x/y", ".a/b.", "/x/y/.a/b."),
];

fn file(alloc: Global, path: &str, bytes: &[u8]) -> Result<MemFile, AllocError> {
    Ok(MemFile {
        path: Text::from_str(alloc, path)?,
        bytes: Items::from_vec(bytes.to_vec(alloc)?),
    })
}

fn escaped_text(alloc: Global, name: &str) -> Result<Vec<u8>, AllocError>
    requires { length name.now ≤ 20 }
{
    let mut out = vec![in alloc; b'-'; 64]?;
    let length = escape(name, &mut out);
    out.truncate(length);
    Ok(out)
}

fn is_escaped_as(alloc: Global, row: &(&str, &str)) -> bool {
    if row.0.len() > 20 {
        return false;
    }
    match escaped_text(alloc, row.0) {
        Ok(text) => text.as_slice() == row.1.as_bytes(),
        Err(_) => false,
    }
}

#[test]
fn names_are_escaped(rt: HostRuntime) {
    let alloc = rt.alloc();
    assert_eq!(rt;
        NAMES.iter().position(|row| !is_escaped_as(alloc, row)),
        None
    );
    assert!(rt; escaped_byte(31).as_slice() == b"%1F".as_slice());
    assert!(rt; escaped_byte(b'!').as_slice() == b"!".as_slice());
}

fn is_joined_as(alloc: Global, row: &(&str, &str, &str)) -> bool {
    match join_path(alloc, row.0, row.1) {
        Ok(joined) => joined.as_str() == row.2,
        Err(_) => false,
    }
}

#[test]
fn paths_are_joined(rt: HostRuntime) {
    let alloc = rt.alloc();
    assert_eq!(rt;
        PATHS.iter().position(|row| !is_joined_as(alloc, row)),
        None
    );
}

fn folder(alloc: Global) -> Result<MemFolder, AllocError> {
    let first = file(alloc, "a", b"12")?;
    let files = vec![in alloc; first, file(alloc, "a", b"later")?]?;
    Ok(MemFolder::new(alloc, files, vec![in alloc; 1]?))
}

// A path and a limit, and the bytes that are read or why none are.
static READS: [(&str, u64, Result<&[u8], ReadFault>); 4] = [
    ("b", 9, Err(ReadFault::Missing)),
    ("a", 9, Err(ReadFault::Failed)),
    ("a", 1, Err(ReadFault::TooBig { length: 2 })),
    ("a", 2, Ok(b"12")),
];

fn answers_as(alloc: Global, folder: &mut MemFolder, at: usize) -> bool {
    let Some((path, limit, want)) = READS.get(at) else {
        return false;
    };
    match (folder.read(alloc, path, *limit), want) {
        (Ok(bytes), Ok(wanted)) => bytes.as_slice() == *wanted,
        (Err(fault), Err(wanted)) => fault == *wanted,
        _ => false,
    }
}

fn are_paths(reads: &[ReadNote], want: &[&str]) -> bool {
    reads.len() == want.len()
        && reads
            .iter()
            .zip(want)
            .all(|(read, text)| read.path.as_str() == *text)
}

fn are_failed(reads: &[ReadNote], want: &[&str]) -> bool {
    let failed = reads
        .iter()
        .filter(|read| matches!(read.answer, Err(ReadFault::Failed)));
    failed.count() == want.len()
        && reads.iter().all(|read| {
            !matches!(read.answer, Err(ReadFault::Failed)) || want.contains(&read.path.as_str())
        })
}

#[test]
fn a_folder_answers_by_its_lists(rt: HostRuntime) -> Result<(), Fail> {
    let mut folder = folder(rt.alloc())?;
    for at in 0..READS.len() {
        assert!(rt; answers_as(rt.alloc(), &mut folder, at));
    }
    assert!(rt; are_paths(folder.book.reads(), &["b", "a", "a", "a"]));
    assert!(rt; are_failed(folder.book.reads(), &["a"]) && folder.book.faults() == 1);
    Ok(())
}

// At each put: the bytes, whether it succeeds, and what the sink has told by then.
static PUTS: [(&[u8], bool, &[u8], &[usize], u64); 6] = [
    (b"ab", true, b"ab", &[2], 0),
    (b"c", false, b"ab", &[2, 0], 0),
    (b"cd", false, b"ab", &[2, 0, 0], 0),
    (b"c", true, b"abc", &[2, 0, 0, 1], 0),
    (b"", false, b"abc", &[2, 0, 0, 1], 1),
    (b"", false, b"abc", &[2, 0, 0, 1], 2),
];

fn is_put_as(sink: &mut MemSink, at: usize) -> bool {
    let Some((bytes, succeeds, content, lengths, beyond)) = PUTS.get(at) else {
        return false;
    };
    sink.put(bytes).is_ok() == *succeeds
        && sink.bytes.as_slice() == *content
        && sink.lengths.as_slice() == *lengths
        && sink.beyond == *beyond
}

#[test]
fn a_sink_fails_by_its_list_and_its_room(rt: HostRuntime) -> Result<(), Fail> {
    let failing = vec![in rt.alloc(); 1]?;
    let mut sink = MemSink::with_room(rt.alloc(), 3, 4, failing)?;
    for at in 0..PUTS.len() {
        assert!(rt; is_put_as(&mut sink, at));
    }
    assert!(rt; sink.puts == 6 && sink.faults == 4);
    Ok(())
}

// At each take: the room, what the source answers, and the start of the room after it.
static TAKES: [(usize, Result<usize, SourceFault>, &[u8]); 6] = [
    (2, Ok(2), b"ab"),
    (2, Err(SourceFault), b""),
    (0, Ok(0), b""),
    (4, Ok(1), b"c"),
    (4, Ok(0), b""),
    (1, Ok(0), b""),
];

fn is_taken_as(source: &mut MemSource, at: usize) -> bool {
    let Some((room, want, prefix)) = TAKES.get(at) else {
        return false;
    };
    let mut into = [b'-'; 4];
    let room = (*room).min(4);
    source.take(&mut into[..room]) == *want && into[..room].starts_with(prefix)
}

fn source(alloc: Global) -> Result<MemSource, AllocError> {
    let bytes = b"abc".to_vec(alloc)?;
    Ok(MemSource::new(bytes, vec![in alloc; 1]?))
}

#[test]
fn a_source_gives_its_bytes_in_their_order(rt: HostRuntime) -> Result<(), Fail> {
    let mut source = source(rt.alloc())?;
    for at in 0..TAKES.len() {
        assert!(rt; is_taken_as(&mut source, at));
    }
    assert!(rt; source.taken == 3 && source.takes == 6 && source.faults == 1);
    Ok(())
}

fn is_four_and_five(items: &Items<i32>) -> bool {
    items.len() == 2
        && items.get(1) == Some(&5)
        && items.get(2).is_none()
        && items.as_slice() == [4, 5].as_slice()
}

fn is_copied(alloc: Global, text: &Text) -> bool {
    match text.copy(alloc) {
        Ok(copy) => copy.as_str() == "u",
        Err(_) => false,
    }
}

#[test]
fn lists_and_texts_are_what_they_were_made_of(rt: HostRuntime) -> Result<(), Fail> {
    let alloc = rt.alloc();
    let items = Items::from_vec(vec![in alloc; 4, 5]?);
    assert!(rt; is_four_and_five(&items));
    let text = Text::from_string(String::from_str(alloc, "u")?);
    assert!(rt; is_copied(alloc, &text));
    assert!(rt; MOST_COUNTS == 4_611_686_018_427_387_904 && MOST_INSTANTS == 10_000);
    assert!(rt; MOST_FILE_BYTES == 16_777_216 && MOST_NAME_BYTES == 16_777_216);
    Ok(())
}
