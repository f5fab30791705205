use exact_parts::Taken;
use fmi_calls::{BadStatus, Call, Content, Kind, Reply};
use link_frames::{
    batch_count, put_batch, put_batch_reply, take_batch, take_batch_reply, take_call, take_reply,
};
use value_types::PortType;

const BATCH: &[u8; 72] =
    b"\x13\0\0\0\0\0\0\x02\0\0\0\0\0\0\0\0\0\0\0\0\0\0\0\0\x08\x05\0\0\0\0\0\x02\0\0\0\0\0\0\0\0\0\0\0\0\0\0\0\0\x08\x05\0\0\0\0\0\x05\0\0\0\0\0\0\0\0\0\0\0\0\0\0\0\0";

const REPLIES: &[u8; 72] =
    b"\x13\0\0\0\0\0\0\x02\0\0\0\0\0\0\0\0\0\0\0\0\0\0\0\0\x08\0\0\0\0\0\0\0\0\0\0\0\0\0\0\x07\0\0\0\0\0\0\0\0\x08\x02\0\0\0\0\0\0\0\0\0\0\0\0\0\0\0\0\0\0\0\0\0\0";

const WHOLE: Taken<u32> = Taken::Got {
    value: 2,
    length: 72,
};

static CALLS: [Call; 2] = [
    Call::Get {
        kind: PortType::Int32,
        reference: 2,
    },
    Call::Get {
        kind: PortType::Int32,
        reference: 5,
    },
];

static ANSWERS: [Reply; 2] = [
    Reply::Done {
        is_warning: false,
        content: Content::Get { word: 7 },
    },
    Reply::Refused {
        kind: Kind::Get,
        status: BadStatus::Discard,
    },
];

// A byte of the batch at a place that makes it none, from there on.
static WRONG: [(usize, u8); 9] = [
    (7, 65),
    (7, 0),
    (6, 1),
    (1, 1),
    (23, 1),
    (24, 10),
    (48, 9),
    (49, 11),
    (71, 1),
];

// The same of the replies.
static WRONG_REPLIES: [(usize, u8); 2] = [(48, 9), (55, 1)];

fn is_untouched(bytes: &[u8]) -> bool {
    bytes.iter().all(|byte| *byte == 0xAA)
}

fn is_put() -> bool {
    let mut out = [0xAA; 80];
    put_batch(&CALLS, &mut out) == 72 && &out[..72] == BATCH.as_slice() && is_untouched(&out[72..])
}

fn are_replies_put() -> bool {
    let mut out = [0xAA; 80];
    put_batch_reply(&ANSWERS, &mut out) == 72
        && &out[..72] == REPLIES.as_slice()
        && is_untouched(&out[72..])
}

fn needs_more(end: usize) -> bool {
    if end >= BATCH.len() {
        return false;
    }
    take_batch(&BATCH[..end]) == Taken::NeedMore
        && take_batch_reply(&REPLIES[..end]) == Taken::NeedMore
}

fn is_wrong(row: &(usize, u8)) -> bool {
    let (place, byte) = *row;
    let mut wrong = *BATCH;
    if place >= wrong.len() {
        return false;
    }
    wrong[place] = byte;
    take_batch(&wrong) == Taken::Bad { at: place }
}

fn is_wrong_reply(row: &(usize, u8)) -> bool {
    let (place, byte) = *row;
    let mut wrong = *REPLIES;
    if place >= wrong.len() {
        return false;
    }
    wrong[place] = byte;
    take_batch_reply(&wrong) == Taken::Bad { at: place }
}

#[test]
fn a_batch_has_its_frame(rt: HostRuntime) {
    assert!(rt; is_put());
    assert_eq!(rt; take_batch(BATCH), WHOLE);
    assert_eq!(rt; take_call(BATCH), Taken::Bad { at: 0 });
    assert_eq!(rt; WRONG.iter().position(|row| !is_wrong(row)), None);
}

#[test]
fn replies_have_their_batch(rt: HostRuntime) {
    assert!(rt; are_replies_put());
    assert_eq!(rt; take_batch_reply(REPLIES), WHOLE);
    assert_eq!(rt; take_reply(REPLIES), Taken::Bad { at: 0 });
    assert_eq!(rt;
        WRONG_REPLIES.iter().position(|row| !is_wrong_reply(row)),
        None
    );
}

#[test]
fn each_prefix_needs_more(rt: HostRuntime) {
    assert!(rt; (0..72).all(|end| needs_more(end)));
}

// The bytes 0 and 7 of a head, and the count that it tells.
static HEADS: [(u8, u8, Option<u32>); 5] = [
    (19, 0, None),
    (19, 1, Some(1)),
    (19, 64, Some(64)),
    (19, 65, None),
    (8, 64, None),
];

fn tells_count(row: &(u8, u8, Option<u32>)) -> bool {
    let mut head = [0; 24];
    head[0] = row.0;
    head[7] = row.1;
    batch_count(&head) == row.2
}

// A head of 64 with one more byte that isn't 0.
fn tells_none(place: usize) -> bool {
    let mut head = [0; 24];
    head[0] = 19;
    head[7] = 64;
    if place >= head.len() {
        return false;
    }
    head[place] = 1;
    batch_count(&head) == None
}

static PLACES: [usize; 10] = [1, 2, 3, 4, 5, 6, 8, 15, 16, 23];

#[test]
fn a_head_tells_its_count(rt: HostRuntime) {
    assert_eq!(rt; HEADS.iter().position(|row| !tells_count(row)), None);
    assert!(rt; PLACES.iter().all(|place| tells_none(*place)));
}
