use clock_fraction::Fraction;
use exact_parts::Taken;
use fmi_calls::{BadStatus, Call, Content, Interval, Kind, Reply};
use link_frames::{
    CallFrame, can_be_sent, frame_laws, frame_len, put_call, put_reply, take_call, take_reply,
};
use value_types::PortType;

const THIRD: Fraction = Fraction {
    counter: 1,
    resolution: 3,
};

// Calls without texts with their frames, and a dot for each byte that has to be 0.
static CALLS: [(Call, &[u8; 24], &[u8; 24]); 19] = [
    (
        Call::EnterInitialization {
            start: 10,
            stop: 258,
        },
        b"\x02\0\0\0\0\0\0\0\0\0\0\0\0\0\0\x0a\0\0\0\0\0\0\x01\x02",
        b"#.......################",
    ),
    (
        Call::ExitInitialization,
        b"\x03\0\0\0\0\0\0\0\0\0\0\0\0\0\0\0\0\0\0\0\0\0\0\0",
        b"#.......................",
    ),
    (
        Call::EnterEvent,
        b"\x04\0\0\0\0\0\0\0\0\0\0\0\0\0\0\0\0\0\0\0\0\0\0\0",
        b"#.......................",
    ),
    (
        Call::EnterStep,
        b"\x05\0\0\0\0\0\0\0\0\0\0\0\0\0\0\0\0\0\0\0\0\0\0\0",
        b"#.......................",
    ),
    (
        Call::DoStep { at: 10, size: 10 },
        b"\x06\0\0\0\0\0\0\0\0\0\0\0\0\0\0\x0a\0\0\0\0\0\0\0\x0a",
        b"#.......################",
    ),
    (
        Call::Update,
        b"\x07\0\0\0\0\0\0\0\0\0\0\0\0\0\0\0\0\0\0\0\0\0\0\0",
        b"#.......................",
    ),
    (
        Call::Get {
            kind: PortType::Boolean,
            reference: 0x01020304,
        },
        b"\x08\x09\0\0\x01\x02\x03\x04\0\0\0\0\0\0\0\0\0\0\0\0\0\0\0\0",
        b"##..####................",
    ),
    (
        Call::Set {
            kind: PortType::Int32,
            reference: 7,
            value: -2,
        },
        b"\x09\x05\0\0\0\0\0\x07\xff\xff\xff\xff\xff\xff\xff\xfe\0\0\0\0\0\0\0\0",
        b"##..############........",
    ),
    (
        Call::GetClock { reference: 4 },
        b"\x0a\0\0\0\0\0\0\x04\0\0\0\0\0\0\0\0\0\0\0\0\0\0\0\0",
        b"#...####................",
    ),
    (
        Call::SetClock { reference: 4 },
        b"\x0b\0\0\0\0\0\0\x04\0\0\0\0\0\0\0\0\0\0\0\0\0\0\0\0",
        b"#...####................",
    ),
    (
        Call::GetInterval {
            reference: u32::MAX,
        },
        b"\x0c\0\0\0\xff\xff\xff\xff\0\0\0\0\0\0\0\0\0\0\0\0\0\0\0\0",
        b"#...####................",
    ),
    (
        Call::GetShift { reference: 4 },
        b"\x0d\0\0\0\0\0\0\x04\0\0\0\0\0\0\0\0\0\0\0\0\0\0\0\0",
        b"#...####................",
    ),
    (
        Call::Save,
        b"\x0e\0\0\0\0\0\0\0\0\0\0\0\0\0\0\0\0\0\0\0\0\0\0\0",
        b"#.......................",
    ),
    (
        Call::Restore,
        b"\x0f\0\0\0\0\0\0\0\0\0\0\0\0\0\0\0\0\0\0\0\0\0\0\0",
        b"#.......................",
    ),
    (
        Call::Free,
        b"\x10\0\0\0\0\0\0\0\0\0\0\0\0\0\0\0\0\0\0\0\0\0\0\0",
        b"#.......................",
    ),
    (
        Call::Terminate,
        b"\x11\0\0\0\0\0\0\0\0\0\0\0\0\0\0\0\0\0\0\0\0\0\0\0",
        b"#.......................",
    ),
    (
        Call::FreeInstance,
        b"\x12\0\0\0\0\0\0\0\0\0\0\0\0\0\0\0\0\0\0\0\0\0\0\0",
        b"#.......................",
    ),
    (
        Call::Serialize,
        b"\x14\0\0\0\0\0\0\0\0\0\0\0\0\0\0\0\0\0\0\0\0\0\0\0",
        b"#.......................",
    ),
    (
        Call::Deserialize {
            length: 0x01020304,
            point: 10,
            stop: 258,
        },
        b"\x15\0\0\0\x01\x02\x03\x04\0\0\0\0\0\0\0\x0a\0\0\0\0\0\0\x01\x02",
        b"#...####################",
    ),
];

// The same of replies.
static REPLIES: [(Reply, &[u8; 24], &[u8; 24]); 30] = [
    (
        Reply::Done {
            is_warning: false,
            content: Content::Instantiate { batches: false },
        },
        b"\x01\0\0\0\0\0\0\0\0\0\0\0\0\0\0\0\0\0\0\0\0\0\0\0",
        b"###.....................",
    ),
    (
        Reply::Done {
            is_warning: true,
            content: Content::EnterInitialization,
        },
        b"\x02\x01\0\0\0\0\0\0\0\0\0\0\0\0\0\0\0\0\0\0\0\0\0\0",
        b"##......................",
    ),
    (
        Reply::Done {
            is_warning: false,
            content: Content::ExitInitialization,
        },
        b"\x03\0\0\0\0\0\0\0\0\0\0\0\0\0\0\0\0\0\0\0\0\0\0\0",
        b"##......................",
    ),
    (
        Reply::Done {
            is_warning: false,
            content: Content::EnterEvent,
        },
        b"\x04\0\0\0\0\0\0\0\0\0\0\0\0\0\0\0\0\0\0\0\0\0\0\0",
        b"##......................",
    ),
    (
        Reply::Done {
            is_warning: false,
            content: Content::EnterStep,
        },
        b"\x05\0\0\0\0\0\0\0\0\0\0\0\0\0\0\0\0\0\0\0\0\0\0\0",
        b"##......................",
    ),
    (
        Reply::Done {
            is_warning: false,
            content: Content::DoStep {
                event_needed: true,
                terminate: false,
                early: true,
                end: 17,
            },
        },
        b"\x06\0\x05\0\0\0\0\0\0\0\0\0\0\0\0\x11\0\0\0\0\0\0\0\0",
        b"###.....########........",
    ),
    (
        Reply::Done {
            is_warning: false,
            content: Content::DoStep {
                event_needed: false,
                terminate: false,
                early: true,
                end: 0,
            },
        },
        b"\x06\0\x04\0\0\0\0\0\0\0\0\0\0\0\0\0\0\0\0\0\0\0\0\0",
        b"###.....########........",
    ),
    (
        Reply::Done {
            is_warning: false,
            content: Content::Update {
                again: true,
                terminate: true,
                event_time: Some(258),
            },
        },
        b"\x07\0\x07\0\0\0\0\0\0\0\0\0\0\0\x01\x02\0\0\0\0\0\0\0\0",
        b"###.....########........",
    ),
    (
        Reply::Done {
            is_warning: true,
            content: Content::Update {
                again: true,
                terminate: false,
                event_time: None,
            },
        },
        b"\x07\x01\x01\0\0\0\0\0\0\0\0\0\0\0\0\0\0\0\0\0\0\0\0\0",
        b"###.....................",
    ),
    (
        Reply::Done {
            is_warning: false,
            content: Content::Get { word: u64::MAX },
        },
        b"\x08\0\0\0\0\0\0\0\xff\xff\xff\xff\xff\xff\xff\xff\0\0\0\0\0\0\0\0",
        b"##......########........",
    ),
    (
        Reply::Done {
            is_warning: false,
            content: Content::Set,
        },
        b"\x09\0\0\0\0\0\0\0\0\0\0\0\0\0\0\0\0\0\0\0\0\0\0\0",
        b"##......................",
    ),
    (
        Reply::Done {
            is_warning: false,
            content: Content::GetClock { word: 1 },
        },
        b"\x0a\0\0\0\0\0\0\0\0\0\0\0\0\0\0\x01\0\0\0\0\0\0\0\0",
        b"##......########........",
    ),
    (
        Reply::Done {
            is_warning: false,
            content: Content::SetClock,
        },
        b"\x0b\0\0\0\0\0\0\0\0\0\0\0\0\0\0\0\0\0\0\0\0\0\0\0",
        b"##......................",
    ),
    (
        Reply::Done {
            is_warning: false,
            content: Content::GetInterval {
                interval: Interval::NotYetKnown,
            },
        },
        b"\x0c\0\0\0\0\0\0\0\0\0\0\0\0\0\0\0\0\0\0\0\0\0\0\0",
        b"##.....#................",
    ),
    (
        Reply::Done {
            is_warning: false,
            content: Content::GetInterval {
                interval: Interval::Unchanged(THIRD),
            },
        },
        b"\x0c\0\0\0\0\0\0\x01\0\0\0\0\0\0\0\x01\0\0\0\0\0\0\0\x03",
        b"##.....#################",
    ),
    (
        Reply::Done {
            is_warning: false,
            content: Content::GetInterval {
                interval: Interval::Changed(THIRD),
            },
        },
        b"\x0c\0\0\0\0\0\0\x02\0\0\0\0\0\0\0\x01\0\0\0\0\0\0\0\x03",
        b"##.....#################",
    ),
    (
        Reply::Done {
            is_warning: false,
            content: Content::GetShift { shift: THIRD },
        },
        b"\x0d\0\0\0\0\0\0\0\0\0\0\0\0\0\0\x01\0\0\0\0\0\0\0\x03",
        b"##......################",
    ),
    (
        Reply::Done {
            is_warning: false,
            content: Content::Save,
        },
        b"\x0e\0\0\0\0\0\0\0\0\0\0\0\0\0\0\0\0\0\0\0\0\0\0\0",
        b"##......................",
    ),
    (
        Reply::Done {
            is_warning: false,
            content: Content::Restore,
        },
        b"\x0f\0\0\0\0\0\0\0\0\0\0\0\0\0\0\0\0\0\0\0\0\0\0\0",
        b"##......................",
    ),
    (
        Reply::Done {
            is_warning: false,
            content: Content::Free,
        },
        b"\x10\0\0\0\0\0\0\0\0\0\0\0\0\0\0\0\0\0\0\0\0\0\0\0",
        b"##......................",
    ),
    (
        Reply::Done {
            is_warning: false,
            content: Content::Terminate,
        },
        b"\x11\0\0\0\0\0\0\0\0\0\0\0\0\0\0\0\0\0\0\0\0\0\0\0",
        b"##......................",
    ),
    (
        Reply::Done {
            is_warning: false,
            content: Content::FreeInstance,
        },
        b"\x12\0\0\0\0\0\0\0\0\0\0\0\0\0\0\0\0\0\0\0\0\0\0\0",
        b"##......................",
    ),
    (
        Reply::Done {
            is_warning: false,
            content: Content::Serialize { length: 0 },
        },
        b"\x14\0\0\0\0\0\0\0\0\0\0\0\0\0\0\0\0\0\0\0\0\0\0\0",
        b"##...###................",
    ),
    (
        Reply::Done {
            is_warning: true,
            content: Content::Serialize { length: 0x0f0203 },
        },
        b"\x14\x01\0\0\0\x0f\x02\x03\0\0\0\0\0\0\0\0\0\0\0\0\0\0\0\0",
        b"##...###................",
    ),
    (
        Reply::Done {
            is_warning: false,
            content: Content::Serialize { length: 1 << 20 },
        },
        b"\x14\0\0\0\0\x10\0\0\0\0\0\0\0\0\0\0\0\0\0\0\0\0\0\0",
        b"##...#..................",
    ),
    (
        Reply::Done {
            is_warning: false,
            content: Content::Deserialize,
        },
        b"\x15\0\0\0\0\0\0\0\0\0\0\0\0\0\0\0\0\0\0\0\0\0\0\0",
        b"##......................",
    ),
    (
        Reply::Refused {
            kind: Kind::DoStep,
            status: BadStatus::Discard,
        },
        b"\x06\x02\0\0\0\0\0\0\0\0\0\0\0\0\0\0\0\0\0\0\0\0\0\0",
        b"##......................",
    ),
    (
        Reply::Refused {
            kind: Kind::Instantiate,
            status: BadStatus::Error,
        },
        b"\x01\x03\0\0\0\0\0\0\0\0\0\0\0\0\0\0\0\0\0\0\0\0\0\0",
        b"##......................",
    ),
    (
        Reply::Refused {
            kind: Kind::FreeInstance,
            status: BadStatus::Fatal,
        },
        b"\x12\x04\0\0\0\0\0\0\0\0\0\0\0\0\0\0\0\0\0\0\0\0\0\0",
        b"##......................",
    ),
    (
        Reply::Refused {
            kind: Kind::Serialize,
            status: BadStatus::Error,
        },
        b"\x14\x03\0\0\0\0\0\0\0\0\0\0\0\0\0\0\0\0\0\0\0\0\0\0",
        b"##......................",
    ),
];

// Event mode, early return, name and token, with the frame.
static INSTANTIATES: [(bool, bool, &str, &str, &[u8]); 3] = [
    (
        false,
        true,
        "c",
        "{1}",
        b"\x01\0\0\0\0\0\0\x02\0\0\0\0\0\0\0\x01\0\0\0\0\0\0\0\x03c{1}",
    ),
    (
        true,
        true,
        "n\u{e9}",
        "",
        b"\x01\0\0\0\0\0\0\x03\0\0\0\0\0\0\0\x03\0\0\0\0\0\0\0\0n\xc3\xa9",
    ),
    (
        true,
        false,
        "\u{1f600}",
        "\u{fc}",
        b"\x01\0\0\0\0\0\0\x01\0\0\0\0\0\0\0\x04\0\0\0\0\0\0\0\x02\xf0\x9f\x98\x80\xc3\xbc",
    ),
];

// Bytes that begin no frame of a call, and the first byte that continues none: kinds, types, words, lengths and texts.
static NO_CALLS: [(&[u8], usize); 31] = [
    (b"\0\0\0\0\0\0\0\0\0\0\0\0\0\0\0\0\0\0\0\0\0\0\0\0", 0),
    (b"\x13\0\0\0\0\0\0\0\0\0\0\0\0\0\0\0\0\0\0\0\0\0\0\0", 0),
    (b"\x16\0\0\0\0\0\0\0\0\0\0\0\0\0\0\0\0\0\0\0\0\0\0\0", 0),
    (
        b"\x06\x01\0\0\0\0\0\0\0\0\0\0\0\0\0\x0a\0\0\0\0\0\0\0\x0a",
        1,
    ),
    (b"\x08\0\0\0\0\0\0\x07\0\0\0\0\0\0\0\0\0\0\0\0\0\0\0\0", 1),
    (b"\x09\x0b\0\0\0\0\0\x07\0\0\0\0\0\0\0\0\0\0\0\0\0\0\0\0", 1),
    (
        b"\x09\x01\0\0\0\0\0\x07\0\0\0\0\0\0\0\x80\0\0\0\0\0\0\0\0",
        15,
    ),
    (
        b"\x09\x01\0\0\0\0\0\x07\xff\xff\xff\xff\xff\xff\xff\x7f\0\0\0\0\0\0\0\0",
        15,
    ),
    (
        b"\x09\x03\0\0\0\0\0\x07\0\0\0\0\0\x01\0\0\0\0\0\0\0\0\0\0",
        13,
    ),
    (
        b"\x09\x05\0\0\0\0\0\x07\0\0\0\x01\0\0\0\0\0\0\0\0\0\0\0\0",
        11,
    ),
    (
        b"\x09\x09\0\0\0\0\0\x07\0\0\0\0\0\0\0\x02\0\0\0\0\0\0\0\0",
        15,
    ),
    (
        b"\x01\0\0\0\0\0\0\x08\0\0\0\0\0\0\0\x01\0\0\0\0\0\0\0\0c",
        7,
    ),
    (b"\x01\0\0\0\0\0\0\0\0\0\0\0\0\0\0\0\0\0\0\0\0\0\0\0c", 15),
    (
        b"\x01\0\0\0\0\0\0\0\0\0\0\0\x01\0\0\x01\0\0\0\0\0\0\0\0c",
        15,
    ),
    (b"\x01\0\0\0\0\0\0\0\0\0\0\0\x02\0\0\0\0\0\0\0\0\0\0\0c", 12),
    (
        b"\x01\0\0\0\0\0\0\0\0\0\0\0\0\0\0\x01\0\0\0\0\x01\0\0\x01c",
        23,
    ),
    (
        b"\x01\0\0\0\0\0\0\0\0\0\0\0\0\0\0\x01\0\0\0\0\0\0\0\0\xc3",
        24,
    ),
    (
        b"\x01\0\0\0\0\0\0\0\0\0\0\0\0\0\0\x01\0\0\0\0\0\0\0\0\x80",
        24,
    ),
    (
        b"\x01\0\0\0\0\0\0\0\0\0\0\0\0\0\0\x02\0\0\0\0\0\0\0\0\xe2",
        24,
    ),
    (
        b"\x01\0\0\0\0\0\0\0\0\0\0\0\0\0\0\x03\0\0\0\0\0\0\0\0\xf0",
        24,
    ),
    (
        b"\x01\0\0\0\0\0\0\0\0\0\0\0\0\0\0\x09\0\0\0\0\0\0\0\0\xc1",
        24,
    ),
    (
        b"\x01\0\0\0\0\0\0\0\0\0\0\0\0\0\0\x09\0\0\0\0\0\0\0\0\xf5",
        24,
    ),
    (
        b"\x01\0\0\0\0\0\0\0\0\0\0\0\0\0\0\x02\0\0\0\0\0\0\0\0\xc3(",
        25,
    ),
    (
        b"\x01\0\0\0\0\0\0\0\0\0\0\0\0\0\0\x03\0\0\0\0\0\0\0\0\xe0\x80",
        25,
    ),
    (
        b"\x01\0\0\0\0\0\0\0\0\0\0\0\0\0\0\x03\0\0\0\0\0\0\0\0\xed\xa0",
        25,
    ),
    (
        b"\x01\0\0\0\0\0\0\0\0\0\0\0\0\0\0\x04\0\0\0\0\0\0\0\0\xf0\x80",
        25,
    ),
    (
        b"\x01\0\0\0\0\0\0\0\0\0\0\0\0\0\0\x04\0\0\0\0\0\0\0\0\xf4\x90",
        25,
    ),
    (
        b"\x01\0\0\0\0\0\0\0\0\0\0\0\0\0\0\x03\0\0\0\0\0\0\0\0\xe2\x82(",
        26,
    ),
    (
        b"\x01\0\0\0\0\0\0\0\0\0\0\0\0\0\0\x05\0\0\0\0\0\0\0\0c\xf0\x9f\x98(",
        28,
    ),
    (
        b"\x01\0\0\0\0\0\0\0\0\0\0\0\0\0\0\x01\0\0\0\0\0\0\0\x01c\xc3",
        25,
    ),
    (
        b"\x01\0\0\0\0\0\0\0\0\0\0\0\0\0\0\x01\0\0\0\0\0\0\0\x03c\xe2\x82(",
        27,
    ),
];

// The same of replies.
static NO_REPLIES: [(&[u8], usize); 14] = [
    (b"\0\0\0\0\0\0\0\0\0\0\0\0\0\0\0\0\0\0\0\0\0\0\0\0", 0),
    (b"\x13\0\0\0\0\0\0\0\0\0\0\0\0\0\0\0\0\0\0\0\0\0\0\0", 0),
    (b"\x16\0\0\0\0\0\0\0\0\0\0\0\0\0\0\0\0\0\0\0\0\0\0\0", 0),
    (b"\x14\0\0\0\0\x10\0\x01\0\0\0\0\0\0\0\0\0\0\0\0\0\0\0\0", 7),
    (b"\x14\0\0\0\0\x11\0\0\0\0\0\0\0\0\0\0\0\0\0\0\0\0\0\0", 5),
    (b"\x14\x02\0\0\0\0\0\x01\0\0\0\0\0\0\0\0\0\0\0\0\0\0\0\0", 7),
    (b"\x15\0\0\0\0\0\0\x01\0\0\0\0\0\0\0\0\0\0\0\0\0\0\0\0", 7),
    (b"\x01\x05\0\0\0\0\0\0\0\0\0\0\0\0\0\0\0\0\0\0\0\0\0\0", 1),
    (b"\x06\x02\x01\0\0\0\0\0\0\0\0\0\0\0\0\0\0\0\0\0\0\0\0\0", 2),
    (b"\x06\0\x08\0\0\0\0\0\0\0\0\0\0\0\0\0\0\0\0\0\0\0\0\0", 2),
    (b"\x0c\0\0\0\0\0\0\x03\0\0\0\0\0\0\0\0\0\0\0\0\0\0\0\0", 7),
    (
        b"\x07\0\x03\0\0\0\0\0\0\0\0\0\0\0\0\x01\0\0\0\0\0\0\0\0",
        15,
    ),
    (b"\x0c\0\0\0\0\0\0\0\0\0\0\0\0\0\0\x01\0\0\0\0\0\0\0\0", 15),
    (b"\x0c\0\0\0\0\0\0\0\0\0\0\0\0\0\0\0\0\0\0\0\0\0\0\x03", 23),
];

fn is_put(call: &Call, name: &str, token: &str, frame: &[u8], out: &mut [u8; 40]) -> bool {
    if !can_be_sent(call, name, token) || frame_len(call, name, token) > out.len() {
        return false;
    }
    let length = put_call(call, name, token, out);
    length == frame.len()
        && &out[..length] == frame
        && out[length..].iter().all(|byte| *byte == 0xAA)
}

fn is_taken(call: &Call, name: &str, frame: &[u8], out: &[u8; 40]) -> bool {
    let name_end = 24 + name.len();
    let value = CallFrame {
        call: *call,
        name: 24..name_end,
        token: name_end..frame.len(),
    };
    let length = frame.len();
    take_call(out) == Taken::Got { value, length }
}

fn is_call_cut_at_each_end(frame: &[u8]) -> bool {
    (0..frame.len()).all(|end| take_call(&frame[..end]) == Taken::NeedMore)
}

// Whether a call has this frame, both ways, and each prefix of it needs more.
fn has_frame(call: &Call, name: &str, token: &str, frame: &[u8]) -> bool {
    let mut out = [0xAA; 40];
    is_put(call, name, token, frame, &mut out)
        && is_taken(call, name, frame, &out)
        && is_call_cut_at_each_end(frame)
}

// The frame with 1 in place of a byte.
fn with_one_at(frame: &[u8; 24], place: usize) -> [u8; 24] {
    let mut wrong = *frame;
    if place < 24 {
        wrong[place] = 1;
    }
    wrong
}

fn is_call(row: &(Call, &[u8; 24], &[u8; 24])) -> bool {
    let (call, frame, used) = row;
    has_frame(call, "", "", *frame)
        && (0..24).all(|place| {
            used[place] != b'.' || take_call(&with_one_at(frame, place)) == Taken::Bad { at: place }
        })
}

fn is_instantiate(row: &(bool, bool, &str, &str, &[u8])) -> bool {
    let call = Call::Instantiate {
        event_mode: row.0,
        early_return: row.1,
        batches: false,
    };
    has_frame(&call, row.2, row.3, row.4)
}

#[test]
fn instantiate_asks_for_batches(rt: HostRuntime) {
    let call = Call::Instantiate {
        event_mode: false,
        early_return: false,
        batches: true,
    };
    let frame = b"\x01\0\0\0\0\0\0\x04\0\0\0\0\0\0\0\x01\0\0\0\0\0\0\0\x03c{c}";
    assert!(rt; has_frame(&call, "c", "{c}", frame));
    let agreed = Reply::Done {
        is_warning: false,
        content: Content::Instantiate { batches: true },
    };
    let mut out = [0xAA; 24];
    put_reply(&agreed, &mut out);
    assert_eq!(rt;
        out.as_slice(),
        b"\x01\0\x01\0\0\0\0\0\0\0\0\0\0\0\0\0\0\0\0\0\0\0\0\0".as_slice()
    );
    out[2] = 2;
    assert_eq!(rt; take_reply(&out), Taken::Bad { at: 2 });
}

#[test]
fn calls_have_their_frames(rt: HostRuntime) {
    assert_eq!(rt; CALLS.iter().position(|row| !is_call(row)), None);
    assert_eq!(rt;
        INSTANTIATES.iter().position(|row| !is_instantiate(row)),
        None
    );
}

fn is_reply(row: &(Reply, &[u8; 24], &[u8; 24])) -> bool {
    let (reply, frame, used) = row;
    let mut out = [0xAA; 24];
    put_reply(reply, &mut out);
    let got = Taken::Got {
        value: *reply,
        length: 24,
    };
    out == **frame
        && take_reply(&out) == got
        && (0..24).all(|end| take_reply(&frame[..end]) == Taken::NeedMore)
        && (0..24).all(|place| {
            used[place] != b'.'
                || take_reply(&with_one_at(frame, place)) == Taken::Bad { at: place }
        })
}

#[test]
fn replies_have_their_frames(rt: HostRuntime) {
    assert_eq!(rt; REPLIES.iter().position(|row| !is_reply(row)), None);
}

fn is_no_call(row: &(&[u8], usize)) -> bool {
    let (bytes, at) = *row;
    take_call(bytes) == Taken::Bad { at }
        && (bytes.len() <= at || take_call(&bytes[..at]) == Taken::NeedMore)
}

fn is_no_reply(row: &(&[u8], usize)) -> bool {
    take_reply(row.0) == Taken::Bad { at: row.1 }
}

#[test]
fn other_bytes_are_bad_at_their_place(rt: HostRuntime) {
    assert_eq!(rt; NO_CALLS.iter().position(|row| !is_no_call(row)), None);
    assert_eq!(rt; NO_REPLIES.iter().position(|row| !is_no_reply(row)), None);
    frame_laws();
}

// A type and a value, and whether a Set of it has a frame.
static SETS: [(PortType, i128, bool); 4] = [
    (PortType::Int8, -128, true),
    (PortType::Int8, 128, false),
    (PortType::UInt64, 18_446_744_073_709_551_615, true),
    (PortType::Clock, 1, false),
];

fn is_set_sent(row: &(PortType, i128, bool)) -> bool {
    let call = Call::Set {
        kind: row.0,
        reference: 7,
        value: row.1,
    };
    can_be_sent(&call, "", "") == row.2
}

#[test]
fn some_calls_have_no_frame(rt: HostRuntime) {
    let instantiate = Call::Instantiate {
        event_mode: false,
        early_return: false,
        batches: false,
    };
    let get = Call::Get {
        kind: PortType::Clock,
        reference: 7,
    };
    assert!(rt; !can_be_sent(&instantiate, "", "{1}") && can_be_sent(&instantiate, "c", ""));
    assert!(rt; !can_be_sent(&get, "", ""));
    assert_eq!(rt; SETS.iter().position(|row| !is_set_sent(row)), None);
}
