ghost use Rattle.std.specs.Prelude.{◌≡◌, ◌≤◌, ◌<◌, ◌+◌, ◌^◌, ◌++◌, ℕ, take, drop, length, slice_index, IsTrue, ◌↔◌};
ghost use Rattle.link_frames.specs.Call.{CanBeSent, IsCallFrame, IsCallNumbers, IsFrameOf, TextsOf, TokenOf, call_at, frame_at, head_of_call, name_len, sent, text_len, token_len, value_at};
ghost use Rattle.exact_parts.specs.Taking.{Takes};
ghost use Rattle.exact_parts.specs.declared.taken.Taken.{Taken as TakenSpec};

use crate::head::{Head, spell};
use crate::layout::{Form, kind_at, type_at, type_number};
use crate::numbers::{Numbers, take_numbers};
use crate::text::take_text;
use exact_parts::{Taken, after};
use fmi_calls::{Call, Kind};
use std::ops::Range;
use value_types::{PortType, fits, from_word, to_word};

/// A call as it stands in a frame. The texts of Instantiate, the instance's name and its instantiation token, are at these
/// places of the frame's bytes; a frame of another call has none, and its places are empty.
#[derive(Debug, PartialEq, Eq, Drop)]
pub struct CallFrame {
    pub call: Call,
    pub name: Range<usize>,
    pub token: Range<usize>,
}

fn head_of_call(call: &Call, name_len: u64, token_len: u64) -> Head
    requires { CanBeSent call.now name_len token_len }
    ensures { result ≡ head_of_call call.now name_len token_len }
{
    let plain = Head {
        kind: call.kind().facts().number,
        detail: 0,
        flags: 0,
        reference: 0,
        first: 0,
        last: 0,
    };
    match *call {
        Call::Instantiate {
            event_mode,
            early_return,
            batches,
        } => Head {
            reference: u32::from(event_mode) + 2 * u32::from(early_return) + 4 * u32::from(batches),
            first: name_len,
            last: token_len,
            ..plain
        },
        Call::EnterInitialization { start, stop } => Head {
            first: start,
            last: stop,
            ..plain
        },
        Call::DoStep { at, size } => Head {
            first: at,
            last: size,
            ..plain
        },
        Call::Get { kind, reference } => Head {
            detail: type_number(kind),
            reference,
            ..plain
        },
        Call::Set {
            kind,
            reference,
            value,
        } => Head {
            detail: type_number(kind),
            reference,
            first: to_word(kind, value),
            ..plain
        },
        Call::GetClock { reference }
        | Call::SetClock { reference }
        | Call::GetInterval { reference }
        | Call::GetShift { reference } => Head { reference, ..plain },
        Call::ExitInitialization
        | Call::EnterEvent
        | Call::EnterStep
        | Call::Update
        | Call::Save
        | Call::Restore
        | Call::Free
        | Call::Terminate
        | Call::FreeInstance
        | Call::Serialize => plain,
        Call::Deserialize {
            length,
            point,
            stop,
        } => Head {
            reference: length,
            first: point,
            last: stop,
            ..plain
        },
    }
}

fn sent_text<'t>(call: &Call, text: &'t str) -> &'t str
    ensures { result.now ≡ sent call.now text.now }
{
    match call {
        Call::Instantiate { .. } => text,
        _ => "",
    }
}

fn value_at(kind: PortType, word: u64) -> i128
    ensures { result ≡ value_at kind word }
{
    from_word(kind, word).unwrap_or(0)
}

fn call_at(numbers: &Numbers) -> Call
    requires { slice_index numbers.now 4 < 2 ^ 32 }
    ensures { result ≡ call_at numbers.now }
{
    let [kind, detail, _, _, reference, first, last] = *numbers;
    let port_type = type_at(detail);
    let event_mode = reference % 2 == 1;
    let early_return = reference / 2 % 2 == 1;
    let batches = reference / 4 == 1;
    let reference = reference as u32;
    match kind_at(kind) {
        Kind::Instantiate => Call::Instantiate {
            event_mode,
            early_return,
            batches,
        },
        Kind::EnterInitialization => Call::EnterInitialization {
            start: first,
            stop: last,
        },
        Kind::DoStep => Call::DoStep {
            at: first,
            size: last,
        },
        Kind::Get => Call::Get {
            kind: port_type,
            reference,
        },
        Kind::Set => Call::Set {
            kind: port_type,
            reference,
            value: value_at(port_type, first),
        },
        Kind::GetClock => Call::GetClock { reference },
        Kind::SetClock => Call::SetClock { reference },
        Kind::GetInterval => Call::GetInterval { reference },
        Kind::GetShift => Call::GetShift { reference },
        Kind::ExitInitialization => Call::ExitInitialization,
        Kind::EnterEvent => Call::EnterEvent,
        Kind::EnterStep => Call::EnterStep,
        Kind::Update => Call::Update,
        Kind::Save => Call::Save,
        Kind::Restore => Call::Restore,
        Kind::Free => Call::Free,
        Kind::Terminate => Call::Terminate,
        Kind::FreeInstance => Call::FreeInstance,
        Kind::Serialize => Call::Serialize,
        Kind::Deserialize => Call::Deserialize {
            length: reference,
            point: first,
            stop: last,
        },
    }
}

// The length of a text of a call of a kind.
fn text_len(kind: Kind, len: u64) -> usize
    ensures { result ≡ text_len kind len }
{
    match kind {
        Kind::Instantiate => len as usize,
        _ => 0,
    }
}

fn name_len(numbers: &Numbers) -> usize
    ensures { result ≡ name_len numbers.now }
{
    text_len(kind_at(numbers[0]), numbers[5])
}

fn token_len(numbers: &Numbers) -> usize
    ensures { result ≡ token_len numbers.now }
{
    text_len(kind_at(numbers[0]), numbers[6])
}

fn frame_at(numbers: &Numbers) -> CallFrame
    requires { IsCallNumbers numbers.now }
    ensures { result ≡ frame_at numbers.now }
{
    let name_end = 24 + name_len(numbers);
    CallFrame {
        call: call_at(numbers),
        name: 24..name_end,
        token: name_end..name_end + token_len(numbers),
    }
}

// Puts bytes at a place.
pub(crate) fn put_at(out: &mut [u8], place: usize, bytes: &[u8])
    requires { place + length bytes.now ≤ length out.old }
    ensures prefix { take (place + length bytes.now) out.new ≡ take place out.old ++ bytes.now }
    ensures rest { drop (place + length bytes.now) out.new ≡ drop
        (place + length bytes.now) out.old }
{
    out[place..place + bytes.len()].copy_from_slice(bytes);
}

/// Whether the call has a frame, with these texts: the name and the token of Instantiate have from 1 and from 0 to 2^24
/// bytes, the types of Get and Set aren't Clock, and the value of Set is in the range of its type.
pub fn can_be_sent(call: &Call, name: &str, token: &str) -> bool
    ensures { IsTrue result ↔ CanBeSent call.now (length name.now) (length token.now) }
{
    match call {
        Call::Instantiate { .. } => {
            !name.is_empty() && name.len() <= 1 << 24 && token.len() <= 1 << 24
        }
        Call::Get { kind, .. } => *kind != PortType::Clock,
        Call::Set { kind, value, .. } => *kind != PortType::Clock && fits(*kind, *value),
        _ => true,
    }
}

/// The length of a call's frame, in bytes: 24, and of Instantiate the texts.
pub fn frame_len(call: &Call, name: &str, token: &str) -> usize
    requires { CanBeSent call.now (length name.now) (length token.now) }
    ensures { result ≡ 24 + length (sent call.now name.now) + length (sent call.now token.now) }
{
    24 + sent_text(call, name).len() + sent_text(call, token).len()
}

/// Puts the frame of a call, for Instantiate with its texts, the instance's name and its instantiation token; with other
/// calls the texts aren't used. Answers the frame's length. What comes after the frame stays.
pub fn put_call(call: &Call, name: &str, token: &str, out: &mut [u8]) -> usize
    requires has_frame { CanBeSent call.now (length name.now) (length token.now) }
    requires has_room { 24 + length (sent call.now name.now) + length
        (sent call.now token.now) ≤ length out.old }
    ensures length { result ≡ 24 + length (sent call.now name.now) + length
        (sent call.now token.now) }
    ensures frame { IsFrameOf call.now name.now token.now (take result out.new) }
    ensures rest { drop result out.new ≡ drop result out.old }
{
    let head = spell(head_of_call(call, name.len() as u64, token.len() as u64));
    let name = sent_text(call, name).as_bytes();
    let token = sent_text(call, token).as_bytes();
    let name_end = 24 + name.len();
    put_at(out, 0, &head);
    put_at(out, 24, name);
    put_at(out, name_end, token);
    name_end + token.len()
}

// Takes the token, which ends a frame.
fn take_token(numbers: &Numbers, bytes: &[u8]) -> Taken<CallFrame>
    requires { IsCallNumbers numbers.now }
    ensures { Takes (TokenOf numbers.now) bytes.now result }
{
    match take_text(bytes, token_len(numbers)) {
        Taken::Got { value: (), length } => Taken::Got {
            value: frame_at(numbers),
            length,
        },
        Taken::NeedMore => Taken::NeedMore,
        Taken::Bad { at } => Taken::Bad { at },
    }
}

// Takes what follows the numbers.
fn take_texts(numbers: &Numbers, bytes: &[u8]) -> Taken<CallFrame>
    requires { IsCallNumbers numbers.now }
    ensures { Takes (TextsOf numbers.now) bytes.now result }
{
    match take_text(bytes, name_len(numbers)) {
        Taken::Got { value: (), length } => after(length, take_token(numbers, &bytes[length..])),
        Taken::NeedMore => Taken::NeedMore,
        Taken::Bad { at } => Taken::Bad { at },
    }
}

/// Takes the frame of a call from the beginning of the bytes; others may follow.
pub fn take_call(bytes: &[u8]) -> Taken<CallFrame>
    // What stands there.
    ensures taken { Takes IsCallFrame bytes.now result }
    // Nothing else does.
    ensures only { (other : TakenSpec CallFrame) → Takes IsCallFrame bytes.now other →
        result ≡ other }
{
    match take_numbers(Form::OfCall, bytes) {
        Taken::Got { value, length } => after(length, take_texts(&value, &bytes[length..])),
        Taken::NeedMore => Taken::NeedMore,
        Taken::Bad { at } => Taken::Bad { at },
    }
}
