ghost use Rattle.std.specs.Prelude.{◌≡◌, ◌<◌, ◌^◌, slice_index};
ghost use Rattle.link_frames.specs.Head.{spelling};
ghost use Rattle.link_frames.specs.Reply.{CanBeTold, IsReplyFrame, bad_number, bad_status_at, content_at, fraction_at, frame_of, head_of_content, head_of_reply, interval_at, reply_at, with_interval};
ghost use Rattle.exact_parts.specs.Taking.{Takes};
ghost use Rattle.exact_parts.specs.declared.taken.Taken.{Taken as TakenSpec};

use crate::head::{Head, spell};
use crate::layout::{Form, kind_at};
use crate::numbers::{Numbers, take_numbers};
use clock_fraction::Fraction;
use exact_parts::Taken;
use fmi_calls::{BadStatus, Content, Interval, Kind, Reply};

fn bad_number(status: BadStatus) -> u8
    ensures { result ≡ bad_number status }
{
    match status {
        BadStatus::Discard => 2,
        BadStatus::Error => 3,
        BadStatus::Fatal => 4,
    }
}

fn head_of_content(status: u8, content: &Content) -> Head
    ensures { result ≡ head_of_content status content.now }
{
    let plain = Head {
        kind: content.kind().facts().number,
        detail: status,
        flags: 0,
        reference: 0,
        first: 0,
        last: 0,
    };
    match *content {
        Content::Instantiate { batches } => Head {
            flags: u8::from(batches),
            ..plain
        },
        Content::DoStep {
            event_needed,
            terminate,
            early,
            end,
        } => Head {
            flags: u8::from(event_needed) + 2 * u8::from(terminate) + 4 * u8::from(early),
            first: end,
            ..plain
        },
        Content::Update {
            again,
            terminate,
            event_time,
        } => Head {
            flags: u8::from(again) + 2 * u8::from(terminate) + 4 * u8::from(event_time.is_some()),
            first: event_time.unwrap_or(0),
            ..plain
        },
        Content::Get { word } | Content::GetClock { word } => Head {
            first: word,
            ..plain
        },
        Content::GetInterval { interval } => head_of_interval(plain, interval),
        Content::GetShift { shift } => Head {
            first: shift.counter,
            last: shift.resolution,
            ..plain
        },
        Content::EnterInitialization
        | Content::ExitInitialization
        | Content::EnterEvent
        | Content::EnterStep
        | Content::Set
        | Content::SetClock
        | Content::Save
        | Content::Restore
        | Content::Free
        | Content::Terminate
        | Content::FreeInstance
        | Content::Deserialize => plain,
        Content::Serialize { length } => Head {
            reference: length,
            ..plain
        },
    }
}

fn head_of_interval(plain: Head, interval: Interval) -> Head
    requires reference { plain.reference ≡ 0 }
    requires first { plain.first ≡ 0 }
    requires last { plain.last ≡ 0 }
    ensures { result ≡ with_interval plain interval }
{
    match interval {
        Interval::NotYetKnown => plain,
        Interval::Unchanged(fraction) => Head {
            reference: 1,
            first: fraction.counter,
            last: fraction.resolution,
            ..plain
        },
        Interval::Changed(fraction) => Head {
            reference: 2,
            first: fraction.counter,
            last: fraction.resolution,
            ..plain
        },
    }
}

fn head_of_reply(reply: &Reply) -> Head
    ensures { result ≡ head_of_reply reply.now }
{
    match reply {
        Reply::Done {
            is_warning,
            content,
        } => head_of_content(u8::from(*is_warning), content),
        Reply::Refused { kind, status } => Head {
            kind: kind.facts().number,
            detail: bad_number(*status),
            flags: 0,
            reference: 0,
            first: 0,
            last: 0,
        },
    }
}

fn interval_at(qualifier: u64, fraction: Fraction) -> Interval
    ensures { result ≡ interval_at qualifier fraction }
{
    match qualifier {
        0 => Interval::NotYetKnown,
        1 => Interval::Unchanged(fraction),
        _ => Interval::Changed(fraction),
    }
}

fn content_at(kind: Kind, flags: u64, qualifier: u64, first: u64, last: u64) -> Content
    requires { qualifier < 2 ^ 32 }
    ensures { result ≡ content_at kind flags qualifier first last }
{
    let fraction = Fraction {
        counter: first,
        resolution: last,
    };
    match kind {
        Kind::DoStep => Content::DoStep {
            event_needed: flags % 2 == 1,
            terminate: flags / 2 % 2 == 1,
            early: flags / 4 == 1,
            end: first,
        },
        Kind::Update => Content::Update {
            again: flags % 2 == 1,
            terminate: flags / 2 % 2 == 1,
            event_time: if flags / 4 == 1 { Some(first) } else { None },
        },
        Kind::Get => Content::Get { word: first },
        Kind::GetClock => Content::GetClock { word: first },
        Kind::GetInterval => Content::GetInterval {
            interval: interval_at(qualifier, fraction),
        },
        Kind::GetShift => Content::GetShift { shift: fraction },
        Kind::Instantiate => Content::Instantiate {
            batches: flags == 1,
        },
        Kind::EnterInitialization => Content::EnterInitialization,
        Kind::ExitInitialization => Content::ExitInitialization,
        Kind::EnterEvent => Content::EnterEvent,
        Kind::EnterStep => Content::EnterStep,
        Kind::Set => Content::Set,
        Kind::SetClock => Content::SetClock,
        Kind::Save => Content::Save,
        Kind::Restore => Content::Restore,
        Kind::Free => Content::Free,
        Kind::Terminate => Content::Terminate,
        Kind::FreeInstance => Content::FreeInstance,
        Kind::Serialize => Content::Serialize {
            length: qualifier as u32,
        },
        Kind::Deserialize => Content::Deserialize,
    }
}

fn bad_status_at(status: u64) -> BadStatus
    ensures { result ≡ bad_status_at status }
{
    match status {
        2 => BadStatus::Discard,
        3 => BadStatus::Error,
        _ => BadStatus::Fatal,
    }
}

fn reply_at(numbers: &Numbers) -> Reply
    requires { slice_index numbers.now 4 < 2 ^ 32 }
    ensures { result ≡ reply_at numbers.now }
{
    let [kind, status, flags, _, qualifier, first, last] = *numbers;
    let kind = kind_at(kind);
    if status < 2 {
        Reply::Done {
            is_warning: status == 1,
            content: content_at(kind, flags, qualifier, first, last),
        }
    } else {
        Reply::Refused {
            kind,
            status: bad_status_at(status),
        }
    }
}

/// Puts the frame of a reply, 24 bytes: that of Serialize tells of at most 2^20 bytes.
pub fn put_reply(reply: &Reply, out: &mut [u8; 24])
    ensures spelled { out.new ≡ frame_of reply.now }
    ensures frame { CanBeTold reply.now → IsReplyFrame reply.now out.new }
{
    *out = spell(head_of_reply(reply));
}

/// Takes the frame of a reply from the beginning of the bytes; others may follow.
pub fn take_reply(bytes: &[u8]) -> Taken<Reply>
    // What stands there.
    ensures taken { Takes IsReplyFrame bytes.now result }
    // Nothing else does.
    ensures only { (other : TakenSpec Reply) → Takes IsReplyFrame bytes.now other → result ≡ other }
{
    match take_numbers(Form::OfReply, bytes) {
        Taken::Got { value, length } => Taken::Got {
            value: reply_at(&value),
            length,
        },
        Taken::NeedMore => Taken::NeedMore,
        Taken::Bad { at } => Taken::Bad { at },
    }
}
