//! Answers of scripts, as words say them.
use clock_fraction::Fraction;
use fmi_calls::{BadStatus, Content, Interval, Kind, Reply};
use fmu_peer::PeerFault;

pub(crate) type Answer = Result<Reply, PeerFault>;

/// `lost`, the kind of a call with the status of a bad answer, or the kind of a good one with its numbers and flags.
pub(crate) fn answer_of(text: &str) -> Option<Answer> {
    if text == "lost" {
        return Some(Err(PeerFault::Failed));
    }
    let (name, rest) = text.split_once(' ').unwrap_or((text, ""));
    let kind = kind_of(name)?;
    match status_of(rest) {
        Some(status) => Some(Ok(Reply::Refused { kind, status })),
        None => good_answer(kind, rest),
    }
}

fn good_answer(kind: Kind, rest: &str) -> Option<Answer> {
    let content = content_of(kind, rest)?;
    Some(Ok(Reply::Done {
        is_warning: has(rest, "warning"),
        content,
    }))
}

fn status_of(name: &str) -> Option<BadStatus> {
    match name {
        "Discard" => Some(BadStatus::Discard),
        "Error" => Some(BadStatus::Error),
        "Fatal" => Some(BadStatus::Fatal),
        _ => None,
    }
}

static KINDS: [Kind; 20] = [
    Kind::Instantiate,
    Kind::EnterInitialization,
    Kind::ExitInitialization,
    Kind::EnterEvent,
    Kind::EnterStep,
    Kind::DoStep,
    Kind::Update,
    Kind::Get,
    Kind::Set,
    Kind::GetClock,
    Kind::SetClock,
    Kind::GetInterval,
    Kind::GetShift,
    Kind::Save,
    Kind::Restore,
    Kind::Free,
    Kind::Serialize,
    Kind::Deserialize,
    Kind::Terminate,
    Kind::FreeInstance,
];

fn kind_of(name: &str) -> Option<Kind> {
    for kind in &KINDS {
        if kind.facts().name == name {
            return Some(*kind);
        }
    }
    None
}

// Whether one of the words is this.
fn has(rest: &str, word: &str) -> bool {
    rest.split(' ').any(|other| other == word)
}

// The number at a place among the words.
fn number_at(rest: &str, place: usize) -> Option<u64> {
    let word = rest.split(' ').nth(place)?;
    word.parse::<u64>().ok()
}

fn fraction_at(rest: &str, place: usize) -> Option<Fraction> {
    let counter = number_at(rest, place)?;
    let resolution = number_at(rest, place.saturating_add(1))?;
    Some(Fraction {
        counter,
        resolution,
    })
}

fn interval_of(rest: &str) -> Option<Interval> {
    if rest == "not_yet" {
        return Some(Interval::NotYetKnown);
    }
    if has(rest, "unchanged") {
        return Some(Interval::Unchanged(fraction_at(rest, 1)?));
    }
    Some(Interval::Changed(fraction_at(rest, 0)?))
}

fn content_of(kind: Kind, rest: &str) -> Option<Content> {
    let content = match kind {
        Kind::Instantiate => Content::Instantiate { batches: false },
        Kind::EnterInitialization => Content::EnterInitialization,
        Kind::ExitInitialization => Content::ExitInitialization,
        Kind::EnterEvent => Content::EnterEvent,
        Kind::EnterStep => Content::EnterStep,
        Kind::DoStep => Content::DoStep {
            event_needed: has(rest, "event"),
            terminate: has(rest, "terminate"),
            early: has(rest, "early"),
            end: number_at(rest, 0)?,
        },
        Kind::Update => Content::Update {
            again: has(rest, "again"),
            terminate: has(rest, "terminate"),
            event_time: number_at(rest, 0),
        },
        Kind::Get => Content::Get {
            word: number_at(rest, 0)?,
        },
        Kind::Set => Content::Set,
        Kind::GetClock => Content::GetClock {
            word: number_at(rest, 0)?,
        },
        Kind::SetClock => Content::SetClock,
        Kind::GetInterval => Content::GetInterval {
            interval: interval_of(rest)?,
        },
        Kind::GetShift => Content::GetShift {
            shift: fraction_at(rest, 0)?,
        },
        Kind::Save => Content::Save,
        Kind::Restore => Content::Restore,
        Kind::Free => Content::Free,
        Kind::Serialize => Content::Serialize {
            length: u32::try_from(number_at(rest, 0)?).ok()?,
        },
        Kind::Deserialize => Content::Deserialize,
        Kind::Terminate => Content::Terminate,
        Kind::FreeInstance => Content::FreeInstance,
    };
    Some(content)
}
