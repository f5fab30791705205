//! The states of machines of the tests' own, which share nothing with the built-in ones: one counts its Updates, and one the
//! ticks of its Clock.
ghost use Rattle.std.specs.Prelude.{◌≡◌, ◌≤◌, ◌+◌, false};
ghost use Rattle.fmi_calls.specs.Permission.{Permitted};
ghost use Rattle.fmu_peer.specs.Machine.{after, written};
ghost use Rattle.fmi_calls.specs.declared.call.BadStatus.TheVariants.{Error};
ghost use Rattle.fmi_calls.specs.declared.call.Reply.TheVariants.{Done, Refused};
ghost use Rattle.worked_rows.specs.Ticker.{answer, asks_again, entered, one_more, references_of, shown, state_in, ticker, told, updated, values_in};

use clock_fraction::Fraction;
use fmi_calls::{BadStatus, Call, Content, Interval, Kind, Phase, Reply};
use value_types::{PortType, Shape, to_word};

/// The Clock, an input.
const CLOCK: u32 = 2;

/// The count, an output.
const OUTPUT: u32 = 3;

/// What has the Clock, an input.
const CLOCKED: u32 = 5;

/// Where the count stays.
const MOST: i64 = 1000;

/// What a machine counts.
#[derive(Clone, Copy, Debug, PartialEq, Eq)]
pub(crate) enum Counts {
    /// its Updates since Event Mode was entered, of which the first asks for another
    Updates,
    /// its Updates with the Clock active
    Ticks,
}

/// The count, and the values of the Clock, of the input that has it, and under the count's reference.
#[derive(Clone, Copy, Debug, PartialEq, Eq)]
pub(crate) struct Counted {
    pub(crate) is_initializing: bool,
    pub(crate) count: i64,
    pub(crate) clock: i128,
    pub(crate) clocked: i128,
    pub(crate) output: i128,
}

// The count once there is one more.
fn one_more(count: i64) -> i64
    ensures { result ≡ one_more count }
{
    if count < MOST { count + 1 } else { count }
}

impl Counts {
    // The count after an Update.
    fn updated_count(self, counted: &Counted) -> i64
        ensures { result ≡ updated self counted.now.count (values_in self counted.now) }
    {
        match self {
            Counts::Updates => one_more(counted.count),
            Counts::Ticks => if counted.clock == 1 {
                one_more(counted.count)
            } else {
                counted.count
            },
        }
    }

    // Whether an Update asks for another.
    fn asks_again(self, count: i64) -> bool
        ensures { result ≡ asks_again self count }
    {
        match self {
            Counts::Updates => count < 1,
            Counts::Ticks => false,
        }
    }

    // The count once Event Mode is entered.
    fn entered_count(self, count: i64) -> i64
        ensures { result ≡ entered self count }
    {
        match self {
            Counts::Updates => 0,
            Counts::Ticks => count,
        }
    }
}

// What a Get answers.
fn reply_to_get(counted: &Counted, reference: u32) -> Reply
    ensures { result ≡ shown (told counted.now) reference }
{
    if reference == OUTPUT {
        Reply::Done {
            is_warning: false,
            content: Content::Get {
                word: to_word(PortType::Int64, i128::from(counted.count)),
            },
        }
    } else {
        refusal(Kind::Get)
    }
}

// The stop shows that the sum fits.
fn step_end(_stop: u64, at: u64, size: u64) -> u64
    requires { at + size ≤ _stop }
    ensures { result ≡ at + size }
{
    at + size
}

fn done_reply(content: Content) -> Reply
    ensures { result ≡ Done false content }
{
    Reply::Done {
        is_warning: false,
        content,
    }
}

/// What it can't do.
pub(crate) fn refusal(kind: Kind) -> Reply
    ensures { result ≡ Refused kind Error }
{
    Reply::Refused {
        kind,
        status: BadStatus::Error,
    }
}

/// The reply to a call.
pub(crate) fn answer(
    counts: Counts,
    counted: &Counted,
    shape: &Shape,
    phase: &Phase,
    call: &Call,
) -> Reply
    requires { Permitted shape.now phase.now call.now }
    ensures { result ≡ answer counts (told counted.now) call.now }
{
    match *call {
        Call::Instantiate { .. } => done_reply(Content::Instantiate { batches: false }),
        Call::EnterInitialization { .. } => done_reply(Content::EnterInitialization),
        Call::ExitInitialization => done_reply(Content::ExitInitialization),
        Call::EnterEvent => done_reply(Content::EnterEvent),
        Call::EnterStep => done_reply(Content::EnterStep),
        Call::DoStep { at, size } => done_reply(Content::DoStep {
            event_needed: false,
            terminate: false,
            early: false,
            end: step_end(phase.stop, at, size),
        }),
        Call::Update => done_reply(Content::Update {
            again: counts.asks_again(counted.count),
            terminate: false,
            event_time: None,
        }),
        Call::Get { reference, .. } => reply_to_get(counted, reference),
        Call::Set { .. } => done_reply(Content::Set),
        Call::GetClock { .. } => done_reply(Content::GetClock { word: 0 }),
        Call::SetClock { .. } => done_reply(Content::SetClock),
        Call::GetInterval { .. } => done_reply(Content::GetInterval {
            interval: Interval::NotYetKnown,
        }),
        Call::GetShift { .. } => done_reply(Content::GetShift {
            shift: Fraction {
                counter: 0,
                resolution: 1,
            },
        }),
        Call::Save => done_reply(Content::Save),
        Call::Restore => done_reply(Content::Restore),
        Call::Free => done_reply(Content::Free),
        Call::Serialize => refusal(Kind::Serialize),
        Call::Deserialize { .. } => refusal(Kind::Deserialize),
        Call::Terminate => done_reply(Content::Terminate),
        Call::FreeInstance => done_reply(Content::FreeInstance),
    }
}

// The state with a value written under a reference.
fn write(counted: &mut Counted, _counts: Counts, reference: u32, value: i128)
    ensures numbers { told counted.new ≡ told counted.old }
    ensures values { values_in _counts counted.new ≡ written (references_of _counts)
        (values_in _counts counted.old) reference value }
{
    match reference {
        CLOCK => counted.clock = value,
        CLOCKED => counted.clocked = value,
        OUTPUT => counted.output = value,
        _ => {}
    }
}

/// Goes on to the state after a call.
pub(crate) fn go_on(counts: Counts, counted: &mut Counted, saved: &mut Option<Counted>, call: &Call)
    ensures { state_in counts counted.new saved.new ≡ after (ticker counts)
        (state_in counts counted.old saved.old) call.now }
{
    match *call {
        Call::EnterInitialization { .. } => counted.is_initializing = true,
        Call::ExitInitialization => counted.is_initializing = false,
        Call::EnterEvent => counted.count = counts.entered_count(counted.count),
        // With the instant the tick is over.
        Call::Update => {
            counted.count = counts.updated_count(counted);
            counted.clock = 0;
        }
        Call::Set {
            reference,
            value,
            ..
        } => write(counted, counts, reference, value),
        Call::SetClock { reference } => write(counted, counts, reference, 1),
        Call::Save => *saved = Some(*counted),
        Call::Restore => if let Some(kept) = *saved {
            *counted = kept;
        },
        Call::Free => *saved = None,
        _ => {}
    }
}
