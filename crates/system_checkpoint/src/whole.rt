ghost use Rattle.std.specs.Prelude.{◌≡◌, ◌≤◌, ◌<◌, ◌^◌, [], length, IfOk};
ghost use Rattle.exact_parts.specs.Taking.{Takes};
ghost use Rattle.system_checkpoint.specs.Whole.{AllTimesOf, Answers, ArmingsOf, Checkpoint, EventsOf, HeaderOf, StatesOf, WordsOf, begun, told};

use crate::first::{First, take_first};
use crate::lists::{take_all_times, take_armings, take_events, take_states, take_words};
use crate::parts::take_known;
use crate::{CheckpointFault, Snapshot};
use exact_parts::Taken;
use sim_base::{Items, SharedBytes};
use std::alloc::{AllocError, Global};
use system_model::System;

/// Reads the checkpoint of a run of the system whose trace begins with this header: header and port lines, as the text of
/// the trace has them. `Bad` where the bytes are none. The states that are read share the bytes.
pub fn read_checkpoint(
    alloc: Global,
    bytes: &SharedBytes,
    system: &System,
    header: &[u8],
) -> Result<Snapshot, CheckpointFault>
    requires { length header.now < 2 ^ 32 }
    ensures { Answers system.now header.now bytes.now result }
{
    match take_whole(alloc, bytes, system, header) {
        Ok(taken) => told(taken, bytes.len()),
        Err(_) => Err(CheckpointFault::Memory),
    }
}

// What all of so many bytes are, by what stands at their beginning.
fn told(taken: Taken<Snapshot>, all: usize) -> Result<Snapshot, CheckpointFault>
    ensures { result ≡ told taken all }
{
    match taken {
        Taken::Got { value, length } => {
            if length == all {
                Ok(value)
            } else {
                Err(CheckpointFault::Bad { at: length as u64 })
            }
        }
        Taken::NeedMore => Err(CheckpointFault::Bad { at: all as u64 }),
        Taken::Bad { at } => Err(CheckpointFault::Bad { at: at as u64 }),
    }
}

// Takes a checkpoint; other bytes may follow.
fn take_whole(
    alloc: Global,
    bytes: &SharedBytes,
    system: &System,
    header: &[u8],
) -> Result<Taken<Snapshot>, AllocError>
    requires { length header.now < 2 ^ 32 }
    ensures { IfOk result (λ taken. Takes (Checkpoint system.now header.now) bytes.now taken) }
{
    match take_first(bytes.as_slice()) {
        Taken::Got { value, length } => {
            let held = begun(alloc, value);
            let after = bytes.after(length)?;
            let rest = take_header(alloc, &after, system, header, held)?;
            let whole = exact_parts::after(length, rest);
            Ok(whole)
        }
        Taken::NeedMore => Ok(Taken::NeedMore),
        Taken::Bad { at } => Ok(Taken::Bad { at }),
    }
}

// What is held once the plan and the point are known.
fn begun(alloc: Global, first: First) -> Snapshot
    ensures { result ≡ begun first }
{
    Snapshot {
        plan: first.plan,
        point: first.point,
        states: Items::from_vec(Vec::new(alloc)),
        words: Items::from_vec(Vec::new(alloc)),
        times: Items::from_vec(Vec::new(alloc)),
        armings: Items::from_vec(Vec::new(alloc)),
        events: Items::from_vec(Vec::new(alloc)),
    }
}

// Takes the header, and what comes after it.
fn take_header(
    alloc: Global,
    bytes: &SharedBytes,
    system: &System,
    header: &[u8],
    held: Snapshot,
) -> Result<Taken<Snapshot>, AllocError>
    requires header { length header.now < 2 ^ 32 }
    requires before { held.point < held.plan.stop }
    requires near { held.plan.stop ≤ 2 ^ 62 }
    ensures { IfOk result (λ taken. Takes (HeaderOf system.now header.now held) bytes.now taken) }
{
    match take_known(bytes.as_slice(), header) {
        Taken::Got { value: (), length } => {
            let after = bytes.after(length)?;
            let rest = take_from_states(alloc, &after, system, held)?;
            let whole = exact_parts::after(length, rest);
            Ok(whole)
        }
        Taken::NeedMore => Ok(Taken::NeedMore),
        Taken::Bad { at } => Ok(Taken::Bad { at }),
    }
}

// Takes the states, and what comes after them.
fn take_from_states(
    alloc: Global,
    bytes: &SharedBytes,
    system: &System,
    mut held: Snapshot,
) -> Result<Taken<Snapshot>, AllocError>
    requires before { held.point < held.plan.stop }
    requires near { held.plan.stop ≤ 2 ^ 62 }
    ensures { IfOk result (λ taken. Takes (StatesOf system.now held) bytes.now taken) }
{
    let taken = take_states(alloc, system.components.as_slice(), bytes)?;
    match taken {
        Taken::Got { value, length } => {
            held.states = value;
            let after = bytes.after(length)?;
            let rest = take_from_words(alloc, after.as_slice(), system, held)?;
            let whole = exact_parts::after(length, rest);
            Ok(whole)
        }
        Taken::NeedMore => Ok(Taken::NeedMore),
        Taken::Bad { at } => Ok(Taken::Bad { at }),
    }
}

// Takes the words, and what comes after them.
fn take_from_words(
    alloc: Global,
    bytes: &[u8],
    system: &System,
    mut held: Snapshot,
) -> Result<Taken<Snapshot>, AllocError>
    requires before { held.point < held.plan.stop }
    requires near { held.plan.stop ≤ 2 ^ 62 }
    ensures { IfOk result (λ taken. Takes (WordsOf system.now held) bytes.now taken) }
{
    let taken = take_words(alloc, system.ports.as_slice(), bytes)?;
    match taken {
        Taken::Got { value, length } => {
            held.words = value;
            let rest = take_from_times(alloc, &bytes[length..], system, held)?;
            let whole = exact_parts::after(length, rest);
            Ok(whole)
        }
        Taken::NeedMore => Ok(Taken::NeedMore),
        Taken::Bad { at } => Ok(Taken::Bad { at }),
    }
}

// Takes the intervals and shifts, and what comes after them.
fn take_from_times(
    alloc: Global,
    bytes: &[u8],
    system: &System,
    mut held: Snapshot,
) -> Result<Taken<Snapshot>, AllocError>
    requires before { held.point < held.plan.stop }
    requires near { held.plan.stop ≤ 2 ^ 62 }
    ensures { IfOk result (λ taken. Takes (AllTimesOf system.now held) bytes.now taken) }
{
    let taken = take_all_times(alloc, system.ports.as_slice(), bytes)?;
    match taken {
        Taken::Got { value, length } => {
            held.times = value;
            let rest = take_from_armings(alloc, &bytes[length..], system, held)?;
            let whole = exact_parts::after(length, rest);
            Ok(whole)
        }
        Taken::NeedMore => Ok(Taken::NeedMore),
        Taken::Bad { at } => Ok(Taken::Bad { at }),
    }
}

// Takes the armings, and what comes after them.
fn take_from_armings(
    alloc: Global,
    bytes: &[u8],
    system: &System,
    mut held: Snapshot,
) -> Result<Taken<Snapshot>, AllocError>
    requires before { held.point < held.plan.stop }
    requires near { held.plan.stop ≤ 2 ^ 62 }
    ensures { IfOk result (λ taken. Takes (ArmingsOf system.now held) bytes.now taken) }
{
    let taken = take_armings(alloc, &held, system.ports.as_slice(), bytes)?;
    match taken {
        Taken::Got { value, length } => {
            held.armings = value;
            let rest = take_from_events(alloc, &bytes[length..], system, held)?;
            let whole = exact_parts::after(length, rest);
            Ok(whole)
        }
        Taken::NeedMore => Ok(Taken::NeedMore),
        Taken::Bad { at } => Ok(Taken::Bad { at }),
    }
}

// Takes the event times, which are the last.
fn take_from_events(
    alloc: Global,
    bytes: &[u8],
    system: &System,
    mut held: Snapshot,
) -> Result<Taken<Snapshot>, AllocError>
    requires before { held.point < held.plan.stop }
    requires near { held.plan.stop ≤ 2 ^ 62 }
    ensures { IfOk result (λ taken. Takes (EventsOf system.now held) bytes.now taken) }
{
    let taken = take_events(alloc, &held, system.components.as_slice(), bytes)?;
    match taken {
        Taken::Got { value, length } => {
            held.events = value;
            Ok(Taken::Got {
                value: held,
                length,
            })
        }
        Taken::NeedMore => Ok(Taken::NeedMore),
        Taken::Bad { at } => Ok(Taken::Bad { at }),
    }
}
