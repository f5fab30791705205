//! The lists of a checkpoint: a part for each component or each port.
ghost use Rattle.std.specs.Prelude.{◌≡◌, ◌≤◌, ◌<◌, ◌^◌, ◌+◌, IfOk, if◌then◌else◌};
ghost use Rattle.exact_parts.specs.Taking.{Takes};
ghost use Rattle.exact_parts.specs.Each.{Each};
ghost use Rattle.system_checkpoint.specs.Parts.{Optional, arming_of, between, words};
ghost use Rattle.system_checkpoint.specs.Whole.{ArmingIf, ArmingOf, EventOf, StateOf, TimesIf, TimesOf, WordOf, is_asked, may_be_armed};

use crate::parts::{between, take_optional, take_state, take_times, words};
use crate::{Arming, ClockTimes, Snapshot};
use exact_parts::Taken;
use sim_base::{Items, SharedBytes};
use std::alloc::{AllocError, Global};
use system_model::{Component, Port, Role, Timing};
use value_types::PortType;

/// Takes the state of each component.
pub(crate) fn take_states(
    alloc: Global,
    components: &[Component],
    bytes: &SharedBytes,
) -> Result<Taken<Items<SharedBytes>>, AllocError>
    ensures { IfOk result (λ taken. Takes (Each StateOf components.now) bytes.now taken) }
{
    let mut states = Vec::new(alloc);
    let mut done = 0;
    for _component in components {
        let after = bytes.after(done)?;
        let taken = take_state(&after)?;
        match taken {
            Taken::Got { value, length } => {
                states.push(value)?;
                done += length;
            }
            Taken::NeedMore => return Ok(Taken::NeedMore),
            Taken::Bad { at } => return Ok(Taken::Bad { at: done + at }),
        }
    }
    Ok(Taken::Got {
        value: Items::from_vec(states),
        length: done,
    })
}

/// Takes the word of each port, if it has had a value.
pub(crate) fn take_words(
    alloc: Global,
    ports: &[Port],
    bytes: &[u8],
) -> Result<Taken<Items<Option<u64>>>, AllocError>
    ensures { IfOk result (λ taken. Takes (Each WordOf ports.now) bytes.now taken) }
{
    let mut values = Vec::new(alloc);
    let mut done = 0;
    for port in ports {
        match take_word_of(port.kind, &bytes[done..]) {
            Taken::Got { value, length } => {
                values.push(value)?;
                done += length;
            }
            Taken::NeedMore => return Ok(Taken::NeedMore),
            Taken::Bad { at } => return Ok(Taken::Bad { at: done + at }),
        }
    }
    Ok(Taken::Got {
        value: Items::from_vec(values),
        length: done,
    })
}

// Takes the word of a port of this type, or none.
fn take_word_of(kind: PortType, bytes: &[u8]) -> Taken<Option<u64>>
    ensures { Takes (Optional 1 (words kind)) bytes.now result }
{
    take_optional(bytes, 1, words(kind))
}

/// Takes the interval and the shift of each Clock that was asked for them.
pub(crate) fn take_all_times(
    alloc: Global,
    ports: &[Port],
    bytes: &[u8],
) -> Result<Taken<Items<Option<ClockTimes>>>, AllocError>
    ensures { IfOk result (λ taken. Takes (Each TimesOf ports.now) bytes.now taken) }
{
    let mut values = Vec::new(alloc);
    let mut done = 0;
    for port in ports {
        match take_times_of(&port.role, &bytes[done..]) {
            Taken::Got { value, length } => {
                values.push(value)?;
                done += length;
            }
            Taken::NeedMore => return Ok(Taken::NeedMore),
            Taken::Bad { at } => return Ok(Taken::Bad { at: done + at }),
        }
    }
    Ok(Taken::Got {
        value: Items::from_vec(values),
        length: done,
    })
}

// Whether a port is a fixed Clock whose FMU is asked for its interval and its shift.
fn is_asked(role: &Role) -> bool
    ensures { result ≡ is_asked role.now }
{
    match role {
        Role::TimeClock {
            timing: Timing::Answered,
        } => true,
        Role::TimeClock {
            timing: Timing::Periodic { .. },
        }
        | Role::TimeClock {
            timing: Timing::Countdown,
        }
        | Role::TimeClock {
            timing: Timing::Changing,
        }
        | Role::Input { .. }
        | Role::Output
        | Role::ClockInput { .. }
        | Role::ClockOutput => false,
    }
}

// Takes what a port in this role has of them.
fn take_times_of(role: &Role, bytes: &[u8]) -> Taken<Option<ClockTimes>>
    ensures { Takes (TimesIf (is_asked role.now)) bytes.now result }
{
    take_times_if(is_asked(role), bytes)
}

fn take_times_if(asked: bool, bytes: &[u8]) -> Taken<Option<ClockTimes>>
    ensures { Takes (TimesIf asked) bytes.now result }
{
    if !asked {
        return Taken::Got {
            value: None,
            length: 0,
        };
    }
    match take_times(bytes) {
        Taken::Got { value, length } => Taken::Got {
            value: Some(value),
            length,
        },
        Taken::NeedMore => Taken::NeedMore,
        Taken::Bad { at } => Taken::Bad { at },
    }
}

/// Takes what the countdown and changing Clocks are armed for.
pub(crate) fn take_armings(
    alloc: Global,
    held: &Snapshot,
    ports: &[Port],
    bytes: &[u8],
) -> Result<Taken<Items<Arming>>, AllocError>
    requires before { held.now.point < held.now.plan.stop }
    requires near { held.now.plan.stop ≤ 2 ^ 62 }
    ensures { IfOk result (λ taken. Takes (Each (ArmingOf held.now) ports.now) bytes.now taken) }
{
    let low = held.point + 1;
    let high = held.plan.stop;
    let mut values = Vec::new(alloc);
    let mut done = 0;
    for port in ports {
        match take_arming_of(low, high, &port.role, &bytes[done..]) {
            Taken::Got { value, length } => {
                values.push(value)?;
                done += length;
            }
            Taken::NeedMore => return Ok(Taken::NeedMore),
            Taken::Bad { at } => return Ok(Taken::Bad { at: done + at }),
        }
    }
    Ok(Taken::Got {
        value: Items::from_vec(values),
        length: done,
    })
}

// Whether a port is a countdown or changing Clock.
fn may_be_armed(role: &Role) -> bool
    ensures { result ≡ may_be_armed role.now }
{
    match role {
        Role::TimeClock {
            timing: Timing::Countdown,
        }
        | Role::TimeClock {
            timing: Timing::Changing,
        } => true,
        Role::TimeClock {
            timing: Timing::Periodic { .. },
        }
        | Role::TimeClock {
            timing: Timing::Answered,
        }
        | Role::Input { .. }
        | Role::Output
        | Role::ClockInput { .. }
        | Role::ClockOutput => false,
    }
}

// Takes what a port in this role has of it.
fn take_arming_of(low: u64, high: u64, role: &Role, bytes: &[u8]) -> Taken<Arming>
    requires some { low ≤ high }
    requires near { high ≤ 2 ^ 62 }
    ensures { Takes (ArmingIf low high (may_be_armed role.now)) bytes.now result }
{
    take_arming_if(low, high, may_be_armed(role), bytes)
}

fn take_arming_if(low: u64, high: u64, may: bool, bytes: &[u8]) -> Taken<Arming>
    requires some { low ≤ high }
    requires near { high ≤ 2 ^ 62 }
    ensures { Takes (ArmingIf low high may) bytes.now result }
{
    if !may {
        return Taken::Got {
            value: Arming::NoClock,
            length: 0,
        };
    }
    match take_optional(bytes, 1, between(low, high)) {
        Taken::Got { value, length } => Taken::Got {
            value: arming_of(value),
            length,
        },
        Taken::NeedMore => Taken::NeedMore,
        Taken::Bad { at } => Taken::Bad { at },
    }
}

fn arming_of(point: Option<u64>) -> Arming
    ensures { result ≡ arming_of point }
{
    match point {
        Some(point) => Arming::At(point),
        None => Arming::Unarmed,
    }
}

/// Takes the event time of each component, which has none where it has no event mode.
pub(crate) fn take_events(
    alloc: Global,
    held: &Snapshot,
    components: &[Component],
    bytes: &[u8],
) -> Result<Taken<Items<Option<u64>>>, AllocError>
    requires before { held.now.point < held.now.plan.stop }
    requires near { held.now.plan.stop ≤ 2 ^ 62 }
    ensures { IfOk result (λ taken. Takes (Each (EventOf held.now) components.now) bytes.now
        taken) }
{
    let low = held.point + 1;
    let high = held.plan.stop;
    let mut values = Vec::new(alloc);
    let mut done = 0;
    for component in components {
        match take_event_of(low, high, component.shape.has_event_mode, &bytes[done..]) {
            Taken::Got { value, length } => {
                values.push(value)?;
                done += length;
            }
            Taken::NeedMore => return Ok(Taken::NeedMore),
            Taken::Bad { at } => return Ok(Taken::Bad { at: done + at }),
        }
    }
    Ok(Taken::Got {
        value: Items::from_vec(values),
        length: done,
    })
}

// Takes an event time, where there may be one.
fn take_event_of(low: u64, high: u64, may: bool, bytes: &[u8]) -> Taken<Option<u64>>
    requires some { low ≤ high }
    requires near { high ≤ 2 ^ 62 }
    ensures { Takes (Optional (if may then 1 else 0) (between low high)) bytes.now result }
{
    take_optional(bytes, if may { 1 } else { 0 }, between(low, high))
}
