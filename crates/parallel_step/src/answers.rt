ghost use Rattle.std.specs.Prelude.{◌≡◌, ◌≤◌, ◌^◌, is_some, length};
ghost use Rattle.std.specs.List.{list_any};
ghost use Rattle.parallel_step.specs.Lifted.{bad_from, bad_of};
ghost use Rattle.parallel_step.specs.Round.{call_in};

use fmu_peer::{Job, Peer, Slot, Why};
use sim_base::CompId;
use slot_calls::BadAnswer;

/// The first of the answers to the slots' jobs that isn't good, that of the least component.
pub fn first_bad<L: Peer>(slots: &[Slot<L>]) -> Option<BadAnswer>
    requires { length slots.now ≤ 2 ^ 32 }
    ensures { result ≡ bad_from 0 slots.now }
{
    for (place, slot) in slots.iter().enumerate() {
        if let Some(why) = bad_of(slot) {
            return Some(BadAnswer {
                component: CompId(place as u32),
                why,
            });
        }
    }
    None
}

/// Whether one of the answers to the slots' jobs isn't good.
pub fn has_bad<L: Peer>(slots: &[Slot<L>]) -> bool
    ensures { result ≡ is_some (bad_from 0 slots.now) }
{
    is_any_bad(slots)
}

fn is_any_bad<L: Peer>(slots: &[Slot<L>]) -> bool
    ensures { result ≡ list_any (λ slot. is_some (bad_of (call_in slot.job) slot.answer)) slots.now }
{
    slots.iter().any(|slot| is_bad(slot))
}

fn is_bad<L: Peer>(slot: &Slot<L>) -> bool
    ensures { result ≡ is_some (bad_of (call_in slot.now.job) slot.now.answer) }
{
    match slot.job {
        Job::Nothing => false,
        _ => matches!(slot.answer, Some(Err(_))),
    }
}

fn bad_of<L: Peer>(slot: &Slot<L>) -> Option<Why>
    ensures { result ≡ bad_of (call_in slot.now.job) slot.now.answer }
{
    if matches!(slot.job, Job::Nothing) {
        return None;
    }
    match slot.answer {
        Some(Err(why)) => Some(why),
        _ => None,
    }
}
