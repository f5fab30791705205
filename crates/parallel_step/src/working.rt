ghost use Rattle.std.specs.Prelude.{◌≡◌, None, is_some, true};
ghost use Rattle.fmi_calls.specs.declared.call.Call.TheVariants as C;
ghost use Rattle.parallel_step.specs.Round.{CanBeSent, CanWork, Did, Works};

use fmu_peer::{Held, Job, Peer, Saved, Slot, Why};
use slot_calls::{is_fatal, is_terminating};

/// Does the job of a slot.
pub(crate) fn work<L: Peer>(slot: &mut Slot<L>)
    requires { CanWork L.view slot.old }
    ensures { Works L.view slot.old slot.new }
{
    let answer = match slot.job {
        Job::Nothing => return,
        Job::Save => save(slot),
        Job::Restore => restore(slot),
        Job::Free => free(slot),
        Job::Step { at, size } => step(slot, at, size),
    };
    slot.answer = Some(answer);
}

fn step<L: Peer>(slot: &mut Slot<L>, at: u64, size: u64) -> Result<bool, Why>
    requires { CanBeSent L.view slot.old (C.DoStep at size) }
    ensures { Did L.view (C.DoStep at size) slot.old slot.new result }
{
    let answer = match &mut slot.held {
        Held::Stepping(fmu) => fmu.do_step(at, size),
        _ => unreachable!(),
    };
    slot.is_fatal |= is_fatal(&answer);
    match answer {
        Ok(reply) => Ok(is_terminating(&reply)),
        Err(why) => Err(why),
    }
}

#[inline(never)]
fn save<L: Peer>(slot: &mut Slot<L>) -> Result<bool, Why>
    requires { CanBeSent L.view slot.old C.Save }
    ensures { Did L.view C.Save slot.old slot.new result }
{
    let answer = match &mut slot.held {
        Held::Stepping(fmu) => fmu.save(),
        _ => unreachable!(),
    };
    slot.is_fatal |= is_fatal(&answer);
    match answer {
        Ok(saved) => {
            keep(&mut slot.saved, saved);
            Ok(false)
        }
        Err(why) => Err(why),
    }
}

// Puts the token of a saved state where there is none.
fn keep(place: &mut Option<Saved>, saved: Saved)
    requires { place.old ≡ None }
    ensures { is_some place.new ≡ true }
{
    match place.replace(saved) {
        None => {}
        Some(_) => unreachable!(),
    }
}

#[inline(never)]
fn restore<L: Peer>(slot: &mut Slot<L>) -> Result<bool, Why>
    requires { CanBeSent L.view slot.old C.Restore }
    ensures { Did L.view C.Restore slot.old slot.new result }
{
    let answer = match (&mut slot.held, &slot.saved) {
        (Held::Stepping(fmu), Some(saved)) => fmu.restore(saved),
        _ => unreachable!(),
    };
    slot.is_fatal |= is_fatal(&answer);
    match answer {
        Ok(_) => Ok(false),
        Err(why) => Err(why),
    }
}

#[inline(never)]
fn free<L: Peer>(slot: &mut Slot<L>) -> Result<bool, Why>
    requires { CanBeSent L.view slot.old C.Free }
    ensures { Did L.view C.Free slot.old slot.new result }
{
    let saved = match slot.saved.take() {
        Some(saved) => saved,
        None => unreachable!(),
    };
    let answer = match &mut slot.held {
        Held::Stepping(fmu) => fmu.free(saved),
        _ => unreachable!(),
    };
    slot.is_fatal |= is_fatal(&answer);
    match answer {
        Ok(_) => Ok(false),
        Err(why) => Err(why),
    }
}
