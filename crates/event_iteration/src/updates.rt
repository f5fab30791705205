ghost use Rattle.std.specs.Prelude.{◌≡◌, ◌≤◌, ◌^◌, ◌||◌, OnOk, All, length};
ghost use Rattle.run_model.specs.AfterInstant.{asks_again, asks_for_end, event_after};
ghost use Rattle.slot_calls.specs.Slots.{LiveSlot, Stands, instances};
ghost use Rattle.slot_calls.specs.Stage.{shapes, shapes_of};
ghost use Rattle.event_iteration.specs.Instants.{IsRunning};
ghost use Rattle.event_iteration.specs.Updates.{AreLater, LeadsForMachines, Updates, with_events};

use fmi_calls::{Call, Content, Reply};
use fmu_peer::{Peer, Slot};
use sim_base::CompId;
use slot_calls::{BadAnswer, send};
use system_model::System;
use tick_schedule::{Schedule, plain};

/// What the answers to the Updates of an instant say: whether one asks for another instant at this point, and whether one
/// asks for the end of the run.
#[derive(Clone, Copy, Debug, PartialEq, Eq)]
pub struct Updated {
    pub again: bool,
    pub asked: bool,
}

/// Asks each FMU with event mode for what follows the instant at a point, in component order, up to the first answer that
/// isn't good (FMI 3.0, 4.2.1: fmi3UpdateDiscreteStates). Each answer takes the place of its FMU's event time: it has the one
/// that is asked for where that is after the point, and else none.
pub fn update<L: Peer>(
    slots: &mut [Slot<L>],
    system: &System,
    schedule: &mut Schedule,
    t: u64,
) -> Result<Updated, BadAnswer>
    requires few { length slots.old ≤ 2 ^ 32 }
    requires shapes { shapes (instances L.view slots.old) ≡ shapes_of system.now }
    requires live { All (LiveSlot L.view) slots.old }
    requires running { All (Stands IsRunning L.view) slots.old }
    requires components { length schedule.old.events ≡ length system.now.components }
    ensures live { OnOk result (All (LiveSlot L.view) slots.new) }
    ensures clocks { schedule.new ≡ with_events schedule.old schedule.new.events }
    ensures components { length schedule.new.events ≡ length schedule.old.events }
    ensures later { OnOk result (AreLater t schedule.new.events) }
    ensures updates { Updates t schedule.new.events (instances L.view slots.old)
        (instances L.view slots.new) result }
    ensures leads { LeadsForMachines system.now t schedule.new.events (instances L.view slots.old)
        (instances L.view slots.new) result }
{
    let components = system.components.as_slice();
    let mut updated = Updated {
        again: false,
        asked: false,
    };
    for place in 0..slots.len() {
        if !components[place].shape.has_event_mode {
            plain::event_at(schedule, place, None);
            continue;
        }
        match send(&mut slots[place], Call::Update) {
            Ok(reply) => {
                updated = with_reply(updated, &reply);
                plain::event_at(schedule, place, event_after(&reply, t));
            }
            Err(why) => {
                return Err(BadAnswer {
                    component: CompId(place as u32),
                    why,
                });
            }
        }
    }
    Ok(updated)
}

// What is told once one more has answered.
fn with_reply(updated: Updated, reply: &Reply) -> Updated
    ensures again { result.again ≡ (updated.again || asks_again reply.now) }
    ensures asked { result.asked ≡ (updated.asked || asks_for_end reply.now) }
{
    match reply {
        Reply::Done {
            content: Content::Update {
                again,
                terminate,
                ..
            },
            ..
        } => Updated {
            again: updated.again || *again,
            asked: updated.asked || *terminate,
        },
        _ => updated,
    }
}

// The event time that an answer at a point asks for, where it is after the point.
fn event_after(reply: &Reply, t: u64) -> Option<u64>
    ensures { result ≡ event_after t reply.now }
{
    match reply {
        Reply::Done {
            content: Content::Update {
                event_time: Some(time),
                ..
            },
            ..
        } => if t < *time { Some(*time) } else { None },
        _ => None,
    }
}
