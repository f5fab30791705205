//! The walks through the ports of a system, and what follows an instant.
ghost use Rattle.std.specs.Prelude.{All, OnOk, length, ℕ, ◌==◌, ◌^◌, ◌≡◌, ◌≤◌};
ghost use Rattle.event_iteration.specs.BadEnds.{or_bad};
ghost use Rattle.event_iteration.specs.Clocks.{AreTicks, StandsAt, is_due_at, timers_in};
ghost use Rattle.event_iteration.specs.Explains.{Walks};
ghost use Rattle.event_iteration.specs.Instants.{BeginsInstant, IsRunning, SolvesInInstant, in_instant};
ghost use Rattle.event_iteration.specs.Intervals.{TellsTicks};
ghost use Rattle.event_iteration.specs.Participants.{AreParticipants, AreUnfedAwaited, IsIdleQueue};
ghost use Rattle.event_iteration.specs.Questions.{AreActive, modes};
ghost use Rattle.event_iteration.specs.Settings.{DepartsForMachines, IsUnset, before_step, port_order};
ghost use Rattle.event_iteration.specs.Updates.{AreLater, LeadsForMachines, Updates, with_events};
ghost use Rattle.run_model.specs.Machines.{AreFitting};
ghost use Rattle.slot_calls.specs.Slots.{LiveSlot, Stands, instances};
ghost use Rattle.slot_calls.specs.Stage.{shapes, shapes_of};
ghost use Rattle.system_model.specs.Ports.{port_numbers};
ghost use Rattle.system_model.specs.Sound.{IsSound};

use event_iteration::{Participants, Updated, instant, set_inputs, update};
use fmu_peer::{Peer, Slot};
use port_values::PortValues;
use slot_calls::BadAnswer;
use system_model::System;
use tick_schedule::{Pending, Schedule};

/// Finds the values of an instant at a point, from those of the instant before.
pub fn take_instant<L: Peer>(
    slots: &mut [Slot<L>],
    system: &System,
    participants: &Participants,
    pending: &mut Pending,
    schedule: &Schedule,
    t: u64,
    is_first: bool,
    values: &mut PortValues,
    bad: &mut BadAnswer,
) -> Option<()>
    requires sound { IsSound system.now }
    requires participants { AreParticipants system.now participants.now }
    requires pending { length pending.old ≡ length system.now.instant_order }
    requires stands { StandsAt system.now t is_first schedule.now }
    requires shapes { shapes (instances L.view slots.old) ≡ shapes_of system.now }
    requires live { All (LiveSlot L.view) slots.old }
    requires begins { All (Stands BeginsInstant L.view) slots.old }
    requires values { length values.old ≡ length system.now.ports }
    requires fitting { AreFitting system.now values.old }
    requires awaited { AreUnfedAwaited system.now values.old pending.old }
    ensures live { OnOk (or_bad result bad.new) (All (LiveSlot L.view) slots.new) }
    ensures walks { Walks system.now (in_instant (is_due_at schedule.now t) is_first) values.old
        (port_numbers system.now.instant_order) values.new (instances L.view slots.old)
        (instances L.view slots.new) (or_bad result bad.new) }
    ensures values { OnOk (or_bad result bad.new) (length values.new ≡ length system.now.ports) }
    ensures fitting { AreFitting system.now values.new }
    ensures awaited { OnOk (or_bad result bad.new)
        (AreUnfedAwaited system.now values.new pending.new) }
    ensures pending { length pending.new ≡ length pending.old }
    ensures idle { OnOk (or_bad result bad.new) (IsIdleQueue pending.new) }
    ensures due { (n : ℕ) → (n == 0) ≡ is_first → AreTicks system.now schedule.now.start
        (timers_in schedule.now) t n (is_due_at schedule.now t) }
    ensures ticks { OnOk (or_bad result bad.new) (TellsTicks system.now schedule.now t values.new) }
    ensures active { OnOk (or_bad result bad.new)
        (AreActive system.now values.new (modes (instances L.view slots.new))) }
    ensures solved { OnOk (or_bad result bad.new)
        (SolvesInInstant system.now schedule.now t is_first values.old values.new
        (instances L.view slots.old) (instances L.view slots.new)) }
{
    instant(
        slots,
        system,
        participants,
        pending,
        schedule,
        t,
        is_first,
        values,
        bad,
    )
}

/// Sets each connected input that has a value of the FMUs without event mode, before a step. What `last` has, as many values of
/// the instant before, means nothing.
pub fn set_all_inputs<L: Peer>(
    slots: &mut [Slot<L>],
    system: &System,
    participants: &Participants,
    last: &PortValues,
    values: &PortValues,
) -> Result<(), BadAnswer>
    requires sound { IsSound system.now }
    requires participants { AreParticipants system.now participants.now }
    requires shapes { shapes (instances L.view slots.old) ≡ shapes_of system.now }
    requires live { All (LiveSlot L.view) slots.old }
    requires unset { All (Stands IsUnset L.view) slots.old }
    requires values { length values.now ≡ length system.now.ports }
    requires last { length last.now ≡ length system.now.ports }
    requires last_fitting { AreFitting system.now last.now }
    requires fitting { AreFitting system.now values.now }
    ensures live { OnOk result (All (LiveSlot L.view) slots.new) }
    ensures walks { Walks system.now (before_step values.now) values.now
        (port_order system.now) values.now (instances L.view slots.old)
        (instances L.view slots.new) result }
    ensures departs { OnOk result (DepartsForMachines system.now values.now
        (instances L.view slots.old) (instances L.view slots.new)) }
{
    let _last = last;
    set_inputs(slots, system, participants, values)
}

/// Asks each FMU with event mode for what follows the instant at a point.
pub fn update_all<L: Peer>(
    slots: &mut [Slot<L>],
    system: &System,
    schedule: &mut Schedule,
    t: u64,
) -> Result<Updated, BadAnswer>
    requires few { length slots.old ≤ 2 ^ 32 }
    requires shapes { shapes (instances L.view slots.old) ≡ shapes_of system.now }
    requires live { All (LiveSlot L.view) slots.old }
    requires running { All (Stands IsRunning L.view) slots.old }
    requires components { length schedule.old.events ≡ length system.now.components }
    ensures live { OnOk result (All (LiveSlot L.view) slots.new) }
    ensures clocks { schedule.new ≡ with_events schedule.old schedule.new.events }
    ensures components { length schedule.new.events ≡ length schedule.old.events }
    ensures later { OnOk result (AreLater t schedule.new.events) }
    ensures updates { Updates t schedule.new.events (instances L.view slots.old)
        (instances L.view slots.new) result }
    ensures leads { LeadsForMachines system.now t schedule.new.events (instances L.view slots.old)
        (instances L.view slots.new) result }
{
    update(slots, system, schedule, t)
}
