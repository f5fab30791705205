ghost use Rattle.std.specs.Prelude.{◌≡◌, ◌⊎◌, ◌≤◌, ◌<◌, ◌==◌, [], ℕ, Contains, Some, None, OnOk, All, false, true, length, slice_index_or, if◌then◌else◌};
ghost use Rattle.std.specs.List.{list_any};
ghost use Rattle.fmi_calls.specs.declared.call.Call.TheVariants as Call;
ghost use Rattle.system_model.specs.Values.{value, is_active, is_present};
ghost use Rattle.sim_base.specs.declared.numbers.PortId.{PortId};
ghost use Rattle.system_model.specs.declared.system.Port.{Port};
ghost use Rattle.system_model.specs.Ports.{port_numbers};
ghost use Rattle.system_model.specs.Sound.{IsSound};
ghost use Rattle.run_model.specs.Machines.{AreFitting};
ghost use Rattle.slot_calls.specs.Slots.{LiveSlot, Stands, instances};
ghost use Rattle.slot_calls.specs.Stage.{shapes, shapes_of};
ghost use Rattle.event_iteration.specs.Explains.{Walks};
ghost use Rattle.event_iteration.specs.Initialization.{IsPlaced};
ghost use Rattle.event_iteration.specs.Instants.{BeginsInstant, HasPlacedClocks, SolvesInInstant, asks_in_instant, in_instant, is_read_in_instant, is_silent_in_instant, seen_or, takes_in_instant};
ghost use Rattle.event_iteration.specs.Clocks.{AreTicks, StandsAt, is_due_at, timers_in};
ghost use Rattle.event_iteration.specs.Intervals.{TellsTicks};
ghost use Rattle.event_iteration.specs.Participants.{AreParticipants, AreUnfedAwaited, IsIdleQueue, Passes};
ghost use Rattle.event_iteration.specs.Questions.{AreActive, modes};
ghost use Rattle.event_iteration.specs.BadEnds.{or_bad};
ghost use Rattle.event_iteration.specs.Waits.{WalkOutcome};

use crate::Participants;
use crate::initialization::{fed, set_call};
use crate::intervals::is_time_clock;
use crate::turn::has_event_mode;
use crate::walk::{Turns, Waiting, go_on, send_waiting};
use fmi_calls::{Call, Reply};
use fmu_peer::{Peer, Slot};
use port_values::PortValues;
use sim_base::PortId;
use slot_calls::{BadAnswer, value_in};
use system_model::{Port, Role, System};
use tick_schedule::{Pending, Schedule, plain};

// The call that the turn of a port sends.
fn call_of(
    port: &Port,
    has_event_mode: bool,
    is_first: bool,
    ticks: bool,
    values: &PortValues,
) -> Option<Call>
    requires placed { IsPlaced (length values.now) port.now }
    requires clocks { HasPlacedClocks (length values.now) port.now }
    ensures { result ≡ asks_in_instant port.now.role port.now has_event_mode is_first ticks values.now }
{
    match &port.role {
        Role::Input { feed: Some(feed) } => {
            if has_event_mode && is_present(port, values) {
                set_call(port, fed(port.kind, feed, values))
            } else {
                None
            }
        }
        Role::Output => {
            if is_read(port, has_event_mode, is_first, values) {
                Some(Call::Get {
                    kind: port.kind,
                    reference: port.reference,
                })
            } else {
                None
            }
        }
        Role::ClockInput { feed: Some(feed) } => {
            set_clock_if(port, is_active(values.at(feed.from.0 as usize)))
        }
        Role::ClockOutput => Some(Call::GetClock {
            reference: port.reference,
        }),
        Role::TimeClock { .. } => set_clock_if(port, ticks),
        Role::Input { feed: None } | Role::ClockInput { feed: None } => None,
    }
}

// The SetClock of a port, where it is active.
fn set_clock_if(port: &Port, is_active: bool) -> Option<Call>
    ensures { result ≡ (if is_active then Some (Call.SetClock port.now.reference) else None) }
{
    if is_active {
        Some(Call::SetClock {
            reference: port.reference,
        })
    } else {
        None
    }
}

// Whether a Clock of this value is active.
pub(crate) fn is_active(value: Option<i128>) -> bool
    ensures { result ≡ is_active value }
{
    value == Some(1)
}

// Whether a port is present: a Clock is always, and so is a port without Clocks; another where one of its Clocks is active.
pub(crate) fn is_present(port: &Port, values: &PortValues) -> bool
    requires clocks { HasPlacedClocks (length values.now) port.now }
    ensures { result ≡ is_present port.now values.now }
{
    match &port.role {
        Role::ClockInput { .. } | Role::ClockOutput | Role::TimeClock { .. } => true,
        Role::Input { .. } | Role::Output => {
            port.clocks.len() == 0 || some_active(port.clocks.as_slice(), values)
        }
    }
}

fn some_active(clocks: &[PortId], values: &PortValues) -> bool
    requires clocks { All (λ (c : PortId). c.0 < length values.now) clocks.now }
    ensures { result ≡ list_any (λ (c : PortId). is_active (value values.now c.0)) clocks.now }
{
    clocks
        .iter()
        .any(|clock| is_active(values.at(clock.0 as usize)))
}

// Whether an output is read.
fn is_read(port: &Port, has_event_mode: bool, is_first: bool, values: &PortValues) -> bool
    requires clocks { HasPlacedClocks (length values.now) port.now }
    ensures { result ≡ is_read_in_instant port.now has_event_mode is_first values.now }
{
    if has_event_mode {
        is_present(port, values)
    } else {
        is_first
    }
}

// Whether an input sends nothing, whatever its source's value is.
fn is_silent(port: &Port, has_event_mode: bool, values: &PortValues) -> bool
    requires clocks { HasPlacedClocks (length values.now) port.now }
    ensures { result ≡ is_silent_in_instant port.now.role port.now has_event_mode values.now }
{
    match &port.role {
        Role::Input { .. } => !(has_event_mode && is_present(port, values)),
        Role::Output | Role::ClockInput { .. } | Role::ClockOutput | Role::TimeClock { .. } =>
            false,
    }
}

// The value that a port takes with this reply; last is the one that it has.
fn value_of(
    port: &Port,
    ticks: bool,
    values: &PortValues,
    last: Option<i128>,
    reply: &Option<Reply>,
) -> Option<i128>
    requires placed { IsPlaced (length values.now) port.now }
    requires clocks { HasPlacedClocks (length values.now) port.now }
    ensures { result ≡ takes_in_instant port.now.role port.now ticks values.now last reply.now }
{
    match &port.role {
        Role::Input { feed: Some(feed) } => {
            if is_present(port, values) {
                fed(port.kind, feed, values)
            } else {
                last
            }
        }
        Role::Output | Role::ClockOutput => seen_or(port, last, reply),
        Role::ClockInput { feed: Some(feed) } => values.at(feed.from.0 as usize),
        Role::ClockInput { feed: None } => Some(0),
        Role::TimeClock { .. } => Some(i128::from(ticks)),
        Role::Input { feed: None } => None,
    }
}

// The value that a reply carries, or the last where there is no reply.
fn seen_or(port: &Port, last: Option<i128>, reply: &Option<Reply>) -> Option<i128>
    ensures { result ≡ seen_or port.now last reply.now }
{
    match reply {
        Some(reply) => value_in(port.kind, reply),
        None => last,
    }
}

// The turns of an instant at a point, the first there or a later one.
#[derive(Drop)]
struct InInstant<'a> {
    schedule: &'a Schedule,
    t: u64,
    is_first: bool,
}

impl<'a> InInstant<'a> {
    // Whether a port is a time-based Clock that ticks. Of other ports the schedule isn't asked.
    fn ticks(&self, system: &System, p: usize) -> bool
        requires stands { StandsAt system.now self.now.t self.now.is_first self.now.schedule.now }
        requires port { p < length system.now.ports }
        ensures { result ≡ is_due_at self.now.schedule.now self.now.t p }
    {
        let port = &system.ports.as_slice()[p];
        if !is_time_clock(&port.role) {
            return false;
        }
        plain::due(self.schedule, p, self.t)
    }
}

impl<'a> Turns for InInstant<'a> {
    ghost rules = { λ i system. in_instant (is_due_at i.schedule.now i.t) i.is_first };

    ghost holds = { λ i system. StandsAt system i.t i.is_first i.schedule.now };

    fn call_of(&self, system: &System, p: usize, values: &PortValues) -> Option<Call> {
        let port = &system.ports.as_slice()[p];
        let ticks = self.ticks(system, p);
        let has_event_mode = has_event_mode(system, port.component);
        call_of(port, has_event_mode, self.is_first, ticks, values)
    }

    fn is_silent(&self, system: &System, p: usize, values: &PortValues) -> bool {
        let port = &system.ports.as_slice()[p];
        let has_event_mode = has_event_mode(system, port.component);
        is_silent(port, has_event_mode, values)
    }

    fn value_of(
        &self,
        system: &System,
        p: usize,
        values: &PortValues,
        last: Option<i128>,
        reply: &Option<Reply>,
    ) -> Option<i128> {
        let port = &system.ports.as_slice()[p];
        let ticks = self.ticks(system, p);
        value_of(port, ticks, values, last, reply)
    }
}

// The first place from k on at which a port takes part: one that always does, or one of those that are still to be taken.
fn next_place(participants: &Participants, pending: &Pending, k: usize) -> usize
    requires on { k ≤ slice_index_or participants.now.steady.next.items k k }
    requires ahead { (j : ℕ) → slice_index_or pending.now j false ≡ true → k ≤ j }
    ensures after { k ≤ result }
    ensures steady { result ≤ slice_index_or participants.now.steady.next.items k k }
    ensures idle { (j : ℕ) → j < result → slice_index_or pending.now j false ≡ false }
{
    let place = participants.steady.from(k);
    match pending.first() {
        Some(other) => if other < place { other } else { place },
        None => place,
    }
}

// These places are still to be taken.
fn await_ticks(places: &[usize], pending: &mut Pending)
    requires { All (λ (j : ℕ). j < length pending.old) places.now }
    ensures size { length pending.new ≡ length pending.old }
    ensures kept { (j : ℕ) → slice_index_or pending.old j false ≡ true →
        slice_index_or pending.new j false ≡ true }
    ensures there { (j : ℕ) → Contains places.now j → slice_index_or pending.new j false ≡ true }
    ensures only { (j : ℕ) → slice_index_or pending.new j false ≡ true →
        (slice_index_or pending.old j false ≡ true) ⊎ Contains places.now j }
{
    for place in places {
        pending.add(*place);
    }
}

// The place k, of a port p, was taken: where that is an active Clock, the places that wait for it are still to be taken.
fn pass_place(
    participants: &Participants,
    pending: &mut Pending,
    k: usize,
    p: usize,
    is_active: bool,
)
    requires place { k < length pending.old }
    requires port { p < length participants.now.at_ticks }
    requires rows { All (λ (j : ℕ). j < length pending.old)
        (slice_index_or participants.now.at_ticks p []) }
    ensures { Passes participants.now.at_ticks k p is_active pending.old pending.new }
{
    pending.take(k);
    if !is_active {
        return;
    }
    let places = participants.at_ticks.row(p);
    await_ticks(places, pending);
}

// Takes the ports that take part in an instant, in its order, up to the first answer that isn't good.
fn walk_participants<L: Peer>(
    slots: &mut [Slot<L>],
    system: &System,
    participants: &Participants,
    pending: &mut Pending,
    turns: &InInstant,
    values: &mut PortValues,
    bad: &mut BadAnswer,
) -> Option<()>
    requires sound { IsSound system.now }
    requires stands { StandsAt system.now turns.now.t turns.now.is_first turns.now.schedule.now }
    requires participants { AreParticipants system.now participants.now }
    requires pending { length pending.old ≡ length system.now.instant_order }
    requires shapes { shapes (instances L.view slots.old) ≡ shapes_of system.now }
    requires live { All (LiveSlot L.view) slots.old }
    requires begins { All (Stands BeginsInstant L.view) slots.old }
    requires values { length values.old ≡ length system.now.ports }
    requires fitting { AreFitting system.now values.old }
    requires awaited { AreUnfedAwaited system.now values.old pending.old }
    ensures live { OnOk (or_bad result bad.new) (All (LiveSlot L.view) slots.new) }
    ensures goes { WalkOutcome system.now (in_instant (is_due_at turns.now.schedule.now turns.now.t)
        turns.now.is_first) values.old (port_numbers system.now.instant_order) values.new
        (instances L.view slots.old) (instances L.view slots.new) (or_bad result bad.new) }
    ensures fitting { AreFitting system.now values.new }
    ensures pending { length pending.new ≡ length pending.old }
    ensures idle { OnOk (or_bad result bad.new) (IsIdleQueue pending.new) }
{
    let order = system.instant_order.as_slice();
    let mut waiting = Waiting::none();
    let mut k = next_place(participants, pending, 0);
    while k < order.len() {
        match go_on(slots, system, turns, order, values, k, &mut waiting, bad) {
            Some(()) => {}
            None => return None,
        }
        let p = order[k].0 as usize;
        let ticks = is_active(values.at(p));
        pass_place(participants, pending, k, p, ticks);
        k = next_place(participants, pending, k + 1);
    }
    match send_waiting(slots, system, turns, values, &mut waiting, bad) {
        Some(()) => return Some(()),
        None => return None,
    }
}

/// Finds the values of an instant at a point, in the stored order (FMI 3.0, 4.2.1: Event Mode, Step Mode; 2.2.8: Clocks), from
/// those of the instant before. With event mode it makes each input Clock active that ticks or whose source is active, asks
/// each output Clock, sets each connected input that is present to what its path makes of its source's value and reads each
/// output that is present; a port that is absent keeps its value. Without event mode it reads each output in the first instant
/// at a point alone, and inputs take what comes to them from their sources, without a call. Calls that read outputs of one
/// FMU, or set inputs of it, and follow one another are handed on together, 64 at a time. It stops at the first answer that
/// isn't good, which then stands in `bad`: so an instant that goes well moves one word. The schedule has a place for each port
/// and tells which time-based Clocks tick; `is_first` says that it is the first instant at the point, a count. Of the stored
/// order it looks at the places of the participants alone, and at those with Clocks where one of them ticks: `pending` has a
/// place for each of the order, and none of them is to be taken before or after a good instant.
pub fn instant<L: Peer>(
    slots: &mut [Slot<L>],
    system: &System,
    participants: &Participants,
    pending: &mut Pending,
    schedule: &Schedule,
    t: u64,
    is_first: bool,
    values: &mut PortValues,
    bad: &mut BadAnswer,
) -> Option<()>
    requires sound { IsSound system.now }
    requires participants { AreParticipants system.now participants.now }
    requires pending { length pending.old ≡ length system.now.instant_order }
    requires stands { StandsAt system.now t is_first schedule.now }
    requires shapes { shapes (instances L.view slots.old) ≡ shapes_of system.now }
    requires live { All (LiveSlot L.view) slots.old }
    requires begins { All (Stands BeginsInstant L.view) slots.old }
    requires values { length values.old ≡ length system.now.ports }
    requires fitting { AreFitting system.now values.old }
    requires awaited { AreUnfedAwaited system.now values.old pending.old }
    ensures live { OnOk (or_bad result bad.new) (All (LiveSlot L.view) slots.new) }
    ensures walks { Walks system.now (in_instant (is_due_at schedule.now t) is_first) values.old
        (port_numbers system.now.instant_order) values.new (instances L.view slots.old)
        (instances L.view slots.new) (or_bad result bad.new) }
    ensures values { OnOk (or_bad result bad.new) (length values.new ≡ length system.now.ports) }
    ensures fitting { AreFitting system.now values.new }
    ensures awaited { OnOk (or_bad result bad.new)
        (AreUnfedAwaited system.now values.new pending.new) }
    ensures pending { length pending.new ≡ length pending.old }
    ensures idle { OnOk (or_bad result bad.new) (IsIdleQueue pending.new) }
    ensures due { (n : ℕ) → (n == 0) ≡ is_first → AreTicks system.now schedule.now.start
        (timers_in schedule.now) t n (is_due_at schedule.now t) }
    ensures ticks { OnOk (or_bad result bad.new) (TellsTicks system.now schedule.now t values.new) }
    ensures active { OnOk (or_bad result bad.new)
        (AreActive system.now values.new (modes (instances L.view slots.new))) }
    ensures solved { OnOk (or_bad result bad.new)
        (SolvesInInstant system.now schedule.now t is_first values.old values.new
        (instances L.view slots.old) (instances L.view slots.new)) }
{
    let turns = InInstant {
        schedule,
        t,
        is_first,
    };
    match walk_participants(slots, system, participants, pending, &turns, values, bad) {
        Some(()) => Some(()),
        None => None,
    }
}
