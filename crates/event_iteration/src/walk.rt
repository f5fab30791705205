//! A walk through ports in an order, in which calls that read outputs of one FMU, or set inputs of it, wait and are sent
//! together.
ghost use Rattle.std.specs.Prelude.{◌≡◌, ◌+◌, ◌<◌, ◌≤◌, ◌++◌, ◌∷◌, ◌==◌, [], ℕ, Some, OnOk, All, IsTrue, if◌then◌else◌, length, map, get_or, true, List};
ghost use Rattle.std.specs.List.{list_any, slice_get};
ghost use Rattle.fmi_calls.specs.declared.call.Reply.{Reply};
ghost use Rattle.sim_base.specs.declared.numbers.PortId.{PortId};
ghost use Rattle.fmi_calls.specs.declared.call.Call.{Call};
ghost use Rattle.fmi_calls.specs.Kinds.{kind_of};
ghost use Rattle.system_model.specs.declared.system.Component.{Component};
ghost use Rattle.system_model.specs.declared.system.Port.{Port};
ghost use Rattle.system_model.specs.Ports.{port_numbers};
ghost use Rattle.system_model.specs.Sound.{IsSound};
ghost use Rattle.run_model.specs.Machines.{AreFitting};
ghost use Rattle.slot_calls.specs.Slots.{LiveSlot, instances};
ghost use Rattle.slot_calls.specs.Stage.{shapes, shapes_of};
ghost use Rattle.event_iteration.specs.BadEnds.{or_bad};
ghost use Rattle.event_iteration.specs.Turns.{MayTurn, TakesTurn};
ghost use Rattle.event_iteration.specs.Waits.{AreTurns, Gathered, GathersSome, IsOpen, IsReady, IsSilent, IsWay, IsWayOfCall, MayWalk, Moves, ReadsOrSets, Sends, StandsAfterReads, WalkOutcome, call_in, emptied, is_fed_by, passed_in, place, turned, waits_in};

use crate::turn::ask_if;
use fmi_calls::{BadStatus, Call, Kind, Reply};
use fmu_peer::{Peer, Slot, Why};
use port_values::PortValues;
use sim_base::{CompId, PortId};
use slot_calls::{BadAnswer, send_many};
use system_model::{Port, Role, System};

// The most calls that are sent together.
const MOST: usize = 64;

/// What the turn of each port is in a walk.
pub(crate) trait Turns {
    ghost use Rattle.event_iteration.specs.Turns.{Rules};
    ghost use Rattle.system_model.specs.declared.system.System.{System};

    /// The rules of the walk through a system.
    ghost rules: { Self → System → Rules };

    /// What the walk takes of the system for granted.
    ghost holds: { Self → System → Type 0 };

    /// The call that a port's turn sends.
    fn call_of(&self, system: &System, p: usize, values: &PortValues) -> Option<Call>
        requires sound { IsSound system.now }
        requires holds { holds self.now system.now }
        requires port { p < length system.now.ports }
        requires values { length values.now ≡ length system.now.ports }
        ensures { (port : Port) (c : Component) → slice_get system.now.ports p ≡ Some port →
            slice_get system.now.components port.component.0 ≡ Some c →
            result ≡ (rules self.now system.now).asks p port c values.now };

    /// Whether the port sends nothing, whatever its source's value is.
    fn is_silent(&self, system: &System, p: usize, values: &PortValues) -> bool
        requires sound { IsSound system.now }
        requires holds { holds self.now system.now }
        requires port { p < length system.now.ports }
        requires values { length values.now ≡ length system.now.ports }
        ensures { result ≡ true → IsSilent system.now (rules self.now system.now) p values.now };

    /// The value that a port takes with this reply; last is the one that it has.
    fn value_of(
        &self,
        system: &System,
        p: usize,
        values: &PortValues,
        last: Option<i128>,
        reply: &Option<Reply>,
    ) -> Option<i128>
        requires sound { IsSound system.now }
        requires holds { holds self.now system.now }
        requires port { p < length system.now.ports }
        requires values { length values.now ≡ length system.now.ports }
        ensures { (port : Port) → slice_get system.now.ports p ≡ Some port →
            result ≡ (rules self.now system.now).takes p port values.now last reply.now };
}

// What comes next in a walk.
#[derive(Clone, Copy, Debug)]
pub(crate) enum Way {
    // what waits is sent first
    Send,
    // the port sends nothing, but its source waits: it is taken with that
    Skip,
    // its call, which reads or sets a variable, waits
    Wait(Call),
    // it sends nothing, and is taken
    Quiet,
    // its call is sent, and it is taken
    Ask(Call),
}

/// The ports whose calls wait, in their order: all of one FMU, all to be read or all to be set.
#[derive(Drop)]
pub(crate) struct Waiting {
    ports: [u32; MOST],
    count: usize,
    // the call of the first of them
    first: Call,
    component: CompId,
    kind: Kind,
    // the inputs that were passed since, each fed by one that waits
    inputs: [u32; MOST],
    passed: usize,
}

impl Waiting {
    /// None waits.
    pub(crate) fn none() -> Waiting
        ensures none { result.count ≡ 0 }
        ensures passed { result.passed ≡ 0 }
        ensures kind { ReadsOrSets result.kind }
    {
        Waiting {
            ports: [0; MOST],
            count: 0,
            first: NO_CALL,
            component: CompId(0),
            kind: Kind::Get,
            inputs: [0; MOST],
            passed: 0,
        }
    }

    // Whether a call of this kind to this FMU may wait with those that do.
    fn is_open(&self, component: CompId, kind: Kind) -> bool
        ensures open { IsTrue result → IsOpen self.now component kind }
        ensures none { self.now.count ≡ 0 → IsTrue result }
    {
        self.count == 0 || (self.count < MOST && self.component == component && self.kind == kind)
    }

    // One more waits with its call.
    fn push(&mut self, number: u32, component: CompId, call: Call)
        requires few { self.old.count < 64 }
        ensures ports { waits_in self.new ≡ waits_in self.old ++ number ∷ [] }
        ensures count { self.new.count ≡ self.old.count + 1 }
        ensures first { self.new.first ≡ (if self.old.count == 0 then call else self.old.first) }
        ensures component { self.new.component ≡ component }
        ensures kind { self.new.kind ≡ kind_of call }
        ensures inputs { self.new.inputs ≡ self.old.inputs }
        ensures passed { self.new.passed ≡ self.old.passed }
    {
        if self.count == 0 {
            self.first = call;
        }
        self.ports[self.count] = number;
        self.count += 1;
        self.component = component;
        self.kind = call.kind();
    }

    // An input is passed, which is fed by one that waits.
    fn pass(&mut self, number: u32)
        requires few { self.old.passed < 64 }
        ensures inputs { passed_in self.new ≡ passed_in self.old ++ number ∷ [] }
        ensures passed { self.new.passed ≡ self.old.passed + 1 }
        ensures others { self.new ≡
            record self.old { inputs = self.new.inputs; passed = self.new.passed } }
    {
        self.inputs[self.passed] = number;
        self.passed += 1;
    }

    fn as_slice(&self) -> &[u32]
        requires { self.now.count ≤ 64 }
        ensures { result.now ≡ waits_in self.now }
    {
        &self.ports[..self.count]
    }

    fn inputs(&self) -> &[u32]
        requires { self.now.passed ≤ 64 }
        ensures { result.now ≡ passed_in self.now }
    {
        &self.inputs[..self.passed]
    }

    // How it goes on with a port.
    #[inline(always)]
    fn way_of<T: Turns>(&self, system: &System, turns: &T, p: usize, values: &PortValues) -> Way
        requires sound { IsSound system.now }
        requires holds { T.holds turns.now system.now }
        requires port { p < length system.now.ports }
        requires values { length values.now ≡ length system.now.ports }
        requires few { self.now.count ≤ 64 }
        ensures { IsWay system.now (T.rules turns.now system.now) self.now p values.now result }
    {
        let port = &system.ports.as_slice()[p];
        if is_fed(self.as_slice(), port) {
            return if self.passed < MOST && turns.is_silent(system, p, values) {
                Way::Skip
            } else {
                Way::Send
            };
        }
        match turns.call_of(system, p, values) {
            None => Way::Quiet,
            Some(call) => self.way_of_call(port.component, call),
        }
    }

    // How it goes on with a call to this FMU.
    fn way_of_call(&self, component: CompId, call: Call) -> Way
        ensures { IsWayOfCall self.now component call result }
    {
        let kind = call.kind();
        match kind {
            Kind::Get | Kind::Set => {
                if self.is_open(component, kind) {
                    Way::Wait(call)
                } else {
                    Way::Send
                }
            }
            _ => {
                if self.count == 0 {
                    Way::Ask(call)
                } else {
                    Way::Send
                }
            }
        }
    }
}

// Whether one of these feeds an input.
fn is_fed(ports: &[u32], port: &Port) -> bool
    ensures { result ≡ is_fed_by ports.now port.now.role }
{
    match &port.role {
        Role::Input { feed: Some(feed) } => has(ports, feed.from.0),
        Role::Input { feed: None }
        | Role::Output
        | Role::ClockInput { .. }
        | Role::ClockOutput
        | Role::TimeClock { .. } => false,
    }
}

fn has(ports: &[u32], p: u32) -> bool
    ensures { result ≡ list_any (λ (x : ℕ). x == p) ports.now }
{
    ports.iter().any(|x| *x == p)
}

// Takes a port in its turn, whose call doesn't wait.
fn take<L: Peer, T: Turns>(
    slots: &mut [Slot<L>],
    system: &System,
    turns: &T,
    values: &mut PortValues,
    p: usize,
    call: Option<Call>,
    bad: &mut BadAnswer,
) -> Option<()>
    requires sound { IsSound system.now }
    requires holds { T.holds turns.now system.now }
    requires port { p < length system.now.ports }
    requires shapes { shapes (instances L.view slots.old) ≡ shapes_of system.now }
    requires there { All (λ (port : Port). port.component.0 < length system.now.components)
        system.now.ports }
    requires values { length values.old ≡ length system.now.ports }
    requires live { All (LiveSlot L.view) slots.old }
    requires call { (port : Port) (c : Component) → slice_get system.now.ports p ≡ Some port →
        slice_get system.now.components port.component.0 ≡ Some c →
        call ≡ (T.rules turns.now system.now).asks p port c values.old }
    requires may { MayTurn system.now (T.rules turns.now system.now) p values.old
        (instances L.view slots.old) }
    ensures live { OnOk (or_bad result bad.new) (All (LiveSlot L.view) slots.new) }
    ensures turn { TakesTurn system.now (T.rules turns.now system.now) p values.old values.new
        (instances L.view slots.old) (instances L.view slots.new) (or_bad result bad.new) }
{
    let port = &system.ports.as_slice()[p];
    match ask_if(&mut slots[port.component.0 as usize], call) {
        Ok(reply) => {
            let value = turns.value_of(system, p, values, values.at(p), &reply);
            values.put(p, value);
            Some(())
        }
        Err(why) => {
            put_bad(bad, port.component, why);
            None
        }
    }
}

// What stands at the places of a run that has fewer calls than there is room.
const NO_CALL: Call = Call::FreeInstance;

const NO_REPLY: Reply = Reply::Refused {
    kind: Kind::FreeInstance,
    status: BadStatus::Fatal,
};

/// What stands at the place of an answer that isn't good as long as each is good.
pub const NO_ANSWER: BadAnswer = BadAnswer {
    component: CompId(0),
    why: Why::Refused {
        call: NO_CALL,
        status: BadStatus::Fatal,
    },
};

// Writes the answer of a component, which isn't good, to its place.
#[cold]
#[inline(never)]
fn put_bad(bad: &mut BadAnswer, component: CompId, why: Why)
    ensures { bad.new ≡ record { component = component; why = why } }
{
    *bad = BadAnswer { component, why };
}

// Makes the calls of ports that have one.
fn make_calls<T: Turns>(
    system: &System,
    turns: &T,
    values: &PortValues,
    ports: &[u32],
    calls: &mut [Call],
)
    requires sound { IsSound system.now }
    requires holds { T.holds turns.now system.now }
    requires values { length values.now ≡ length system.now.ports }
    requires within { All (λ (p : ℕ). p < length system.now.ports) ports.now }
    requires places { length calls.old ≡ length ports.now }
    ensures { (made : List Call) →
        map (call_in system.now (T.rules turns.now system.now) values.now) ports.now ≡
        map (λ (c : Call). Some c) made → calls.new ≡ made }
{
    for i in 0..ports.len() {
        calls[i] = turns
            .call_of(system, ports[i] as usize, values)
            .unwrap_or(NO_CALL);
    }
}

// Writes the values that ports take with these replies.
fn take_replied<T: Turns>(
    system: &System,
    turns: &T,
    values: &mut PortValues,
    ports: &[u32],
    replies: &[Reply],
)
    requires sound { IsSound system.now }
    requires holds { T.holds turns.now system.now }
    requires values { length values.old ≡ length system.now.ports }
    requires within { All (λ (p : ℕ). p < length system.now.ports) ports.now }
    requires places { length replies.now ≡ length ports.now }
    ensures { values.new ≡ turned system.now (T.rules turns.now system.now) ports.now
        (map (λ (r : Reply). Some r) replies.now) values.old }
{
    for i in 0..ports.len() {
        let p = ports[i] as usize;
        let value = turns.value_of(system, p, values, values.at(p), &Some(replies[i]));
        values.put(p, value);
    }
}

// Writes the values that inputs take which were passed.
fn take_passed<T: Turns>(system: &System, turns: &T, values: &mut PortValues, inputs: &[u32])
    requires sound { IsSound system.now }
    requires holds { T.holds turns.now system.now }
    requires values { length values.old ≡ length system.now.ports }
    requires within { All (λ (p : ℕ). p < length system.now.ports) inputs.now }
    ensures { values.new ≡
        turned system.now (T.rules turns.now system.now) inputs.now [] values.old }
{
    for i in 0..inputs.len() {
        let p = inputs[i] as usize;
        let value = turns.value_of(system, p, values, values.at(p), &None);
        values.put(p, value);
    }
}

// Sends the calls that wait, of which there are as many as places, and writes the values that their ports take, and those
// of the inputs that were passed since.
fn send_run<L: Peer, T: Turns>(
    slots: &mut [Slot<L>],
    system: &System,
    turns: &T,
    values: &mut PortValues,
    waiting: &Waiting,
    calls: &mut [Call],
    replies: &mut [Reply],
    bad: &mut BadAnswer,
) -> Option<()>
    requires sound { IsSound system.now }
    requires holds { T.holds turns.now system.now }
    requires live { All (LiveSlot L.view) slots.old }
    requires some { 0 < waiting.now.count }
    requires calls { length calls.old ≡ waiting.now.count }
    requires replies { length replies.old ≡ waiting.now.count }
    requires gathered { GathersSome system.now (T.rules turns.now system.now) waiting.now
        values.old (instances L.view slots.old) }
    ensures live { OnOk (or_bad result bad.new) (All (LiveSlot L.view) slots.new) }
    ensures sends { Sends system.now (T.rules turns.now system.now) waiting.now
        (emptied waiting.now) values.old values.new (instances L.view slots.old)
        (instances L.view slots.new) (or_bad result bad.new) }
{
    let ports = waiting.as_slice();
    make_calls(system, turns, values, ports, calls);
    match send_many(&mut slots[waiting.component.0 as usize], calls, replies) {
        Ok(()) => {
            take_replied(system, turns, values, ports, replies);
            take_passed(system, turns, values, waiting.inputs());
            Some(())
        }
        Err(why) => {
            put_bad(bad, waiting.component, why);
            None
        }
    }
}

// Sends several that wait, with room for as many as may wait: on its own, so that one alone pays nothing for that.
#[inline(never)]
fn send_several<L: Peer, T: Turns>(
    slots: &mut [Slot<L>],
    system: &System,
    turns: &T,
    values: &mut PortValues,
    waiting: &Waiting,
    bad: &mut BadAnswer,
) -> Option<()>
    requires sound { IsSound system.now }
    requires holds { T.holds turns.now system.now }
    requires live { All (LiveSlot L.view) slots.old }
    requires some { 0 < waiting.now.count }
    requires gathered { GathersSome system.now (T.rules turns.now system.now) waiting.now
        values.old (instances L.view slots.old) }
    ensures live { OnOk (or_bad result bad.new) (All (LiveSlot L.view) slots.new) }
    ensures sends { Sends system.now (T.rules turns.now system.now) waiting.now
        (emptied waiting.now) values.old values.new (instances L.view slots.old)
        (instances L.view slots.new) (or_bad result bad.new) }
{
    let mut calls = [NO_CALL; MOST];
    let mut replies = [NO_REPLY; MOST];
    send_run(
        slots,
        system,
        turns,
        values,
        waiting,
        &mut calls[..waiting.count],
        &mut replies[..waiting.count],
        bad,
    )
}

// Sends the call that waits alone, which was made when it came to wait, as a run of one.
#[inline(always)]
fn send_one<L: Peer, T: Turns>(
    slots: &mut [Slot<L>],
    system: &System,
    turns: &T,
    values: &mut PortValues,
    waiting: &Waiting,
    bad: &mut BadAnswer,
) -> Option<()>
    requires sound { IsSound system.now }
    requires holds { T.holds turns.now system.now }
    requires live { All (LiveSlot L.view) slots.old }
    requires one { waiting.now.count ≡ 1 }
    requires gathered { GathersSome system.now (T.rules turns.now system.now) waiting.now
        values.old (instances L.view slots.old) }
    ensures live { OnOk (or_bad result bad.new) (All (LiveSlot L.view) slots.new) }
    ensures sends { Sends system.now (T.rules turns.now system.now) waiting.now
        (emptied waiting.now) values.old values.new (instances L.view slots.old)
        (instances L.view slots.new) (or_bad result bad.new) }
{
    let ports = waiting.as_slice();
    let calls = [waiting.first];
    let mut replies = [NO_REPLY];
    match send_many(
        &mut slots[waiting.component.0 as usize],
        &calls,
        &mut replies,
    ) {
        Ok(()) => {
            take_replied(system, turns, values, ports, &replies);
            take_passed(system, turns, values, waiting.inputs());
            Some(())
        }
        Err(why) => {
            put_bad(bad, waiting.component, why);
            None
        }
    }
}

// Sends what waits: one call by itself, several with room for as many as may wait.
#[inline(always)]
fn send_all<L: Peer, T: Turns>(
    slots: &mut [Slot<L>],
    system: &System,
    turns: &T,
    values: &mut PortValues,
    waiting: &Waiting,
    bad: &mut BadAnswer,
) -> Option<()>
    requires sound { IsSound system.now }
    requires holds { T.holds turns.now system.now }
    requires live { All (LiveSlot L.view) slots.old }
    requires some { 0 < waiting.now.count }
    requires gathered { GathersSome system.now (T.rules turns.now system.now) waiting.now
        values.old (instances L.view slots.old) }
    ensures live { OnOk (or_bad result bad.new) (All (LiveSlot L.view) slots.new) }
    ensures sends { Sends system.now (T.rules turns.now system.now) waiting.now
        (emptied waiting.now) values.old values.new (instances L.view slots.old)
        (instances L.view slots.new) (or_bad result bad.new) }
{
    if waiting.count == 1 {
        return send_one(slots, system, turns, values, waiting, bad);
    }
    send_several(slots, system, turns, values, waiting, bad)
}

/// Sends what waits, if anything does.
#[inline(always)]
pub(crate) fn send_waiting<L: Peer, T: Turns>(
    slots: &mut [Slot<L>],
    system: &System,
    turns: &T,
    values: &mut PortValues,
    waiting: &mut Waiting,
    bad: &mut BadAnswer,
) -> Option<()>
    requires sound { IsSound system.now }
    requires holds { T.holds turns.now system.now }
    requires live { All (LiveSlot L.view) slots.old }
    requires gathered { GathersSome system.now (T.rules turns.now system.now) waiting.old
        values.old (instances L.view slots.old) }
    ensures none { OnOk (or_bad result bad.new) (waiting.new.count ≡ 0) }
    ensures live { OnOk (or_bad result bad.new) (All (LiveSlot L.view) slots.new) }
    ensures sends { Sends system.now (T.rules turns.now system.now) waiting.old waiting.new
        values.old values.new (instances L.view slots.old) (instances L.view slots.new)
        (or_bad result bad.new) }
{
    if waiting.count == 0 {
        return Some(());
    }
    match send_all(slots, system, turns, values, waiting, bad) {
        Some(()) => {
            waiting.count = 0;
            waiting.passed = 0;
            return Some(());
        }
        None => return None,
    }
}

// Goes on with the port at a place of the order, before which nothing has to be sent.
#[inline(always)]
fn advance<L: Peer, T: Turns>(
    slots: &mut [Slot<L>],
    system: &System,
    turns: &T,
    order: &[PortId],
    values: &mut PortValues,
    k: usize,
    waiting: &mut Waiting,
    way: Way,
    bad: &mut BadAnswer,
) -> Option<()>
    requires sound { IsSound system.now }
    requires holds { T.holds turns.now system.now }
    requires live { All (LiveSlot L.view) slots.old }
    requires within { k < length order.now }
    requires gathered { Gathered system.now (T.rules turns.now system.now) (port_numbers order.now)
        k
        waiting.old values.old (instances L.view slots.old) }
    requires way { (d : PortId) → IsWay system.now (T.rules turns.now system.now) waiting.old
        (get_or order.now k d).0 values.old way }
    requires ready { IsReady way }
    ensures live { OnOk (or_bad result bad.new) (All (LiveSlot L.view) slots.new) }
    ensures moves { Moves system.now (T.rules turns.now system.now) (port_numbers order.now)
        (place k waiting.old values.old (instances L.view slots.old))
        (place (k + 1) waiting.new values.new (instances L.view slots.new))
        (or_bad result bad.new) }
{
    let number = order[k].0;
    let p = number as usize;
    match way {
        Way::Send => unreachable!(),
        Way::Skip => {
            waiting.pass(number);
            return Some(());
        }
        Way::Wait(call) => {
            let component = system.ports.as_slice()[p].component;
            waiting.push(number, component, call);
            return Some(());
        }
        Way::Quiet => {
            let value = turns.value_of(system, p, values, values.at(p), &None);
            values.put(p, value);
            return Some(());
        }
        Way::Ask(call) => return take(slots, system, turns, values, p, Some(call), bad),
    }
}

// Sends what waits, and goes on with the port at a place of the order: on its own, so that a port before which nothing has to
// be sent pays nothing for that.
#[inline(never)]
fn send_first<L: Peer, T: Turns>(
    slots: &mut [Slot<L>],
    system: &System,
    turns: &T,
    order: &[PortId],
    values: &mut PortValues,
    k: usize,
    waiting: &mut Waiting,
    bad: &mut BadAnswer,
) -> Option<()>
    requires sound { IsSound system.now }
    requires holds { T.holds turns.now system.now }
    requires live { All (LiveSlot L.view) slots.old }
    requires within { k < length order.now }
    requires gathered { Gathered system.now (T.rules turns.now system.now) (port_numbers order.now)
        k
        waiting.old values.old (instances L.view slots.old) }
    ensures live { OnOk (or_bad result bad.new) (All (LiveSlot L.view) slots.new) }
    ensures moves { Moves system.now (T.rules turns.now system.now) (port_numbers order.now)
        (place k waiting.old values.old (instances L.view slots.old))
        (place (k + 1) waiting.new values.new (instances L.view slots.new))
        (or_bad result bad.new) }
{
    match send_waiting(slots, system, turns, values, waiting, bad) {
        Some(()) => {
            let p = order[k].0 as usize;
            let next = waiting.way_of(system, turns, p, values);
            return advance(slots, system, turns, order, values, k, waiting, next, bad);
        }
        None => return None,
    }
}

/// Goes on with the port at a place of the order.
#[inline(always)]
pub(crate) fn go_on<L: Peer, T: Turns>(
    slots: &mut [Slot<L>],
    system: &System,
    turns: &T,
    order: &[PortId],
    values: &mut PortValues,
    k: usize,
    waiting: &mut Waiting,
    bad: &mut BadAnswer,
) -> Option<()>
    requires sound { IsSound system.now }
    requires holds { T.holds turns.now system.now }
    requires live { All (LiveSlot L.view) slots.old }
    requires within { k < length order.now }
    requires gathered { Gathered system.now (T.rules turns.now system.now) (port_numbers order.now)
        k
        waiting.old values.old (instances L.view slots.old) }
    ensures live { OnOk (or_bad result bad.new) (All (LiveSlot L.view) slots.new) }
    ensures moves { Moves system.now (T.rules turns.now system.now) (port_numbers order.now)
        (place k waiting.old values.old (instances L.view slots.old))
        (place (k + 1) waiting.new values.new (instances L.view slots.new))
        (or_bad result bad.new) }
{
    let p = order[k].0 as usize;
    let way = waiting.way_of(system, turns, p, values);
    match way {
        Way::Send => return send_first(slots, system, turns, order, values, k, waiting, bad),
        _ => return advance(slots, system, turns, order, values, k, waiting, way, bad),
    }
}

/// Takes the ports in an order, up to the first answer that isn't good. Each maximal run of calls that read outputs of one
/// FMU, or set inputs of it, with no other call between them, is sent together, 64 at a time; it is parted too where 64 inputs
/// were passed that wait for it.
pub(crate) fn walk<L: Peer, T: Turns>(
    slots: &mut [Slot<L>],
    system: &System,
    turns: &T,
    order: &[PortId],
    values: &mut PortValues,
) -> Result<(), BadAnswer>
    requires sound { IsSound system.now }
    requires holds { T.holds turns.now system.now }
    requires shapes { shapes (instances L.view slots.old) ≡ shapes_of system.now }
    requires live { All (LiveSlot L.view) slots.old }
    requires values { length values.old ≡ length system.now.ports }
    requires fitting { AreFitting system.now values.old }
    requires local { AreTurns system.now (T.rules turns.now system.now) }
    requires order { StandsAfterReads system.now (port_numbers order.now) }
    requires may { MayWalk system.now (T.rules turns.now system.now) values.old
        (port_numbers order.now) (instances L.view slots.old) }
    ensures live { OnOk result (All (LiveSlot L.view) slots.new) }
    ensures goes { WalkOutcome system.now (T.rules turns.now system.now) values.old
        (port_numbers order.now)
        values.new (instances L.view slots.old) (instances L.view slots.new) result }
    ensures fitting { AreFitting system.now values.new }
{
    let mut waiting = Waiting::none();
    let mut bad = NO_ANSWER;
    for k in 0..order.len() {
        match go_on(
            slots,
            system,
            turns,
            order,
            values,
            k,
            &mut waiting,
            &mut bad,
        ) {
            Some(()) => {}
            None => return Err(bad),
        }
    }
    match send_waiting(slots, system, turns, values, &mut waiting, &mut bad) {
        Some(()) => return Ok(()),
        None => return Err(bad),
    }
}
