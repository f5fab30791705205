ghost use Rattle.std.specs.Prelude.{◌≡◌, OnOk, IfErr, IsTrue, length};
ghost use Rattle.fmi_calls.specs.Permission.{Permitted};
ghost use Rattle.fmu_peer.specs.CloseAll.{instance_in, peer_in};
ghost use Rattle.fmu_peer.specs.Many.{AnsweredAll, AreOfOneSort, FailedAfter, MayAskAll};
ghost use Rattle.run_model.specs.Equations.{value_in};
ghost use Rattle.slot_calls.specs.Carried.{IsWide, reply_in, with_some};
ghost use Rattle.slot_calls.specs.Log.{AnswersAll, One, StopsAfter};
ghost use Rattle.slot_calls.specs.Slots.{Called, IsLive, LiveSlot, Moves, keeps_mode, reads_or_sets};

use crate::advancing::is_fatal;
use fmi_calls::{Call, Content, Reply};
use fmu_peer::{Eventing, Fmu, Held, Mode, Peer, Slot, Why};
use value_types::{PortType, from_word};

/// Sends a call that reads or sets a variable or a Clock, or an Update, to the FMU in a slot.
pub fn send<L: Peer>(slot: &mut Slot<L>, call: Call) -> Result<Reply, Why>
    requires live { LiveSlot L.view slot.old }
    requires permitted { Permitted (L.view (peer_in slot.old.held)).fixed.shape
        (L.view (peer_in slot.old.held)).phase call }
    requires sort { IsTrue (keeps_mode call) }
    ensures live { OnOk result (LiveSlot L.view slot.new) }
    ensures one { One call reply_in (instance_in L.view slot.old) (instance_in L.view slot.new)
        (with_some result) }
{
    let answer = send_held(&mut slot.held, call);
    slot.is_fatal |= is_fatal(&answer);
    answer
}

/// Sends calls that read variables, or calls that set them, to the FMU in a slot, one after another up to the first answer
/// that isn't good. The replies come at the places of their calls.
pub fn send_many<L: Peer>(
    slot: &mut Slot<L>,
    calls: &[Call],
    replies: &mut [Reply],
) -> Result<(), Why>
    requires live { LiveSlot L.view slot.old }
    requires sort { AreOfOneSort calls.now }
    requires places { length replies.old ≡ length calls.now }
    requires may { MayAskAll (L.view (peer_in slot.old.held)).fixed.shape
        (L.view (peer_in slot.old.held)).phase calls.now }
    ensures places { length replies.new ≡ length calls.now }
    ensures live { OnOk result (LiveSlot L.view slot.new) }
    ensures all { OnOk result (AnswersAll calls.now replies.new (instance_in L.view slot.old)
        (instance_in L.view slot.new)) }
    ensures stops { IfErr result (λ why. StopsAfter calls.now why (instance_in L.view slot.old)
        (instance_in L.view slot.new)) }
{
    let answer = many_held(&mut slot.held, calls, replies);
    slot.is_fatal |= is_fatal(&answer);
    answer
}

fn many_held<L: Peer>(held: &mut Held<L>, calls: &[Call], replies: &mut [Reply]) -> Result<(), Why>
    requires live { IsLive L.view held.old }
    requires sort { AreOfOneSort calls.now }
    requires places { length replies.old ≡ length calls.now }
    requires may { MayAskAll (L.view (peer_in held.old)).fixed.shape
        (L.view (peer_in held.old)).phase calls.now }
    ensures places { length replies.new ≡ length calls.now }
    ensures live { OnOk result (IsLive L.view held.new) }
    ensures all { OnOk result (AnsweredAll (L.view (peer_in held.old)) calls.now replies.new
        (L.view (peer_in held.new))) }
    ensures stops { IfErr result (λ why. FailedAfter (L.view (peer_in held.old)) calls.now why
        (L.view (peer_in held.new))) }
{
    match held {
        Held::Instantiated(fmu) => many_to(fmu, calls, replies),
        Held::Initializing(fmu) => many_to(fmu, calls, replies),
        Held::Eventing(fmu) => many_to(fmu, calls, replies),
        Held::Stepping(fmu) => many_to(fmu, calls, replies),
        _ => unreachable!(),
    }
}

fn many_to<L: Peer, M: Mode>(
    fmu: &mut Fmu<L, M>,
    calls: &[Call],
    replies: &mut [Reply],
) -> Result<(), Why>
    requires sort { AreOfOneSort calls.now }
    requires places { length replies.old ≡ length calls.now }
    requires may { MayAskAll (L.view fmu.old.peer).fixed.shape (L.view fmu.old.peer).phase
        calls.now }
    ensures places { length replies.new ≡ length calls.now }
    ensures state { OnOk result ((L.view fmu.new.peer).phase.state ≡
        (L.view fmu.old.peer).phase.state) }
    ensures all { OnOk result (AnsweredAll (L.view fmu.old.peer) calls.now replies.new
        (L.view fmu.new.peer)) }
    ensures stops { IfErr result (λ why. FailedAfter (L.view fmu.old.peer) calls.now why
        (L.view fmu.new.peer)) }
{
    match fmu.many(calls, replies) {
        Ok(_) => Ok(()),
        Err(why) => Err(why),
    }
}

fn send_held<L: Peer>(held: &mut Held<L>, call: Call) -> Result<Reply, Why>
    requires live { IsLive L.view held.old }
    requires permitted { Permitted (L.view (peer_in held.old)).fixed.shape
        (L.view (peer_in held.old)).phase call }
    requires sort { IsTrue (keeps_mode call) }
    ensures moves { Moves L.view held.old call reply_in held.new (with_some result) }
{
    match held {
        Held::Instantiated(fmu) => send_to(fmu, call),
        Held::Initializing(fmu) => send_to(fmu, call),
        Held::Eventing(fmu) => send_in_event(fmu, call),
        Held::Stepping(fmu) => send_to(fmu, call),
        _ => unreachable!(),
    }
}

fn send_in_event<L: Peer>(fmu: &mut Fmu<L, Eventing>, call: Call) -> Result<Reply, Why>
    requires permitted { Permitted (L.view fmu.old.peer).fixed.shape
        (L.view fmu.old.peer).phase call }
    requires sort { IsTrue (keeps_mode call) }
    ensures called { Called call reply_in (L.view fmu.old.peer) (L.view fmu.new.peer)
        (with_some result) }
    ensures state { OnOk result ((L.view fmu.new.peer).phase.state ≡
        (L.view fmu.old.peer).phase.state) }
{
    match call {
        Call::Update => fmu.update(),
        _ => send_to(fmu, call),
    }
}

fn send_to<L: Peer, M: Mode>(fmu: &mut Fmu<L, M>, call: Call) -> Result<Reply, Why>
    requires permitted { Permitted (L.view fmu.old.peer).fixed.shape
        (L.view fmu.old.peer).phase call }
    requires sort { IsTrue (reads_or_sets call) }
    ensures called { Called call reply_in (L.view fmu.old.peer) (L.view fmu.new.peer)
        (with_some result) }
    ensures state { OnOk result ((L.view fmu.new.peer).phase.state ≡
        (L.view fmu.old.peer).phase.state) }
{
    match call {
        Call::Get { kind, reference } => fmu.get(kind, reference),
        Call::Set {
            kind,
            reference,
            value,
        } => fmu.set(kind, reference, value),
        Call::GetClock { reference } => fmu.get_clock(reference),
        Call::SetClock { reference } => fmu.set_clock(reference),
        Call::GetInterval { reference } => fmu.interval(reference),
        Call::GetShift { reference } => fmu.shift(reference),
        _ => unreachable!(),
    }
}

/// The value that a reply carries, where it is a word of the type.
pub fn value_in(kind: PortType, reply: &Reply) -> Option<i128>
    ensures value { result ≡ value_in kind reply.now }
    ensures wide { IsWide result }
{
    match reply {
        Reply::Done {
            content: Content::Get { word } | Content::GetClock { word },
            ..
        } => from_word(kind, *word),
        _ => None,
    }
}
