ghost use Rattle.std.specs.Prelude.{◌≡◌, ◌||◌, Bool, OnOk, Some, is_some};
ghost use Rattle.fmi_calls.specs.Permission.{Permitted};
ghost use Rattle.fmi_calls.specs.declared.call.Call.TheVariants as C;
ghost use Rattle.fmi_calls.specs.declared.phase.InstanceState.TheVariants as P;
ghost use Rattle.fmu_peer.specs.declared.slot.Held.TheVariants as Held;
ghost use Rattle.fmu_peer.specs.CloseAll.{instance_in, peer_in};
ghost use Rattle.fmu_peer.specs.Mode.{instantiate_of};
ghost use Rattle.fmu_peer.specs.Running.{peer_of, running_mode};
ghost use Rattle.run_model.specs.Stepping.{is_terminating};
ghost use Rattle.slot_calls.specs.Carried.{asks_to_end};
ghost use Rattle.slot_calls.specs.Log.{One};
ghost use Rattle.slot_calls.specs.Slots.{IsLive, IsStay, IsTransition, LiveSlot, MayBeAsked, Moves, Stays, call_of, is_fatal_result, is_fatal_why, state_of};

use crate::Ask;
use core::mem::replace_with;
use fmi_calls::{BadStatus, Content, Reply};
use fmu_peer::{
    Eventing, Fmu, Fresh, Held, Initializing, Instantiated, Peer, Running, Slot, Stepping, Why,
};

/// Sends the call to the FMU in a slot, and says whether its answer asks for the end of the run.
pub fn advance<L: Peer>(slot: &mut Slot<L>, ask: Ask) -> Result<bool, Why>
    requires live { LiveSlot L.view slot.old }
    requires permitted { MayBeAsked ask (L.view (peer_in slot.old.held)) }
    ensures live { OnOk result (LiveSlot L.view slot.new) }
    ensures one { One (call_of ask (L.view (peer_in slot.old.held)).fixed.shape) asks_to_end
        (instance_in L.view slot.old) (instance_in L.view slot.new) result }
{
    match ask {
        Ask::DoStep { .. } => return stay(slot, ask),
        _ => return change(slot, ask),
    }
}

// Sends a call that leaves the FMU in Step Mode.
fn stay<L: Peer>(slot: &mut Slot<L>, ask: Ask) -> Result<bool, Why>
    requires live { LiveSlot L.view slot.old }
    requires permitted { MayBeAsked ask (L.view (peer_in slot.old.held)) }
    requires stays { IsStay ask }
    ensures live { OnOk result (LiveSlot L.view slot.new) }
    ensures one { One (call_of ask (L.view (peer_in slot.old.held)).fixed.shape) asks_to_end
        (instance_in L.view slot.old) (instance_in L.view slot.new) result }
{
    match send_in_step(slot, ask) {
        Ok(asks) => return Ok(asks),
        Err(why) => {
            slot.is_fatal = slot.is_fatal || is_fatal_why(&why);
            return Err(why);
        }
    }
}

// Sends a call by which the FMU leaves its typed state.
#[inline(never)]
fn change<L: Peer>(slot: &mut Slot<L>, ask: Ask) -> Result<bool, Why>
    requires live { LiveSlot L.view slot.old }
    requires permitted { MayBeAsked ask (L.view (peer_in slot.old.held)) }
    requires transition { IsTransition ask }
    ensures live { OnOk result (LiveSlot L.view slot.new) }
    ensures one { One (call_of ask (L.view (peer_in slot.old.held)).fixed.shape) asks_to_end
        (instance_in L.view slot.old) (instance_in L.view slot.new) result }
{
    let answer = move_held(&mut slot.held, ask);
    slot.is_fatal = slot.is_fatal || is_fatal(&answer);
    answer
}

/// Whether a result is a refusal with Fatal.
pub fn is_fatal<T>(answer: &Result<T, Why>) -> bool
    ensures { result ≡ is_fatal_result answer.now }
{
    match answer {
        Ok(_) => false,
        Err(why) => is_fatal_why(why),
    }
}

fn is_fatal_why(why: &Why) -> bool
    ensures { result ≡ is_fatal_why why.now }
{
    match why {
        Why::Refused { status, .. } => match status {
            BadStatus::Fatal => true,
            BadStatus::Discard | BadStatus::Error => false,
        },
        Why::Misreply { .. } | Why::Link { .. } => false,
    }
}

// A transition takes the FMU out of its typed state.
fn move_held<L: Peer>(held: &mut Held<L>, ask: Ask) -> Result<bool, Why>
    requires live { IsLive L.view held.old }
    requires permitted { MayBeAsked ask (L.view (peer_in held.old)) }
    requires transition { IsTransition ask }
    ensures { Moves L.view held.old (call_of ask (L.view (peer_in held.old)).fixed.shape)
        asks_to_end held.new result }
{
    replace_with(
        held,
        ask,
        |held, ask| -> (Held<L>, Result<bool, Why>)
            requires { IsLive L.view held × MayBeAsked ask (L.view (peer_in held)) × IsTransition ask }
            ensures { Moves L.view held (call_of ask (L.view (peer_in held)).fixed.shape)
                asks_to_end result.0 result.1 }
        { advance_held(held, ask) },
    )
}

fn send_in_step<L: Peer>(slot: &mut Slot<L>, ask: Ask) -> Result<bool, Why>
    requires live { LiveSlot L.view slot.old }
    requires permitted { MayBeAsked ask (L.view (peer_in slot.old.held)) }
    requires stays { IsStay ask }
    ensures stays { Stays (call_of ask (L.view (peer_in slot.old.held)).fixed.shape) asks_to_end
        (L.view (peer_in slot.old.held)) (L.view (peer_in slot.new.held))
        (is_some slot.old.saved) (is_some slot.new.saved) result }
    ensures held { state_of slot.new.held ≡ Some P.Step }
    ensures source { slot.new.source ≡ slot.old.source }
    ensures fatal { slot.new.is_fatal ≡ slot.old.is_fatal }
{
    match &mut slot.held {
        Held::Stepping(fmu) => match ask {
            Ask::DoStep { at, size } => return do_step(fmu, at, size),
            _ => unreachable!(),
        },
        _ => unreachable!(),
    }
}

// Each transition stands on its own and is not inlined, so that none pays for the room of the others.
fn advance_held<L: Peer>(held: Held<L>, ask: Ask) -> (Held<L>, Result<bool, Why>)
    requires live { IsLive L.view held }
    requires permitted { MayBeAsked ask (L.view (peer_in held)) }
    requires transition { IsTransition ask }
    ensures { Moves L.view held (call_of ask (L.view (peer_in held)).fixed.shape) asks_to_end
        result.0 result.1 }
{
    match ask {
        Ask::Instantiate { link } => match held {
            Held::Fresh(fmu) => instantiate(fmu, link),
            _ => unreachable!(),
        },
        Ask::EnterInitialization { start, stop } => match held {
            Held::Instantiated(fmu) => enter_initialization(fmu, start, stop),
            _ => unreachable!(),
        },
        Ask::ExitInitialization => match held {
            Held::Initializing(fmu) => exit_initialization(fmu),
            _ => unreachable!(),
        },
        Ask::EnterEvent => match held {
            Held::Stepping(fmu) => enter_event(fmu),
            _ => unreachable!(),
        },
        Ask::EnterStep => match held {
            Held::Eventing(fmu) => enter_step(fmu),
            _ => unreachable!(),
        },
        Ask::DoStep { .. } => unreachable!(),
    }
}

#[inline(never)]
fn instantiate<L: Peer>(fmu: Fmu<L, Fresh>, link: u32) -> (Held<L>, Result<bool, Why>)
    requires state { (L.view fmu.peer).phase.state ≡ P.Fresh }
    ensures { Moves L.view (Held.Fresh fmu) (instantiate_of link (L.view fmu.peer).fixed.shape)
        asks_to_end result.0 result.1 }
{
    match fmu.instantiate(link) {
        Ok(fmu) => (Held::Instantiated(fmu), Ok(false)),
        Err(ended) => {
            let why = ended.why;
            (Held::Ended(ended), Err(why))
        }
    }
}

#[inline(never)]
fn enter_initialization<L: Peer>(
    fmu: Fmu<L, Instantiated>,
    start: u64,
    stop: u64,
) -> (Held<L>, Result<bool, Why>)
    requires permitted { Permitted (L.view fmu.peer).fixed.shape (L.view fmu.peer).phase
        (C.EnterInitialization start stop) }
    ensures { Moves L.view (Held.Instantiated fmu) (C.EnterInitialization start stop) asks_to_end
        result.0 result.1 }
{
    match fmu.enter_initialization(start, stop) {
        Ok(fmu) => (Held::Initializing(fmu), Ok(false)),
        Err(ended) => {
            let why = ended.why;
            (Held::Ended(ended), Err(why))
        }
    }
}

#[inline(never)]
fn exit_initialization<L: Peer>(fmu: Fmu<L, Initializing>) -> (Held<L>, Result<bool, Why>)
    requires permitted { Permitted (L.view fmu.peer).fixed.shape
        (L.view fmu.peer).phase C.ExitInitialization }
    ensures { Moves L.view (Held.Initializing fmu) C.ExitInitialization asks_to_end result.0
        result.1 }
{
    match fmu.exit_initialization() {
        Ok(running) => (held_running(running), Ok(false)),
        Err(ended) => {
            let why = ended.why;
            (Held::Ended(ended), Err(why))
        }
    }
}

fn held_running<L: Peer>(running: Running<L>) -> Held<L>
    ensures peer { peer_in result ≡ peer_of running }
    ensures state { state_of result ≡ Some (running_mode running) }
{
    match running {
        Running::Event(fmu) => Held::Eventing(fmu),
        Running::Step(fmu) => Held::Stepping(fmu),
    }
}

#[inline(never)]
fn enter_event<L: Peer>(fmu: Fmu<L, Stepping>) -> (Held<L>, Result<bool, Why>)
    requires permitted { Permitted (L.view fmu.peer).fixed.shape
        (L.view fmu.peer).phase C.EnterEvent }
    ensures { Moves L.view (Held.Stepping fmu) C.EnterEvent asks_to_end result.0 result.1 }
{
    match fmu.enter_event() {
        Ok(fmu) => (Held::Eventing(fmu), Ok(false)),
        Err(ended) => {
            let why = ended.why;
            (Held::Ended(ended), Err(why))
        }
    }
}

#[inline(never)]
fn enter_step<L: Peer>(fmu: Fmu<L, Eventing>) -> (Held<L>, Result<bool, Why>)
    requires permitted { Permitted (L.view fmu.peer).fixed.shape
        (L.view fmu.peer).phase C.EnterStep }
    ensures { Moves L.view (Held.Eventing fmu) C.EnterStep asks_to_end result.0 result.1 }
{
    match fmu.enter_step() {
        Ok(fmu) => (Held::Stepping(fmu), Ok(false)),
        Err(ended) => {
            let why = ended.why;
            (Held::Ended(ended), Err(why))
        }
    }
}

fn do_step<L: Peer>(fmu: &mut Fmu<L, Stepping>, at: u64, size: u64) -> Result<bool, Why>
    requires permitted { Permitted (L.view fmu.old.peer).fixed.shape (L.view fmu.old.peer).phase
        (C.DoStep at size) }
    ensures { (has : Bool) → Stays (C.DoStep at size) asks_to_end (L.view fmu.old.peer)
        (L.view fmu.new.peer) has has result }
{
    match fmu.do_step(at, size) {
        Ok(reply) => return Ok(is_terminating(&reply)),
        Err(why) => return Err(why),
    }
}

/// Whether the reply to a step asks for the end of the run (FMI 3.0, 4.2.1.2: terminateSimulation of fmi3DoStep).
pub fn is_terminating(reply: &Reply) -> bool
    ensures { result ≡ is_terminating reply.now }
{
    match reply {
        Reply::Done {
            content: Content::DoStep { terminate, .. },
            ..
        } => *terminate,
        _ => false,
    }
}
