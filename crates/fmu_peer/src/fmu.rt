ghost use Rattle.std.specs.Prelude.{◌≡◌, ◌<◌, ◌≤◌, ◌^◌, [], false, get_or, length, replicate, vec_capacity, IfOk, IfErr, OnOk, IsTrue};
ghost use Rattle.fmi_calls.specs.declared.call.Call.{Call};
ghost use Rattle.fmi_calls.specs.declared.call.Kind.TheVariants as K;
ghost use Rattle.fmi_calls.specs.declared.call.Reply.{Reply};
ghost use Rattle.fmi_calls.specs.KindFacts.{same_kind};
ghost use Rattle.fmi_calls.specs.Kinds.{bad_status_of, kind_of_reply};
ghost use Rattle.fmi_calls.specs.Permission.{Permitted};
ghost use Rattle.fmi_calls.specs.declared.phase.InstanceState.{InstanceState};
ghost use Rattle.fmi_calls.specs.declared.phase.InstanceState.TheVariants as P;
ghost use Rattle.fmu_peer.specs.Mode.{agrees, instantiate_of};
ghost use Rattle.fmu_peer.specs.Answer.{Answered, AnsweredWith, Failed, FailedWith, IsGoodReply, IsWhy};
ghost use Rattle.fmu_peer.specs.Many.{AnsweredAll, AreOfOneSort, FailedAfter, IsWorthOf, MayAskAll, count_came, to_come};
ghost use Rattle.fmu_peer.specs.View.{IsDeserialize, IsFollowedBy, carries_bytes};
ghost use Rattle.fmu_peer.specs.Close.{IsClosed, can_be_closed};
ghost use Rattle.fmu_peer.specs.declared.ended.Why.TheVariants as Why;

use crate::closing::close_unless;
use crate::running::into_running;
use crate::{
    Ended, Eventing, Fresh, Initializing, Instantiated, Mode, Peer, PeerFault, Running, Saved,
    Stepping, Why,
};
use fmi_calls::{BadStatus, Call, Grade, Kind, Phase, Reply, grade};
use std::marker::PhantomData;
use value_types::{PortType, Shape};

// Sends a call of the run, and says what its answer is worth. A good answer is given back at once, since nearly each one is.
#[inline(always)]
pub(crate) fn ask<L: Peer>(peer: &mut L, call: &Call) -> Result<Reply, Why>
    requires plain { carries_bytes call.now ≡ false }
    requires permitted { Permitted (L.view peer.old).fixed.shape (L.view peer.old).phase call.now }
    ensures ok { IfOk result (λ reply. Answered (L.view peer.old) call.now reply (L.view peer.new)) }
    ensures err { IfErr result (λ why. Failed (L.view peer.old) call.now why (L.view peer.new)) }
{
    match peer.call(call) {
        Ok(reply) => match grade(peer.shape(), peer.phase(), call, &reply) {
            Grade::Good => return Ok(reply),
            Grade::Refused => return Err(refusal(call, &reply)),
            Grade::Misreply => return Err(misreply(call, &reply)),
        },
        Err(fault) => return Err(lost(call, fault)),
    }
}

// Sends a Serialize of the run, whose bytes come into the room, and says what its answer is worth.
fn ask_for_bytes<L: Peer>(peer: &mut L, into: &mut Vec<u8>) -> Result<Reply, Why>
    requires permitted { Permitted (L.view peer.old).fixed.shape (L.view peer.old).phase Call.Serialize }
    requires empty { into.old.items ≡ [] }
    requires room { 2 ^ 20 ≤ vec_capacity into.old }
    ensures ok { IfOk result (λ reply. Answered (L.view peer.old) Call.Serialize reply
        (L.view peer.new)) }
    ensures bytes { IfOk result (λ reply. IsFollowedBy (L.view peer.old) reply into.new.items) }
    ensures err { IfErr result (λ why. Failed (L.view peer.old) Call.Serialize why
        (L.view peer.new)) }
    ensures room { vec_capacity into.old ≤ vec_capacity into.new }
{
    let answer = peer.serialize(into);
    judged(peer.shape(), peer.phase(), &Call::Serialize, answer)
}

// Sends a Deserialize of the run with its bytes, and says what its answer is worth.
fn ask_with_bytes<L: Peer>(peer: &mut L, call: &Call, bytes: &[u8]) -> Result<Reply, Why>
    requires permitted { Permitted (L.view peer.old).fixed.shape (L.view peer.old).phase call.now }
    requires length { IsDeserialize call.now (length bytes.now) }
    ensures ok { IfOk result (λ reply. AnsweredWith (L.view peer.old) call.now bytes.now reply
        (L.view peer.new)) }
    ensures err { IfErr result (λ why. FailedWith (L.view peer.old) call.now bytes.now why
        (L.view peer.new)) }
{
    let answer = peer.deserialize(call, bytes);
    judged(peer.shape(), peer.phase(), call, answer)
}

// What an answer is worth.
fn judged(
    shape: &Shape,
    phase: &Phase,
    call: &Call,
    answer: Result<Reply, PeerFault>,
) -> Result<Reply, Why>
    ensures ok { IfOk result (λ reply. IsGoodReply shape.now call.now answer reply) }
    ensures err { IfErr result (λ why. IsWhy shape.now why
        (record { call = call.now; result = answer })) }
{
    match answer {
        Ok(reply) => match grade(shape, phase, call, &reply) {
            Grade::Good => Ok(reply),
            Grade::Refused => Err(refusal(call, &reply)),
            Grade::Misreply => Err(misreply(call, &reply)),
        },
        Err(fault) => Err(lost(call, fault)),
    }
}

#[cold]
#[inline(never)]
fn refusal(call: &Call, reply: &Reply) -> Why
    ensures { result ≡ Why.Refused call.now (bad_status_of reply.now) }
{
    Why::Refused {
        call: *call,
        status: reply.bad_status(),
    }
}

#[cold]
#[inline(never)]
fn misreply(call: &Call, reply: &Reply) -> Why
    ensures { result ≡ Why.Misreply call.now reply.now }
{
    Why::Misreply {
        call: *call,
        reply: *reply,
    }
}

#[cold]
#[inline(never)]
fn lost(call: &Call, fault: PeerFault) -> Why
    ensures { result ≡ Why.Link call.now fault }
{
    Why::Link { call: *call, fault }
}

// Says of each place that its reply hasn't come.
fn clear(replies: &mut [Reply])
    ensures { replies.new ≡ replicate (length replies.old) to_come }
{
    replies.fill(Reply::Refused {
        kind: Kind::FreeInstance,
        status: BadStatus::Fatal,
    });
}

fn is_to_come(reply: &Reply) -> bool
    ensures { result ≡ same_kind (kind_of_reply reply.now) K.FreeInstance }
{
    reply.kind() == Kind::FreeInstance
}

// How many replies came, from the first on.
fn came(replies: &[Reply]) -> usize
    ensures { result ≡ count_came replies.now }
{
    for i in 0..replies.len() {
        if is_to_come(&replies[i]) {
            return i;
        }
    }
    replies.len()
}

// What the last of so many answers is worth.
fn worth_of_last(
    shape: &Shape,
    phase: &Phase,
    calls: &[Call],
    replies: &[Reply],
    count: usize,
) -> Result<usize, Why>
    requires some { 1 ≤ count }
    requires few { count ≤ length calls.now }
    requires places { length replies.now ≡ length calls.now }
    ensures { IsWorthOf shape.now calls.now replies.now count result }
{
    let call = &calls[count - 1];
    let reply = &replies[count - 1];
    match grade(shape, phase, call, reply) {
        Grade::Good => Ok(count),
        Grade::Refused => Err(refusal(call, reply)),
        Grade::Misreply => Err(misreply(call, reply)),
    }
}

// The fault of the call at a place.
fn lost_at(calls: &[Call], i: usize, fault: PeerFault) -> Why
    requires { i < length calls.now }
    ensures { (default : Call) → result ≡ Why.Link (get_or calls.now i default) fault }
{
    lost(&calls[i], fault)
}

// Sends several calls of the run, and says what their answers are worth.
fn ask_many<L: Peer>(peer: &mut L, calls: &[Call], replies: &mut [Reply]) -> Result<usize, Why>
    requires sort { AreOfOneSort calls.now }
    requires places { length replies.old ≡ length calls.now }
    requires may { MayAskAll (L.view peer.old).fixed.shape (L.view peer.old).phase calls.now }
    ensures places { length replies.new ≡ length calls.now }
    ensures all { IfOk result (λ count. count ≡ length calls.now) }
    ensures ok { IfOk result (λ count. AnsweredAll (L.view peer.old) calls.now replies.new
        (L.view peer.new)) }
    ensures err { IfErr result (λ why. FailedAfter (L.view peer.old) calls.now why
        (L.view peer.new)) }
    ensures keeps { (mode : InstanceState) → IsTrue (agrees mode (L.view peer.old).phase.state) →
        IsTrue (agrees mode (L.view peer.new).phase.state) }
{
    clear(replies);
    match peer.call_many(calls, replies) {
        Ok(count) => worth_of_last(peer.shape(), peer.phase(), calls, replies, count),
        Err(fault) => Err(lost_at(calls, came(replies), fault)),
    }
}

/// An FMU in a state (FMI 3.0, 4.2.1). It can't be dropped: it is closed.
pub struct Fmu<L: Peer, M: Mode> {
    pub peer: L,
    pub mode: PhantomData<M>,
    ghost agrees: { IsTrue (agrees M.state (L.view peer).phase.state) },
}

impl<L: Peer> Fmu<L, Fresh> {
    /// An FMU before its first call.
    pub fn new(peer: L) -> Fmu<L, Fresh>
        requires { (L.view peer).phase.state ≡ P.Fresh }
        ensures { result.peer ≡ peer }
    {
        Fmu {
            peer,
            mode: PhantomData,
        }
    }

    /// Makes the instance, by the flags of its shape. Where the version of the link is 2, batches are asked for.
    pub fn instantiate(self, link: u32) -> Result<Fmu<L, Instantiated>, Ended<L>>
        requires { (L.view self.peer).phase.state ≡ P.Fresh }
        ensures ok { IfOk result (λ fmu. (reply : Reply) ×
            Answered (L.view self.peer) (instantiate_of link (L.view self.peer).fixed.shape) reply
            (L.view fmu.peer)) }
        ensures err { IfErr result (λ ended. Failed (L.view self.peer)
            (instantiate_of link (L.view self.peer).fixed.shape) ended.why (L.view ended.peer)) }
    {
        let Fmu { mut peer, mode: _ } = self;
        let shape = peer.shape();
        let call = Call::Instantiate {
            event_mode: shape.has_event_mode,
            early_return: shape.might_return_early,
            batches: link == 2,
        };
        match ask(&mut peer, &call) {
            Ok(_) => Ok(Fmu {
                peer,
                mode: PhantomData,
            }),
            Err(why) => Err(Ended { peer, why }),
        }
    }
}

impl<L: Peer> Fmu<L, Instantiated> {
    /// Enters Initialization Mode. Start and stop are counts.
    pub fn enter_initialization(
        self,
        start: u64,
        stop: u64,
    ) -> Result<Fmu<L, Initializing>, Ended<L>>
        requires { Permitted (L.view self.peer).fixed.shape (L.view self.peer).phase
            (Call.EnterInitialization start stop) }
        ensures ok { IfOk result (λ fmu. (reply : Reply) ×
            Answered (L.view self.peer) (Call.EnterInitialization start stop) reply
            (L.view fmu.peer)) }
        ensures err { IfErr result (λ ended. Failed (L.view self.peer)
            (Call.EnterInitialization start stop) ended.why (L.view ended.peer)) }
    {
        let Fmu { mut peer, mode: _ } = self;
        match ask(&mut peer, &Call::EnterInitialization { start, stop }) {
            Ok(_) => Ok(Fmu {
                peer,
                mode: PhantomData,
            }),
            Err(why) => Err(Ended { peer, why }),
        }
    }

    /// Fills the slot with the state that these bytes stand for, that of a point in a run up to the stop (FMI 3.0, 2.2.6:
    /// fmi3DeserializeFMUState). Point and stop are counts. What it gives is spent by `free`.
    pub fn deserialize(&mut self, point: u64, stop: u64, bytes: &[u8]) -> Result<Saved, Why>
        requires few { length bytes.now < 2 ^ 32 }
        requires permitted { Permitted (L.view self.old.peer).fixed.shape
            (L.view self.old.peer).phase (Call.Deserialize (length bytes.now) point stop) }
        ensures ok { OnOk result ((reply : Reply) × AnsweredWith (L.view self.old.peer)
            (Call.Deserialize (length bytes.now) point stop) bytes.now reply (L.view self.new.peer)) }
        ensures err { IfErr result (λ why. FailedWith (L.view self.old.peer)
            (Call.Deserialize (length bytes.now) point stop) bytes.now why (L.view self.new.peer)) }
    {
        let call = Call::Deserialize {
            length: bytes.len() as u32,
            point,
            stop,
        };
        match ask_with_bytes(&mut self.peer, &call, bytes) {
            Ok(_) => Ok(Saved { kept: () }),
            Err(why) => Err(why),
        }
    }

    /// Frees the state that fills the slot.
    pub fn free(&mut self, saved: Saved) -> Result<Reply, Why>
        requires { Permitted (L.view self.old.peer).fixed.shape
            (L.view self.old.peer).phase Call.Free }
        ensures ok { IfOk result (λ reply. Answered (L.view self.old.peer) Call.Free reply
            (L.view self.new.peer)) }
        ensures err { IfErr result (λ why. Failed (L.view self.old.peer) Call.Free why
            (L.view self.new.peer)) }
    {
        let Saved { kept: () } = saved;
        ask(&mut self.peer, &Call::Free)
    }

    /// Goes on from the state that fills the slot, which stays there, in Step Mode at its point.
    pub fn resume(self, _saved: &Saved) -> Result<Fmu<L, Stepping>, Ended<L>>
        requires { Permitted (L.view self.peer).fixed.shape (L.view self.peer).phase Call.Restore }
        ensures ok { IfOk result (λ fmu. (reply : Reply) ×
            Answered (L.view self.peer) Call.Restore reply (L.view fmu.peer)) }
        ensures err { IfErr result (λ ended. Failed (L.view self.peer) Call.Restore ended.why
            (L.view ended.peer)) }
    {
        let Fmu { mut peer, mode: _ } = self;
        match ask(&mut peer, &Call::Restore) {
            Ok(_) => Ok(Fmu {
                peer,
                mode: PhantomData,
            }),
            Err(why) => Err(Ended { peer, why }),
        }
    }
}

impl<L: Peer> Fmu<L, Initializing> {
    ghost use Rattle.fmu_peer.specs.Running.{peer_of, running_mode};

    /// Leaves Initialization Mode.
    pub fn exit_initialization(self) -> Result<Running<L>, Ended<L>>
        requires { Permitted (L.view self.peer).fixed.shape (L.view self.peer).phase
            Call.ExitInitialization }
        ensures ok { IfOk result (λ running. (reply : Reply) ×
            Answered (L.view self.peer) Call.ExitInitialization reply (L.view (peer_of running))) }
        ensures mode { IfOk result (λ running. running_mode running ≡
            (L.view (peer_of running)).phase.state) }
        ensures err { IfErr result
            (λ ended. Failed (L.view self.peer) Call.ExitInitialization ended.why
            (L.view ended.peer)) }
    {
        let Fmu { mut peer, mode: _ } = self;
        match ask(&mut peer, &Call::ExitInitialization) {
            Ok(_) => Ok(into_running(peer)),
            Err(why) => Err(Ended { peer, why }),
        }
    }
}

impl<L: Peer> Fmu<L, Eventing> {
    /// Asks for what follows the instant (FMI 3.0: fmi3UpdateDiscreteStates).
    pub fn update(&mut self) -> Result<Reply, Why>
        requires { Permitted (L.view self.old.peer).fixed.shape
            (L.view self.old.peer).phase Call.Update }
        ensures ok { IfOk result (λ reply. Answered (L.view self.old.peer) Call.Update reply
            (L.view self.new.peer)) }
        ensures err { IfErr result (λ why. Failed (L.view self.old.peer) Call.Update why
            (L.view self.new.peer)) }
    {
        ask(&mut self.peer, &Call::Update)
    }

    /// Leaves Event Mode.
    pub fn enter_step(self) -> Result<Fmu<L, Stepping>, Ended<L>>
        requires { Permitted (L.view self.peer).fixed.shape (L.view self.peer).phase
            Call.EnterStep }
        ensures ok { IfOk result (λ fmu. (reply : Reply) ×
            Answered (L.view self.peer) Call.EnterStep reply (L.view fmu.peer)) }
        ensures err { IfErr result (λ ended. Failed (L.view self.peer) Call.EnterStep ended.why
            (L.view ended.peer)) }
    {
        let Fmu { mut peer, mode: _ } = self;
        match ask(&mut peer, &Call::EnterStep) {
            Ok(_) => Ok(Fmu {
                peer,
                mode: PhantomData,
            }),
            Err(why) => Err(Ended { peer, why }),
        }
    }
}

impl<L: Peer> Fmu<L, Stepping> {
    /// Enters Event Mode.
    pub fn enter_event(self) -> Result<Fmu<L, Eventing>, Ended<L>>
        requires { Permitted (L.view self.peer).fixed.shape (L.view self.peer).phase
            Call.EnterEvent }
        ensures ok { IfOk result (λ fmu. (reply : Reply) ×
            Answered (L.view self.peer) Call.EnterEvent reply (L.view fmu.peer)) }
        ensures err { IfErr result (λ ended. Failed (L.view self.peer) Call.EnterEvent ended.why
            (L.view ended.peer)) }
    {
        let Fmu { mut peer, mode: _ } = self;
        match ask(&mut peer, &Call::EnterEvent) {
            Ok(_) => Ok(Fmu {
                peer,
                mode: PhantomData,
            }),
            Err(why) => Err(Ended { peer, why }),
        }
    }

    /// Makes a step from a point. Point and size are counts.
    pub fn do_step(&mut self, at: u64, size: u64) -> Result<Reply, Why>
        requires { Permitted (L.view self.old.peer).fixed.shape (L.view self.old.peer).phase
            (Call.DoStep at size) }
        ensures ok { IfOk result (λ reply. Answered (L.view self.old.peer)
            (Call.DoStep at size) reply (L.view self.new.peer)) }
        ensures err { IfErr result (λ why. Failed (L.view self.old.peer) (Call.DoStep at size) why
            (L.view self.new.peer)) }
    {
        ask(&mut self.peer, &Call::DoStep { at, size })
    }

    /// Saves the state in the instance's slot. What it gives is spent by `free` or by `abandon`.
    pub fn save(&mut self) -> Result<Saved, Why>
        requires { Permitted (L.view self.old.peer).fixed.shape
            (L.view self.old.peer).phase Call.Save }
        ensures ok { OnOk result ((reply : Reply) ×
            Answered (L.view self.old.peer) Call.Save reply (L.view self.new.peer)) }
        ensures err { IfErr result (λ why. Failed (L.view self.old.peer) Call.Save why
            (L.view self.new.peer)) }
    {
        match ask(&mut self.peer, &Call::Save) {
            Ok(_) => Ok(Saved { kept: () }),
            Err(why) => Err(why),
        }
    }

    /// Puts the bytes of the state that was saved into the room, at most 2^20 (FMI 3.0, 2.2.6: fmi3SerializeFMUState). After
    /// an error what was put means nothing.
    pub fn serialize(&mut self, _saved: &Saved, into: &mut Vec<u8>) -> Result<Reply, Why>
        requires permitted { Permitted (L.view self.old.peer).fixed.shape
            (L.view self.old.peer).phase Call.Serialize }
        requires empty { into.old.items ≡ [] }
        requires room { 2 ^ 20 ≤ vec_capacity into.old }
        ensures ok { IfOk result (λ reply. Answered (L.view self.old.peer) Call.Serialize reply
            (L.view self.new.peer)) }
        ensures bytes { IfOk result (λ reply. IsFollowedBy (L.view self.old.peer) reply
            into.new.items) }
        ensures err { IfErr result (λ why. Failed (L.view self.old.peer) Call.Serialize why
            (L.view self.new.peer)) }
        ensures room { vec_capacity into.old ≤ vec_capacity into.new }
    {
        ask_for_bytes(&mut self.peer, into)
    }

    /// Goes back to the state that was saved, which stays saved.
    pub fn restore(&mut self, _saved: &Saved) -> Result<Reply, Why>
        requires { Permitted (L.view self.old.peer).fixed.shape
            (L.view self.old.peer).phase Call.Restore }
        ensures ok { IfOk result (λ reply. Answered (L.view self.old.peer) Call.Restore reply
            (L.view self.new.peer)) }
        ensures err { IfErr result (λ why. Failed (L.view self.old.peer) Call.Restore why
            (L.view self.new.peer)) }
    {
        ask(&mut self.peer, &Call::Restore)
    }

    /// Frees the state that was saved.
    pub fn free(&mut self, saved: Saved) -> Result<Reply, Why>
        requires { Permitted (L.view self.old.peer).fixed.shape
            (L.view self.old.peer).phase Call.Free }
        ensures ok { IfOk result (λ reply. Answered (L.view self.old.peer) Call.Free reply
            (L.view self.new.peer)) }
        ensures err { IfErr result (λ why. Failed (L.view self.old.peer) Call.Free why
            (L.view self.new.peer)) }
    {
        let Saved { kept: () } = saved;
        ask(&mut self.peer, &Call::Free)
    }

    /// Gives up the state that was saved without a call. The phase, its full slot too, stays as it is.
    pub fn abandon(&mut self, saved: Saved)
        ensures { self.new ≡ self.old }
    {
        let Saved { kept: _ } = saved;
    }
}

impl<L: Peer, M: Mode> Fmu<L, M> {
    /// Reads an output.
    pub fn get(&mut self, kind: PortType, reference: u32) -> Result<Reply, Why>
        requires { Permitted (L.view self.old.peer).fixed.shape (L.view self.old.peer).phase
            (Call.Get kind reference) }
        ensures ok { IfOk result (λ reply. Answered (L.view self.old.peer)
            (Call.Get kind reference) reply (L.view self.new.peer)) }
        ensures err { IfErr result (λ why. Failed (L.view self.old.peer)
            (Call.Get kind reference) why (L.view self.new.peer)) }
    {
        ask(&mut self.peer, &Call::Get { kind, reference })
    }

    /// Writes a value: a parameter before Initialization Mode, later an input.
    pub fn set(&mut self, kind: PortType, reference: u32, value: i128) -> Result<Reply, Why>
        requires { Permitted (L.view self.old.peer).fixed.shape (L.view self.old.peer).phase
            (Call.Set kind reference value) }
        ensures ok { IfOk result (λ reply. Answered (L.view self.old.peer)
            (Call.Set kind reference value) reply (L.view self.new.peer)) }
        ensures err { IfErr result (λ why. Failed (L.view self.old.peer)
            (Call.Set kind reference value) why (L.view self.new.peer)) }
    {
        ask(
            &mut self.peer,
            &Call::Set {
                kind,
                reference,
                value,
            },
        )
    }

    /// Reads several outputs, or writes several values, one after another up to the first answer that isn't good. The
    /// replies come at the places of their calls.
    pub fn many(&mut self, calls: &[Call], replies: &mut [Reply]) -> Result<usize, Why>
        requires sort { AreOfOneSort calls.now }
        requires places { length replies.old ≡ length calls.now }
        requires may { MayAskAll (L.view self.old.peer).fixed.shape (L.view self.old.peer).phase
            calls.now }
        ensures places { length replies.new ≡ length calls.now }
        ensures all { IfOk result (λ count. count ≡ length calls.now) }
        ensures ok { IfOk result (λ count. AnsweredAll (L.view self.old.peer) calls.now replies.new
            (L.view self.new.peer)) }
        ensures err { IfErr result (λ why. FailedAfter (L.view self.old.peer) calls.now why
            (L.view self.new.peer)) }
    {
        ask_many(&mut self.peer, calls, replies)
    }

    /// Asks whether an output Clock is active.
    pub fn get_clock(&mut self, reference: u32) -> Result<Reply, Why>
        requires { Permitted (L.view self.old.peer).fixed.shape (L.view self.old.peer).phase
            (Call.GetClock reference) }
        ensures ok { IfOk result (λ reply. Answered (L.view self.old.peer)
            (Call.GetClock reference) reply (L.view self.new.peer)) }
        ensures err { IfErr result (λ why. Failed (L.view self.old.peer)
            (Call.GetClock reference) why (L.view self.new.peer)) }
    {
        ask(&mut self.peer, &Call::GetClock { reference })
    }

    /// Sets an input Clock to active.
    pub fn set_clock(&mut self, reference: u32) -> Result<Reply, Why>
        requires { Permitted (L.view self.old.peer).fixed.shape (L.view self.old.peer).phase
            (Call.SetClock reference) }
        ensures ok { IfOk result (λ reply. Answered (L.view self.old.peer)
            (Call.SetClock reference) reply (L.view self.new.peer)) }
        ensures err { IfErr result (λ why. Failed (L.view self.old.peer)
            (Call.SetClock reference) why (L.view self.new.peer)) }
    {
        ask(&mut self.peer, &Call::SetClock { reference })
    }

    /// Asks for the interval of a Clock: of a fixed one in Initialization Mode, of a countdown or changing one in Event Mode.
    pub fn interval(&mut self, reference: u32) -> Result<Reply, Why>
        requires { Permitted (L.view self.old.peer).fixed.shape (L.view self.old.peer).phase
            (Call.GetInterval reference) }
        ensures ok { IfOk result (λ reply. Answered (L.view self.old.peer)
            (Call.GetInterval reference) reply (L.view self.new.peer)) }
        ensures err { IfErr result (λ why. Failed (L.view self.old.peer)
            (Call.GetInterval reference) why (L.view self.new.peer)) }
    {
        ask(&mut self.peer, &Call::GetInterval { reference })
    }

    /// Asks for the shift of a fixed or changing Clock, in Initialization Mode.
    pub fn shift(&mut self, reference: u32) -> Result<Reply, Why>
        requires { Permitted (L.view self.old.peer).fixed.shape (L.view self.old.peer).phase
            (Call.GetShift reference) }
        ensures ok { IfOk result (λ reply. Answered (L.view self.old.peer)
            (Call.GetShift reference) reply (L.view self.new.peer)) }
        ensures err { IfErr result (λ why. Failed (L.view self.old.peer)
            (Call.GetShift reference) why (L.view self.new.peer)) }
    {
        ask(&mut self.peer, &Call::GetShift { reference })
    }

    /// Ends the instance by the calls that it still may be sent, or silently by none, and gives the peer back.
    pub fn close(self, silent: bool) -> L
        requires { IsTrue (can_be_closed (L.view self.peer).phase silent) }
        ensures { IsClosed silent (L.view self.peer) (L.view result) }
    {
        let mut peer = self.into_peer();
        close_unless(&mut peer, silent);
        peer
    }

    pub(crate) fn into_peer(self) -> L
        ensures { result ≡ self.peer }
    {
        let Fmu { peer, mode: _ } = self;
        peer
    }
}
