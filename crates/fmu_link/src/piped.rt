ghost use Rattle.std.specs.Prelude.{◌≡◌, ◌≤◌, ◌^◌, ◌||◌, ◌&&◌, ◌++◌, ◌⊎◌, [], false, length, vec_capacity, IfOk, IfErr, MatchResult};
ghost use Rattle.std.specs.Option.{option_copied};
ghost use Rattle.std.specs.Result.{result_ok};
ghost use Rattle.fmi_calls.specs.Permission.{Permitted};
ghost use Rattle.fmu_peer.specs.View.{carries_bytes};
ghost use Rattle.fmu_link.specs.Batches.{agrees_to_batches, asks_for_batches};
ghost use Rattle.fmu_link.specs.Exchange.{Arrives, Breaks, HearsState, LosesState, NotesCall, NotesSerialize, Says, bad_after, count_after};

use crate::batches::call_batch;
use crate::{Instance, Wire, WireFault};
use exact_parts::Taken;
use fmi_calls::{Call, Content, Grade, Phase, Reply, grade, next_phase};
use fmu_peer::{Peer, PeerFault};
use link_frames::{put_call, take_reply};
use std::alloc::Global;
use thiserror::Error;
use value_types::Shape;

/// Why a peer wasn't started, with the wire that it was to be started on.
#[derive(Debug, Drop, Error)]
pub enum Unmade<W> {
    #[error("no memory is left")]
    Memory { wire: W },
}

/// An FMU in a process of its own, which is sent frames of calls on a wire, and answers by frames of replies.
#[derive(Debug, Drop)]
pub struct Piped<W> {
    pub wire: W,
    pub instance: Instance,
}

impl<W: Wire> Piped<W> {
    ghost use Rattle.fmu_peer.specs.Start.{IsStarted};
    ghost use Rattle.fmu_link.specs.Piped.{piped_view};

    /// A peer before its first call, over a wire that hasn't failed. All the memory that its calls need is allocated here.
    pub fn start(
        alloc: Global,
        wire: W,
        host: &str,
        name: &str,
        directory: &str,
        shape: &Shape,
    ) -> Result<Piped<W>, Unmade<W>>
        requires name { (1 ≤ length name.now) × (length name.now ≤ 2 ^ 24) }
        requires token { length shape.now.token ≤ 2 ^ 24 }
        requires quiet { (W.view wire).faults ≡ 0 }
        ensures fresh { IfOk result (λ p. IsStarted host.now name.now directory.now shape.now
            (piped_view W.view p)) }
        ensures wire { IfOk result (λ p. p.wire ≡ wire) }
        ensures back { IfErr result (λ u. u ≡ Unmade.Memory wire) }
    {
        match Instance::new(alloc, host, name, directory, shape) {
            Ok(instance) => Ok(Piped { wire, instance }),
            Err(_) => Err(Unmade::Memory { wire }),
        }
    }

    /// The wire, to be closed.
    pub fn into_wire(self) -> W
        ensures { result ≡ self.wire }
    {
        let Piped { wire, instance: _ } = self;
        wire
    }
}

impl<W: Wire + Send> Peer for Piped<W> {
    ghost use Rattle.fmu_peer.specs.View.{Asked, AskedWith, IsDeserialize, Serializes};
    ghost use Rattle.fmu_link.specs.Piped.{line_view, piped_view};
    ghost use Rattle.fmu_link.specs.Batches.{GoAsAgreed};
    ghost use Rattle.fmu_link.specs.Exchange.{Exchanged, ExchangedState, ExchangedWith};
    ghost use Rattle.fmu_peer.specs.Many.{AreOfOneSort, AskedMany, MayAskAll};

    ghost view = { piped_view W.view };

    ghost machine = { λ p. tt };

    ghost in_phase = { λ p. tt };

    ghost ignores_slot = { λ p. tt };

    ghost unpacks = { λ p. tt };

    ghost lawful = { λ p. tt };

    fn shape(&self) -> &Shape {
        &self.instance.shape
    }

    fn phase(&self) -> &Phase {
        &self.instance.phase
    }

    fn call(&mut self, call: &Call) -> Result<Reply, PeerFault>
        requires permitted { Permitted self.old.instance.shape self.old.instance.phase call.now }
        requires plain { carries_bytes call.now ≡ false }
        ensures asked { Asked (piped_view W.view self.old) call.now result
            (piped_view W.view self.new) }
        ensures exchanged { Exchanged call.now self.old.instance.name self.old.instance.shape.token
            (line_view W.view self.old) (line_view W.view self.new) result }

        // Batches are agreed once they were asked for and the answer takes them.
        ensures agreed { self.new.instance.takes_batches ≡ (self.old.instance.takes_batches ||
            (asks_for_batches call.now && agrees_to_batches result)) }
    {
        let instance = &mut self.instance;
        let length = put_call(
            call,
            instance.name.as_str(),
            instance.shape.token.as_str(),
            instance.frame.as_mut_slice(),
        );
        let frame = &instance.frame.as_slice()[..length];
        let answer = answer_over(&mut self.wire, frame, &mut instance.bad_replies);
        if asks_for_batches(call) && agrees_to_batches(&answer) {
            instance.takes_batches = true;
        }
        next_phase(
            &instance.shape,
            &mut instance.phase,
            call,
            reply_of(&answer),
        );
        answer
    }

    fn call_many(&mut self, calls: &[Call], replies: &mut [Reply]) -> Result<usize, PeerFault>
        requires sort { AreOfOneSort calls.now }
        requires places { length replies.old ≡ length calls.now }
        requires may { MayAskAll self.old.instance.shape self.old.instance.phase calls.now }
        ensures places { length replies.new ≡ length calls.now }
        ensures asked { AskedMany (piped_view W.view self.old) calls.now replies.old replies.new
            result (piped_view W.view self.new) }

        // Where batches were agreed, the calls go in one, and so do their replies; else they go one by one.
        ensures agreed { GoAsAgreed self.old.instance.takes_batches calls.now
            (line_view W.view self.old) (line_view W.view self.new) replies.new result }
    {
        if self.instance.takes_batches {
            return call_batch(&mut self.wire, &mut self.instance, calls, replies);
        }
        for i in 0..calls.len() {
            match self.call(&calls[i]) {
                Ok(reply) => {
                    replies[i] = reply;
                    match grade(self.shape(), self.phase(), &calls[i], &reply) {
                        Grade::Good => {}
                        Grade::Refused | Grade::Misreply => return Ok(i + 1),
                    }
                }
                Err(fault) => return Err(fault),
            }
        }
        Ok(calls.len())
    }

    /// Sends the frame of a Serialize, and receives after a good reply as many bytes as it tells of.
    fn serialize(&mut self, into: &mut Vec<u8>) -> Result<Reply, PeerFault>
        requires permitted { Permitted self.old.instance.shape self.old.instance.phase Call.Serialize }
        requires empty { into.old.items ≡ [] }
        requires room { 2 ^ 20 ≤ vec_capacity into.old }
        ensures asked { Asked (piped_view W.view self.old) Call.Serialize result
            (piped_view W.view self.new) }
        ensures bytes { Serializes (piped_view W.view self.old) result into.new.items }
        ensures room { vec_capacity into.old ≤ vec_capacity into.new }
        ensures exchanged { ExchangedState self.old.instance.name self.old.instance.shape.token
            (line_view W.view self.old) (line_view W.view self.new) result into.new.items }
        ensures agreed { self.new.instance.takes_batches ≡ self.old.instance.takes_batches }
    {
        let call = Call::Serialize;
        let instance = &mut self.instance;
        let length = put_call(
            &call,
            instance.name.as_str(),
            instance.shape.token.as_str(),
            instance.frame.as_mut_slice(),
        );
        let frame = &instance.frame.as_slice()[..length];
        let answer = state_over(&mut self.wire, frame, into, &mut instance.bad_replies);
        next_phase(
            &instance.shape,
            &mut instance.phase,
            &call,
            reply_of(&answer),
        );
        answer
    }

    /// Sends the frame of a Deserialize with the bytes after it.
    fn deserialize(&mut self, call: &Call, bytes: &[u8]) -> Result<Reply, PeerFault>
        requires permitted { Permitted self.old.instance.shape self.old.instance.phase call.now }
        requires length { IsDeserialize call.now (length bytes.now) }
        ensures asked { AskedWith (piped_view W.view self.old) call.now bytes.now result
            (piped_view W.view self.new) }
        ensures exchanged { ExchangedWith call.now bytes.now self.old.instance.name
            self.old.instance.shape.token (line_view W.view self.old) (line_view W.view self.new)
            result }
        ensures agreed { self.new.instance.takes_batches ≡ self.old.instance.takes_batches }
    {
        let instance = &mut self.instance;
        let length = put_call(
            call,
            instance.name.as_str(),
            instance.shape.token.as_str(),
            instance.frame.as_mut_slice(),
        );
        let frame = &instance.frame.as_slice()[..length];
        let answer = answer_after(&mut self.wire, frame, bytes, &mut instance.bad_replies);
        next_phase(
            &instance.shape,
            &mut instance.phase,
            call,
            reply_of(&answer),
        );
        answer
    }
}

// Whether the call asks for batches.
fn asks_for_batches(call: &Call) -> bool
    ensures { result ≡ asks_for_batches call.now }
{
    match *call {
        Call::Instantiate { batches, .. } => batches,
        _ => false,
    }
}

// Whether the answer says that the host takes batches.
fn agrees_to_batches(answer: &Result<Reply, PeerFault>) -> bool
    ensures { result ≡ agrees_to_batches answer.now }
{
    match answer {
        Ok(
            Reply::Done {
                content: Content::Instantiate { batches },
                ..
            },
        ) => *batches,
        _ => false,
    }
}

// The reply, where there is one.
fn reply_of(answer: &Result<Reply, PeerFault>) -> Option<&Reply>
    ensures { option_copied result ≡ result_ok answer.now }
{
    answer.as_ref().ok()
}

// Sends a frame, and takes the reply to it.
fn answer_over<W: Wire>(
    wire: &mut W,
    frame: &[u8],
    bad_replies: &mut u64,
) -> Result<Reply, PeerFault>
    ensures { NotesCall (record { wire = W.view wire.old; bad_replies = bad_replies.old })
        (record { wire = W.view wire.new; bad_replies = bad_replies.new }) frame.now result }
{
    let answer = match exchange(wire, frame) {
        Ok(bytes) => reply_in(bytes),
        Err(WireFault::Failed) => return Err(PeerFault::Failed),
        Err(WireFault::Ended) => Err(PeerFault::Failed),
    };
    if answer.is_err() {
        *bad_replies = bad_replies.saturating_add(1);
    }
    answer
}

// Sends a frame with bytes after it, and takes the reply to them.
fn answer_after<W: Wire>(
    wire: &mut W,
    frame: &[u8],
    bytes: &[u8],
    bad_replies: &mut u64,
) -> Result<Reply, PeerFault>
    ensures { NotesCall (record { wire = W.view wire.old; bad_replies = bad_replies.old })
        (record { wire = W.view wire.new; bad_replies = bad_replies.new })
        (frame.now ++ bytes.now) result }
{
    match wire.send(frame) {
        Ok(()) => answer_over(wire, bytes, bad_replies),
        Err(_) => Err(PeerFault::Failed),
    }
}

// Sends the frame of a Serialize, takes the reply to it, and receives the bytes of the state after that.
fn state_over<W: Wire>(
    wire: &mut W,
    frame: &[u8],
    into: &mut Vec<u8>,
    bad_replies: &mut u64,
) -> Result<Reply, PeerFault>
    requires empty { into.old.items ≡ [] }
    requires room { 2 ^ 20 ≤ vec_capacity into.old }
    ensures kept { vec_capacity into.old ≤ vec_capacity into.new }
    ensures noted { NotesSerialize (record { wire = W.view wire.old; bad_replies = bad_replies.old })
        (record { wire = W.view wire.new; bad_replies = bad_replies.new }) frame.now result
        into.new.items }
{
    let answer = answer_over(wire, frame, bad_replies);
    state_after(wire, answer, into, bad_replies)
}

// Receives the bytes that follow an answer, if any do.
fn state_after<W: Wire>(
    wire: &mut W,
    answer: Result<Reply, PeerFault>,
    into: &mut Vec<u8>,
    bad_replies: &mut u64,
) -> Result<Reply, PeerFault>
    requires empty { into.old.items ≡ [] }
    requires room { count_after answer ≤ vec_capacity into.old }
    ensures kept { vec_capacity into.old ≤ vec_capacity into.new }
    ensures noted { HearsState (record { wire = W.view wire.old; bad_replies = bad_replies.old })
        (record { wire = W.view wire.new; bad_replies = bad_replies.new }) answer result
        into.new.items
        ⊎ LosesState (record { wire = W.view wire.old; bad_replies = bad_replies.old })
        (record { wire = W.view wire.new; bad_replies = bad_replies.new }) answer result }
{
    let count = count_after(&answer);
    if count == 0 {
        return answer;
    }
    match into.resize(count, 0) {
        Ok(()) => {}
        Err(_) => unreachable!(),
    }
    match wire.receive(into.as_mut_slice()) {
        Ok(()) => answer,
        Err(fault) => Err(cut_by(fault, bad_replies)),
    }
}

// What a call comes to whose answer is cut, which is counted where the wire ended.
fn cut_by(fault: WireFault, bad_replies: &mut u64) -> PeerFault
    ensures fault { result ≡ PeerFault.Failed }
    ensures counted { bad_replies.new ≡ bad_after bad_replies.old fault }
{
    if let WireFault::Ended = fault {
        *bad_replies = bad_replies.saturating_add(1);
    }
    PeerFault::Failed
}

// How many bytes follow an answer.
fn count_after(answer: &Result<Reply, PeerFault>) -> usize
    ensures { result ≡ count_after answer.now }
{
    match answer {
        Ok(
            Reply::Done {
                content: Content::Serialize { length },
                ..
            },
        ) => *length as usize,
        _ => 0,
    }
}

// Sends a frame, and receives the 24 bytes that answer it.
fn exchange<W: Wire>(wire: &mut W, frame: &[u8]) -> Result<[u8; 24], WireFault>
    ensures { MatchResult result
        (λ bytes. Arrives (W.view wire.old) frame.now bytes (W.view wire.new))
        (λ fault. Breaks (W.view wire.old) frame.now fault (W.view wire.new)) }
{
    wire.send(frame)?;
    let mut bytes = [0; 24];
    wire.receive(&mut bytes)?;
    Ok(bytes)
}

// The reply whose frame these bytes are.
fn reply_in(bytes: [u8; 24]) -> Result<Reply, PeerFault>
    ensures { Says bytes result }
{
    match take_reply(&bytes) {
        Taken::Got { value, .. } => Ok(value),
        Taken::NeedMore | Taken::Bad { .. } => Err(PeerFault::Garbled { bytes }),
    }
}
