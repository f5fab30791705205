ghost use Rattle.std.specs.Prelude.{◌≡◌, ◌≤◌, ◌^◌, [], false, length, vec_capacity, IfSome};
ghost use Rattle.fmi_calls.specs.declared.call.Call.{Call};
ghost use Rattle.fmi_calls.specs.Permission.{Permitted};
ghost use Rattle.fmu_peer.specs.Machine.{IgnoresSlot, IsLawful, IsMachineOf, UnpacksWell};
ghost use Rattle.fmu_peer.specs.Many.{AreOfOneSort, AskedMany, MayAskAll};
ghost use Rattle.fmu_peer.specs.View.{View, Asked, AskedWith, IsDeserialize, IsLegal, Serializes, TellsItsPhase, carries_bytes};

use fmi_calls::{Call, Grade, Phase, Reply, grade};
use thiserror::Error;
use value_types::Shape;

/// Why a peer gave no reply.
#[derive(Clone, Copy, Debug, Drop, Error, PartialEq, Eq)]
pub enum PeerFault {
    #[error("the call failed")]
    Failed,
    /// What came is no reply frame.
    #[error("what came is no reply")]
    Garbled { bytes: [u8; 24] },
}

/// A call with its reply, or with the fault in place of the reply.
#[derive(Clone, Copy, Debug, PartialEq, Eq)]
pub struct Exchange {
    pub call: Call,
    pub result: Result<Reply, PeerFault>,
}

/// What answers the calls of one instance: a built-in machine or a child process.
pub trait Peer: Send {
    /// What it is, and what it tells of itself.
    ghost view: { Self → View };

    /// What the description says of the FMU.
    fn shape(&self) -> &Shape
        ensures { result.now ≡ (view self.now).fixed.shape };

    /// Where the instance stands.
    fn phase(&self) -> &Phase
        ensures phase { result.now ≡ (view self.now).phase }
        ensures legal { IsLegal (view self.now) };

    /// Answers a call that isn't followed by bytes, and whose reply isn't. It allocates no memory.
    fn call(&mut self, call: &Call) -> Result<Reply, PeerFault>
        requires permitted { Permitted (view self.old).fixed.shape (view self.old).phase call.now }
        requires plain { carries_bytes call.now ≡ false }
        ensures { Asked (view self.old) call.now result (view self.new) };

    /// Answers calls one after another, all of which read variables or all of which set them, up to the first answer that
    /// isn't good, and tells how many were answered. After a fault the places of the replies that didn't come are as they
    /// were. It allocates no memory.
    fn call_many(&mut self, calls: &[Call], replies: &mut [Reply]) -> Result<usize, PeerFault>
        requires sort { AreOfOneSort calls.now }
        requires places { length replies.old ≡ length calls.now }
        requires may { MayAskAll (view self.old).fixed.shape (view self.old).phase calls.now }
        ensures places { length replies.new ≡ length calls.now }
        ensures asked { AskedMany (view self.old) calls.now replies.old replies.new result
            (view self.new) }
    {
        for i in 0..calls.len() {
            match self.call(&calls[i]) {
                Ok(reply) => {
                    replies[i] = reply;
                    match grade(self.shape(), self.phase(), &calls[i], &reply) {
                        Grade::Good => {}
                        Grade::Refused | Grade::Misreply => return Ok(i + 1),
                    }
                }
                Err(fault) => return Err(fault),
            }
        }
        Ok(calls.len())
    }

    /// Answers a Serialize, and puts the bytes that follow its reply into the room (FMI 3.0, 2.2.6: fmi3SerializeFMUState).
    /// After a fault what was put means nothing. It allocates no memory.
    fn serialize(&mut self, into: &mut Vec<u8>) -> Result<Reply, PeerFault>
        requires permitted { Permitted (view self.old).fixed.shape (view self.old).phase Call.Serialize }
        requires empty { into.old.items ≡ [] }
        requires room { 2 ^ 20 ≤ vec_capacity into.old }
        ensures asked { Asked (view self.old) Call.Serialize result (view self.new) }
        ensures bytes { Serializes (view self.old) result into.new.items }
        ensures room { vec_capacity into.old ≤ vec_capacity into.new };

    /// Answers a Deserialize with the bytes that follow it (FMI 3.0, 2.2.6: fmi3DeserializeFMUState). It allocates no memory.
    fn deserialize(&mut self, call: &Call, bytes: &[u8]) -> Result<Reply, PeerFault>
        requires permitted { Permitted (view self.old).fixed.shape (view self.old).phase call.now }
        requires length { IsDeserialize call.now (length bytes.now) }
        ensures { AskedWith (view self.old) call.now bytes.now result (view self.new) };

    /// A told machine is one of its shape.
    ghost machine: { (p : Self) → IfSome (view p).fixed.machine (IsMachineOf (view p).fixed.shape) };

    /// Its state is in Initialization Mode exactly where the instance is.
    ghost in_phase: { (p : Self) → TellsItsPhase (view p) };

    /// It answers the same whatever state is saved.
    ghost ignores_slot: { (p : Self) → IfSome (view p).fixed.machine IgnoresSlot };

    /// What it takes in from bytes is a state outside Initialization Mode.
    ghost unpacks: { (p : Self) → IfSome (view p).fixed.machine UnpacksWell };

    /// What its outputs show doesn't depend on inputs that they don't declare.
    ghost lawful: { (p : Self) → IfSome (view p).fixed.machine (IsLawful (view p).fixed.shape) };
}
