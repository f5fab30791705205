ghost use Rattle.std.specs.Prelude.{◌≡◌, ◌≤◌, ◌^◌, [], false, IsOk, length, vec_capacity};
ghost use Rattle.fmi_calls.specs.Permission.{Permitted};
ghost use Rattle.fmu_peer.specs.Many.{AreOfOneSort, AskedMany, MayAskAll};
ghost use Rattle.fmu_peer.specs.View.{Asked, AskedWith, IsDeserialize, Serializes, carries_bytes};
ghost use Rattle.child_hosts.specs.Links.{AnswersBy, AnswersManyBy, AnswersWithBy, KeepsNoTalk, SerializesBy, link_view};

use crate::ChildFmu;
use bench_fmus::BuiltIn;
use fmi_calls::{Call, Phase, Reply};
use fmu_link::Wire;
use fmu_peer::{Peer, PeerFault};
use std::alloc::Global;
use value_types::Shape;

/// An FMU that the program runs itself, or one in a child process behind a wire. It stands in a box, since each call of the
/// typed states of an FMU moves it. It can't be dropped: it has to be ended.
pub enum HostLink<W> {
    BuiltIn(Box<BuiltIn, Global>),
    Child(Box<ChildFmu<W>, Global>),
}

impl<W: Wire + Send + Drop> HostLink<W> {
    /// Ends its process, where it has one.
    pub fn end(self) {
        match self {
            HostLink::BuiltIn(peer) => drop(peer),
            HostLink::Child(child) => Box::into_inner(child).end(),
        }
    }
}

impl<W: Wire + Send> Peer for HostLink<W> {
    ghost use Rattle.child_hosts.specs.LinkLaws.{ignores_slot, is_in_phase, is_lawful, is_machine, unpacks_well};

    ghost view = { link_view W.view };

    ghost machine = { is_machine W.view };

    ghost in_phase = { is_in_phase W.view };

    ghost ignores_slot = { ignores_slot W.view };

    ghost unpacks = { unpacks_well W.view };

    ghost lawful = { is_lawful W.view };

    fn shape(&self) -> &Shape {
        match self {
            HostLink::BuiltIn(peer) => peer.shape(),
            HostLink::Child(peer) => peer.shape(),
        }
    }

    fn phase(&self) -> &Phase {
        match self {
            HostLink::BuiltIn(peer) => peer.phase(),
            HostLink::Child(peer) => peer.phase(),
        }
    }

    fn call(&mut self, call: &Call) -> Result<Reply, PeerFault>
        requires permitted { Permitted (link_view W.view self.old).fixed.shape
            (link_view W.view self.old).phase call.now }
        requires plain { carries_bytes call.now ≡ false }
        ensures asked { Asked (link_view W.view self.old) call.now result
            (link_view W.view self.new) }
        ensures answers { AnswersBy W.view self.old call.now result self.new }

        // A built-in machine that keeps no talk never fails.
        ensures steady { KeepsNoTalk self.old → IsOk result × KeepsNoTalk self.new }
    {
        match self {
            HostLink::BuiltIn(peer) => return peer.call(call),
            HostLink::Child(peer) => return peer.call(call),
        }
    }

    fn call_many(&mut self, calls: &[Call], replies: &mut [Reply]) -> Result<usize, PeerFault>
        requires sort { AreOfOneSort calls.now }
        requires places { length replies.old ≡ length calls.now }
        requires may { MayAskAll (link_view W.view self.old).fixed.shape
            (link_view W.view self.old).phase calls.now }
        ensures places { length replies.new ≡ length calls.now }
        ensures asked { AskedMany (link_view W.view self.old) calls.now replies.old replies.new
            result (link_view W.view self.new) }
        ensures answers { AnswersManyBy W.view self.old calls.now replies.new result self.new }
    {
        match self {
            HostLink::BuiltIn(peer) => return peer.call_many(calls, replies),
            HostLink::Child(peer) => return peer.call_many(calls, replies),
        }
    }

    fn serialize(&mut self, into: &mut Vec<u8>) -> Result<Reply, PeerFault>
        requires permitted { Permitted (link_view W.view self.old).fixed.shape
            (link_view W.view self.old).phase Call.Serialize }
        requires empty { into.old.items ≡ [] }
        requires room { 2 ^ 20 ≤ vec_capacity into.old }
        ensures asked { Asked (link_view W.view self.old) Call.Serialize result
            (link_view W.view self.new) }
        ensures bytes { Serializes (link_view W.view self.old) result into.new.items }
        ensures room { vec_capacity into.old ≤ vec_capacity into.new }
        ensures answers { SerializesBy W.view self.old result into.new.items self.new }

        // A built-in machine that keeps no talk never fails.
        ensures steady { KeepsNoTalk self.old → IsOk result × KeepsNoTalk self.new }
    {
        match self {
            HostLink::BuiltIn(peer) => return peer.serialize(into),
            HostLink::Child(peer) => return peer.serialize(into),
        }
    }

    fn deserialize(&mut self, call: &Call, bytes: &[u8]) -> Result<Reply, PeerFault>
        requires permitted { Permitted (link_view W.view self.old).fixed.shape
            (link_view W.view self.old).phase call.now }
        requires length { IsDeserialize call.now (length bytes.now) }
        ensures asked { AskedWith (link_view W.view self.old) call.now bytes.now result
            (link_view W.view self.new) }
        ensures answers { AnswersWithBy W.view self.old call.now bytes.now result self.new }

        // A built-in machine that keeps no talk never fails.
        ensures steady { KeepsNoTalk self.old → IsOk result × KeepsNoTalk self.new }
    {
        match self {
            HostLink::BuiltIn(peer) => return peer.deserialize(call, bytes),
            HostLink::Child(peer) => return peer.deserialize(call, bytes),
        }
    }
}
