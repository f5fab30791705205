ghost use Rattle.std.specs.Prelude.{◌≡◌, ◌≤◌, ◌^◌, IfOk, [], false, length, option_map, vec_capacity};
ghost use Rattle.fmi_calls.specs.Permission.{Permitted};
ghost use Rattle.fmu_peer.specs.Machine.{IsInPhase};
ghost use Rattle.bench_fmus.specs.BuiltIn.{first_state, machine_of};
ghost use Rattle.bench_fmus.specs.Models.{behaviour_of};
ghost use Rattle.bench_fmus.specs.Told.{HasRoom, state_in};

use crate::{BuiltInState, Model, Origin};
use fmi_calls::{Call, Phase, Reply};
use fmu_peer::{Exchange, Peer, PeerFault, TalkBook, TalkRoom};
use std::alloc::{AllocError, Global};
use value_types::Shape;

/// An instance of a built-in machine. Its replies are OK.
#[derive(Debug, Drop)]
pub struct BuiltIn {
    pub model: Model,
    pub origin: Origin,
    pub book: TalkBook,
    pub state: BuiltInState,
    ghost room: { HasRoom book.shape state },
    ghost in_phase: { IsInPhase (machine_of (behaviour_of model) book.shape) book.phase (state_in book.shape.variables state) },
}

impl BuiltIn {
    ghost use Rattle.std.specs.Prelude.{IfSome, [], ◌<◌};
    ghost use Rattle.fmi_calls.specs.Next.{fresh};
    ghost use Rattle.bench_fmus.specs.BuiltInView.{built_in_view};

    /// An instance before its first call, which keeps its exchanges where it has room for them.
    pub fn new(
        alloc: Global,
        model: Model,
        origin: Origin,
        shape: &Shape,
        talk: Option<TalkRoom>,
    ) -> Result<BuiltIn, AllocError>
        requires { IfSome talk (λ t. (t.exchanges.items ≡ []) × (0 < t.room)) }
        ensures model { IfOk result (λ b. b.model ≡ model) }
        ensures origin { IfOk result (λ b. b.origin ≡ origin) }
        ensures shape { IfOk result (λ b. b.book.shape ≡ shape.now) }
        ensures phase { IfOk result (λ b. b.book.phase ≡ fresh shape.now) }
        ensures talk { IfOk result (λ b. b.book.talk ≡ talk) }
        ensures faults { IfOk result (λ b. b.book.faults ≡ 0) }
        ensures state { IfOk result (λ b. state_in shape.now.variables b.state ≡
            first_state shape.now.variables) }
    {
        let state = BuiltInState::at_first(alloc, shape)?;
        let book = TalkBook::new(alloc, shape.copy(alloc)?, talk)?;
        Ok(BuiltIn {
            model,
            origin,
            book,
            state,
        })
    }

    /// The exchanges so far, where they are kept.
    pub fn talk(&self) -> Option<&[Exchange]>
        ensures { option_map (λ es. es.now) result ≡ (built_in_view self.now).talk }
    {
        match &self.book.talk {
            Some(talk) => Some(talk.exchanges.as_slice()),
            None => None,
        }
    }
}

impl Peer for BuiltIn {
    ghost use Rattle.std.specs.Prelude.{if◌then◌else◌, Ok, Err};
    ghost use Rattle.fmi_calls.specs.declared.call.Call.{Call};
    ghost use Rattle.fmu_peer.specs.View.{Asked, AskedWith, IsDeserialize, Serializes, carries_bytes};
    ghost use Rattle.fmu_peer.specs.Book.{fills_next};
    ghost use Rattle.bench_fmus.specs.BuiltInView.{built_in_reply, built_in_reply_at, built_in_view};
    ghost use Rattle.bench_fmus.specs.Laws.{answers_alike, is_lawful, is_machine, unpacks_well};

    ghost view = { built_in_view };

    ghost machine = { λ b. is_machine b.model b.book.shape };

    ghost in_phase = { λ b. b.in_phase };

    ghost ignores_slot = { λ b. answers_alike b.model b.book.shape };

    ghost unpacks = { λ b. unpacks_well b.model b.book.shape };

    ghost lawful = { λ b. is_lawful b.model b.book.shape };

    fn shape(&self) -> &Shape {
        &self.book.shape
    }

    fn phase(&self) -> &Phase {
        &self.book.phase
    }

    fn call(&mut self, call: &Call) -> Result<Reply, PeerFault>
        requires permitted { Permitted self.old.book.shape self.old.book.phase call.now }
        requires plain { carries_bytes call.now ≡ false }
        ensures asked { Asked (built_in_view self.old) call.now result (built_in_view self.new) }
        ensures answers { result ≡
            (if fills_next self.old.book.talk then Err PeerFault.Failed else Ok
            (built_in_reply self.old call.now)) }
        ensures room { option_map (λ t. t.room) self.new.book.talk ≡
            option_map (λ t. t.room) self.old.book.talk }
    {
        let book = &self.book;
        let model = self.model;
        let reply = self.state.reply(model, &book.shape, &book.phase, call);
        self.state.change(model, &book.shape, &book.phase, call);
        self.book.keep(call, Ok(reply))
    }

    fn serialize(&mut self, into: &mut Vec<u8>) -> Result<Reply, PeerFault>
        requires permitted { Permitted self.old.book.shape self.old.book.phase Call.Serialize }
        requires empty { into.old.items ≡ [] }
        requires room { 2 ^ 20 ≤ vec_capacity into.old }
        ensures asked { Asked (built_in_view self.old) Call.Serialize result
            (built_in_view self.new) }
        ensures bytes { Serializes (built_in_view self.old) result into.new.items }
        ensures room { vec_capacity into.old ≤ vec_capacity into.new }
        ensures answers { result ≡
            (if fills_next self.old.book.talk then Err PeerFault.Failed else Ok
            (built_in_reply self.old Call.Serialize)) }
        ensures talk { option_map (λ t. t.room) self.new.book.talk ≡
            option_map (λ t. t.room) self.old.book.talk }
    {
        let book = &self.book;
        let call = Call::Serialize;
        let reply = self
            .state
            .reply(self.model, &book.shape, &book.phase, &call);
        self.state.serialize(&book.shape, into);
        self.book.keep(&call, Ok(reply))
    }

    fn deserialize(&mut self, call: &Call, bytes: &[u8]) -> Result<Reply, PeerFault>
        requires permitted { Permitted self.old.book.shape self.old.book.phase call.now }
        requires length { IsDeserialize call.now (length bytes.now) }
        ensures asked { AskedWith (built_in_view self.old) call.now bytes.now result
            (built_in_view self.new) }
        ensures answers { result ≡
            (if fills_next self.old.book.talk then Err PeerFault.Failed else Ok
            (built_in_reply_at self.old call.now bytes.now)) }
        ensures room { option_map (λ t. t.room) self.new.book.talk ≡
            option_map (λ t. t.room) self.old.book.talk }
    {
        let reply = self.state.deserialize(&self.book.shape, bytes);
        self.book.keep(call, Ok(reply))
    }
}
