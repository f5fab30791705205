ghost use Rattle.std.specs.Prelude.{◌≡◌, ◌+◌, ◌<◌, ◌≤◌, ◌++◌, [], ◌∷◌, IsTrue, ◌||◌, length, Ok, Err, Some, None, IfOk, IfSome, OnOk, option_map, if◌then◌else◌};
ghost use Rattle.std.specs.Result.{result_ok};
ghost use Rattle.sim_base.specs.Causes.{HasCause};
ghost use Rattle.fmi_calls.specs.Permission.{Permitted};
ghost use Rattle.fmi_calls.specs.Next.{fresh, next_of};
ghost use Rattle.fmu_peer.specs.Talk.{Legal, phase_after};
ghost use Rattle.fmu_peer.specs.Props.{legal-prop};
ghost use Rattle.fmu_peer.specs.Book.{has_room, is_lost, fills_next};

use crate::{PeerFault, TalkRoom};
use fmi_calls::{Call, Phase, Reply, next_phase};
use std::alloc::{AllocError, Global};
use value_types::Shape;

/// An instance's shape and phase, its count of faults, and where it is kept the talk that led to the phase.
#[derive(Debug, Drop)]
pub struct TalkBook {
    pub shape: Shape,
    pub phase: Phase,
    pub talk: Option<TalkRoom>,
    pub faults: u64,
    ghost legal: { IfSome talk (λ t. Legal shape t.exchanges.items × (phase ≡ phase_after shape t.exchanges.items)) } by { legal-prop shape phase talk },
    ghost marks: { length phase.marks ≡ length shape.variables },
    ghost active: { length phase.active ≡ length shape.variables },
    ghost saved: { length phase.slot.marks ≡ length shape.variables },
    ghost has_room: { IsTrue (is_lost phase.state || has_room talk) },
}

impl TalkBook {
    /// A book before the first call.
    pub fn new(alloc: Global, shape: Shape, talk: Option<TalkRoom>) -> Result<TalkBook, AllocError>
        requires { IfSome talk (λ t. (t.exchanges.items ≡ []) × (0 < t.room)) }
        ensures shape { IfOk result (λ b. b.shape ≡ shape) }
        ensures phase { IfOk result (λ b. b.phase ≡ fresh shape) }
        ensures talk { IfOk result (λ b. b.talk ≡ talk) }
        ensures faults { IfOk result (λ b. b.faults ≡ 0) }
    {
        let phase = Phase::fresh(alloc, &shape)?;
        Ok(TalkBook {
            shape,
            phase,
            talk,
            faults: 0,
        })
    }

    /// Keeps an exchange: this answer, or `Failed` where the exchange fills the talk's room. It answers what it kept.
    pub fn keep(
        &mut self,
        call: &Call,
        answer: Result<Reply, PeerFault>,
    ) -> Result<Reply, PeerFault>
        requires { Permitted self.old.shape self.old.phase call.now }
        ensures kept { result ≡
            (if fills_next self.old.talk then Err PeerFault.Failed else answer) }
        ensures shape { self.new.shape ≡ self.old.shape }
        ensures phase { self.new.phase ≡ next_of self.old.shape self.old.phase call.now
            (result_ok result) }
        ensures talk { option_map (λ t. t.exchanges.items) self.new.talk
            ≡ option_map (λ t. t.exchanges.items ++ record { call = call.now; result = result } ∷ []) self.old.talk }
        ensures room { option_map (λ t. t.room) self.new.talk ≡
            option_map (λ t. t.room) self.old.talk }
        ensures cause { HasCause self.old.faults self.new.faults result }
    {
        if fills_next(&self.talk) {
            return self.keep_fault(call, PeerFault::Failed);
        }
        match &answer {
            Ok(reply) => {
                next_phase(&self.shape, &mut self.phase, call, Some(reply));
                keep_in(&mut self.talk, call, &answer);
                return answer;
            }
            Err(fault) => return self.keep_fault(call, *fault),
        }
    }

    // Keeps an exchange that got no reply.
    #[cold]
    #[inline(never)]
    fn keep_fault(&mut self, call: &Call, fault: PeerFault) -> Result<Reply, PeerFault>
        requires { Permitted self.old.shape self.old.phase call.now }
        ensures kept { result ≡ Err fault }
        ensures shape { self.new.shape ≡ self.old.shape }
        ensures phase { self.new.phase ≡ next_of self.old.shape self.old.phase call.now None }
        ensures talk { option_map (λ t. t.exchanges.items) self.new.talk
            ≡ option_map (λ t. t.exchanges.items ++ record { call = call.now; result = result } ∷ []) self.old.talk }
        ensures room { option_map (λ t. t.room) self.new.talk ≡
            option_map (λ t. t.room) self.old.talk }
        ensures cause { HasCause self.old.faults self.new.faults result }
    {
        let answer = Err(fault);
        next_phase(&self.shape, &mut self.phase, call, None);
        self.faults = self.faults.saturating_add(1);
        keep_in(&mut self.talk, call, &answer);
        answer
    }
}

fn fills_next(talk: &Option<TalkRoom>) -> bool
    ensures { result ≡ fills_next talk.now }
{
    match talk {
        Some(talk) => talk.room <= 1 || talk.room - 1 <= talk.exchanges.len(),
        None => false,
    }
}

fn keep_in(talk: &mut Option<TalkRoom>, call: &Call, answer: &Result<Reply, PeerFault>)
    requires { IsTrue (has_room talk.old) }
    ensures exchanges { option_map (λ t. t.exchanges.items) talk.new ≡
        option_map (λ t. t.exchanges.items ++ record { call = call.now; result = answer.now } ∷ []) talk.old }
    ensures room { option_map (λ t. t.room) talk.new ≡ option_map (λ t. t.room) talk.old }
{
    if let Some(talk) = talk {
        talk.push(call, answer);
    }
}
