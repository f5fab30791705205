ghost use Rattle.std.specs.Prelude.{◌≡◌, ◌↔◌, ◌+◌, ◌-◌, ◌^◌, ◌<◌, ◌≤◌, ◌==◌, ◌++◌, find, min, [], ◌∷◌, length, Some, Err, IfOk, IfSome, Contains, option_map};
ghost use Rattle.std.specs.Option.{ForSome, option_copied};
ghost use Rattle.bench_fmus.specs.Rooms.{room_of, room_up_to};

use crate::{BuiltIn, Model, Origin, Retired, StartPlan};
use fmu_peer::{Spawner, StartFault, TalkRoom};
use sim_base::Items;
use std::alloc::{AllocError, Global};
use value_types::Shape;

/// A call of a peer that is to fail: the start that gives the peer, and the call, both by their numbers from 0. After it the peer
/// gets no other.
#[derive(Clone, Copy, Debug, Drop)]
pub struct FailingCall {
    pub start: u64,
    pub call: u32,
}

/// A spawner of the built-in machines, which are known by their names. The starts that are planned to fail do, and no
/// others. Where it has a room, each peer keeps its talk, and fails at the call that fills the room with exchanges; a peer that
/// is to fail at a call has room for the exchanges up to that one.
#[derive(Debug, Drop)]
pub struct Bench {
    pub room: Option<usize>,
    pub failing_calls: Items<FailingCall>,
    pub plan: StartPlan,
    pub retired: Retired<BuiltIn>,
    ghost fits: { ForSome room (λ n. 0 < n) },
}

impl Bench {
    ghost use Rattle.fmu_peer.specs.Start.{IsStarted};
    ghost use Rattle.bench_fmus.specs.BuiltInView.{built_in_view};

    /// A spawner before its first start, whose peers don't fail before their room is full.
    pub fn new(alloc: Global, room: Option<usize>, failing: Vec<u64>) -> Bench
        requires { IfSome room (λ n. 0 < n) }
        ensures room { result.room ≡ room }
        ensures calls { result.failing_calls ≡ [] }
        ensures failing { result.plan.failing ≡ failing.items }
        ensures quiet { (result.plan.starts ≡ 0) × (result.plan.faults ≡ 0) }
        ensures none { (result.retired.started ≡ 0) × (result.retired.peers.items ≡ []) }
    {
        Bench {
            room,
            failing_calls: Items::from_vec(Vec::new(alloc)),
            plan: StartPlan::new(failing),
            retired: Retired::new(alloc),
        }
    }

    /// The same with calls that are to fail. Of several to one peer the first of the list counts.
    pub fn with_failing_calls(self, calls: Vec<FailingCall>) -> Bench
        ensures calls { result.failing_calls ≡ calls.items }
        ensures room { result.room ≡ self.room }
        ensures plan { result.plan ≡ self.plan }
        ensures retired { result.retired ≡ self.retired }
    {
        let Bench {
            room,
            failing_calls: _,
            plan,
            retired,
        } = self;
        Bench {
            room,
            failing_calls: Items::from_vec(calls),
            plan,
            retired,
        }
    }

    /// The peers that were taken back, in order.
    pub fn retired_peers(&self) -> &[BuiltIn]
        ensures { result.now ≡ self.now.retired.peers.items }
    {
        self.retired.peers.as_slice()
    }

    fn make(
        &self,
        alloc: Global,
        start: u64,
        model: Model,
        host: &str,
        name: &str,
        directory: &str,
        shape: &Shape,
    ) -> Result<BuiltIn, AllocError>
        ensures fresh { IfOk result (λ b. IsStarted host.now name.now directory.now shape.now
            (built_in_view b)) }
        ensures model { IfOk result (λ b. b.model ≡ model) }
        ensures talk { IfOk result (λ b. option_map (λ t. t.room) b.book.talk ≡
            room_of self.now.room self.now.failing_calls start) }
    {
        let room = room_of(self.room, self.failing_calls.as_slice(), start);
        let talk = make_talk(alloc, room)?;
        let origin = Origin::from_texts(alloc, host, name, directory)?;
        let peer = BuiltIn::new(alloc, model, origin, shape, talk)?;
        Ok(peer)
    }
}

// The first of the calls that is one of the peer that a start gives.
fn failing_call(calls: &[FailingCall], start: u64) -> Option<&FailingCall>
    ensures { option_copied result ≡ find (λ (c : FailingCall). c.start == start) calls.now }
{
    calls.iter().find(|failing| failing.start == start)
}

// The room up to that call, else the one of each peer.
fn room_up_to(failing: Option<&FailingCall>, room: Option<usize>) -> Option<usize>
    ensures room { result ≡ room_up_to (option_copied failing.entry) room }
    ensures positive { IfSome room (λ n. 0 < n) → IfSome result (λ n. 0 < n) }
{
    match failing {
        Some(failing) => Some(failing.call as usize + 1),
        None => room,
    }
}

// The room of the peer that a start gives.
fn room_of(room: Option<usize>, calls: &[FailingCall], start: u64) -> Option<usize>
    ensures room { result ≡ room_of room calls.now start }
    ensures positive { IfSome room (λ n. 0 < n) → IfSome result (λ n. 0 < n) }
{
    room_up_to(failing_call(calls, start), room)
}

fn make_talk(alloc: Global, room: Option<usize>) -> Result<Option<TalkRoom>, AllocError>
    ensures room { IfOk result (λ talk. option_map (λ t. t.room) talk ≡ room) }
    ensures empty { IfOk result (λ talk. IfSome talk (λ t. t.exchanges.items ≡ [])) }
{
    match room {
        Some(room) => Ok(Some(TalkRoom::with_room(alloc, room)?)),
        None => Ok(None),
    }
}

impl Spawner for Bench {
    type Link = BuiltIn;

    ghost use Rattle.std.specs.Prelude.{map, OnOk, OnErr, IsErrOf, true};
    ghost use Rattle.fmu_peer.specs.Start.{AnswersUnknown, IsMade, IsStarted, NotesStart};
    ghost use Rattle.fmu_peer.specs.declared.spawner.StartFault.TheVariants.{Failed, Memory};
    ghost use Rattle.bench_fmus.specs.Models.{is_model, model_named};
    ghost use Rattle.bench_fmus.specs.BuiltInView.{built_in_view, fewer_views};
    ghost use Rattle.bench_fmus.specs.Spawners.{bench_view};

    ghost view = { bench_view };

    ghost fewer = { λ b. fewer_views b.retired.peers.items b.retired.started b.retired.fewer };

    fn start(
        &mut self,
        alloc: Global,
        host: &str,
        name: &str,
        directory: &str,
        shape: &Shape,
    ) -> Result<BuiltIn, StartFault>
        requires name { (1 ≤ length name.now) × (length name.now ≤ 2 ^ 24) }
        requires token { length shape.now.token ≤ 2 ^ 24 }
        ensures fresh { IfOk result (λ b. IsStarted host.now name.now directory.now shape.now
            (built_in_view b)) }
        ensures made { IfOk result (λ b. IsMade (bench_view self.old) host.now shape.now
            (built_in_view b)) }
        ensures model { IfOk result (λ b. model_named shape.now.identifier ≡ Some b.model) }
        ensures talk { IfOk result (λ b. option_map (λ t. t.room) b.book.talk ≡
            room_of self.old.room self.old.failing_calls self.old.plan.starts) }
        ensures room { self.new.room ≡ self.old.room }
        ensures calls { self.new.failing_calls ≡ self.old.failing_calls }
        ensures failing { self.new.plan.failing ≡ self.old.plan.failing }
        ensures counted { self.new.plan.starts ≡ min (self.old.plan.starts + 1) (2 ^ 64 - 1) }
        ensures failed { (result ≡ Err Failed) ↔ Contains self.old.plan.failing
            self.old.plan.starts }
        ensures unknown { AnswersUnknown (is_model shape.now.identifier) result }

        // Another name is refused, and no memory is needed for that.
        ensures memory { IsErrOf result Memory → is_model shape.now.identifier ≡ true }
        ensures noted { NotesStart (bench_view self.old) (bench_view self.new) result }
    {
        let start = self.plan.starts;
        self.plan.begin()?;
        let Some(model) = Model::from_identifier(shape.identifier.as_str()) else {
            return Err(StartFault::Unknown);
        };
        let Ok(peer) = self.make(alloc, start, model, host, name, directory, shape) else {
            return Err(StartFault::Memory);
        };
        match self.retired.count(peer) {
            Ok(peer) => Ok(peer),
            Err(_) => Err(StartFault::Memory),
        }
    }

    fn retire(&mut self, link: BuiltIn)
        requires { length self.old.retired.peers.items < self.old.retired.started }
        ensures retired { self.new.retired.peers.items ≡ self.old.retired.peers.items ++ link ∷ [] }
        ensures started { self.new.retired.started ≡ self.old.retired.started }
        ensures room { self.new.room ≡ self.old.room }
        ensures calls { self.new.failing_calls ≡ self.old.failing_calls }
        ensures plan { self.new.plan ≡ self.old.plan }
    {
        self.retired.push(link);
    }
}
