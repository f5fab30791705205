ghost use Rattle.std.specs.Prelude.{◌≡◌, ◌↔◌, ◌⊎◌, ◌+◌, ◌-◌, ◌^◌, ◌<◌, ◌≤◌, ◌++◌, min, [], ◌∷◌, length, Some, Err, IfOk, OnOk, OnErr, Contains, option_map, slice_get, true};
ghost use Rattle.fmi_calls.specs.Next.{fresh};
ghost use Rattle.fmu_peer.specs.Start.{IsStarted};
ghost use Rattle.bench_fmus.specs.Told.{talk_in};
ghost use Rattle.bench_fmus.specs.ScriptView.{script_view};

use crate::{Origin, Retired, Script, StartPlan};
use fmi_calls::Reply;
use fmu_peer::{PeerFault, Spawner, StartFault, TalkBook, TalkRoom};
use sim_base::Items;
use std::alloc::{AllocError, Global};
use value_types::Shape;

/// A spawner of scripts. It knows every name. Each start, counted from 0, takes the list of its number; a start for
/// which there is no list fails, and so do those that are planned to fail.
#[derive(Debug, Drop)]
pub struct Scripts {
    pub lists: Items<Items<Result<Reply, PeerFault>>>,
    pub plan: StartPlan,
    pub retired: Retired<Script>,
}

impl Scripts {
    /// A spawner before its first start.
    pub fn new(
        alloc: Global,
        lists: Vec<Items<Result<Reply, PeerFault>>>,
        failing: Vec<u64>,
    ) -> Scripts
        ensures lists { result.lists ≡ lists.items }
        ensures failing { result.plan.failing ≡ failing.items }
        ensures quiet { (result.plan.starts ≡ 0) × (result.plan.faults ≡ 0) }
        ensures none { (result.retired.started ≡ 0) × (result.retired.peers.items ≡ []) }
    {
        Scripts {
            lists: Items::from_vec(lists),
            plan: StartPlan::new(failing),
            retired: Retired::new(alloc),
        }
    }

    /// The peers that were taken back, in order.
    pub fn retired_peers(&self) -> &[Script]
        ensures { result.now ≡ self.now.retired.peers.items }
    {
        self.retired.peers.as_slice()
    }
}

// The room is one more than the answers, so that the call that fills it is the one past their end.
fn make_book(
    alloc: Global,
    shape: &Shape,
    answers: &[Result<Reply, PeerFault>],
) -> Result<TalkBook, AllocError>
    ensures shape { IfOk result (λ b. b.shape ≡ shape.now) }
    ensures phase { IfOk result (λ b. b.phase ≡ fresh shape.now) }
    ensures talk { IfOk result (λ b. talk_in b.talk ≡ Some []) }
    ensures room { IfOk result (λ b. option_map (λ t. t.room) b.talk ≡
        Some (length answers.now + 1)) }
    ensures faults { IfOk result (λ b. b.faults ≡ 0) }
{
    let talk = TalkRoom::with_room(alloc, answers.len() + 1)?;
    TalkBook::new(alloc, shape.copy(alloc)?, Some(talk))
}

fn make_script(
    alloc: Global,
    host: &str,
    name: &str,
    directory: &str,
    shape: &Shape,
    answers: &[Result<Reply, PeerFault>],
) -> Result<Script, AllocError>
    ensures fresh { IfOk result (λ s. IsStarted host.now name.now directory.now shape.now
        (script_view s)) }
    ensures answers { IfOk result (λ s. s.answers ≡ answers.now) }
    ensures room { IfOk result (λ s. option_map (λ t. t.room) s.book.talk ≡
        Some (length answers.now + 1)) }
{
    // What is expensive to drop is made last.
    let given = Items::from_vec(answers.to_vec(alloc)?);
    let origin = Origin::from_texts(alloc, host, name, directory)?;
    let book = make_book(alloc, shape, answers)?;
    Ok(Script {
        book,
        origin,
        answers: given,
    })
}

impl Spawner for Scripts {
    type Link = Script;

    ghost use Rattle.std.specs.Prelude.{map};
    ghost use Rattle.fmu_peer.specs.Start.{AnswersUnknown, NotesStart};
    ghost use Rattle.fmu_peer.specs.declared.spawner.StartFault.TheVariants.{Failed};
    ghost use Rattle.bench_fmus.specs.ScriptView.{fewer_scripts};
    ghost use Rattle.bench_fmus.specs.Spawners.{scripts_view};

    ghost view = { scripts_view };

    ghost fewer = { λ s. fewer_scripts s.retired.peers.items s.retired.started s.retired.fewer };

    fn start(
        &mut self,
        alloc: Global,
        host: &str,
        name: &str,
        directory: &str,
        shape: &Shape,
    ) -> Result<Script, StartFault>
        requires name { (1 ≤ length name.now) × (length name.now ≤ 2 ^ 24) }
        requires token { length shape.now.token ≤ 2 ^ 24 }
        ensures fresh { IfOk result (λ s. IsStarted host.now name.now directory.now shape.now
            (script_view s)) }
        ensures answers { IfOk result
            (λ s. Some s.answers ≡ slice_get self.old.lists self.old.plan.starts) }
        ensures room { IfOk result (λ s. option_map (λ t. t.room) s.book.talk ≡
            Some (length s.answers + 1)) }
        ensures lists { self.new.lists ≡ self.old.lists }
        ensures failing { self.new.plan.failing ≡ self.old.plan.failing }
        ensures counted { self.new.plan.starts ≡ min (self.old.plan.starts + 1) (2 ^ 64 - 1) }
        ensures failed { (result ≡ Err Failed) ↔
            (Contains self.old.plan.failing self.old.plan.starts ⊎
            (length self.old.lists ≤ self.old.plan.starts)) }
        ensures unknown { AnswersUnknown true result }
        ensures noted { NotesStart (scripts_view self.old) (scripts_view self.new) result }
    {
        let place = self.plan.starts as usize;
        self.plan.begin()?;
        let Some(answers) = self.lists.get(place) else {
            return Err(self.plan.fail());
        };
        let Ok(script) = make_script(alloc, host, name, directory, shape, answers.as_slice()) else {
            return Err(StartFault::Memory);
        };
        match self.retired.count(script) {
            Ok(script) => Ok(script),
            Err(_) => Err(StartFault::Memory),
        }
    }

    fn retire(&mut self, link: Script)
        requires { length self.old.retired.peers.items < self.old.retired.started }
        ensures retired { self.new.retired.peers.items ≡ self.old.retired.peers.items ++ link ∷ [] }
        ensures started { self.new.retired.started ≡ self.old.retired.started }
        ensures lists { self.new.lists ≡ self.old.lists }
        ensures plan { self.new.plan ≡ self.old.plan }
    {
        self.retired.push(link);
    }
}
