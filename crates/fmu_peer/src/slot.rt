ghost use Rattle.std.specs.Prelude.{◌≡◌, ◌==◌, ◌&&◌, ◌<◌, is_some, length, map};
ghost use Rattle.fmu_peer.specs.CloseAll.{Closes, ClosesAll, ClosesAt, instance_in, is_source_lost, peer_in};

use crate::closing::close_peer;
use crate::{
    Ended, Eventing, Fmu, Fresh, Initializing, Instantiated, Job, Peer, Saved, Stepping, Why,
};
use core::mem::replace_with;
use sim_base::SourceId;

/// An FMU in any state, or what a failed transition or its closing left of it.
pub enum Held<L: Peer> {
    Fresh(Fmu<L, Fresh>),
    Instantiated(Fmu<L, Instantiated>),
    Initializing(Fmu<L, Initializing>),
    Eventing(Fmu<L, Eventing>),
    Stepping(Fmu<L, Stepping>),
    Ended(Ended<L>),
    Closed(L),
}

/// One of several FMUs.
pub struct Slot<L: Peer> {
    pub source: SourceId,
    pub held: Held<L>,
    /// the state that it keeps, until that is freed or given up
    pub saved: Option<Saved>,
    /// whether one of its answers was a refusal with Fatal
    pub is_fatal: bool,
    /// what it is to be asked in the next round
    pub job: Job,
    /// what its last job was answered: whether the answer asks for the end of the run, or why it isn't good
    pub answer: Option<Result<bool, Why>>,
}

impl<L: Peer> Held<L> {
    /// The peer, wherever it stands.
    pub fn peer(&self) -> &L
        ensures { result.now ≡ peer_in self.now }
    {
        match self {
            Held::Fresh(fmu) => &fmu.peer,
            Held::Instantiated(fmu) => &fmu.peer,
            Held::Initializing(fmu) => &fmu.peer,
            Held::Eventing(fmu) => &fmu.peer,
            Held::Stepping(fmu) => &fmu.peer,
            Held::Ended(ended) => &ended.peer,
            Held::Closed(peer) => peer,
        }
    }

    /// The peer by itself, wherever it stands.
    pub fn into_peer(self) -> L
        ensures { result ≡ peer_in self }
    {
        match self {
            Held::Fresh(fmu) => fmu.into_peer(),
            Held::Instantiated(fmu) => fmu.into_peer(),
            Held::Initializing(fmu) => fmu.into_peer(),
            Held::Eventing(fmu) => fmu.into_peer(),
            Held::Stepping(fmu) => fmu.into_peer(),
            Held::Ended(ended) => ended.into_peer(),
            Held::Closed(peer) => peer,
        }
    }
}

impl<L: Peer> Slot<L> {
    fn is_lost_of(&self, source: SourceId) -> bool
        ensures { result ≡ (self.now.is_fatal && self.now.source.0 == source.0) }
    {
        self.is_fatal && self.source.0 == source.0
    }
}

/// Closes FMUs in their order, each by the calls that it still may be sent: a state that it keeps is freed, then it is
/// terminated from Event Mode or Step Mode, and freed. After a refusal with Fatal, in the run or in the closing, the instances
/// of that source are sent nothing more (FMI 3.0, 2.2.3). No answer keeps it from going on, and it allocates no memory.
pub fn close_all<L: Peer>(slots: &mut [Slot<L>])
    ensures { ClosesAll (map (λ s. instance_in L.view s) slots.old)
        (map (λ s. instance_in L.view s) slots.new) }
{
    for place in 0..slots.len() {
        close_at(slots, place);
    }
}

// Closes the FMU at a place, unless one of its source has answered by Fatal.
fn close_at<L: Peer>(slots: &mut [Slot<L>], place: usize)
    requires { place < length slots.old }
    ensures { ClosesAt place (map (λ s. instance_in L.view s) slots.old) (map (λ s. instance_in L.view s) slots.new) }
{
    let is_spared = is_source_lost(slots, slots[place].source);
    replace_with(
        &mut slots[place],
        is_spared,
        |slot, is_spared| -> (Slot<L>, ())
            ensures { Closes is_spared (instance_in L.view slot) (instance_in L.view result.0) }
        { (close_slot(slot, is_spared), ()) },
    );
}

fn is_source_lost<L: Peer>(slots: &[Slot<L>], source: SourceId) -> bool
    ensures { result ≡ is_source_lost source.0 (map (λ s. instance_in L.view s) slots.now) }
{
    for slot in slots {
        if slot.is_lost_of(source) {
            return true;
        }
    }
    false
}

fn close_slot<L: Peer>(slot: Slot<L>, is_spared: bool) -> Slot<L>
    ensures { Closes is_spared (instance_in L.view slot) (instance_in L.view result) }
{
    let Slot {
        source,
        held,
        saved,
        is_fatal,
        job: _,
        answer: _,
    } = slot;
    let mut peer = held.into_peer();
    let has_saved = give_up(saved);
    let was_fatal = if is_spared {
        false
    } else {
        close_peer(&mut peer, has_saved)
    };
    Slot {
        source,
        held: Held::Closed(peer),
        saved: None,
        is_fatal: is_fatal || was_fatal,
        job: Job::Nothing,
        answer: None,
    }
}

// Spends the token of a saved state, and tells whether there was one.
fn give_up(saved: Option<Saved>) -> bool
    ensures { result ≡ is_some saved }
{
    match saved {
        Some(Saved { kept: () }) => true,
        None => false,
    }
}
