ghost use Rattle.std.specs.Prelude.{◌≡◌, ◌≤◌, ◌^◌, [], false, is_some, All, IfOk, OnOk, length, map, vec_len, vec_capacity};
ghost use Rattle.fmi_calls.specs.Next.{fresh};
ghost use Rattle.fmu_peer.specs.CloseAll.{instance_in, peer_in};
ghost use Rattle.step_master.specs.FreshInstances.{IsFresh, fresh_instance, fresh_instances};
ghost use Rattle.fmu_peer.specs.Mode.{instantiate_of};
ghost use Rattle.calling_sequence.specs.Place.{IsMade};
ghost use Rattle.slot_calls.specs.Slots.{LiveSlot, Stands, instances};
ghost use Rattle.slot_calls.specs.Stage.{Stage, nothing, shapes, to_each};

use fmu_peer::{Fmu, Held, Job, Peer, Slot};
use sim_base::Items;
use slot_calls::{Ask, BadAnswer, each};
use std::alloc::{AllocError, Global};
use system_model::{Bound, Component};

/// Puts each peer into the slot of its component.
pub(crate) fn fill_slots<L: Peer>(
    empty: Vec<Slot<L>>,
    components: &[Component],
    peers: Vec<L>,
) -> Vec<Slot<L>>
    requires empty { empty.items ≡ [] }
    requires room { vec_len peers ≤ vec_capacity empty }
    requires each { length components.now ≡ vec_len peers }
    requires fresh { All (λ p. (L.view p).phase ≡ fresh (L.view p).fixed.shape) peers.items }
    ensures slots { instances L.view result.items ≡
        fresh_instances components.now (map L.view peers.items) }
    ensures live { All (LiveSlot L.view) result.items }
{
    let mut slots = empty;
    let mut left = peers.into_iter();
    while let Some(peer) = left.next() {
        let component = &components[slots.len()];
        slots.push_reserved(fill_slot(component, peer));
    }
    left.destroy_empty();
    slots
}

fn fill_slot<L: Peer>(component: &Component, peer: L) -> Slot<L>
    requires { (L.view peer).phase ≡ fresh (L.view peer).fixed.shape }
    ensures slot { instance_in L.view result ≡ fresh_instance component.now (L.view peer) }
    ensures live { LiveSlot L.view result }
{
    Slot {
        source: component.source,
        held: Held::Fresh(Fmu::new(peer)),
        saved: None,
        is_fatal: false,
        job: Job::Nothing,
        answer: None,
    }
}

/// The peers of slots that keep no saved state, put into an empty list that has room for them.
pub(crate) fn give_back<L: Peer>(slots: Vec<Slot<L>>, places: Vec<L>) -> Vec<L>
    requires empty { vec_len places ≡ 0 }
    requires room { length slots.items ≤ vec_capacity places }
    requires spent { All (λ s. is_some s.saved ≡ false) slots.items }
    ensures { result.items ≡ map (λ s. peer_in s.held) slots.items }
{
    let mut peers = places;
    let mut left = slots.into_iter();
    while let Some(slot) = left.next() {
        peers.push_reserved(peer_of(slot));
    }
    left.destroy_empty();
    peers
}

fn peer_of<L: Peer>(slot: Slot<L>) -> L
    requires { is_some slot.saved ≡ false }
    ensures { result ≡ peer_in slot.held }
{
    let Slot {
        source: _,
        held,
        saved,
        is_fatal: _,
        job: _,
        answer: _,
    } = slot;
    match saved {
        None => held.into_peer(),
        Some(_) => unreachable!(),
    }
}

/// Makes each instance, over links of this version, up to the first answer that isn't good.
pub(crate) fn make<L: Peer>(slots: &mut [Slot<L>], link: u32) -> Result<(), BadAnswer>
    requires few { length slots.old ≤ 2 ^ 32 }
    requires live { All (LiveSlot L.view) slots.old }
    requires fresh { All (Stands IsFresh L.view) slots.old }
    ensures live { OnOk result (All (LiveSlot L.view) slots.new) }
    ensures made { OnOk result (All (Stands IsMade L.view) slots.new) }
    ensures stage { Stage (to_each (instantiate_of link) (shapes (instances L.view slots.old))) nothing
        (instances L.view slots.old) (instances L.view slots.new) result }
{
    each(slots, Ask::Instantiate { link })?;
    Ok(())
}

/// No value for any parameter.
pub(crate) fn no_bound(alloc: Global, components: &[Component]) -> Result<Bound, AllocError>
    ensures { IfOk result (λ bound. bound.components ≡ map (λ component. []) components.now) }
{
    let mut lists = Vec::with_capacity(alloc, components.len())?;
    while lists.len() < components.len() {
        lists.push(Items::from_vec(Vec::new(alloc)))?;
    }
    Ok(Bound {
        components: Items::from_vec(lists),
        unreached: 0,
    })
}
