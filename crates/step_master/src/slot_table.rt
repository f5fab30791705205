ghost use Rattle.std.specs.Prelude.{◌≡◌, ◌≤◌, length, vec_len, vec_capacity};

use crate::BadAnswer;
use crate::taking::{fill_slots, give_back, make};
use fmu_peer::{Peer, Slot, close_all};
use std::alloc::Global;
use system_model::Component;

/// The slots of the components, and an empty list with room for each peer.
pub(crate) struct SlotTable<L: Peer> {
    pub slots: Vec<Slot<L>>,
    pub places: Vec<L>,
    ghost empty: { vec_len places ≡ 0 },
    ghost room: { length slots.items ≤ vec_capacity places },
}

impl<L: Peer> SlotTable<L> {
    ghost use Rattle.std.specs.Prelude.{◌^◌, All, IfOk, IfErr, OnOk, map};
    ghost use Rattle.fmi_calls.specs.Next.{fresh};
    ghost use Rattle.fmu_peer.specs.Mode.{instantiate_of};
    ghost use Rattle.step_master.specs.Master.{Closes};
    ghost use Rattle.calling_sequence.specs.Place.{IsMade};
    ghost use Rattle.step_master.specs.FreshInstances.{IsFresh, fresh_instances};
    ghost use Rattle.slot_calls.specs.Slots.{LiveSlot, Stands, instances};
    ghost use Rattle.slot_calls.specs.Stage.{Stage, nothing, shapes, to_each};

    /// Puts each peer into the slot of its component. Where memory runs out it gives the peers back.
    pub fn new(
        alloc: Global,
        components: &[Component],
        peers: Vec<L>,
    ) -> Result<SlotTable<L>, Vec<L>>
        requires each { length components.now ≡ vec_len peers }
        requires fresh { All (λ p. (L.view p).phase ≡ fresh (L.view p).fixed.shape) peers.items }
        ensures ok { IfOk result (λ slot_table. instances L.view slot_table.slots.items ≡
            fresh_instances components.now (map L.view peers.items)) }
        ensures live { IfOk result (λ slot_table. All (LiveSlot L.view) slot_table.slots.items) }
        ensures err { IfErr result (λ left. left.items ≡ peers.items) }
    {
        let Ok(places) = Vec::with_capacity(alloc, peers.len()) else {
            return Err(peers);
        };
        match Vec::with_capacity(alloc, peers.len()) {
            Ok(slots) => Ok(SlotTable {
                slots: fill_slots(slots, components, peers),
                places,
            }),
            Err(_) => {
                places.destroy_empty();
                Err(peers)
            }
        }
    }

    /// Makes each instance, over links of this version, up to the first answer that isn't good.
    pub fn make(&mut self, link: u32) -> Result<(), BadAnswer>
        requires few { length self.old.slots.items ≤ 2 ^ 32 }
        requires live { All (LiveSlot L.view) self.old.slots.items }
        requires fresh { All (Stands IsFresh L.view) self.old.slots.items }
        ensures live { OnOk result (All (LiveSlot L.view) self.new.slots.items) }
        ensures made { OnOk result (All (Stands IsMade L.view) self.new.slots.items) }
        ensures stage { Stage
            (to_each (instantiate_of link) (shapes (instances L.view self.old.slots.items))) nothing
            (instances L.view self.old.slots.items) (instances L.view self.new.slots.items) result }
    {
        make(&mut self.slots, link)
    }

    /// Closes the instances in order, and gives the peers back.
    pub fn close(self) -> Vec<L>
        ensures { Closes (instances L.view self.slots.items) (map L.view result.items) }
    {
        let SlotTable { mut slots, places } = self;
        close_all(&mut slots);
        give_back(slots, places)
    }
}
