ghost use Rattle.std.specs.Prelude.{◌≡◌, ◌≤◌, ◌<◌, ◌^◌, OnOk, All, length, slice_index_or};
ghost use Rattle.std.specs.List.{AllZip};
ghost use Rattle.value_types.specs.declared.shape.Shape.{Shape};
ghost use Rattle.system_model.specs.Bounds.{AreParameterValues, IsParameterValue};
ghost use Rattle.run_model.specs.Initial.{set_call};
ghost use Rattle.slot_calls.specs.Slots.{LiveSlot, Stands, instances};
ghost use Rattle.slot_calls.specs.Stage.{Stage, nothing, shapes};
ghost use Rattle.calling_sequence.specs.Calls.{binding, sets_of};
ghost use Rattle.calling_sequence.specs.Place.{IsMade};

use crate::BadAnswer;
use fmi_calls::Call;
use fmu_peer::{Peer, Slot};
use sim_base::CompId;
use slot_calls::send;
use system_model::{Bound, BoundValue};

/// Sets each bound parameter, component by component, up to the first answer that isn't good.
pub(crate) fn set_parameters<L: Peer>(slots: &mut [Slot<L>], bound: &Bound) -> Result<(), BadAnswer>
    requires few { length slots.old ≤ 2 ^ 32 }
    requires live { All (LiveSlot L.view) slots.old }
    requires made { All (Stands IsMade L.view) slots.old }
    requires bound { AllZip AreParameterValues (shapes (instances L.view slots.old))
        bound.now.components }
    ensures live { OnOk result (All (LiveSlot L.view) slots.new) }
    ensures made { OnOk result (All (Stands IsMade L.view) slots.new) }
    ensures sets { Stage (binding bound.now) nothing (instances L.view slots.old)
        (instances L.view slots.new) result }
{
    for (place, values) in bound.components.as_slice().iter().enumerate() {
        set_values(slots, place, values.as_slice())?;
    }
    Ok(())
}

// Sets the bound parameters of one component.
fn set_values<L: Peer>(
    slots: &mut [Slot<L>],
    place: usize,
    values: &[BoundValue],
) -> Result<(), BadAnswer>
    requires few { length slots.old ≤ 2 ^ 32 }
    requires within { place < length slots.old }
    requires live { All (LiveSlot L.view) slots.old }
    requires made { All (Stands IsMade L.view) slots.old }
    requires values { (d : Shape) →
        All (IsParameterValue (slice_index_or (shapes (instances L.view slots.old)) place d))
        values.now }
    ensures live { OnOk result (All (LiveSlot L.view) slots.new) }
    ensures made { OnOk result (All (Stands IsMade L.view) slots.new) }
    ensures sets { Stage (sets_of place values.now) nothing (instances L.view slots.old)
        (instances L.view slots.new) result }
{
    for value in values {
        match send(&mut slots[place], set_call(value)) {
            Ok(_) => {}
            Err(why) => {
                return Err(BadAnswer {
                    component: CompId(place as u32),
                    why,
                });
            }
        }
    }
    Ok(())
}

// The Set of a parameter to the value that it is bound to.
fn set_call(value: &BoundValue) -> Call
    ensures { result ≡ set_call value.now }
{
    Call::Set {
        kind: value.kind,
        reference: value.reference,
        value: value.value,
    }
}
