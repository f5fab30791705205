//! FMUs in typed states, and their closing.
ghost use Rattle.std.specs.Prelude.{IfErr, IfOk, map};
ghost use Rattle.fmi_calls.specs.Permission.{Permitted};
ghost use Rattle.fmi_calls.specs.declared.call.Call.{Call};
ghost use Rattle.fmu_peer.specs.Answer.{Answered, Failed};
ghost use Rattle.fmu_peer.specs.CloseAll.{ClosesAll, instance_in};

use fmi_calls::Reply;
use fmu_peer::{Fmu, Mode, Peer, Slot, Why, close_all};
use value_types::PortType;

/// Closes FMUs in their order, each by the calls that it still may be sent.
pub fn close_each<L: Peer>(slots: &mut [Slot<L>])
    ensures { ClosesAll (map (λ s. instance_in L.view s) slots.old)
        (map (λ s. instance_in L.view s) slots.new) }
{
    close_all(slots);
}

/// Reads an output.
pub fn read_output<L: Peer, M: Mode>(
    fmu: &mut Fmu<L, M>,
    kind: PortType,
    reference: u32,
) -> Result<Reply, Why>
    requires { Permitted (L.view fmu.old.peer).fixed.shape (L.view fmu.old.peer).phase
        (Call.Get kind reference) }
    ensures ok { IfOk result (λ reply. Answered (L.view fmu.old.peer)
        (Call.Get kind reference) reply (L.view fmu.new.peer)) }
    ensures err { IfErr result (λ why. Failed (L.view fmu.old.peer)
        (Call.Get kind reference) why (L.view fmu.new.peer)) }
{
    fmu.get(kind, reference)
}
