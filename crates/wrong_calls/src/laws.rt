//! The laws that a peer owes of a machine that it tells, of one machine.
ghost use Rattle.fmu_peer.specs.Machine.{IgnoresSlot, IsLawful, IsMachineOf, UnpacksWell};
ghost use Rattle.wrong_calls.specs.Steady.{machine, shape};

/// A machine whose output depends on nothing and always shows 0 keeps the laws.
pub fn machine_laws()
    ensures machine { IsMachineOf shape machine }
    ensures ignores_slot { IgnoresSlot machine }
    ensures unpacks { UnpacksWell machine }
    ensures lawful { IsLawful shape machine }
{}
