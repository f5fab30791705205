ghost use Rattle.fmi_calls.specs.declared.phase.InstanceState.{InstanceState};

/// A state of an FMU as a type.
pub trait Mode {
    /// The state that a live FMU is in.
    ghost state: { InstanceState };
}

/// Before Instantiate.
pub struct Fresh;

/// After Instantiate.
pub struct Instantiated;

/// In Initialization Mode.
pub struct Initializing;

/// In Event Mode.
pub struct Eventing;

/// In Step Mode.
pub struct Stepping;

impl Mode for Fresh {
    ghost state = { InstanceState.Fresh };
}

impl Mode for Instantiated {
    ghost state = { InstanceState.Instantiated };
}

impl Mode for Initializing {
    ghost state = { InstanceState.Initialization };
}

impl Mode for Eventing {
    ghost state = { InstanceState.Event };
}

impl Mode for Stepping {
    ghost state = { InstanceState.Step };
}
