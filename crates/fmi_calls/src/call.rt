ghost use Rattle.std.specs.Prelude.{◌≡◌};
ghost use Rattle.fmi_calls.specs.Kinds.{bad_status_of, kind_of, kind_of_content, kind_of_reply, status_of, status_of_bad};

use clock_fraction::Fraction;
use value_types::PortType;

/// A call of an FMU (FMI 3.0, 4.2). Points and sizes are counts over the resolution, a reference is a value reference.
#[derive(Clone, Copy, Debug, PartialEq, Eq)]
pub enum Call {
    /// whether event mode is used, whether early return is allowed, and whether the link asks for batches
    Instantiate {
        event_mode: bool,
        early_return: bool,
        batches: bool,
    },
    EnterInitialization {
        start: u64,
        stop: u64,
    },
    ExitInitialization,
    EnterEvent,
    EnterStep,
    DoStep {
        at: u64,
        size: u64,
    },
    /// fmi3UpdateDiscreteStates
    Update,
    Get {
        kind: PortType,
        reference: u32,
    },
    Set {
        kind: PortType,
        reference: u32,
        value: i128,
    },
    GetClock {
        reference: u32,
    },
    /// The Clock is set to active.
    SetClock {
        reference: u32,
    },
    GetInterval {
        reference: u32,
    },
    GetShift {
        reference: u32,
    },
    /// fmi3GetFMUState: the state is kept in the instance's slot.
    Save,
    /// fmi3SetFMUState: the state is that of the slot again, which keeps it.
    Restore,
    /// fmi3FreeFMUState: the slot is emptied.
    Free,
    /// fmi3SerializeFMUState: the bytes of the slot's state.
    Serialize,
    /// fmi3DeserializeFMUState: so many bytes fill the slot with the state of a point, in a run up to the stop.
    Deserialize {
        length: u32,
        point: u64,
        stop: u64,
    },
    Terminate,
    FreeInstance,
}

/// The kind of a call, and of its reply.
#[derive(Clone, Copy, Debug, PartialEq, Eq)]
pub enum Kind {
    Instantiate,
    EnterInitialization,
    ExitInitialization,
    EnterEvent,
    EnterStep,
    DoStep,
    Update,
    Get,
    Set,
    GetClock,
    SetClock,
    GetInterval,
    GetShift,
    Save,
    Restore,
    Free,
    Serialize,
    Deserialize,
    Terminate,
    FreeInstance,
}

/// The status that a function returns (FMI 3.0, 2.2.3).
#[derive(Clone, Copy, Debug, PartialEq, Eq)]
pub enum Status {
    Ok,
    Warning,
    Discard,
    Error,
    Fatal,
}

/// A status that isn't good.
#[derive(Clone, Copy, Debug, PartialEq, Eq)]
pub enum BadStatus {
    Discard,
    Error,
    Fatal,
}

/// What GetInterval answers (FMI 3.0, fmi3IntervalQualifier): no interval yet, one that is the same as before, or a new
/// one, in seconds.
#[derive(Clone, Copy, Debug, PartialEq, Eq)]
pub enum Interval {
    NotYetKnown,
    Unchanged(Fraction),
    Changed(Fraction),
}

/// What a reply with the status OK or Warning carries, by its kind.
#[derive(Clone, Copy, Debug, PartialEq, Eq)]
pub enum Content {
    /// whether the link takes batches
    Instantiate {
        batches: bool,
    },
    EnterInitialization,
    ExitInitialization,
    EnterEvent,
    EnterStep,
    /// `end` is the point that was reached.
    DoStep {
        event_needed: bool,
        terminate: bool,
        early: bool,
        end: u64,
    },
    /// `again` is discreteStatesNeedUpdate, `event_time` the point of nextEventTime where that is defined.
    Update {
        again: bool,
        terminate: bool,
        event_time: Option<u64>,
    },
    /// the word of the value
    Get {
        word: u64,
    },
    Set,
    /// 1 where the Clock is active, 0 where it isn't
    GetClock {
        word: u64,
    },
    SetClock,
    GetInterval {
        interval: Interval,
    },
    /// in seconds
    GetShift {
        shift: Fraction,
    },
    Save,
    Restore,
    Free,
    /// how many bytes follow
    Serialize {
        length: u32,
    },
    Deserialize,
    Terminate,
    FreeInstance,
}

/// A reply. It holds what its layout on the link has and nothing else: a refusal carries nothing but its status.
#[derive(Clone, Copy, Debug, PartialEq, Eq)]
pub enum Reply {
    Done { is_warning: bool, content: Content },
    Refused { kind: Kind, status: BadStatus },
}

/// What a reply is worth: good, a refusal, or one that the call may not get.
#[derive(Clone, Copy, Debug, PartialEq, Eq)]
pub enum Grade {
    Good,
    Refused,
    Misreply,
}

impl Call {
    /// The call's kind.
    pub fn kind(&self) -> Kind
        ensures { result ≡ kind_of self.now }
    {
        match self {
            Call::Instantiate { .. } => Kind::Instantiate,
            Call::EnterInitialization { .. } => Kind::EnterInitialization,
            Call::ExitInitialization => Kind::ExitInitialization,
            Call::EnterEvent => Kind::EnterEvent,
            Call::EnterStep => Kind::EnterStep,
            Call::DoStep { .. } => Kind::DoStep,
            Call::Update => Kind::Update,
            Call::Get { .. } => Kind::Get,
            Call::Set { .. } => Kind::Set,
            Call::GetClock { .. } => Kind::GetClock,
            Call::SetClock { .. } => Kind::SetClock,
            Call::GetInterval { .. } => Kind::GetInterval,
            Call::GetShift { .. } => Kind::GetShift,
            Call::Save => Kind::Save,
            Call::Restore => Kind::Restore,
            Call::Free => Kind::Free,
            Call::Serialize => Kind::Serialize,
            Call::Deserialize { .. } => Kind::Deserialize,
            Call::Terminate => Kind::Terminate,
            Call::FreeInstance => Kind::FreeInstance,
        }
    }
}

impl Content {
    /// The kind of the calls that this answers.
    pub fn kind(&self) -> Kind
        ensures { result ≡ kind_of_content self.now }
    {
        match self {
            Content::Instantiate { .. } => Kind::Instantiate,
            Content::EnterInitialization => Kind::EnterInitialization,
            Content::ExitInitialization => Kind::ExitInitialization,
            Content::EnterEvent => Kind::EnterEvent,
            Content::EnterStep => Kind::EnterStep,
            Content::DoStep { .. } => Kind::DoStep,
            Content::Update { .. } => Kind::Update,
            Content::Get { .. } => Kind::Get,
            Content::Set => Kind::Set,
            Content::GetClock { .. } => Kind::GetClock,
            Content::SetClock => Kind::SetClock,
            Content::GetInterval { .. } => Kind::GetInterval,
            Content::GetShift { .. } => Kind::GetShift,
            Content::Save => Kind::Save,
            Content::Restore => Kind::Restore,
            Content::Free => Kind::Free,
            Content::Serialize { .. } => Kind::Serialize,
            Content::Deserialize => Kind::Deserialize,
            Content::Terminate => Kind::Terminate,
            Content::FreeInstance => Kind::FreeInstance,
        }
    }
}

impl Reply {
    /// The kind of the calls that this answers.
    pub fn kind(&self) -> Kind
        ensures { result ≡ kind_of_reply self.now }
    {
        match self {
            Reply::Done { content, .. } => content.kind(),
            Reply::Refused { kind, .. } => *kind,
        }
    }

    /// The reply's status.
    pub fn status(&self) -> Status
        ensures { result ≡ status_of self.now }
    {
        match self {
            Reply::Done { is_warning, .. } => {
                if *is_warning {
                    Status::Warning
                } else {
                    Status::Ok
                }
            }
            Reply::Refused { status, .. } => Status::from_bad(*status),
        }
    }

    /// The status of a refusal; anything else counts as Error does.
    pub fn bad_status(&self) -> BadStatus
        ensures { result ≡ bad_status_of self.now }
    {
        match self {
            Reply::Refused { status, .. } => *status,
            Reply::Done { .. } => BadStatus::Error,
        }
    }
}

impl Status {
    /// A bad status as a `Status`.
    pub fn from_bad(status: BadStatus) -> Status
        ensures { result ≡ status_of_bad status }
    {
        match status {
            BadStatus::Discard => Status::Discard,
            BadStatus::Error => Status::Error,
            BadStatus::Fatal => Status::Fatal,
        }
    }
}
