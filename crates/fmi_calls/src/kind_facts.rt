ghost use Rattle.std.specs.Prelude.{◌≡◌};
ghost use Rattle.fmi_calls.specs.KindFacts.{facts_of};

use crate::Kind;

/// What a call is for.
#[derive(Clone, Copy, Debug, PartialEq, Eq)]
pub enum Part {
    /// It leads the instance to its first step.
    LeadingIn,
    Stepping,
    Reading,
    Writing,
    SavedStates,
    Closing,
}

/// What holds of each call of a kind.
#[derive(Clone, Copy, Debug, PartialEq, Eq)]
pub struct KindFacts {
    /// its number in frames
    pub number: u8,
    /// its name in FMI 3.0, without the prefix fmi3, the word Mode, and what tells one of several functions
    pub name: &'static str,
    pub part: Part,
    /// After it the same call may be answered otherwise.
    pub moves_on: bool,
    /// It may stand twice with no call between.
    pub may_repeat: bool,
}

impl Kind {
    /// What holds of each call of this kind.
    pub fn facts(self) -> KindFacts
        ensures number { result.number ≡ (facts_of self).number }
        ensures name { result.name.now ≡ (facts_of self).name }
        ensures part { result.part ≡ (facts_of self).part }
        ensures moves_on { result.moves_on ≡ (facts_of self).moves_on }
        ensures may_repeat { result.may_repeat ≡ (facts_of self).may_repeat }
    {
        let (number, name, part, moves_on, may_repeat) = match self {
            Kind::Instantiate => (1, "Instantiate", Part::LeadingIn, false, false),
            Kind::EnterInitialization => (2, "EnterInitialization", Part::LeadingIn, true, false),
            Kind::ExitInitialization => (3, "ExitInitialization", Part::LeadingIn, true, false),
            Kind::EnterEvent => (4, "EnterEvent", Part::Stepping, true, false),
            Kind::EnterStep => (5, "EnterStep", Part::Stepping, true, false),
            Kind::DoStep => (6, "DoStep", Part::Stepping, true, false),
            Kind::Update => (7, "Update", Part::Stepping, true, true),
            Kind::Get => (8, "Get", Part::Reading, false, false),
            Kind::Set => (9, "Set", Part::Writing, false, false),
            Kind::GetClock => (10, "GetClock", Part::Reading, false, false),
            Kind::SetClock => (11, "SetClock", Part::Writing, false, false),
            Kind::GetInterval => (12, "GetInterval", Part::Reading, false, false),
            Kind::GetShift => (13, "GetShift", Part::Reading, false, false),
            Kind::Save => (14, "Save", Part::SavedStates, false, false),
            Kind::Restore => (15, "Restore", Part::SavedStates, false, false),
            Kind::Free => (16, "Free", Part::SavedStates, false, true),
            Kind::Serialize => (20, "Serialize", Part::SavedStates, false, false),
            Kind::Deserialize => (21, "Deserialize", Part::SavedStates, false, false),
            Kind::Terminate => (17, "Terminate", Part::Closing, false, false),
            Kind::FreeInstance => (18, "FreeInstance", Part::Closing, false, false),
        };
        KindFacts {
            number,
            name,
            part,
            moves_on,
            may_repeat,
        }
    }
}
