ghost use Rattle.std.specs.Prelude.{◌≡◌, ◌≤◌, length};
ghost use Rattle.fmi_calls.specs.KindFacts.{facts_of};
ghost use Rattle.run_program.specs.Message.{status_name};

use fmi_calls::{Kind, Status};

/// The name of a kind of call.
#[tactic(auto, using(crate::proofs::KindNames::name_short))]
pub(crate) fn kind_name(kind: Kind) -> &'static str
    ensures name { result.now ≡ (facts_of kind).name }
    ensures length { length result.now ≤ 19 }
{
    kind.facts().name
}

/// The name of a status, without the prefix fmi3.
pub(crate) fn status_name(status: Status) -> &'static str
    ensures name { result.now ≡ status_name status }
    ensures length { length result.now ≤ 7 }
{
    match status {
        Status::Ok => "OK",
        Status::Warning => "Warning",
        Status::Discard => "Discard",
        Status::Error => "Error",
        Status::Fatal => "Fatal",
    }
}
