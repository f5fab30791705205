ghost use Rattle.std.specs.Prelude.{◌≡◌, ◌≤◌, ◌<◌, ◌^◌, ℕ, MatchResult};
ghost use Rattle.exact_parts.specs.Taking.{Takes};
ghost use Rattle.system_checkpoint.specs.First.{HasNone, HasPlan, IsFirst, LimitOf, NumbersOf, PointOf, StartOf, StepOf, StopOf, plan_of};

use crate::CheckpointFault;
use crate::parts::{take_between, take_text};
use exact_parts::{Taken, after};
use sim_base::{MOST_COUNTS, MOST_INSTANTS};
use system_model::Plan;

/// What a checkpoint begins with.
#[derive(Clone, Copy, Debug, PartialEq, Eq)]
pub(crate) struct First {
    /// the plan of the run, with one worker and the first version of the link
    pub plan: Plan,
    /// where the run is held, in counts
    pub point: u64,
}

pub(crate) const MAGIC: [u8; 8] = *b"SSPCKPT1";

/// The plan of the run that a checkpoint keeps, with one worker and the first version of the link, by its first 56 bytes.
/// `Bad` where they aren't all there or begin no checkpoint of any system. It allocates no memory.
pub fn read_plan(bytes: &[u8]) -> Result<Plan, CheckpointFault>
    ensures { MatchResult result (λ plan. HasPlan bytes.now plan)
        (λ fault. (at : ℕ) × (fault ≡ CheckpointFault.Bad at) × HasNone bytes.now at) }
{
    match take_first(bytes) {
        Taken::Got { value, .. } => Ok(value.plan),
        Taken::NeedMore => Err(CheckpointFault::Bad {
            at: bytes.len() as u64,
        }),
        Taken::Bad { at } => Err(CheckpointFault::Bad { at: at as u64 }),
    }
}

/// Takes the magic word and the six numbers.
pub(crate) fn take_first(bytes: &[u8]) -> Taken<First>
    ensures { Takes IsFirst bytes.now result }
{
    match take_text(bytes, &MAGIC) {
        Taken::Got { value: (), length } => after(length, take_resolution(&bytes[length..])),
        Taken::NeedMore => Taken::NeedMore,
        Taken::Bad { at } => Taken::Bad { at },
    }
}

fn take_resolution(bytes: &[u8]) -> Taken<First>
    ensures { Takes NumbersOf bytes.now result }
{
    match take_between(bytes, 8, 1, MOST_COUNTS) {
        Taken::Got { value, length } => after(length, take_start(&bytes[length..], value)),
        Taken::NeedMore => Taken::NeedMore,
        Taken::Bad { at } => Taken::Bad { at },
    }
}

fn take_start(bytes: &[u8], resolution: u64) -> Taken<First>
    ensures { Takes (StartOf resolution) bytes.now result }
{
    match take_between(bytes, 8, 0, MOST_COUNTS - 1) {
        Taken::Got { value, length } => {
            after(length, take_step(&bytes[length..], resolution, value))
        }
        Taken::NeedMore => Taken::NeedMore,
        Taken::Bad { at } => Taken::Bad { at },
    }
}

fn take_step(bytes: &[u8], resolution: u64, start: u64) -> Taken<First>
    requires { start < 2 ^ 62 }
    ensures { Takes (StepOf resolution start) bytes.now result }
{
    match take_between(bytes, 8, 1, MOST_COUNTS) {
        Taken::Got { value, length } => {
            after(
                length,
                take_stop(&bytes[length..], resolution, start, value),
            )
        }
        Taken::NeedMore => Taken::NeedMore,
        Taken::Bad { at } => Taken::Bad { at },
    }
}

fn take_stop(bytes: &[u8], resolution: u64, start: u64, step: u64) -> Taken<First>
    requires { start < 2 ^ 62 }
    ensures { Takes (StopOf resolution start step) bytes.now result }
{
    match take_between(bytes, 8, start + 1, MOST_COUNTS) {
        Taken::Got { value, length } => {
            let plan = Plan {
                resolution,
                start,
                step,
                stop: value,
                limit: 1,
                workers: 1,
                link: 1,
            };
            after(length, take_limit(&bytes[length..], plan))
        }
        Taken::NeedMore => Taken::NeedMore,
        Taken::Bad { at } => Taken::Bad { at },
    }
}

fn take_limit(bytes: &[u8], plan: Plan) -> Taken<First>
    requires ordered { plan.start < plan.stop }
    requires near { plan.stop ≤ 2 ^ 62 }
    requires plain { plan ≡ plan_of plan.resolution plan.start plan.step plan.stop plan.limit }
    ensures { Takes (LimitOf plan.resolution plan.start plan.step plan.stop) bytes.now result }
{
    match take_between(bytes, 8, 1, MOST_INSTANTS) {
        Taken::Got { value, length } => {
            let plan = Plan {
                limit: value,
                ..plan
            };
            after(length, take_point(&bytes[length..], plan))
        }
        Taken::NeedMore => Taken::NeedMore,
        Taken::Bad { at } => Taken::Bad { at },
    }
}

fn take_point(bytes: &[u8], plan: Plan) -> Taken<First>
    requires ordered { plan.start < plan.stop }
    requires near { plan.stop ≤ 2 ^ 62 }
    requires plain { plan ≡ plan_of plan.resolution plan.start plan.step plan.stop plan.limit }
    ensures { Takes (PointOf plan.resolution plan.start plan.step plan.stop plan.limit) bytes.now
        result }
{
    match take_between(bytes, 8, plan.start, plan.stop - 1) {
        Taken::Got { value, length } => Taken::Got {
            value: First { plan, point: value },
            length,
        },
        Taken::NeedMore => Taken::NeedMore,
        Taken::Bad { at } => Taken::Bad { at },
    }
}
