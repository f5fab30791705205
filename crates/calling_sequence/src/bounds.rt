ghost use Rattle.std.specs.Prelude.{◌≡◌, ◌≤◌, ◌<◌, ◌^◌, None, [], false, IfSome, IfErr, All, length, not, option_map, position};
ghost use Rattle.run_model.specs.Steps.{IsBound};
ghost use Rattle.event_iteration.specs.Clocks.{IsNextFrom, timers_in};
ghost use Rattle.event_iteration.specs.Intervals.{is_some_armed};
ghost use Rattle.event_iteration.specs.Updates.{AreLater};
ghost use Rattle.calling_sequence.specs.Calls.{IsStep, first_unfit};
ghost use Rattle.calling_sequence.specs.Ends.{LacksStep};
ghost use Rattle.calling_sequence.specs.StageOutcomes.{or_ends};
ghost use Rattle.system_model.specs.Plans.{IsPlan};

use crate::{Ending, Experiment, RunEnd};
use sim_base::CompId;
use system_model::{Component, Plan, System};
use tick_schedule::{Schedule, plain};

/// The bound of the step from a point before the stop that is done. Where a component takes no step of that size there is none,
/// and how the run ends there stands in `ending`.
pub(crate) fn bound_from(
    experiment: &Experiment,
    schedule: &Schedule,
    t: u64,
    ending: &mut Ending,
) -> Option<u64>
    requires plan { IsPlan experiment.now.plan }
    requires few { length experiment.now.system.components ≤ 2 ^ 32 }
    requires begun { experiment.now.plan.start ≤ t }
    requires before { t < experiment.now.plan.stop }
    requires table { (schedule.now.start ≡ experiment.now.plan.start) ×
        (schedule.now.stop ≡ experiment.now.plan.stop) }
    requires next { All (IsNextFrom schedule.now.start t false) schedule.now.clocks }
    requires done { is_some_armed t (timers_in schedule.now) ≡ false }
    requires later { AreLater t schedule.now.events }
    ensures step { IfSome result (IsStep experiment.now.system experiment.now.plan
        (timers_in schedule.now) schedule.now.events t) }
    ensures unfit { IfErr (or_ends result ending.new) (LacksStep experiment.now.system
        experiment.now.plan (timers_in schedule.now) schedule.now.events t) }
{
    let plan = &experiment.plan;
    let bound = next_bound(plan, schedule, t);
    match first_unfit(&experiment.system, plan, bound - t) {
        Some(component) => {
            *ending = Ending {
                end: RunEnd::FixedStep {
                    component,
                    at: t,
                    end: bound,
                },
                point: t,
            };
            None
        }
        None => Some(bound),
    }
}

// The bound of the step from a point before the stop that is done, in counts: the next grid point, the next tick, the next
// event time or the stop.
fn next_bound(plan: &Plan, schedule: &Schedule, t: u64) -> u64
    requires plan { IsPlan plan.now }
    requires begun { plan.now.start ≤ t }
    requires before { t < plan.now.stop }
    requires table { (schedule.now.start ≡ plan.now.start) × (schedule.now.stop ≡ plan.now.stop) }
    requires next { All (IsNextFrom schedule.now.start t false) schedule.now.clocks }
    requires done { is_some_armed t (timers_in schedule.now) ≡ false }
    requires later { AreLater t schedule.now.events }
    ensures { IsBound plan.now (timers_in schedule.now) schedule.now.events t result }
{
    let mark = next_mark(plan, t);
    match plain::next_after(schedule, t) {
        Some(point) => mark.min(point),
        None => mark,
    }
}

/// The bound where no Clock ticks and no event time is asked for: the next grid point or the stop.
pub(crate) fn next_mark(plan: &Plan, t: u64) -> u64
    requires plan { IsPlan plan.now }
    requires begun { plan.now.start ≤ t }
    requires before { t < plan.now.stop }
    ensures { IsBound plan.now [] [] t result }
{
    let steps = (t - plan.start) / plan.step + 1;
    let grid = plan.start + steps * plan.step;
    plan.stop.min(grid)
}

// The least component that takes no step of this size.
fn first_unfit(system: &System, plan: &Plan, size: u64) -> Option<CompId>
    requires { length system.now.components ≤ 2 ^ 32 }
    ensures { option_map (λ c. c.0) result ≡ first_unfit system.now plan.now size }
{
    if size == plan.step {
        return None;
    }
    match first_unvaried(system.components.as_slice()) {
        Some(place) => Some(CompId(place as u32)),
        None => None,
    }
}

// The place of the first component without variable steps.
fn first_unvaried(components: &[Component]) -> Option<usize>
    ensures place { result ≡ position (λ c. not c.shape.has_variable_steps) components.now }
    ensures within { IfSome result (λ place. place < length components.now) }
{
    components
        .iter()
        .position(|component| !component.shape.has_variable_steps)
}
