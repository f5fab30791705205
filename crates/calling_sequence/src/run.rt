ghost use Rattle.std.specs.Prelude.{◌≡◌, ◌≤◌, ◌<◌, ℕ, IfOk, length, true};
ghost use Rattle.slot_calls.specs.Slots.{instances};
ghost use Rattle.calling_sequence.specs.Course.{Made};
ghost use Rattle.calling_sequence.specs.Ends.{RunsSlots};
ghost use Rattle.calling_sequence.specs.StageOutcomes.{Breaks, ComesTo, before_instant};
ghost use Rattle.calling_sequence.specs.Place.{IsAt, IsSettled};
ghost use Rattle.calling_sequence.specs.Ready.{AreTimed, IsDone, MayBegin, Ready};

use crate::initialization::initialize;
use crate::instants::take;
use crate::steps::step_on;
use crate::text::{conclude, put_head};
use crate::{Break, Buffers, Ending, Experiment, RunEnd};
use event_iteration::NO_ANSWER;
use fmu_peer::{Peer, Slot};
use sim_base::Sink;
use std::thread::Threads;

/// Follows the calling sequence of Co-Simulation from instances that were made to the end line of the trace. It puts the
/// header, sets the bound parameters, and leads each instance through Initialization Mode, where it asks fixed Clocks for
/// interval and shift and changing Clocks for their shift. At each point it takes one instant after the other, until no Update
/// asks for another and no Clock is armed for the point: it finds the values, asks each countdown Clock, and each changing one
/// that ticked, for its interval and each FMU with event mode for what follows, and puts the instant. Then it steps all
/// instances until they stand at one point, at most at the next grid point, the next tick, the next event time or the stop:
/// those with event mode go into Step Mode and after the step into Event Mode, and the connected inputs of the others are set
/// before it. Where the value of a source is lost on its way to an input, the run ends before what follows its values: in
/// Initialization Mode, or in an instant, which isn't put. It puts one piece for the header, one for each instant, and one for
/// the end line, unless a put failed before. Points and sizes of steps are counts over the plan's resolution.
///
/// Each FMU counts by the plan's resolution, and the bound values are for parameters of the components. There is a slot for
/// each component, in their order and of its shape; each instance was made, and is held in the state of its phase. The
/// buffers were made for the experiment (`Buffers::new`). Nothing is allocated.
pub fn run_slots<R: Threads + Sync, L: Peer, O: Sink>(
    rt: &R,
    slots: &mut [Slot<L>],
    experiment: &Experiment,
    buffers: &mut Buffers,
    out: &mut O,
) -> RunEnd
    requires { MayBegin L.view experiment.now slots.old buffers.old }
    ensures { RunsSlots experiment.now.system experiment.now.bound experiment.now.plan
        (instances L.view slots.old) (instances L.view slots.new) (O.view out.old)
        (O.view out.new) buffers.new.instants result }
{
    match put_head(experiment, &mut buffers.text, out) {
        Ok(()) => {}
        Err(_) => return RunEnd::WriteFault,
    }
    let broken = follow(rt, slots, experiment, buffers, out);
    conclude(broken, &mut buffers.text, out)
}

// Runs instances that were made to the end of the run, and puts each instant.
fn follow<R: Threads + Sync, L: Peer, O: Sink>(
    rt: &R,
    slots: &mut [Slot<L>],
    experiment: &Experiment,
    buffers: &mut Buffers,
    out: &mut O,
) -> Break
    requires { MayBegin L.view experiment.now slots.old buffers.old }
    ensures text { length buffers.new.text.items ≡ length buffers.old.text.items }
    ensures breaks { Breaks experiment.now true experiment.now.plan.stop Made
        (instances L.view slots.old) (instances L.view slots.new) (O.view out.old)
        (O.view out.new) buffers.old.instants buffers.new.instants result }
{
    let plan = &experiment.plan;
    match initialize(slots, experiment, buffers) {
        Ok(()) => {}
        Err(ending) => return Break::Ends(ending),
    }
    go_on(rt, slots, experiment, buffers, plan.start, out)
}

/// Takes the instants from a point on, with a step between one point and the next, to the end of the run, and puts each.
pub(crate) fn go_on<R: Threads + Sync, L: Peer, O: Sink>(
    rt: &R,
    slots: &mut [Slot<L>],
    experiment: &Experiment,
    buffers: &mut Buffers,
    from: u64,
    out: &mut O,
) -> Break
    requires ready { Ready L.view experiment.now (IsAt from) slots.old }
    requires timed { AreTimed experiment.now from 0 true buffers.old }
    requires begun { experiment.now.plan.start ≤ from }
    ensures text { length buffers.new.text.items ≡ length buffers.old.text.items }
    ensures breaks { Breaks experiment.now true experiment.now.plan.stop
        (before_instant from 0 buffers.old) (instances L.view slots.old)
        (instances L.view slots.new) (O.view out.old) (O.view out.new) buffers.old.instants
        buffers.new.instants result }
{
    match come_to(
        rt,
        slots,
        experiment,
        buffers,
        from,
        experiment.plan.stop,
        true,
        out,
    ) {
        Ok(_) => unreachable!(),
        Err(broken) => broken,
    }
}

/// Takes the instants from a point on, with a step between one point and the next, up to the first point from the limit on that
/// is done and before the stop, or to the end of the run. Each instant is put, or none is.
pub(crate) fn come_to<R: Threads + Sync, L: Peer, O: Sink>(
    rt: &R,
    slots: &mut [Slot<L>],
    experiment: &Experiment,
    buffers: &mut Buffers,
    from: u64,
    limit: u64,
    puts: bool,
    out: &mut O,
) -> Result<u64, Break>
    requires ready { Ready L.view experiment.now (IsAt from) slots.old }
    requires timed { AreTimed experiment.now from 0 true buffers.old }
    requires begun { experiment.now.plan.start ≤ from }
    ensures text { length buffers.new.text.items ≡ length buffers.old.text.items }
    ensures ready { IfOk result (λ t. Ready L.view experiment.now (IsSettled t) slots.new) }
    ensures done { IfOk result (λ t. (n : ℕ) × IsDone experiment.now t n buffers.new) }
    ensures reached { IfOk result (λ t. limit ≤ t) }
    ensures early { IfOk result (λ t. t < experiment.now.plan.stop) }
    ensures comes { ComesTo experiment.now puts limit (before_instant from 0 buffers.old)
        buffers.new (instances L.view slots.old) (instances L.view slots.new) (O.view out.old)
        (O.view out.new) buffers.old.instants buffers.new.instants result }
{
    let plan = &experiment.plan;
    let mut t = from;
    let mut n = 0;
    let mut ending = Ending {
        end: RunEnd::Stop,
        point: plan.stop,
    };
    let mut bad = NO_ANSWER;
    let mut broken = Break::Write;
    'instants: loop {
        let updated = match take(
            slots,
            experiment,
            buffers,
            t,
            n,
            puts,
            out,
            &mut bad,
            &mut broken,
        ) {
            Some(updated) => updated,
            None => return Err(broken),
        };
        if updated.asked {
            return Err(Break::Ends(Ending {
                end: RunEnd::Asked { point: t },
                point: t,
            }));
        }
        if updated.again {
            n += 1;
            if n == plan.limit {
                return Err(Break::Ends(Ending {
                    end: RunEnd::EventLimit { point: t },
                    point: t,
                }));
            }
            continue;
        }
        if t == plan.stop {
            return Err(Break::Ends(Ending {
                end: RunEnd::Stop,
                point: t,
            }));
        }
        if limit <= t {
            return Ok(t);
        }
        match step_on(rt, slots, experiment, buffers, t, n, &mut ending) {
            Some(point) => {
                t = point;
                n = 0;
            }
            None => return Err(Break::Ends(ending)),
        }
    }
}
