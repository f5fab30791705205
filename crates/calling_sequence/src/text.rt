ghost use Rattle.std.specs.Prelude.{◌≡◌, ◌<◌, ◌^◌, ◌+◌, OnOk, IfErr, All, length};
ghost use Rattle.sim_base.specs.Sink.{with_piece};
ghost use Rattle.system_model.specs.Text.{instant_text};
ghost use Rattle.trace_text.specs.Room.{HoldsEach};
ghost use Rattle.slot_calls.specs.Carried.{IsWide};
ghost use Rattle.calling_sequence.specs.Ends.{header_of, kind_of_end};
ghost use Rattle.calling_sequence.specs.Here.{HoldsEnds, PutsEnd, PutsEndAfter};
ghost use Rattle.calling_sequence.specs.Puts.{PutsPrefixOf};
ghost use Rattle.calling_sequence.specs.declared.ending.Break.TheVariants as Break;

use crate::{Break, Ending, Experiment, RunEnd};
use port_values::PortValues;
use sim_base::Sink;
use system_model::{EndKind, System};
use trace_text::{put_end, put_header, put_instant};

/// Puts the header.
pub(crate) fn put_head<O: Sink>(
    experiment: &Experiment,
    text: &mut [u8],
    out: &mut O,
) -> Result<(), Break>
    requires { HoldsEach experiment.now.system (length text.old) }
    ensures ok { OnOk result (O.view out.new ≡ with_piece (O.view out.old)
        (header_of experiment.now.system experiment.now.plan)) }
    ensures err { IfErr result (λ b. (b ≡ Break.Write) ×
        PutsPrefixOf (O.view out.old) (header_of experiment.now.system experiment.now.plan)
        (O.view out.new)) }
{
    let plan = &experiment.plan;
    let length = put_header(
        &experiment.system,
        plan.resolution,
        plan.start,
        plan.stop,
        text,
    );
    match out.put(&text[..length]) {
        Ok(()) => Ok(()),
        Err(_) => Err(Break::Write),
    }
}

/// Puts the n-th instant at a point with these values, and counts it.
pub(crate) fn put_values<O: Sink>(
    system: &System,
    t: u64,
    n: u64,
    values: &mut PortValues,
    text: &mut [u8],
    instants: &mut u128,
    out: &mut O,
) -> Result<(), Break>
    requires wide { All IsWide values.old }
    requires places { length values.old ≡ length system.now.ports }
    requires room { HoldsEach system.now (length text.old) }
    requires counts { instants.old < 2 ^ 127 }
    ensures values { values.new ≡ values.old }
    ensures put { OnOk result (O.view out.new ≡ with_piece (O.view out.old)
        (instant_text t n values.old)) }
    ensures counted { OnOk result (instants.new ≡ instants.old + 1) }
    ensures write { IfErr result (λ b. b ≡ Break.Write) }
    ensures cut { IfErr result (λ b. PutsPrefixOf (O.view out.old) (instant_text t n values.old)
        (O.view out.new)) }
    ensures uncounted { IfErr result (λ b. instants.new ≡ instants.old) }
{
    let length = put_instant(system, t, n, values, text);
    match out.put(&text[..length]) {
        Ok(()) => {
            *instants += 1;
            Ok(())
        }
        Err(_) => Err(Break::Write),
    }
}

/// Puts the end line, unless a put failed before.
pub(crate) fn conclude<O: Sink>(broken: Break, text: &mut [u8], out: &mut O) -> RunEnd
    requires { HoldsEnds (length text.old) }
    ensures { PutsEndAfter broken result (O.view out.old) (O.view out.new) }
{
    match broken {
        Break::Ends(ending) => finish(ending, text, out),
        Break::Write => RunEnd::WriteFault,
    }
}

// Puts the end line.
fn finish<O: Sink>(ending: Ending, text: &mut [u8], out: &mut O) -> RunEnd
    requires { HoldsEnds (length text.old) }
    ensures { PutsEnd ending result (O.view out.old) (O.view out.new) }
{
    let length = put_end(kind_of_end(ending.end), ending.point, text);
    match out.put(&text[..length]) {
        Ok(()) => ending.end,
        Err(_) => RunEnd::WriteFault,
    }
}

// The kind of the end line.
fn kind_of_end(end: RunEnd) -> EndKind
    ensures { result ≡ kind_of_end end }
{
    match end {
        RunEnd::Stop | RunEnd::Held { .. } => EndKind::Stop,
        RunEnd::Asked { .. } => EndKind::Asked,
        RunEnd::EventLimit { .. } => EndKind::Limit,
        RunEnd::FixedStep { .. } => EndKind::Fixed,
        RunEnd::Range { .. } => EndKind::Range,
        RunEnd::Bad(_) | RunEnd::WriteFault => EndKind::Fault,
    }
}
