ghost use Rattle.std.specs.Prelude.{◌≡◌, ℕ, pos, Contains, IfOk, OnOk, length, slice_index_or, []};
ghost use Rattle.sim_base.specs.declared.numbers.PortId.{PortId};
ghost use Rattle.trace_reading.specs.declared.trace.TraceLine.TheVariants.{Value};
ghost use Rattle.trace_check.specs.Inputs.{HoldInputs, WaitToo};

use crate::sources::{is_clock, source_of};
use dependency_order::Lists;
use sim_base::PortId;
use std::alloc::{AllocError, Global};
use system_model::System;
use trace_reading::TraceLine;

/// The connected inputs of a system by when they are present, so that an instant looks at these alone.
#[derive(Debug, Drop)]
pub struct FedInputs {
    /// those that are present in each instant: Clocks, and what has no Clocks
    pub steady: Vec<usize>,
    /// for each port, where it is a Clock, those that are present where it ticks
    pub at_ticks: Lists,
}

impl FedInputs {
    /// Those of a system.
    pub(crate) fn of(alloc: Global, system: &System) -> Result<FedInputs, AllocError>
        ensures { IfOk result (λ inputs. HoldInputs system.now.ports (length system.now.ports)
            inputs.steady.items inputs.at_ticks) }
    {
        let mut steady = Vec::new(alloc);
        let mut at_ticks = Lists::new(alloc, system.ports.len())?;
        for (p, port) in system.ports.as_slice().iter().enumerate() {
            if source_of(&port.role).is_some() {
                if is_clock(&port.role) || port.clocks.len() == 0 {
                    steady.push(p)?;
                } else {
                    await_ticks(&mut at_ticks, port.clocks.as_slice(), p)?;
                }
            }
        }
        Ok(FedInputs { steady, at_ticks })
    }

    /// Those that are present by the tick that a line tells.
    pub(crate) fn at_tick(&self, line: &TraceLine) -> &[usize]
        ensures { (c : ℕ) → line.now ≡ Value c (pos 1) →
            result.now ≡ slice_index_or self.now.at_ticks c [] }
    {
        match line {
            TraceLine::Value { port, value: 1 } if (*port as usize) < self.at_ticks.len() => {
                self.at_ticks.row(*port as usize)
            }
            _ => &[],
        }
    }
}

// The input waits for each of these Clocks that is a port.
fn await_ticks(lists: &mut Lists, clocks: &[PortId], input: usize) -> Result<(), AllocError>
    ensures { OnOk result (WaitToo clocks.now input lists.old lists.new) }
{
    for clock in clocks {
        if (clock.0 as usize) < lists.len() {
            lists.push(clock.0 as usize, input)?;
        }
    }
    Ok(())
}
