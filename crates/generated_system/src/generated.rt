ghost use Rattle.std.specs.Prelude.{◌≡◌, ◌≤◌, IfOk};
ghost use Rattle.system_model.specs.Bounds.{BindsParameters};
ghost use Rattle.system_model.specs.Sound.{IsSound};
ghost use Rattle.generated_system.specs.Generated.{generated_bound, generated_system};

use crate::parts::made_parts;
use crate::ports::by_number;
use sim_base::Items;
use std::alloc::{AllocError, Global};
use system_model::{Bound, System};

/// A system of built-in machines, with the values that the first parameter of each is bound to.
#[derive(Debug, Drop)]
pub struct GeneratedSystem {
    pub system: System,
    pub bound: Bound,
}

/// The system of `n` components that a seed gives: counters, gains and alarms, of which each gain but the first
/// component has its input from a component before it. It is the same whenever it is made. A second has 1000 counts.
pub fn bench_system(alloc: Global, seed: u32, n: usize) -> Result<GeneratedSystem, AllocError>
    requires { n ≤ 256 }
    ensures system { IfOk result (λ made. made.system ≡ generated_system seed n) }
    ensures bound { IfOk result (λ made. made.bound ≡ generated_bound seed n) }
    ensures sound { IfOk result (λ made. IsSound made.system) }
    ensures binds { IfOk result (λ made. BindsParameters made.system made.bound) }
{
    let parts = made_parts(alloc, seed, n)?;
    let count = parts.ports.len() as u32;
    let instant_order = by_number(alloc, count)?;
    let initial_order = by_number(alloc, count)?;
    Ok(GeneratedSystem {
        system: System {
            components: Items::from_vec(parts.components),
            ports: Items::from_vec(parts.ports),
            instant_order,
            initial_order,
        },
        bound: Bound {
            components: Items::from_vec(parts.values),
            unreached: 0,
        },
    })
}
