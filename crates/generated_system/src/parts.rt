ghost use Rattle.std.specs.Prelude.{◌≡◌, ◌<◌, ◌≤◌, ◌∷◌, [], pos, IfOk, OnOk, length};
ghost use Rattle.generated_system.specs.Parts.{Adds, HasParts, fed_by};

use crate::components::component;
use crate::drawn::Drawn;
use crate::draws::Draws;
use crate::ports::push_ports;
use sim_base::{CompId, Items, PortId};
use std::alloc::{AllocError, Global};
use system_model::{BoundValue, Component, Feed, Port};
use value_types::PortType;

/// The parts of a system so far: its components, their ports, the output of each component, and the values that the
/// first parameter of each is bound to.
#[derive(Debug, Drop)]
pub(crate) struct Parts {
    pub components: Vec<Component>,
    pub ports: Vec<Port>,
    pub outputs: Vec<PortId>,
    pub values: Vec<Items<BoundValue>>,
}

impl Parts {
    // One more component, by what is drawn for it.
    fn add(&mut self, alloc: Global, drawn: Drawn) -> Result<(), AllocError>
        requires few { length self.old.components.items < 256 }
        requires ports { length self.old.ports.items ≤ 512 }
        ensures { OnOk result (Adds drawn self.old self.new) }
    {
        let number = self.components.len();
        let feed = feed_by(alloc, self.outputs.as_slice(), drawn.feeder);
        let output = push_ports(
            alloc,
            &mut self.ports,
            CompId(number as u32),
            drawn.machine,
            feed,
        )?;
        self.outputs.push(PortId(output as u32))?;
        self.values.push(first_value(alloc, drawn.parameter)?)?;
        self.components
            .push(component(alloc, number, drawn.machine)?)?;
        Ok(())
    }
}

/// The parts of the system of `n` components that a seed gives.
pub(crate) fn made_parts(alloc: Global, seed: u32, n: usize) -> Result<Parts, AllocError>
    requires { n ≤ 256 }
    ensures { IfOk result (HasParts seed n) }
{
    let mut draws = Draws { number: seed };
    let mut parts = Parts {
        components: Vec::new(alloc),
        ports: Vec::new(alloc),
        outputs: Vec::new(alloc),
        values: Vec::new(alloc),
    };
    for number in 0..n {
        let drawn = draws.draw_component(number);
        parts.add(alloc, drawn)?;
    }
    Ok(parts)
}

// What feeds the input of a component, by the outputs of those before it.
fn feed_by(alloc: Global, outputs: &[PortId], feeder: Option<usize>) -> Option<Feed>
    ensures { result ≡ fed_by outputs.now feeder }
{
    match feeder {
        Some(number) => match outputs.get(number) {
            Some(from) => Some(Feed::plain(alloc, *from)),
            None => None,
        },
        None => None,
    }
}

// A value for the first parameter of a component.
fn first_value(alloc: Global, value: u32) -> Result<Items<BoundValue>, AllocError>
    ensures { IfOk result (λ values. values ≡
        record { kind = PortType.Int32; reference = 1; value = pos value } ∷ []) }
{
    let value = BoundValue {
        kind: PortType::Int32,
        reference: 1,
        value: i128::from(value),
    };
    Ok(Items::from_vec(vec![in alloc; value]?))
}
