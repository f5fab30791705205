ghost use Rattle.std.specs.Prelude.{◌≡◌, [], IfOk};

use parameter_values::Change;
use sim_base::{CompId, Items, PartedText, PortId, SourceId, Text};
use std::alloc::{AllocError, Global};
use value_types::{PortType, Shape};

/// A component: one FMU instance under its full name.
#[derive(Debug, Drop)]
pub struct Component {
    pub name: PartedText,
    pub source: SourceId,
    pub shape: Shape,
}

/// Where an input has its value from: a path of connections leads to it from this output, and makes these changes of its
/// values, one after another.
#[derive(Debug, Drop)]
pub struct Feed {
    pub from: PortId,
    pub changes: Items<Change>,
}

impl Feed {
    /// A feed from this port along a path without changes. It allocates no memory.
    pub fn plain(alloc: Global, from: PortId) -> Feed
        ensures { result ≡ record { from = from; changes = [] } }
    {
        Feed {
            from,
            changes: Items::from_vec(Vec::new(alloc)),
        }
    }

    /// The same feed with lists of its own.
    pub fn copy(&self, alloc: Global) -> Result<Feed, AllocError>
        ensures { IfOk result (λ feed. feed ≡ self.now) }
    {
        let mut changes = Vec::with_capacity(alloc, self.changes.len())?;
        for change in self.changes.as_slice() {
            changes.push(change.copy(alloc)?)?;
        }
        Ok(Feed {
            from: self.from,
            changes: Items::from_vec(changes),
        })
    }
}

/// When a time-based Clock ticks, as far as its description says it. Interval and shift are counts.
#[derive(Clone, Copy, Debug, PartialEq, Eq)]
pub enum Timing {
    /// from the shift on, at the interval
    Periodic { interval: u128, shift: u128 },
    /// as the FMU answers in Initialization Mode
    Answered,
    /// once, after an interval that the FMU answers in Event Mode
    Countdown,
    /// at first after a shift that the FMU answers in Initialization Mode, and again after the interval that it answers in
    /// each instant in which the Clock ticks
    Changing,
}

/// What a port is, and where its value comes from.
#[derive(Debug, Drop)]
pub enum Role {
    /// an input that is no Clock
    Input { feed: Option<Feed> },
    /// an output that is no Clock
    Output,
    /// a triggered Clock that is an input
    ClockInput { feed: Option<Feed> },
    /// a triggered Clock that is an output
    ClockOutput,
    /// a time-based Clock, which is an input
    TimeClock { timing: Timing },
}

/// A port: an input or output of a component, by its name and value reference there.
#[derive(Debug, Drop)]
pub struct Port {
    pub component: CompId,
    pub name: Text,
    pub kind: PortType,
    pub reference: u32,
    pub role: Role,
    /// The Clocks that its variable names. It has a value at their ticks alone; without any it always has one, and so
    /// has each Clock, whatever it names.
    pub clocks: Items<PortId>,
}

/// A system: its components in document order, and its ports by component and place in the description. Each order has
/// each of its ports after those that it needs: in instants all ports, in Initialization those that have no clocks and
/// are no Clocks.
#[derive(Debug, Drop)]
pub struct System {
    pub components: Items<Component>,
    pub ports: Items<Port>,
    pub instant_order: Items<PortId>,
    pub initial_order: Items<PortId>,
}
