ghost use Rattle.std.specs.Prelude.{◌≡◌};
ghost use Rattle.generated_system.specs.Draws.{machine_drawn, parameter_drawn};
ghost use Rattle.generated_system.specs.Shapes.{identifier_of, source_of_machine};

use sim_base::SourceId;

/// A built-in machine that may be drawn for a component.
#[derive(Clone, Copy, Debug, PartialEq, Eq)]
pub(crate) enum DrawnMachine {
    Counter,
    Gain,
    Alarm,
}

/// What is drawn for a component.
#[derive(Clone, Copy, Debug, PartialEq, Eq)]
pub(crate) struct Drawn {
    pub machine: DrawnMachine,
    /// the value of its first parameter
    pub parameter: u32,
    /// the number of the component that feeds its input
    pub feeder: Option<usize>,
}

impl DrawnMachine {
    /// The machine that a draw stands for.
    pub(crate) fn from_draw(draw: u32) -> DrawnMachine
        ensures { result ≡ machine_drawn draw }
    {
        match draw % 3 {
            0 => DrawnMachine::Counter,
            1 => DrawnMachine::Gain,
            _ => DrawnMachine::Alarm,
        }
    }

    /// The value of its first parameter that a draw stands for.
    pub(crate) fn parameter(self, draw: u32) -> u32
        ensures { result ≡ parameter_drawn self draw }
    {
        let value = draw % 17 + 1;
        match self {
            DrawnMachine::Alarm => 5 * value,
            _ => value,
        }
    }

    /// Its name among the built-in machines.
    pub(crate) fn identifier(self) -> &'static str
        ensures { result.now ≡ identifier_of self }
    {
        match self {
            DrawnMachine::Counter => "counter",
            DrawnMachine::Gain => "gain",
            DrawnMachine::Alarm => "alarm",
        }
    }

    /// The FMU that all its instances are of.
    pub(crate) fn source(self) -> SourceId
        ensures { result ≡ source_of_machine self }
    {
        match self {
            DrawnMachine::Counter => SourceId(0),
            DrawnMachine::Gain => SourceId(1),
            DrawnMachine::Alarm => SourceId(2),
        }
    }
}
