ghost use Rattle.std.specs.Prelude.{◌≡◌, IfOk};

use crate::{ByReference, PortType, Referenced};
use clock_fraction::Fraction;
use sim_base::{Items, Text};
use std::alloc::{AllocError, Global};

/// What a variable is for (FMI 3.0, 2.4.7.4).
#[derive(Clone, Copy, Debug, PartialEq, Eq)]
pub enum Causality {
    Parameter,
    CalculatedParameter,
    StructuralParameter,
    Input,
    Output,
    Local,
    Independent,
    /// Any other; such a variable is ignored.
    Other,
}

/// When a Clock ticks (FMI 3.0, Clocks: intervalVariability).
#[derive(Clone, Copy, Debug, PartialEq, Eq)]
pub enum IntervalVariability {
    /// at an interval that the description gives
    Constant,
    /// at an interval that is set in Initialization Mode
    Fixed,
    Tunable,
    Changing,
    /// after an interval that the FMU gives in Event Mode, once
    Countdown,
    /// in an event, with no time of its own
    Triggered,
}

/// When a variable of type Clock ticks, as far as the description says it. Interval and shift are in seconds.
#[derive(Clone, Copy, Debug, PartialEq, Eq)]
pub struct ClockTiming {
    /// The value reference of the Clock.
    pub reference: u32,
    pub variability: IntervalVariability,
    /// supportsFraction
    pub supports_fraction: bool,
    pub interval: Option<Fraction>,
    pub shift: Option<Fraction>,
}

/// A variable of an FMU. An ignored variable, which is never set, read, bound or traced, has no `kind`.
#[derive(Debug, Drop)]
pub struct Variable {
    pub name: Text,
    pub aliases: Items<Text>,
    /// The value reference, which calls name the variable by.
    pub reference: u32,
    pub kind: Option<PortType>,
    pub causality: Causality,
    /// The value references of the Clocks at whose ticks alone it has a value; with none it always has one.
    pub clocks: Items<u32>,
    pub start: Option<i128>,
    /// canHandleMultipleSetPerTimeInstant
    pub can_be_set_again: bool,
}

/// What an output depends on (FMI 3.0, 2.4.9: knowns of an unknown).
#[derive(Debug, Drop)]
pub enum Knowns {
    /// every input of the FMU that isn't ignored
    AllInputs,
    /// the ports with these value references
    Listed(Items<u32>),
}

/// What an output depends on, by its value reference.
#[derive(Debug, Drop)]
pub struct Dependency {
    pub output: u32,
    pub on: Knowns,
}

/// What a description says of an FMU, at a resolution.
#[derive(Debug, Drop)]
pub struct Shape {
    /// modelIdentifier
    pub identifier: Text,
    /// instantiationToken
    pub token: Text,
    /// counts in a second
    pub resolution: u64,
    /// hasEventMode
    pub has_event_mode: bool,
    /// mightReturnEarlyFromDoStep
    pub might_return_early: bool,
    /// canHandleVariableCommunicationStepSize
    pub has_variable_steps: bool,
    /// canGetAndSetFMUState
    pub can_save_state: bool,
    /// canSerializeFMUState
    pub can_serialize_state: bool,
    /// in the order of the description
    pub variables: ByReference<Variable>,
    /// of each variable of type Clock, in the order of the description
    pub clocks: ByReference<ClockTiming>,
    /// what each output depends on
    pub dependencies: ByReference<Dependency>,
    /// what each output depends on in Initialization Mode
    pub initial_dependencies: ByReference<Dependency>,
}

impl Variable {
    ghost use Rattle.value_types.specs.Shape.{is_clock, is_input_port, is_output_port, is_parameter, is_port, is_unclocked};

    /// Whether it is a parameter.
    pub fn is_parameter(&self) -> bool
        ensures { result ≡ is_parameter self.now.causality }
    {
        self.causality == Causality::Parameter
    }

    /// Whether it is an input that isn't ignored.
    pub fn is_input_port(&self) -> bool
        ensures { result ≡ is_input_port self.now }
    {
        self.causality == Causality::Input && self.kind.is_some()
    }

    /// Whether it is an output that isn't ignored.
    pub fn is_output_port(&self) -> bool
        ensures { result ≡ is_output_port self.now }
    {
        self.causality == Causality::Output && self.kind.is_some()
    }

    /// Whether it is an input or output that isn't ignored.
    pub fn is_port(&self) -> bool
        ensures { result ≡ is_port self.now }
    {
        self.is_input_port() || self.is_output_port()
    }

    /// Whether it is a Clock that isn't ignored.
    pub fn is_clock(&self) -> bool
        ensures { result ≡ is_clock self.now }
    {
        self.kind == Some(PortType::Clock)
    }

    /// Whether it has a value at every instant, and not at the ticks of Clocks alone.
    pub fn is_unclocked(&self) -> bool
        ensures { result ≡ is_unclocked self.now }
    {
        self.clocks.len() == 0
    }
}

impl Referenced for Variable {
    ghost reference = { λ v. v.reference };

    fn reference(&self) -> u32 {
        self.reference
    }
}

impl Referenced for ClockTiming {
    ghost reference = { λ c. c.reference };

    fn reference(&self) -> u32 {
        self.reference
    }
}

impl Referenced for Dependency {
    ghost reference = { λ d. d.output };

    fn reference(&self) -> u32 {
        self.output
    }
}

impl Shape {
    /// The same shape. It shares the lists with this one, and allocates memory for two texts alone.
    pub fn copy(&self, alloc: Global) -> Result<Shape, AllocError>
        ensures { IfOk result (λ s. s ≡ self.now) }
    {
        Ok(Shape {
            identifier: self.identifier.copy(alloc)?,
            token: self.token.copy(alloc)?,
            resolution: self.resolution,
            has_event_mode: self.has_event_mode,
            might_return_early: self.might_return_early,
            has_variable_steps: self.has_variable_steps,
            can_save_state: self.can_save_state,
            can_serialize_state: self.can_serialize_state,
            variables: self.variables.copy()?,
            clocks: self.clocks.copy()?,
            dependencies: self.dependencies.copy()?,
            initial_dependencies: self.initial_dependencies.copy()?,
        })
    }
}
