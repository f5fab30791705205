ghost use Rattle.std.specs.Prelude.{◌≡◌};
ghost use Rattle.doc_tree.specs.Rules.{description_number, document_number, flattening_number, nesting_number, number, parameter_number, system_number};

use crate::DocumentRule;

/// A rule of the profile that a file may break. Each has a number.
#[derive(Clone, Copy, Debug, PartialEq, Eq)]
pub enum Rule {
    /// 1 to 5: a rule of documents, at a byte
    Document(DocumentRule),
    /// 10 to 24: a rule of model descriptions, at an element
    Description(DescriptionRule),
    /// 30 to 38 and 48: a rule of system structure descriptions, at an element
    System(SystemRule),
    /// 39 and 59: a rule of documents that stand in one another, at an element
    Nesting(NestingRule),
    /// 40 to 45 and 58: a rule of connectors and connections together with the variables that they name, at an element
    Flattening(FlatteningRule),
    /// 46: ports need each other in a loop, which is told with it
    Loop,
    /// 47: a component's state can't be saved, and two or more might return early
    SavesNoState,
    /// 49: the ports are more than a system may have
    TooManyPorts,
    /// 50 to 56: a rule of sets of parameter values and of their mappings, at an element
    Parameters(ParameterRule),
    /// 57: where a run is to be held, or goes on from where it was: a component's state can't be serialized, or with its
    /// ports the header of the trace has more than 2^27 bytes
    CannotBeHeld,
}

/// The rules of a model description, in the order of their numbers.
#[derive(Clone, Copy, Debug, PartialEq, Eq)]
pub enum DescriptionRule {
    /// 10: the root is no `fmiModelDescription`
    RootName,
    /// 11: the version isn't 3.0
    Version,
    /// 12: there is no CoSimulation
    NoCoSimulation,
    /// 13: a required attribute is absent
    Absent,
    /// 14: an attribute doesn't read as its type
    Misread,
    /// 15: a value reference stands twice
    ReferenceTwice,
    /// 16: a name stands twice
    NameTwice,
    /// 17: a clock has no interval
    NoInterval,
    /// 18: a clock has a causality that its intervals don't allow
    ClockCausality,
    /// 19: an interval is 0, or it or its shift is no whole number of counts
    Uneven,
    /// 20: `clocks` names no Clock
    NoClock,
    /// 21: a reference or dependency names no variable
    NoVariable,
    /// 22: states are serialized that can't be saved
    SerializesUnsaved,
    /// 23: a Clock is tunable
    LeftOut,
    /// 24: there is a Clock without event mode
    ClockWithoutEvents,
}

/// The rules of a model description, in the order of their numbers.
pub const DESCRIPTION_RULES: [DescriptionRule; 15] = [
    DescriptionRule::RootName,
    DescriptionRule::Version,
    DescriptionRule::NoCoSimulation,
    DescriptionRule::Absent,
    DescriptionRule::Misread,
    DescriptionRule::ReferenceTwice,
    DescriptionRule::NameTwice,
    DescriptionRule::NoInterval,
    DescriptionRule::ClockCausality,
    DescriptionRule::Uneven,
    DescriptionRule::NoClock,
    DescriptionRule::NoVariable,
    DescriptionRule::SerializesUnsaved,
    DescriptionRule::LeftOut,
    DescriptionRule::ClockWithoutEvents,
];

/// The rules of a system structure description, in the order of their numbers.
#[derive(Clone, Copy, Debug, PartialEq, Eq)]
pub enum SystemRule {
    /// 30: the root is no `SystemStructureDescription` of version 1.0 with one System
    Structure,
    /// 31: a name stands twice among the elements of a system
    ElementTwice,
    /// 32: a component or a binding is of another type
    OtherType,
    /// 33: a `source` leads nowhere
    NoSource,
    /// 34: a component is for Model Exchange
    ModelExchange,
    /// 35: something required is absent, or a connector has another kind or the name of one before it
    Incomplete,
    /// 36: a transformation of a connection doesn't read, or maps enumerations
    Transformation,
    /// 37: an end of a connection names no connector
    NoEnd,
    /// 38: a connection begins or ends at a connector of the wrong kind
    WrongEnd,
    /// 48: an FMU is the 257th of the system, or the full name of a component has more than 2^24 bytes
    TooManyComponents,
}

/// The rules of a system structure description, in the order of their numbers.
pub const SYSTEM_RULES: [SystemRule; 10] = [
    SystemRule::Structure,
    SystemRule::ElementTwice,
    SystemRule::OtherType,
    SystemRule::NoSource,
    SystemRule::ModelExchange,
    SystemRule::Incomplete,
    SystemRule::Transformation,
    SystemRule::NoEnd,
    SystemRule::WrongEnd,
    SystemRule::TooManyComponents,
];

/// The rules of documents that stand in one another.
#[derive(Clone, Copy, Debug, PartialEq, Eq)]
pub enum NestingRule {
    /// 39: the outermost system of a component's document has no connector of the name and kind of one of the component
    NoInnerConnector,
    /// 59: a component's document would stand at the ninth level below the outermost one, or be the 257th that is read
    TooDeep,
}

/// The rules of connectors and connections together with the variables of the FMUs, in the order of their numbers.
#[derive(Clone, Copy, Debug, PartialEq, Eq)]
pub enum FlatteningRule {
    /// 40: a connector of a component names no variable
    NoSuchVariable,
    /// 41: a connector is an input or output and its variable isn't
    OtherCausality,
    /// 42: a connector, or an end of a path of connections, is of another class
    OtherClass,
    /// 43: a connection ends where one before it does
    EndTwice,
    /// 44: a path of connections without transformations leads to an input that can't hold each value of the output
    TooWide,
    /// 45: a path of connections leads to a time-based Clock
    FedClock,
    /// 58: a transformation stands on a path to an input of another class
    OtherChange,
}

/// The rules of sets of parameter values and of their mappings, in the order of their numbers. Those from 52 on are also
/// about the parameters that a value reaches.
#[derive(Clone, Copy, Debug, PartialEq, Eq)]
pub enum ParameterRule {
    /// 50: there isn't just one set, or mapping, of version 1.0
    Structure,
    /// 51: something required is absent, or a value doesn't read as its type
    Incomplete,
    /// 52: a value reaches a parameter of another class
    OtherClass,
    /// 53: a value reaches a parameter whose type doesn't hold it
    OutOfRange,
    /// 54: a transformation doesn't read, or reaches a parameter of another class
    Transformation,
    /// 55: a mapping of values has no entry for a value
    NoMapEntry,
    /// 56: a name is that of two parameters
    NamesTwo,
}

/// The rules of sets of parameter values and of their mappings, in the order of their numbers.
pub const PARAMETER_RULES: [ParameterRule; 7] = [
    ParameterRule::Structure,
    ParameterRule::Incomplete,
    ParameterRule::OtherClass,
    ParameterRule::OutOfRange,
    ParameterRule::Transformation,
    ParameterRule::NoMapEntry,
    ParameterRule::NamesTwo,
];

impl Rule {
    /// The number of the rule.
    pub fn number(self) -> u32
        ensures { result ≡ number self }
    {
        match self {
            Rule::Document(rule) => document_number(rule),
            Rule::Description(rule) => rule.number(),
            Rule::System(rule) => rule.number(),
            Rule::Nesting(rule) => rule.number(),
            Rule::Flattening(rule) => rule.number(),
            Rule::Loop => 46,
            Rule::SavesNoState => 47,
            Rule::TooManyPorts => 49,
            Rule::Parameters(rule) => rule.number(),
            Rule::CannotBeHeld => 57,
        }
    }
}

impl DescriptionRule {
    fn number(self) -> u32
        ensures { result ≡ description_number self }
    {
        match self {
            DescriptionRule::RootName => 10,
            DescriptionRule::Version => 11,
            DescriptionRule::NoCoSimulation => 12,
            DescriptionRule::Absent => 13,
            DescriptionRule::Misread => 14,
            DescriptionRule::ReferenceTwice => 15,
            DescriptionRule::NameTwice => 16,
            DescriptionRule::NoInterval => 17,
            DescriptionRule::ClockCausality => 18,
            DescriptionRule::Uneven => 19,
            DescriptionRule::NoClock => 20,
            DescriptionRule::NoVariable => 21,
            DescriptionRule::SerializesUnsaved => 22,
            DescriptionRule::LeftOut => 23,
            DescriptionRule::ClockWithoutEvents => 24,
        }
    }
}

impl SystemRule {
    fn number(self) -> u32
        ensures { result ≡ system_number self }
    {
        match self {
            SystemRule::Structure => 30,
            SystemRule::ElementTwice => 31,
            SystemRule::OtherType => 32,
            SystemRule::NoSource => 33,
            SystemRule::ModelExchange => 34,
            SystemRule::Incomplete => 35,
            SystemRule::Transformation => 36,
            SystemRule::NoEnd => 37,
            SystemRule::WrongEnd => 38,
            SystemRule::TooManyComponents => 48,
        }
    }
}

impl NestingRule {
    fn number(self) -> u32
        ensures { result ≡ nesting_number self }
    {
        match self {
            NestingRule::NoInnerConnector => 39,
            NestingRule::TooDeep => 59,
        }
    }
}

impl FlatteningRule {
    fn number(self) -> u32
        ensures { result ≡ flattening_number self }
    {
        match self {
            FlatteningRule::NoSuchVariable => 40,
            FlatteningRule::OtherCausality => 41,
            FlatteningRule::OtherClass => 42,
            FlatteningRule::EndTwice => 43,
            FlatteningRule::TooWide => 44,
            FlatteningRule::FedClock => 45,
            FlatteningRule::OtherChange => 58,
        }
    }
}

impl ParameterRule {
    fn number(self) -> u32
        ensures { result ≡ parameter_number self }
    {
        match self {
            ParameterRule::Structure => 50,
            ParameterRule::Incomplete => 51,
            ParameterRule::OtherClass => 52,
            ParameterRule::OutOfRange => 53,
            ParameterRule::Transformation => 54,
            ParameterRule::NoMapEntry => 55,
            ParameterRule::NamesTwo => 56,
        }
    }
}

fn document_number(rule: DocumentRule) -> u32
    ensures { result ≡ document_number rule }
{
    match rule {
        DocumentRule::NotUtf8 => 1,
        DocumentRule::Malformed => 2,
        DocumentRule::Doctype => 3,
        DocumentRule::TooDeep => 4,
        DocumentRule::AttributeTwice => 5,
    }
}
