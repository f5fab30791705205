ghost use Rattle.std.specs.Prelude.{◌≡◌, ◌↔◌, IsTrue};
ghost use Rattle.value_types.specs.Joint.{IsWithin, Joins, class_of};

use crate::PortType;
use crate::values::{greatest_value, least_value};

/// The kind of a type, which both ends of a connection share. The eight integer types are one class.
#[derive(Clone, Copy, Debug, PartialEq, Eq)]
pub enum Class {
    Integer,
    Boolean,
    Enumeration,
    Clock,
}

/// How the types of the two ends of a connection go together.
#[derive(Clone, Copy, Debug, PartialEq, Eq)]
pub enum Joint {
    /// Each value of the output is one of the input.
    Fit,
    /// The ends are of two classes.
    WrongType,
    /// The ends are of one class, and some value of the output is none of the input.
    WrongRange,
}

/// The class of a type.
pub fn class_of(kind: PortType) -> Class
    ensures { result ≡ class_of kind }
{
    match kind {
        PortType::Int8
        | PortType::UInt8
        | PortType::Int16
        | PortType::UInt16
        | PortType::Int32
        | PortType::UInt32
        | PortType::Int64
        | PortType::UInt64 => Class::Integer,
        PortType::Boolean => Class::Boolean,
        PortType::Enumeration => Class::Enumeration,
        PortType::Clock => Class::Clock,
    }
}

/// How an output of the first type and an input of the second go together.
pub fn connectable(from: PortType, to: PortType) -> Joint
    ensures { Joins from to result }
{
    if class_of(from) != class_of(to) {
        Joint::WrongType
    } else if is_within(from, to) {
        Joint::Fit
    } else {
        Joint::WrongRange
    }
}

fn is_within(from: PortType, to: PortType) -> bool
    ensures { IsTrue result ↔ IsWithin from to }
{
    least_value(to) <= least_value(from) && greatest_value(from) <= greatest_value(to)
}
