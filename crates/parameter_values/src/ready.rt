//! What a change makes of values.
ghost use Rattle.std.specs.Prelude.{◌≡◌, ◌↔◌, ℤ, Option, IfOk, IsTrue, get_or};
ghost use Rattle.std.specs.Option.{option_copied};
ghost use Rattle.std.specs.BTreeMap.{get};
ghost use Rattle.std.specs.Ordering.{int_cmp};
ghost use Rattle.value_types.specs.declared.joint.Class.{Class};
ghost use Rattle.parameter_values.specs.declared.change.Change.{Change};
ghost use Rattle.parameter_values.specs.Ranges.{IsInRange};
ghost use Rattle.parameter_values.specs.Ready.{FindsBoolean, FindsGiven, FindsInteger, IsReady, Judges};
ghost use Rattle.parameter_values.specs.Values.{IsFor, IsOf};

use crate::linear::scale;
use crate::{BooleanPair, Change, IntegerPair, Judgement, ParameterValue};
use std::alloc::{AllocError, Global};
use std::collections::BTreeMap;
use value_types::{Class, PortType, class_of, fits};

/// A change with its pairs in a table: the target of each source by the last pair that has it.
#[derive(Drop)]
pub enum ReadyChange {
    /// There is no change.
    Same,
    Linear {
        factor: i64,
        offset: i64,
    },
    Integers {
        targets: BTreeMap<i128, i128>,
    },
    Booleans {
        of_false: Option<bool>,
        of_true: Option<bool>,
    },
}

fn integer_targets(alloc: Global, pairs: &[IntegerPair]) -> Result<BTreeMap<i128, i128>, AllocError>
    ensures { IfOk result (λ targets. (x : ℤ) → FindsInteger pairs.now x (get int_cmp targets x)) }
{
    let mut targets = BTreeMap::new(alloc);
    for pair in pairs {
        targets.insert(pair.source, pair.target)?;
    }
    Ok(targets)
}

fn boolean_target(pairs: &[BooleanPair], source: bool) -> Option<bool>
    ensures { FindsBoolean pairs.now source result }
{
    let mut target = None;
    for pair in pairs {
        if pair.source == source {
            target = Some(pair.target);
        }
    }
    target
}

// Whether the value is of the class.
fn is_of(value: ParameterValue, class: Class) -> bool
    ensures { IsTrue result ↔ IsOf value class }
{
    match value {
        ParameterValue::Integer(_) => class == Class::Integer,
        ParameterValue::Boolean(_) => class == Class::Boolean,
        ParameterValue::Other => false,
    }
}

impl ReadyChange {
    /// The change, made ready for values.
    pub fn of(alloc: Global, change: Option<&Change>) -> Result<ReadyChange, AllocError>
        ensures { IfOk result (IsReady (option_copied change.entry)) }
    {
        match change {
            None => Ok(ReadyChange::Same),
            Some(Change::Linear { factor, offset }) => Ok(ReadyChange::Linear {
                factor: *factor,
                offset: *offset,
            }),
            Some(Change::Integers { pairs }) => Ok(ReadyChange::Integers {
                targets: integer_targets(alloc, pairs.as_slice())?,
            }),
            Some(Change::Booleans { pairs }) => Ok(ReadyChange::Booleans {
                of_false: boolean_target(pairs.as_slice(), false),
                of_true: boolean_target(pairs.as_slice(), true),
            }),
        }
    }

    // Whether it may reach a parameter of the class.
    fn is_for(&self, class: Class) -> bool
        ensures { (change : Option Change) → IsReady change self.now →
            (IsTrue result ↔ IsFor change class) }
    {
        match self {
            ReadyChange::Same => true,
            ReadyChange::Linear { .. } | ReadyChange::Integers { .. } => class != Class::Boolean,
            ReadyChange::Booleans { .. } => class != Class::Integer,
        }
    }

    // The number that the value has after the change.
    fn give(&self, value: ParameterValue) -> Option<i128>
        requires { IsInRange value }
        ensures { (change : Option Change) → IsReady change self.now →
            FindsGiven change value result }
    {
        match (self, value) {
            (ReadyChange::Same, ParameterValue::Integer(number)) => Some(number),
            (ReadyChange::Same, ParameterValue::Boolean(truth)) => Some(i128::from(truth)),
            (ReadyChange::Linear { factor, offset }, ParameterValue::Integer(number)) => {
                Some(scale(*factor, *offset, number))
            }
            (ReadyChange::Integers { targets }, ParameterValue::Integer(number)) => {
                targets.get(&number).copied()
            }
            (ReadyChange::Booleans { of_false, of_true }, ParameterValue::Boolean(truth)) => {
                let target = if truth { *of_true } else { *of_false };
                match target {
                    Some(target) => Some(i128::from(target)),
                    None => None,
                }
            }
            _ => None,
        }
    }

    /// Whether a parameter of a type takes the value after the change. Time is logarithmic in the pairs.
    pub fn judge(&self, value: ParameterValue, kind: PortType) -> Judgement
        requires { IsInRange value }
        ensures { (change : Option Change) → IsReady change self.now →
            Judges change value kind result }
    {
        let class = class_of(kind);
        if !is_of(value, class) {
            return Judgement::OtherClass;
        }
        if !self.is_for(class) {
            return Judgement::OtherChange;
        }
        match self.give(value) {
            None => Judgement::NoPair,
            Some(number) => if fits(kind, number) {
                Judgement::Taken(number)
            } else {
                Judgement::Outside
            },
        }
    }
}
