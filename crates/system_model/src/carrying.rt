//! What comes to an input along a path of connections.
ghost use Rattle.std.specs.Prelude.{◌≡◌, IfSome};
ghost use Rattle.system_model.specs.Carried.{IsWide, carried, changed, or_else, target_by, target_of, truth_by, truth_of, within};

use parameter_values::{BooleanPair, Change, IntegerPair, scale};
use value_types::{PortType, fits};

// The number, where 64 bits hold it.
fn within(number: i128) -> Option<i128>
    ensures within { result ≡ within number }
    ensures wide { IfSome result IsWide }
{
    if -(1 << 63) <= number && number <= (1 << 64) - 1 {
        Some(number)
    } else {
        None
    }
}

// The target of a pair, where it has this source, and otherwise what the pairs before it give.
fn later_target(pair: &IntegerPair, number: i128, before: Option<i128>) -> Option<i128>
    ensures { result ≡ or_else (target_by pair.now number) before }
{
    if pair.source == number {
        Some(pair.target)
    } else {
        before
    }
}

fn target_of(pairs: &[IntegerPair], number: i128) -> Option<i128>
    ensures { result ≡ target_of pairs.now number }
{
    let mut target = None;
    for pair in pairs {
        target = later_target(pair, number, target);
    }
    target
}

fn later_truth(pair: &BooleanPair, number: i128, before: Option<i128>) -> Option<i128>
    requires { IfSome before IsWide }
    ensures truth { result ≡ or_else (truth_by pair.now number) before }
    ensures wide { IfSome result IsWide }
{
    if i128::from(pair.source) == number {
        Some(i128::from(pair.target))
    } else {
        before
    }
}

fn truth_of(pairs: &[BooleanPair], number: i128) -> Option<i128>
    ensures truth { result ≡ truth_of pairs.now number }
    ensures wide { IfSome result IsWide }
{
    let mut target = None;
    for pair in pairs {
        target = later_truth(pair, number, target);
    }
    target
}

// What a change makes of a value that 64 bits hold.
fn changed(change: &Change, number: i128) -> Option<i128>
    requires { IsWide number }
    ensures changed { result ≡ changed change.now number }
    ensures wide { IfSome result IsWide }
{
    match change {
        Change::Linear { factor, offset } => within(scale(*factor, *offset, number)),
        Change::Integers { pairs } => within(target_of(pairs.as_slice(), number)?),
        Change::Booleans { pairs } => truth_of(pairs.as_slice(), number),
    }
}

/// What comes to an input of a type from a value of its source, along a path with these changes: none where a mapping has no
/// pair for it, where 64 bits don't hold what a change makes of it, or where the type doesn't hold what comes.
pub fn carried(changes: &[Change], kind: PortType, value: i128) -> Option<i128>
    ensures { result ≡ carried changes.now kind value }
{
    let mut number = within(value)?;
    for i in 0..changes.len() {
        number = changed(&changes[i], number)?;
    }
    if fits(kind, number) {
        Some(number)
    } else {
        None
    }
}
