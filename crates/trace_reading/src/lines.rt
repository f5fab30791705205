ghost use Rattle.std.specs.Prelude.{ℤ, ◌≡◌, ℕ, ◌^◌, ◌<◌, List, ◌∷◌, ◌++◌, Some, IfSome, IsSomeAnd, decimal};
ghost use Rattle.value_types.specs.declared.values.PortType.{PortType};
ghost use Rattle.system_model.specs.declared.plan.EndKind.{EndKind};
ghost use Rattle.system_model.specs.Text.{kind_text, type_name, header_line, port_fields, at_line, value_line, end_line};
ghost use Rattle.trace_reading.specs.declared.item.Item.{Item};
ghost use Rattle.trace_reading.specs.Walk.{item_line, IsShortItem};
ghost use Rattle.trace_reading.specs.Lines.{IsShort, Lacks};

use crate::cut::{after, split_once};
use crate::item::Item;
use crate::numbers::{number, value};
use crate::trace::TraceLine;
use system_model::EndKind;
use value_types::PortType;

// A number, the space after it, and the rest.
fn number_before(bytes: &[u8]) -> Option<(u64, &[u8])>
    ensures found { IfSome result (λ p. bytes.now ≡ decimal p.0 ++ (32 ∷ p.1.now)) }
    ensures exact { (n : ℕ) (rest : List ℕ) → n < 2 ^ 64 → bytes.now ≡ decimal n ++ (32 ∷ rest) →
        IsSomeAnd result (λ p. (p.0 ≡ n) × (p.1.now ≡ rest)) }
{
    let (word, rest) = split_once(bytes, b' ')?;
    Some((number(word)?, rest))
}

/// The first line: resolution, start and stop.
pub(crate) fn read_header(line: &[u8]) -> Option<(u64, u64, u64)>
    ensures found { IfSome result (λ p. line.now ≡ header_line p.0 p.1 p.2) }
    ensures exact { (resolution start stop : ℕ) → resolution < 2 ^ 64 → start < 2 ^ 64 → stop < 2 ^ 64 → line.now ≡ header_line resolution start stop → result ≡ Some (resolution, start, stop) }
{
    let rest = after(line, b"trace 1 ")?;
    let (resolution, rest) = number_before(rest)?;
    let (start, rest) = number_before(rest)?;
    Some((resolution, start, number(rest)?))
}

/// The line of a port: its number, its type, and the two words of its names.
pub(crate) fn read_port_fields(line: &[u8]) -> Option<(u64, PortType, &[u8], &[u8])>
    ensures found { IfSome result (λ p. line.now ≡ port_fields p.0 p.1 p.2.now p.3.now) }
    ensures exact { (k : ℕ) (kind : PortType) (component variable : List ℕ) → k < 2 ^ 64 →
        Lacks 32 component → line.now ≡ port_fields k kind component variable →
        IsSomeAnd result (λ p. (p.0 ≡ k) × (p.1 ≡ kind) × (p.2.now ≡ component) ×
        (p.3.now ≡ variable)) }
{
    let rest = after(line, b"port ")?;
    let (k, rest) = number_before(rest)?;
    let (kind, rest) = type_before(rest)?;
    let (component, variable) = split_once(rest, b' ')?;
    Some((k, kind, component, variable))
}

// The name of a type, the space after it, and the rest.
fn type_before(bytes: &[u8]) -> Option<(PortType, &[u8])>
    ensures found { IfSome result (λ p. bytes.now ≡ type_name p.0 ++ (32 ∷ p.1.now)) }
    ensures exact { (kind : PortType) (rest : List ℕ) → bytes.now ≡ type_name kind ++ (32 ∷ rest) →
        IsSomeAnd result (λ p. (p.0 ≡ kind) × (p.1.now ≡ rest)) }
{
    let (word, rest) = split_once(bytes, b' ')?;
    Some((type_of(word)?, rest))
}

fn type_of(word: &[u8]) -> Option<PortType>
    ensures found { IfSome result (λ kind. word.now ≡ type_name kind) }
    ensures exact { (kind : PortType) → word.now ≡ type_name kind → result ≡ Some kind }
{
    match word {
        b"Int8" => Some(PortType::Int8),
        b"UInt8" => Some(PortType::UInt8),
        b"Int16" => Some(PortType::Int16),
        b"UInt16" => Some(PortType::UInt16),
        b"Int32" => Some(PortType::Int32),
        b"UInt32" => Some(PortType::UInt32),
        b"Int64" => Some(PortType::Int64),
        b"UInt64" => Some(PortType::UInt64),
        b"Boolean" => Some(PortType::Boolean),
        b"Enumeration" => Some(PortType::Enumeration),
        b"Clock" => Some(PortType::Clock),
        _ => None,
    }
}

// The line that begins an instant: its point, and its number there.
fn read_at(line: &[u8]) -> Option<(u64, u64)>
    ensures found { IfSome result (λ p. line.now ≡ at_line p.0 p.1) }
    ensures exact { (t n : ℕ) → t < 2 ^ 64 → n < 2 ^ 64 → line.now ≡ at_line t n → result ≡ Some (t, n) }
{
    let rest = after(line, b"at ")?;
    let (t, rest) = number_before(rest)?;
    Some((t, number(rest)?))
}

// The line of a value: the number of its port, and the value.
fn read_value(line: &[u8]) -> Option<(u64, i128)>
    ensures found { IfSome result (λ p. line.now ≡ value_line p.0 p.1) }
    ensures exact { (k : ℕ) (v : ℤ) → k < 2 ^ 64 → IsShort v → line.now ≡ value_line k v → result ≡ Some (k, v) }
{
    let (k, rest) = number_before(line)?;
    Some((k, value(rest)?))
}

// The last line: how the run ended, and at which point.
fn read_end(line: &[u8]) -> Option<(EndKind, u64)>
    ensures found { IfSome result (λ p. line.now ≡ end_line p.0 p.1) }
    ensures exact { (kind : EndKind) (t : ℕ) → t < 2 ^ 64 → line.now ≡ end_line kind t → result ≡ Some (kind, t) }
{
    let rest = after(line, b"end ")?;
    let (word, rest) = split_once(rest, b' ')?;
    Some((kind_of(word)?, number(rest)?))
}

fn kind_of(word: &[u8]) -> Option<EndKind>
    ensures found { IfSome result (λ kind. word.now ≡ kind_text kind) }
    ensures exact { (kind : EndKind) → word.now ≡ kind_text kind → result ≡ Some kind }
{
    match word {
        b"stop" => Some(EndKind::Stop),
        b"asked" => Some(EndKind::Asked),
        b"limit" => Some(EndKind::Limit),
        b"fixed" => Some(EndKind::Fixed),
        b"range" => Some(EndKind::Range),
        b"fault" => Some(EndKind::Fault),
        _ => None,
    }
}

/// A line after the ports.
pub(crate) fn read_item(line: &[u8]) -> Option<Item>
    ensures found { IfSome result (λ item. line.now ≡ item_line item) }
    ensures exact { (item : Item) → IsShortItem item → line.now ≡ item_line item →
        result ≡ Some item }
{
    if let Some((t, n)) = read_at(line) {
        return Some(Item::Row(TraceLine::At { t, n }));
    }
    if let Some((kind, t)) = read_end(line) {
        return Some(Item::End { kind, t });
    }
    let (port, value) = read_value(line)?;
    Some(Item::Row(TraceLine::Value { port, value }))
}
