//! The states of the built-in machines as bytes.
ghost use Rattle.std.specs.Prelude.{◌≡◌, ◌≤◌, ◌+◌, ◌^◌, ◌++◌, IfOk, IfSome, None, Some, count_by, if◌then◌else◌, is_some, length, nat_le, option_map, pos, replicate, true, vec_capacity, vec_len};
ghost use Rattle.std.specs.Int.{w32, w64, to_be_bytes};
ghost use Rattle.value_types.specs.Values.{word_of};
ghost use Rattle.bench_fmus.specs.Packed.{entry_size, kind_at, numbers_bytes, ordered, packed, packed_size, read_entry, read_numbers, read_value, read_values, start_at, value_bytes, word_at};
ghost use Rattle.bench_fmus.specs.Told.{number_of_flag, saved_in, told};

use crate::built_in_state::{put, value_under};
use crate::wrap::wrapped_word;
use crate::{Numbers, SavedState};
use std::alloc::{AllocError, Global};
use value_types::{ByReference, PortType, Variable, from_word};

/// How many bytes the numbers of a state have.
pub(crate) const NUMBERS_SIZE: usize = 32;

/// How many bytes the value of a variable has, with its reference.
const VALUE_SIZE: usize = 12;

/// How many values there are at most in 2^20 bytes.
const MOST_VALUES: usize = 87378;

// ---- the order of references

/// Each variable's reference with its place, in their order.
pub(crate) fn order_of(
    alloc: Global,
    variables: &[Variable],
) -> Result<Vec<(u32, usize)>, AllocError>
    ensures { IfOk result (λ order. order.items ≡ ordered variables.now) }
{
    let mut order = Vec::with_capacity(alloc, variables.len())?;
    for (place, variable) in variables.iter().enumerate() {
        order.push((variable.reference, place))?;
    }
    order.sort_unstable();
    Ok(order)
}

// ---- to bytes

// How many variables have a type.
fn count_values(variables: &[Variable]) -> usize
    ensures count { result ≡ count_by (λ v. is_some v.kind) variables.now }
    ensures bound { result ≤ length variables.now }
{
    variables
        .iter()
        .filter(|variable| variable.kind.is_some())
        .count()
}

/// Whether a state's bytes are no more than 2^20.
pub(crate) fn fits_bytes(variables: &[Variable]) -> bool
    ensures { result ≡ nat_le (packed_size variables.now) (2 ^ 20) }
{
    count_values(variables) <= MOST_VALUES
}

/// How many bytes a state has, where they are no more than 2^20.
pub(crate) fn packed_size(variables: &[Variable]) -> u32
    requires { nat_le (packed_size variables.now) (2 ^ 20) ≡ true }
    ensures { result ≡ packed_size variables.now }
{
    (NUMBERS_SIZE + VALUE_SIZE * count_values(variables)) as u32
}

// Puts a number, for which there is room, after the bytes that are there.
fn put_number(number: u64, into: &mut Vec<u8>)
    requires { vec_len into.old + 8 ≤ vec_capacity into.old }
    ensures bytes { into.new.items ≡ into.old.items ++ to_be_bytes w64 number }
    ensures room { vec_capacity into.old ≤ vec_capacity into.new }
{
    into.extend_from_slice(&number.to_be_bytes()).unwrap();
}

fn put_reference(reference: u32, into: &mut Vec<u8>)
    requires { vec_len into.old + 4 ≤ vec_capacity into.old }
    ensures bytes { into.new.items ≡ into.old.items ++ to_be_bytes w32 reference }
    ensures room { vec_capacity into.old ≤ vec_capacity into.new }
{
    into.extend_from_slice(&reference.to_be_bytes()).unwrap();
}

// The word of a number.
fn word_of(number: i64) -> u64
    ensures { result ≡ word_of number }
{
    number.cast_unsigned()
}

// The word of a flag.
fn word_of_flag(flag: bool) -> u64
    ensures { result ≡ word_of (number_of_flag flag) }
{
    u64::from(flag)
}

fn put_numbers(numbers: Numbers, into: &mut Vec<u8>)
    requires { vec_len into.old + 32 ≤ vec_capacity into.old }
    ensures bytes { into.new.items ≡ into.old.items ++ numbers_bytes (told numbers) }
    ensures room { vec_capacity into.old ≤ vec_capacity into.new }
{
    put_number(numbers.point, into);
    put_number(word_of(numbers.held), into);
    put_number(word_of(numbers.count), into);
    put_number(word_of_flag(numbers.has_fired), into);
}

fn put_value(kind: Option<PortType>, reference: u32, value: i128, into: &mut Vec<u8>)
    requires { vec_len into.old + length (value_bytes kind reference value) ≤
        vec_capacity into.old }
    ensures bytes { into.new.items ≡ into.old.items ++ value_bytes kind reference value }
    ensures room { vec_capacity into.old ≤ vec_capacity into.new }
{
    match kind {
        Some(kind) => {
            put_reference(reference, into);
            put_number(wrapped_word(kind, value), into);
        }
        None => {}
    }
}

/// Puts the bytes of the state that is kept after those that are there.
pub(crate) fn pack(
    variables: &ByReference<Variable>,
    order: &[(u32, usize)],
    kept: &SavedState,
    into: &mut Vec<u8>,
)
    requires order { order.now ≡ ordered variables.now }
    requires room { vec_len into.old + packed_size variables.now ≤ vec_capacity into.old }
    ensures bytes { into.new.items ≡ into.old.items ++ packed variables.now
        (saved_in variables.now kept.now) }
    ensures room { vec_capacity into.old ≤ vec_capacity into.new }
{
    put_numbers(kept.numbers, into);
    for entry in order {
        let (reference, place) = *entry;
        let kind = kind_at(variables.as_slice(), place);
        let value = value_under(variables, kept.values.as_slice(), reference);
        put_value(kind, reference, value, into);
    }
}

fn kind_at(variables: &[Variable], place: usize) -> Option<PortType>
    ensures { result ≡ kind_at variables.now place }
{
    match variables.get(place) {
        Some(variable) => variable.kind,
        None => None,
    }
}

fn start_at(variables: &[Variable], place: usize) -> i128
    ensures { result ≡ start_at variables.now place }
{
    match variables.get(place) {
        Some(variable) => variable.start.unwrap_or(0),
        None => 0,
    }
}

// ---- from bytes

// The number in the eight bytes from a place on, the most significant first.
fn word_at(bytes: &[u8], place: usize) -> u64
    requires { place + 8 ≤ length bytes.now }
    ensures { result ≡ word_at bytes.now place }
{
    u64::from_be_bytes([
        bytes[place],
        bytes[place + 1],
        bytes[place + 2],
        bytes[place + 3],
        bytes[place + 4],
        bytes[place + 5],
        bytes[place + 6],
        bytes[place + 7],
    ])
}

/// The numbers that the bytes begin with, where they are those of a state.
pub(crate) fn read_numbers(bytes: &[u8]) -> Option<Numbers>
    ensures numbers { option_map (λ n. told n) result ≡ read_numbers bytes.now }
    ensures within { IfSome result (λ n. 32 ≤ length bytes.now) }
{
    if bytes.len() < NUMBERS_SIZE {
        return None;
    }
    let fired = word_at(bytes, 24);
    if fired > 1 {
        return None;
    }
    Some(Numbers {
        is_initializing: false,
        held: word_at(bytes, 8).cast_signed(),
        count: word_at(bytes, 16).cast_signed(),
        point: word_at(bytes, 0),
        has_fired: fired == 1,
    })
}

// The value that the bytes begin with, after this reference.
fn read_value(kind: PortType, reference: u32, bytes: &[u8]) -> Option<i128>
    ensures value { result ≡ read_value kind reference bytes.now }
    ensures within { IfSome result (λ value. 12 ≤ length bytes.now) }
{
    if bytes.len() < VALUE_SIZE {
        return None;
    }
    if bytes.starts_with(&reference.to_be_bytes()) {
        from_word(kind, word_at(bytes, 4))
    } else {
        None
    }
}

fn read_entry(kind: Option<PortType>, start: i128, reference: u32, bytes: &[u8]) -> Option<i128>
    ensures value { result ≡ read_entry kind start reference bytes.now }
    ensures within { IfSome result (λ value. entry_size kind ≤ length bytes.now) }
{
    match kind {
        Some(kind) => read_value(kind, reference, bytes),
        None => Some(start),
    }
}

fn entry_size(kind: Option<PortType>) -> usize
    ensures { result ≡ entry_size kind }
{
    match kind {
        Some(_) => VALUE_SIZE,
        None => 0,
    }
}

/// Reads the values of all variables in this order, and answers whether the bytes are just theirs.
pub(crate) fn read_values(
    variables: &[Variable],
    order: &[(u32, usize)],
    bytes: &[u8],
    values: &mut [i128],
) -> bool
    requires order { order.now ≡ ordered variables.now }
    requires room { length values.old ≡ length variables.now }
    ensures values { (if result then Some values.new else None) ≡
        read_values variables.now order.now bytes.now (replicate (length variables.now) (pos 0)) }
    ensures room { length values.new ≡ length values.old }
{
    values.fill(0);
    let mut at = 0;
    for entry in order {
        let (reference, place) = *entry;
        let kind = kind_at(variables, place);
        let start = start_at(variables, place);
        match read_entry(kind, start, reference, &bytes[at..]) {
            Some(value) => put(values, place, value),
            None => return false,
        }
        at += entry_size(kind);
    }
    at == bytes.len()
}
