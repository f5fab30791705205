ghost use Rattle.std.specs.Prelude.{◌≡◌, ◌≤◌, ◌-◌, ◌++◌, [], IsTrue, take, drop, length};
ghost use Rattle.link_frames.specs.Numbers.{AreInSpans, Reads, numbers_in};
ghost use Rattle.exact_parts.specs.Taking.{Takes};

use crate::layout::{Form, kinds_of, row_of, size_at, spans_at, zero_only};
use exact_parts::{Taken, after, is_in, number_of, take_number};

/// The numbers that a frame begins with: kind; type or status; flags; 0; reference or qualifier; two more.
pub(crate) type Numbers = [u64; 7];

// Takes the numbers from a place on, after those before.
fn take_from(form: Form, place: usize, numbers: Numbers, bytes: &[u8]) -> Taken<Numbers>
    requires { place ≤ 7 }
    ensures { Takes (Reads form (7 - place) (take place numbers)) bytes.now result }
{
    if place == 7 {
        return Taken::Got {
            value: numbers,
            length: 0,
        };
    }
    match take_number(bytes, size_at(place), spans_at(form, &numbers[..place])) {
        Taken::Got { value, length } => {
            let mut more = numbers;
            more[place] = value;
            let rest = take_from(form, place + 1, more, &bytes[length..]);
            after(length, rest)
        }
        Taken::NeedMore => Taken::NeedMore,
        Taken::Bad { at } => Taken::Bad { at },
    }
}

// What comes after so many bytes.
fn past(bytes: &[u8], size: usize) -> &[u8]
    requires { size ≤ length bytes.now }
    ensures { result.now ≡ drop size bytes.now }
{
    &bytes[size..]
}

// The numbers that 24 bytes spell.
fn numbers_in(frame: &[u8]) -> Numbers
    requires { length frame.now ≡ 24 }
    ensures { result ≡ numbers_in frame.now }
{
    let detail = past(frame, 1);
    let flags = past(detail, 1);
    let zero = past(flags, 1);
    let reference = past(zero, 1);
    let first = past(reference, 4);
    let last = past(first, 8);
    [
        number_of(frame, 1),
        number_of(detail, 1),
        number_of(flags, 1),
        number_of(zero, 1),
        number_of(reference, 4),
        number_of(first, 8),
        number_of(last, 8),
    ]
}

// Whether each number lies in its spans.
fn are_in_spans(form: Form, numbers: &Numbers) -> bool
    ensures { IsTrue result → AreInSpans form numbers.now }
{
    let row = row_of(form, numbers);
    if !is_in(kinds_of(form), numbers[0]) {
        return false;
    }
    if !is_in(row.detail, numbers[1]) {
        return false;
    }
    if !is_in(row.flags, numbers[2]) {
        return false;
    }
    if !is_in(zero_only(), numbers[3]) {
        return false;
    }
    if !is_in(row.reference, numbers[4]) {
        return false;
    }
    if !is_in(row.first, numbers[5]) {
        return false;
    }
    is_in(row.last, numbers[6])
}

/// Takes the numbers that a frame begins with. Good ones are read at once; else each is looked at.
pub(crate) fn take_numbers(form: Form, bytes: &[u8]) -> Taken<Numbers>
    ensures { Takes (Reads form 7 []) bytes.now result }
{
    if 24 <= bytes.len() {
        let numbers = numbers_in(&bytes[..24]);
        if are_in_spans(form, &numbers) {
            return Taken::Got {
                value: numbers,
                length: 24,
            };
        }
    }
    take_from(form, 0, [0; 7], bytes)
}
