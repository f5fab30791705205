ghost use Rattle.std.specs.Prelude.{◌≡◌, ◌+◌, ◌<◌, ◌≤◌, ◌^◌, ◌++◌, All, length, vec_capacity, vec_len, IfSome, IfNone};
ghost use Rattle.std.specs.Int.{w64, to_be_bytes};
ghost use Rattle.std.specs.List.{flat_map};
ghost use Rattle.system_checkpoint.specs.Parts.{state_max};
ghost use Rattle.system_checkpoint.specs.Spelling.{arming_bytes, first_bytes, greatest_len, option_bytes, sized, spelling, times_bytes, wide_bytes};

use crate::first::MAGIC;
use crate::{Arming, ClockTimes, Snapshot};
use sim_base::SharedBytes;
use system_model::Plan;

/// Appends a checkpoint to what `out` has, which has room for it: of what is held, where the trace begins with this header.
/// Nothing is allocated.
pub fn put_checkpoint(held: &Snapshot, header: &[u8], out: &mut Vec<u8>)
    requires header { length header.now < 2 ^ 32 }
    requires states { All (λ state. length state ≤ state_max) held.now.states }
    requires room { vec_len out.old + length
        (spelling header.now held.now) ≤ vec_capacity out.old }
    ensures text { out.new.items ≡ out.old.items ++ spelling header.now held.now }
    ensures room { vec_capacity out.old ≤ vec_capacity out.new }
{
    put_first(held.plan, held.point, out);
    put_sized(header, out);
    put_states(held.states.as_slice(), out);
    put_options(held.words.as_slice(), out);
    put_all_times(held.times.as_slice(), out);
    put_armings(held.armings.as_slice(), out);
    put_options(held.events.as_slice(), out);
}

/// The most bytes that a checkpoint has, of so many components and ports and with a header of so many bytes; none where no
/// number of the machine tells them.
pub fn checkpoint_len(components: usize, ports: usize, header: usize) -> Option<usize>
    ensures some { IfSome result (λ most. most ≡ greatest_len components ports header) }
    ensures none { IfNone result (2 ^ 64 ≤ greatest_len components ports header) }
{
    let states = components.checked_mul(4 + (1 << 20) + 9)?;
    let ports = ports.checked_mul(9 + 32 + 9)?;
    let texts = header.checked_add(60)?;
    states.checked_add(ports)?.checked_add(texts)
}

// Puts bytes for which there is room.
fn put(bytes: &[u8], out: &mut Vec<u8>)
    requires room { vec_len out.old + length bytes.now ≤ vec_capacity out.old }
    ensures text { out.new.items ≡ out.old.items ++ bytes.now }
    ensures len { vec_len out.new ≡ vec_len out.old + length bytes.now }
    ensures room { vec_capacity out.old ≤ vec_capacity out.new }
{
    out.extend_from_slice(bytes).unwrap();
}

fn put_number(number: u64, out: &mut Vec<u8>)
    requires room { vec_len out.old + 8 ≤ vec_capacity out.old }
    ensures text { out.new.items ≡ out.old.items ++ to_be_bytes w64 number }
    ensures len { vec_len out.new ≡ vec_len out.old + 8 }
    ensures room { vec_capacity out.old ≤ vec_capacity out.new }
{
    put(&number.to_be_bytes(), out);
}

/// Puts what a checkpoint begins with, 56 bytes: a plan, and the point where its run is held. There is room for them.
pub fn put_first(plan: Plan, point: u64, out: &mut Vec<u8>)
    requires room { vec_len out.old + 56 ≤ vec_capacity out.old }
    ensures text { out.new.items ≡ out.old.items ++ first_bytes plan point }
    ensures len { vec_len out.new ≡ vec_len out.old + 56 }
    ensures room { vec_capacity out.old ≤ vec_capacity out.new }
{
    put(&MAGIC, out);
    put_number(plan.resolution, out);
    put_number(plan.start, out);
    put_number(plan.step, out);
    put_number(plan.stop, out);
    put_number(plan.limit, out);
    put_number(point, out);
}

/// Puts the trace's header, or a component's state, after its length. There is room for both.
pub fn put_sized(bytes: &[u8], out: &mut Vec<u8>)
    requires few { length bytes.now < 2 ^ 32 }
    requires room { vec_len out.old + (4 + length bytes.now) ≤ vec_capacity out.old }
    ensures text { out.new.items ≡ out.old.items ++ sized bytes.now }
    ensures len { vec_len out.new ≡ vec_len out.old + (4 + length bytes.now) }
    ensures room { vec_capacity out.old ≤ vec_capacity out.new }
{
    put(&(bytes.len() as u32).to_be_bytes(), out);
    put(bytes, out);
}

fn put_states(states: &[SharedBytes], out: &mut Vec<u8>)
    requires few { All (λ state. length state ≤ state_max) states.now }
    requires room { vec_len out.old + length (flat_map sized states.now) ≤ vec_capacity out.old }
    ensures text { out.new.items ≡ out.old.items ++ flat_map sized states.now }
    ensures len { vec_len out.new ≡ vec_len out.old + length (flat_map sized states.now) }
    ensures room { vec_capacity out.old ≤ vec_capacity out.new }
{
    for state in states {
        put_sized(state.as_slice(), out);
    }
}

fn put_options(values: &[Option<u64>], out: &mut Vec<u8>)
    requires room { vec_len out.old + length
        (flat_map option_bytes values.now) ≤ vec_capacity out.old }
    ensures text { out.new.items ≡ out.old.items ++ flat_map option_bytes values.now }
    ensures len { vec_len out.new ≡ vec_len out.old + length (flat_map option_bytes values.now) }
    ensures room { vec_capacity out.old ≤ vec_capacity out.new }
{
    for value in values {
        put_option(*value, out);
    }
}

/// Puts the word of a port's value or the event time of a component, or that there is none: 9 bytes, for which there is
/// room.
pub fn put_option(value: Option<u64>, out: &mut Vec<u8>)
    requires room { vec_len out.old + 9 ≤ vec_capacity out.old }
    ensures text { out.new.items ≡ out.old.items ++ option_bytes value }
    ensures len { vec_len out.new ≡ vec_len out.old + 9 }
    ensures room { vec_capacity out.old ≤ vec_capacity out.new }
{
    let (flag, word) = match value {
        Some(word) => (1, word),
        None => (0, 0),
    };
    put(&[flag], out);
    put_number(word, out);
}

fn put_all_times(values: &[Option<ClockTimes>], out: &mut Vec<u8>)
    requires room { vec_len out.old + length
        (flat_map times_bytes values.now) ≤ vec_capacity out.old }
    ensures text { out.new.items ≡ out.old.items ++ flat_map times_bytes values.now }
    ensures len { vec_len out.new ≡ vec_len out.old + length (flat_map times_bytes values.now) }
    ensures room { vec_capacity out.old ≤ vec_capacity out.new }
{
    for value in values {
        put_times(*value, out);
    }
}

/// Puts the interval and the shift of a Clock that was asked for them, in 32 bytes, and nothing of another port. There is
/// room for them.
pub fn put_times(value: Option<ClockTimes>, out: &mut Vec<u8>)
    requires room { vec_len out.old + length (times_bytes value) ≤ vec_capacity out.old }
    ensures text { out.new.items ≡ out.old.items ++ times_bytes value }
    ensures len { vec_len out.new ≡ vec_len out.old + length (times_bytes value) }
    ensures room { vec_capacity out.old ≤ vec_capacity out.new }
{
    match value {
        Some(times) => {
            put_wide(times.interval, out);
            put_wide(times.shift, out);
        }
        None => {}
    }
}

fn put_wide(number: u128, out: &mut Vec<u8>)
    requires room { vec_len out.old + 16 ≤ vec_capacity out.old }
    ensures text { out.new.items ≡ out.old.items ++ wide_bytes number }
    ensures len { vec_len out.new ≡ vec_len out.old + 16 }
    ensures room { vec_capacity out.old ≤ vec_capacity out.new }
{
    put_number((number / 0x1_0000_0000_0000_0000) as u64, out);
    put_number((number % 0x1_0000_0000_0000_0000) as u64, out);
}

fn put_armings(values: &[Arming], out: &mut Vec<u8>)
    requires room { vec_len out.old + length
        (flat_map arming_bytes values.now) ≤ vec_capacity out.old }
    ensures text { out.new.items ≡ out.old.items ++ flat_map arming_bytes values.now }
    ensures len { vec_len out.new ≡ vec_len out.old + length (flat_map arming_bytes values.now) }
    ensures room { vec_capacity out.old ≤ vec_capacity out.new }
{
    for value in values {
        put_arming(*value, out);
    }
}

/// Puts what the Clock of a port is armed for, in 9 bytes, and nothing of a port that is no countdown or changing Clock.
/// There is room for them.
pub fn put_arming(value: Arming, out: &mut Vec<u8>)
    requires room { vec_len out.old + length (arming_bytes value) ≤ vec_capacity out.old }
    ensures text { out.new.items ≡ out.old.items ++ arming_bytes value }
    ensures len { vec_len out.new ≡ vec_len out.old + length (arming_bytes value) }
    ensures room { vec_capacity out.old ≤ vec_capacity out.new }
{
    match value {
        Arming::NoClock => {}
        Arming::Unarmed => put_option(None, out),
        Arming::At(point) => put_option(Some(point), out),
    }
}
