ghost use Rattle.std.specs.Prelude.{◌≡◌, ◌+◌, ◌≤◌, ◌++◌, length, take};
ghost use Rattle.system_model.specs.Text.{at_line, instant_text, value_line};
ghost use Rattle.trace_text.specs.Lines.{ended};

use crate::append::{append, append_number, append_value};
use port_values::PortValues;
use system_model::System;

/// Puts the n-th instant at the point `t` to the start of `out`, and answers the length of its text. The values are
/// those of the system's ports, in order; they stay, and those alone are looked at that are there.
pub fn put_instant(
    _system: &System,
    t: u64,
    n: u64,
    values: &mut PortValues,
    out: &mut [u8],
) -> usize
    requires { length (instant_text t n values.old) ≤ length out.old }
    ensures length { result ≡ length (instant_text t n values.old) }
    ensures text { take result out.new ≡ instant_text t n values.old }
    ensures values { values.new ≡ values.old }
{
    let mut at = put_instant_line(t, n, out);
    for k in 0..values.len() {
        let Some((port, value)) = values.nth(k) else {
            return at;
        };
        at = append_value_line(port, value, out, at);
    }
    at
}

fn put_instant_line(t: u64, n: u64, out: &mut [u8]) -> usize
    requires { length (ended (at_line t n)) ≤ length out.old }
    ensures length { result ≡ length (ended (at_line t n)) }
    ensures text { take result out.new ≡ ended (at_line t n) }
{
    let at = append(b"at ", out, 0);
    let at = append_number(t, out, at);
    let at = append(b" ", out, at);
    let at = append_number(n, out, at);
    append(b"\n", out, at)
}

fn append_value_line(number: usize, value: i128, out: &mut [u8], at: usize) -> usize
    requires { at + length (ended (value_line number value)) ≤ length out.old }
    ensures end { result ≡ at + length (ended (value_line number value)) }
    ensures text { take result out.new ≡ take at out.old ++ ended (value_line number value) }
{
    let at = append_number(number as u64, out, at);
    let at = append(b" ", out, at);
    let at = append_value(value, out, at);
    append(b"\n", out, at)
}
