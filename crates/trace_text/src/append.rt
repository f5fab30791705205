// Pieces of text, each put after what stands in a buffer up to `at`. Each answers where it ends.
ghost use Rattle.std.specs.Prelude.{◌≡◌, ◌+◌, ◌≤◌, ◌++◌, length, take, decimal};
ghost use Rattle.std.specs.Fmt.{signed_decimal};
ghost use Rattle.sim_base.specs.Escape.{escaped};

use itoa::Buffer;
use sim_base::{PartedText, escaped_byte};

pub(crate) fn append(piece: &[u8], out: &mut [u8], at: usize) -> usize
    requires { at + length piece.now ≤ length out.old }
    ensures end { result ≡ at + length piece.now }
    ensures text { take result out.new ≡ take at out.old ++ piece.now }
{
    let end = at + piece.len();
    out[at..end].copy_from_slice(piece);
    end
}

#[inline(always)]
#[tactic(auto, using(std::proofs::lemmas::Fmt::decimal_digit))]
pub(crate) fn append_number(number: u64, out: &mut [u8], at: usize) -> usize
    requires { at + length (decimal number) ≤ length out.old }
    ensures end { result ≡ at + length (decimal number) }
    ensures text { take result out.new ≡ take at out.old ++ decimal number }
{
    if number < 10 {
        return append(&[b'0' + number as u8], out, at);
    }
    append(Buffer::new().format(number).as_bytes(), out, at)
}

pub(crate) fn append_value(value: i128, out: &mut [u8], at: usize) -> usize
    requires { at + length (signed_decimal value) ≤ length out.old }
    ensures end { result ≡ at + length (signed_decimal value) }
    ensures text { take result out.new ≡ take at out.old ++ signed_decimal value }
{
    append(Buffer::new().format(value).as_bytes(), out, at)
}

pub(crate) fn append_name(name: &str, out: &mut [u8], mut at: usize) -> usize
    requires { at + length (escaped name.now) ≤ length out.old }
    ensures end { result ≡ at + length (escaped name.now) }
    ensures text { take result out.new ≡ take at out.old ++ escaped name.now }
{
    for byte in name.as_bytes() {
        at = append(escaped_byte(*byte).as_slice(), out, at);
    }
    at
}

// The same for a name in parts.
pub(crate) fn append_parts(name: &PartedText, out: &mut [u8], mut at: usize) -> usize
    requires { at + length (escaped name.now) ≤ length out.old }
    ensures end { result ≡ at + length (escaped name.now) }
    ensures text { take result out.new ≡ take at out.old ++ escaped name.now }
{
    let mut parts = name.parts();
    while let Some(part) = parts.next() {
        at = append_name(part, out, at);
    }
    at
}
