ghost use Rattle.std.specs.Prelude.{◌≡◌, ◌*◌, ◌<◌, ◌≤◌, length, take, drop};
ghost use Rattle.sim_base.specs.Escape.{escaped, escaped_byte, hex_digit};

use std::marker::Model;

/// A byte of a name as a line of text has it: one byte, or three of an escape.
#[derive(Debug, Drop)]
pub struct EscapedByte {
    bytes: [u8; 3],
    len: usize,
}

impl Model for EscapedByte {
    ghost use Rattle.std.specs.Prelude.{List, ℕ, ◌≤◌, take};

    ghost Value = { List ℕ };

    ghost view = { λ e. take e.len e.bytes };

    ghost invariant = { λ e. e.len ≤ 3 };
}

impl EscapedByte {
    /// The bytes, from one to three.
    pub fn as_slice(&self) -> &[u8]
        ensures bytes { result.now ≡ self.now }
        ensures short { length result.now ≤ 3 }
    {
        &self.bytes[..self.len]
    }
}

/// A byte of a name, escaped as `%` and two upper-case hexadecimal digits where it is below 33, 127 or `%`.
pub fn escaped_byte(byte: u8) -> EscapedByte
    ensures { result ≡ escaped_byte byte }
{
    if byte < 33 || byte == 127 || byte == b'%' {
        EscapedByte {
            bytes: [b'%', hex_digit(byte / 16), hex_digit(byte % 16)],
            len: 3,
        }
    } else {
        EscapedByte {
            bytes: [byte, 0, 0],
            len: 1,
        }
    }
}

/// Writes a name to the start of `out`, with the bytes below 33, 127 and `%` escaped, and answers the length of what it wrote.
/// The bytes after that stay as they were.
pub fn escape(name: &str, out: &mut [u8]) -> usize
    requires { 3 * length name.now ≤ length out.old }
    ensures written { result ≡ length (escaped name.now) }
    ensures prefix { take result out.new ≡ escaped name.now }
    ensures after { drop result out.new ≡ drop result out.old }
{
    let mut len = 0;
    for byte in name.as_bytes() {
        let escaped = escaped_byte(*byte);
        let text = escaped.as_slice();
        let end = len + text.len();
        out[len..end].copy_from_slice(text);
        len = end;
    }
    len
}

fn hex_digit(n: u8) -> u8
    requires { n < 16 }
    ensures { result ≡ hex_digit n }
{
    if n < 10 { b'0' + n } else { b'A' + (n - 10) }
}
