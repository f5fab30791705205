ghost use Rattle.std.specs.Prelude.{◌≡◌, ◌++◌, OnOk, decimal};

use sim_base::escaped_byte;
use std::alloc::AllocError;

pub(crate) fn append_number(number: u64, out: &mut Vec<u8>) -> Result<(), AllocError>
    ensures { OnOk result (out.new.items ≡ out.old.items ++ decimal number) }
{
    out.extend_from_slice(itoa::Buffer::new().format(number).as_bytes())
}

/// A name with its bytes escaped as in a trace.
pub(crate) fn append_escaped(name: &[u8], out: &mut Vec<u8>) -> Result<(), AllocError> {
    for byte in name {
        out.extend_from_slice(escaped_byte(*byte).as_slice())?;
    }
    Ok(())
}

/// A text within an XML document. What XML doesn't hold stands there as `%` and two digits.
pub(crate) fn append_xml(text: &[u8], out: &mut Vec<u8>) -> Result<(), AllocError> {
    let is_text = str::from_utf8(text).is_ok();
    for byte in text {
        match *byte {
            b'&' => out.extend_from_slice(b"&amp;")?,
            b'<' => out.extend_from_slice(b"&lt;")?,
            b'>' => out.extend_from_slice(b"&gt;")?,
            b'"' => out.extend_from_slice(b"&quot;")?,
            0..=31 | 127 => append_hex(*byte, out)?,
            128..=255 => {
                if is_text {
                    out.push(*byte)?;
                } else {
                    append_hex(*byte, out)?;
                }
            }
            _ => out.push(*byte)?,
        }
    }
    Ok(())
}

fn append_hex(byte: u8, out: &mut Vec<u8>) -> Result<(), AllocError> {
    out.push(b'%')?;
    out.push(hex_digit(byte / 16))?;
    out.push(hex_digit(byte % 16))?;
    Ok(())
}

fn hex_digit(digit: u8) -> u8 {
    match digit {
        0..=9 => b'0' + digit,
        10..=15 => b'A' + (digit - 10),
        _ => b'0',
    }
}
