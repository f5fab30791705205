ghost use Rattle.std.specs.Prelude.{◌≡◌};
ghost use Rattle.exact_parts.specs.Taking.{Takes};
ghost use Rattle.link_frames.specs.Text.{IsText, has_room};

use exact_parts::Taken;
use std::str::from_utf8;

// Whether this is the first byte of a character of more than one byte, and so many bytes hold the character.
fn has_room(lead: u8, room: usize) -> bool
    ensures { result ≡ has_room lead room }
{
    match lead {
        0xC2..=0xDF => 2 <= room,
        0xE0..=0xEF => 3 <= room,
        0xF0..=0xF4 => 4 <= room,
        _ => false,
    }
}

/// Takes a text of so many bytes.
pub(crate) fn take_text(bytes: &[u8], size: usize) -> Taken<()>
    ensures { Takes (IsText size) bytes.now result }
{
    let there = &bytes[..bytes.len().min(size)];
    match from_utf8(there) {
        Ok(_) => {
            if bytes.len() < size {
                Taken::NeedMore
            } else {
                Taken::Got {
                    value: (),
                    length: size,
                }
            }
        }
        Err(error) => {
            let valid = error.valid_up_to();
            if !has_room(there[valid], size - valid) {
                return Taken::Bad { at: valid };
            }
            match error.error_len() {
                Some(len) => Taken::Bad { at: valid + len },
                None => Taken::NeedMore,
            }
        }
    }
}
