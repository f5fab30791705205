ghost use Rattle.std.specs.Prelude.{◌≡◌, ◌≤◌, length, take};
ghost use Rattle.system_model.specs.Text.{end_text, kind_text};

use crate::append::{append, append_number};
use system_model::EndKind;

/// Puts the end of a trace at the point `t` to the start of `out`, and answers the length of its text.
pub fn put_end(kind: EndKind, t: u64, out: &mut [u8]) -> usize
    requires { length (end_text kind t) ≤ length out.old }
    ensures length { result ≡ length (end_text kind t) }
    ensures text { take result out.new ≡ end_text kind t }
{
    let at = append(b"end ", out, 0);
    let at = append(kind_text(kind).as_bytes(), out, at);
    let at = append(b" ", out, at);
    let at = append_number(t, out, at);
    append(b"\n", out, at)
}

fn kind_text(kind: EndKind) -> &'static str
    ensures { result.now ≡ kind_text kind }
{
    match kind {
        EndKind::Stop => "stop",
        EndKind::Asked => "asked",
        EndKind::Limit => "limit",
        EndKind::Fixed => "fixed",
        EndKind::Range => "range",
        EndKind::Fault => "fault",
    }
}
