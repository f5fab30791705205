ghost use Rattle.std.specs.Prelude.{◌≡◌, ◌+◌, ◌*◌, ◌≤◌, ◌++◌, is_some, length, take, codes, decimal};
ghost use Rattle.sim_base.specs.Escape.{escaped};
ghost use Rattle.hex.specs.Hex.{encode_lower};
ghost use Rattle.std.specs.List.{count_by};
ghost use Rattle.system_model.specs.Ports.{source_of};
ghost use Rattle.system_files.specs.Rooms.{room_for};
ghost use Rattle.std.specs.Fmt.{signed_decimal};
ghost use Rattle.run_program.specs.Message.{bad_message, checkpoint_message, file_message, fixed_message, limit_message, loop_room, loop_text, numbers_text, path_room, place_room, place_text, range_message, size_text, start_message, summary_text};
ghost use Rattle.link_frames.specs.Reply.{frame_of};
ghost use Rattle.run_program.specs.TraceCheck.{verdict_text};

use crate::names::{kind_name, status_name};
use crate::outcome::StartCause;
use doc_tree::{Place, Rule};
use fmi_calls::{Reply, Status};
use fmu_peer::Why;
use itoa::Buffer;
use link_frames::put_reply;
use sim_base::{PartedText, PortId, escape};
use system_files::FileFault;
use system_model::{Port, Role, System};
use trace_check::Verdict;

/// Writes at the start of `text` the line of a file that wasn't taken, and answers its length.
#[tactic(auto, unfolding(crate::specs::Message::file_message))]
pub(crate) fn write_file_message(path: &str, fault: &FileFault, text: &mut [u8]) -> usize
    requires { room_for (length path.now) + place_room fault.now ≤ length text.old }
    ensures length { result ≤ length text.new }
    ensures text { take result text.new ≡ file_message path.now fault.now }
{
    match fault {
        FileFault::Unread => write_named(b"read ", path, b"\n", text),
        FileFault::Missing => write_named(b"missing ", path, b"\n", text),
        FileFault::TooBig => write_named(b"big ", path, b"\n", text),
        FileFault::Broken { rule, place, ports } => {
            write_broken(path, *rule, place, ports.as_slice(), text)
        }
    }
}

#[tactic(auto, unfolding(crate::specs::Message::file_message))]
fn write_broken(path: &str, rule: Rule, place: &Place, ports: &[PortId], text: &mut [u8]) -> usize
    requires { room_for (length path.now) + place_room (FileFault.Broken rule place.now ports.now) ≤
        length text.old }
    ensures length { result ≤ length text.new }
    ensures text { take result text.new ≡ file_message path.now
        (FileFault.Broken rule place.now ports.now) }
{
    let at = append(b"refused ", text, 0);
    let at = append_number(u64::from(rule.number()), text, at);
    let at = append(b" ", text, at);
    let at = append_name(path, text, at);
    let at = append(b" ", text, at);
    let at = append_place(place, text, at);
    let at = append_loop(ports, text, at);
    append(b"\n", text, at)
}

/// Writes at the start of `text` the line of a file that holds no checkpoint, and answers its length. The byte at a place of
/// the file shows it, or its end.
#[tactic(auto, unfolding(crate::specs::Message::checkpoint_message))]
pub(crate) fn write_checkpoint_message(path: &str, byte: u64, text: &mut [u8]) -> usize
    requires { room_for (length path.now) ≤ length text.old }
    ensures length { result ≤ length text.new }
    ensures text { take result text.new ≡ checkpoint_message path.now byte }
{
    let at = append(b"checkpoint ", text, 0);
    let at = append_name(path, text, at);
    let at = append(b" ", text, at);
    let at = append_number(byte, text, at);
    append(b"\n", text, at)
}

/// Writes at the start of `text` the line of a component whose peer wasn't started, and answers its length.
#[tactic(auto, unfolding(crate::specs::Message::start_message))]
pub(crate) fn write_start_message(
    component: &PartedText,
    fault: StartCause,
    text: &mut [u8],
) -> usize
    requires { room_for (length component.now) ≤ length text.old }
    ensures length { result ≤ length text.new }
    ensures text { take result text.new ≡ start_message component.now fault }
{
    match fault {
        StartCause::Failed => write_component(b"link ", component, b" start\n", text),
        StartCause::Unknown => write_component(b"unknown ", component, b"\n", text),
    }
}

/// Writes at the start of `text` the line of a step that a component can't make, and answers its length. Point and end
/// are counts.
#[tactic(auto, unfolding(crate::specs::Message::fixed_message))]
pub(crate) fn write_fixed_message(
    component: &PartedText,
    point: u64,
    end: u64,
    text: &mut [u8],
) -> usize
    requires { room_for (length component.now) ≤ length text.old }
    ensures length { result ≤ length text.new }
    ensures text { take result text.new ≡ fixed_message component.now point end }
{
    let at = append(b"fixed ", text, 0);
    let at = append_parts(component, text, at);
    let at = append(b" ", text, at);
    let at = append_number(point, text, at);
    let at = append(b" ", text, at);
    let at = append_number(end, text, at);
    append(b"\n", text, at)
}

/// Writes at the start of `text` the line of a variable on the way to which a value is lost, and answers its length.
#[tactic(auto, unfolding(crate::specs::Message::range_message))]
pub(crate) fn write_range_message(
    component: &PartedText,
    variable: &str,
    value: i128,
    text: &mut [u8],
) -> usize
    requires { room_for (length component.now + length variable.now) ≤ length text.old }
    ensures length { result ≤ length text.new }
    ensures text { take result text.new ≡ range_message component.now variable.now value }
{
    let at = append(b"range ", text, 0);
    let at = append_parts(component, text, at);
    let at = append(b" ", text, at);
    let at = append_name(variable, text, at);
    let at = append(b" ", text, at);
    let at = append_value(value, text, at);
    append(b"\n", text, at)
}

/// Writes at the start of `text` the line of a point whose instants reach their limit, and answers its length. The point
/// is a count.
#[tactic(auto, unfolding(crate::specs::Message::limit_message))]
pub(crate) fn write_limit_message(point: u64, text: &mut [u8]) -> usize
    requires { 27 ≤ length text.old }
    ensures length { result ≤ length text.new }
    ensures text { take result text.new ≡ limit_message point }
{
    let at = append(b"limit ", text, 0);
    let at = append_number(point, text, at);
    append(b"\n", text, at)
}

/// Writes at the start of `text` the line of a component's answer that isn't good, and answers its length.
#[tactic(auto, unfolding(crate::specs::Message::bad_message))]
pub(crate) fn write_bad_message(component: &PartedText, why: &Why, text: &mut [u8]) -> usize
    requires { room_for (length component.now) ≤ length text.old }
    ensures length { result ≤ length text.new }
    ensures text { take result text.new ≡ bad_message component.now why.now }
{
    match why {
        Why::Refused { call, status } => {
            let at = write_call(b"fmu ", component, kind_name(call.kind()), text);
            let at = append(b" ", text, at);
            let at = append(status_name(Status::from_bad(*status)).as_bytes(), text, at);
            append(b"\n", text, at)
        }
        Why::Misreply { call, reply } => {
            let digits = frame_digits(reply);
            let at = write_call(b"misreply ", component, kind_name(call.kind()), text);
            let at = append(b" ", text, at);
            let at = append(&digits, text, at);
            append(b"\n", text, at)
        }
        Why::Link { call, .. } => {
            let at = write_call(b"link ", component, kind_name(call.kind()), text);
            append(b"\n", text, at)
        }
    }
}

// The digits of a reply's frame.
fn frame_digits(reply: &Reply) -> [u8; 48]
    ensures { result ≡ encode_lower (frame_of reply.now) }
{
    let mut frame = [0u8; 24];
    put_reply(reply, &mut frame);
    let mut digits = [0u8; 48];
    match hex::encode_to_slice(frame.as_slice(), &mut digits) {
        Ok(()) => digits,
        Err(_) => unreachable!(),
    }
}

// What stands before the answer: a word, the component and the call.
fn write_call(word: &[u8], component: &PartedText, call: &str, text: &mut [u8]) -> usize
    requires word { length word.now ≤ 9 }
    requires call { length call.now ≤ 19 }
    requires room { 3 * length component.now + 29 ≤ length text.old }
    ensures end { result ≤ 3 * length component.now + 29 }
    ensures text { take result text.new ≡ word.now ++ escaped component.now ++ codes " " ++
        call.now }
{
    let at = append(word, text, 0);
    let at = append_parts(component, text, at);
    let at = append(b" ", text, at);
    append(call.as_bytes(), text, at)
}

// A name, escaped, between two pieces.
fn write_named(prefix: &[u8], name: &str, back: &[u8], text: &mut [u8]) -> usize
    requires pieces { length prefix.now + length back.now ≤ 16 }
    requires room { 3 * length name.now + 16 ≤ length text.old }
    ensures length { result ≤ length text.new }
    ensures text { take result text.new ≡ prefix.now ++ escaped name.now ++ back.now }
{
    let at = append(prefix, text, 0);
    let at = append_name(name, text, at);
    append(back, text, at)
}

// The same for a component's full name.
fn write_component(prefix: &[u8], name: &PartedText, back: &[u8], text: &mut [u8]) -> usize
    requires pieces { length prefix.now + length back.now ≤ 16 }
    requires room { 3 * length name.now + 16 ≤ length text.old }
    ensures length { result ≤ length text.new }
    ensures text { take result text.new ≡ prefix.now ++ escaped name.now ++ back.now }
{
    let at = append(prefix, text, 0);
    let at = append_parts(name, text, at);
    append(back, text, at)
}

// Puts a piece after what stands in the text up to `at`, and answers where it ends.
fn append(piece: &[u8], text: &mut [u8], at: usize) -> usize
    requires { at + length piece.now ≤ length text.old }
    ensures end { result ≡ at + length piece.now }
    ensures text { take result text.new ≡ take at text.old ++ piece.now }
{
    let end = at + piece.len();
    text[at..end].copy_from_slice(piece);
    end
}

// Puts a name, escaped, after what stands in the text up to `at`, and answers where it ends.
fn append_name(name: &str, text: &mut [u8], at: usize) -> usize
    requires { at + 3 * length name.now ≤ length text.old }
    ensures end { result ≤ at + 3 * length name.now }
    ensures text { take result text.new ≡ take at text.old ++ escaped name.now }
{
    let length = escape(name, &mut text[at..]);
    at + length
}

// The same for a name in parts.
fn append_parts(name: &PartedText, text: &mut [u8], at: usize) -> usize
    requires { at + 3 * length name.now ≤ length text.old }
    ensures end { result ≤ at + 3 * length name.now }
    ensures text { take result text.new ≡ take at text.old ++ escaped name.now }
{
    let mut end = at;
    let mut parts = name.parts();
    while let Some(part) = parts.next() {
        end = append_name(part, text, end);
    }
    end
}

// Puts the digits of a number after what stands in the text up to `at`, and answers where they end.
#[tactic(auto, using(crate::proofs::Digits::decimal_short))]
fn append_number(number: u64, text: &mut [u8], at: usize) -> usize
    requires { at + 20 ≤ length text.old }
    ensures end { result ≤ at + 20 }
    ensures text { take result text.new ≡ take at text.old ++ decimal number }
{
    append(Buffer::new().format(number).as_bytes(), text, at)
}

// The same for a number of 128 bits.
#[tactic(auto, using(crate::proofs::Digits::decimal_wide))]
fn append_wide(number: u128, text: &mut [u8], at: usize) -> usize
    requires { at + 39 ≤ length text.old }
    ensures end { result ≤ at + 39 }
    ensures text { take result text.new ≡ take at text.old ++ decimal number }
{
    append(Buffer::new().format(number).as_bytes(), text, at)
}

// The same for a value of a port.
#[tactic(auto, using(crate::proofs::Digits::signed_short))]
fn append_value(value: i128, text: &mut [u8], at: usize) -> usize
    requires { at + 40 ≤ length text.old }
    ensures end { result ≤ at + 40 }
    ensures text { take result text.new ≡ take at text.old ++ signed_decimal value }
{
    append(Buffer::new().format(value).as_bytes(), text, at)
}

// Puts a place after what stands in the text up to `at`, and answers where it ends.
fn append_place(place: &Place, text: &mut [u8], at: usize) -> usize
    requires { at + 25 + path_room place.now ≤ length text.old }
    ensures end { result ≤ at + 25 + path_room place.now }
    ensures text { take result text.new ≡ take at text.old ++ place_text place.now }
{
    match place {
        Place::Byte { at: byte } => {
            let at = append(b"byte ", text, at);
            append_number(*byte as u64, text, at)
        }
        Place::Element { path } => append(path.as_str().as_bytes(), text, at),
    }
}

// Puts the ports of a loop after what stands in the text up to `at`, and answers where they end.
fn append_loop(ports: &[PortId], text: &mut [u8], at: usize) -> usize
    requires { at + 6 + loop_room ports.now ≤ length text.old }
    ensures end { result ≤ at + 6 + loop_room ports.now }
    ensures text { take result text.new ≡ take at text.old ++ loop_text ports.now }
{
    if ports.is_empty() {
        return at;
    }
    let at = append(b" ports", text, at);
    append_ports(ports, text, at)
}

// Puts the numbers of ports, with a space before each, after what stands in the text up to `at`.
fn append_ports(ports: &[PortId], text: &mut [u8], at: usize) -> usize
    requires { at + loop_room ports.now ≤ length text.old }
    ensures end { result ≤ at + loop_room ports.now }
    ensures text { take result text.new ≡ take at text.old ++ numbers_text ports.now }
{
    let mut end = at;
    for port in ports {
        end = append(b" ", text, end);
        end = append_number(u64::from(port.0), text, end);
    }
    end
}

/// Writes at the start of `text` the size of a system, with so many unresolved names of parameters, and answers the length.
#[tactic(auto, unfolding(crate::specs::Message::size_text))]
pub(crate) fn write_size(system: &System, unreached: u64, text: &mut [u8]) -> usize
    requires { 128 ≤ length text.old }
    ensures length { result ≤ length text.new }
    ensures text { take result text.new ≡ size_text system.now unreached }
{
    let at = append(b"components ", text, 0);
    let at = append_number(system.components.len() as u64, text, at);
    let at = append(b" ports ", text, at);
    let at = append_number(system.ports.len() as u64, text, at);
    let at = append(b" feeds ", text, at);
    let at = append_number(count_feeds(system.ports.as_slice()) as u64, text, at);
    let at = append(b" unreached ", text, at);
    let at = append_number(unreached, text, at);
    append(b"\n", text, at)
}

/// Writes at the start of `text` the numbers of a run, and answers their length: how many instants it had, how many
/// exchanges there were, and how many of these were calls of Restore.
#[tactic(auto, unfolding(crate::specs::Message::summary_text))]
pub(crate) fn write_summary(instants: u128, calls: u128, rollbacks: u128, text: &mut [u8]) -> usize
    requires { 145 ≤ length text.old }
    ensures length { result ≤ length text.new }
    ensures text { take result text.new ≡ summary_text instants calls rollbacks }
{
    let at = append(b"instants ", text, 0);
    let at = append_wide(instants, text, at);
    let at = append(b" calls ", text, at);
    let at = append_wide(calls, text, at);
    let at = append(b" rollbacks ", text, at);
    let at = append_wide(rollbacks, text, at);
    append(b"\n", text, at)
}

/// Writes at the start of `text` the line of a verdict, and answers its length.
#[tactic(auto, unfolding(crate::specs::TraceCheck::verdict_text))]
pub(crate) fn write_verdict(verdict: Verdict, text: &mut [u8]) -> usize
    requires { 45 ≤ length text.old }
    ensures length { result ≤ length text.new }
    ensures text { take result text.new ≡ verdict_text verdict }
{
    match verdict {
        Verdict::Yes => append(b"yes\n", text, 0),
        Verdict::No { line, rule } => {
            let at = append(b"no ", text, 0);
            let at = append_number(line, text, at);
            let at = append(b" ", text, at);
            let at = append_number(u64::from(rule), text, at);
            append(b"\n", text, at)
        }
    }
}

fn count_feeds(ports: &[Port]) -> usize
    ensures { result ≡ count_by (λ (port : Port). is_some (source_of port.role)) ports.now }
{
    ports.iter().filter(|port| is_fed(*port)).count()
}

fn is_fed(port: &Port) -> bool
    ensures { result ≡ is_some (source_of port.now.role) }
{
    match &port.role {
        Role::Input { feed } | Role::ClockInput { feed } => feed.is_some(),
        Role::Output | Role::ClockOutput | Role::TimeClock { .. } => false,
    }
}
