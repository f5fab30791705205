ghost use Rattle.std.specs.Prelude.{◌≡◌, ◌+◌, ◌≤◌, IsTrue, Some, false, length};
ghost use Rattle.run_program.specs.Message.{Reports, end_message, end_room, end_status, file_message, file_status, limit_message, message, message_room, place_room, start_message, status_of, why_status};
ghost use Rattle.system_files.specs.Rooms.{room_for};
ghost use Rattle.run_program.specs.declared.outcome.Outcome.TheVariants.{Checked, Memory, Untold, Words};

use crate::message::{
    write_bad_message, write_file_message, write_fixed_message, write_limit_message,
    write_range_message, write_start_message,
};
use crate::outcome::{End, Outcome, StartCause};
use fmu_peer::Why;
use sim_base::{PartedText, Sink, Text};
use std::alloc::Global;
use system_files::FileFault;

/// How a command ended, and the room for its line on the error sink, made before.
#[derive(Debug, Drop)]
pub(crate) struct Report {
    pub outcome: Outcome,
    pub text: Vec<u8>,
    ghost holds: { message_room outcome ≤ length text.items },
}

impl Report {
    /// The arguments are no command line.
    pub fn words(alloc: Global) -> Report
        ensures { result.outcome ≡ Words }
    {
        Report {
            outcome: Outcome::Words,
            text: Vec::new(alloc),
        }
    }

    /// Memory ran out before any FMU was called.
    pub fn memory(alloc: Global) -> Report
        ensures { result.outcome ≡ Memory }
    {
        Report {
            outcome: Outcome::Memory,
            text: Vec::new(alloc),
        }
    }

    /// The size of a system, or the numbers of a run, were told, or couldn't be put.
    pub fn of_check(alloc: Global, is_told: bool) -> Report
        ensures told { IsTrue is_told → result.outcome ≡ Checked }
        ensures untold { is_told ≡ false → result.outcome ≡ Untold }
    {
        Report {
            outcome: if is_told {
                Outcome::Checked
            } else {
                Outcome::Untold
            },
            text: Vec::new(alloc),
        }
    }

    /// Puts the line, if there is one, and answers the status.
    pub fn put<E: Sink>(self, err: &mut E) -> u8
        ensures { Reports (message self.outcome) (status_of self.outcome) result (E.view err.old)
            (E.view err.new) }
    {
        let Report { outcome, mut text } = self;
        put_outcome(&outcome, &mut text, err)
    }
}

fn put_outcome<E: Sink>(outcome: &Outcome, text: &mut [u8], err: &mut E) -> u8
    requires { message_room outcome.now ≤ length text.old }
    ensures { Reports (message outcome.now) (status_of outcome.now) result (E.view err.old)
        (E.view err.new) }
{
    match outcome {
        Outcome::Words => put_line(b"words\n", 2, err),
        Outcome::Memory => put_line(b"memory\n", 11, err),
        Outcome::File { path, fault } => put_file_line(path, fault, text, err),
        Outcome::Start { component, fault } => put_start_line(component, *fault, text, err),
        Outcome::Ran { end } => put_end_line(end, text, err),
        Outcome::Checked => 0,
        Outcome::Untold => put_line(b"write\n", 10, err),
    }
}

/// Puts a line that stands for a status, and answers the status: 10 where the put fails.
pub(crate) fn put_line<E: Sink>(line: &[u8], status: u8, err: &mut E) -> u8
    ensures { Reports (Some line.now) status result (E.view err.old) (E.view err.new) }
{
    match err.put(line) {
        Ok(()) => status,
        Err(_) => 10,
    }
}

fn put_file_line<E: Sink>(path: &Text, fault: &FileFault, text: &mut [u8], err: &mut E) -> u8
    requires { room_for (length path.now) + place_room fault.now ≤ length text.old }
    ensures { Reports (Some (file_message path.now fault.now)) (file_status fault.now) result
        (E.view err.old) (E.view err.new) }
{
    let length = write_file_message(path.as_str(), fault, text);
    put_line(&text[..length], file_status(fault), err)
}

fn file_status(fault: &FileFault) -> u8
    ensures { result ≡ file_status fault.now }
{
    match fault {
        FileFault::Unread | FileFault::Missing | FileFault::TooBig => 3,
        FileFault::Broken { .. } => 4,
    }
}

fn put_start_line<E: Sink>(
    component: &PartedText,
    fault: StartCause,
    text: &mut [u8],
    err: &mut E,
) -> u8
    requires { room_for (length component.now) ≤ length text.old }
    ensures { Reports (Some (start_message component.now fault)) 5 result (E.view err.old)
        (E.view err.new) }
{
    let length = write_start_message(component, fault, text);
    put_line(&text[..length], 5, err)
}

fn put_end_line<E: Sink>(end: &End, text: &mut [u8], err: &mut E) -> u8
    requires { end_room end.now ≤ length text.old }
    ensures { Reports (end_message end.now) (end_status end.now) result (E.view err.old)
        (E.view err.new) }
{
    match end {
        End::Stop | End::Asked | End::Held { .. } => 0,
        End::EventLimit { point } => put_limit_line(*point, err),
        End::FixedStep { component, at, end } => {
            let length = write_fixed_message(component, *at, *end, text);
            put_line(&text[..length], 9, err)
        }
        End::Range {
            component,
            variable,
            value,
        } => {
            let length = write_range_message(component, variable.as_str(), *value, text);
            put_line(&text[..length], 13, err)
        }
        End::Bad { component, why } => {
            let length = write_bad_message(component, why, text);
            put_line(&text[..length], why_status(why), err)
        }
        End::WriteFault => put_line(b"write\n", 10, err),
    }
}

fn put_limit_line<E: Sink>(point: u64, err: &mut E) -> u8
    ensures { Reports (Some (limit_message point)) 8 result (E.view err.old) (E.view err.new) }
{
    let mut text = [0u8; 27];
    let length = write_limit_message(point, &mut text);
    put_line(&text[..length], 8, err)
}

fn why_status(why: &Why) -> u8
    ensures { result ≡ why_status why.now }
{
    match why {
        Why::Refused { .. } => 6,
        Why::Misreply { .. } => 7,
        Why::Link { .. } => 5,
    }
}
