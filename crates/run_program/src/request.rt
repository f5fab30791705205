//! What a line of the command line asks for, whichever its command is.
ghost use Rattle.command_line.specs.Line.{KeepsLimits, line_of};
ghost use Rattle.run_program.specs.Requests.{IsRequestOf, KeepsCounts};

use command_line::{CommandLine, Options};
use system_files::Subject;

/// What a line asks for: the FMU or the system in a directory, how many counts a second has, and what a run is to be, or none
/// where the size is asked for.
#[derive(Clone, Copy, Debug)]
pub(crate) struct SystemRequest<'a> {
    pub subject: Subject,
    pub directory: &'a str,
    pub resolution: u64,
    pub run: Option<Options<'a>>,
}

/// What a line asks for.
pub(crate) fn request_of(line: CommandLine<'_>) -> SystemRequest<'_>
    requires { KeepsLimits (line_of line) }
    ensures asks { IsRequestOf (line_of line.entry) result }
    ensures counts { KeepsCounts result }
{
    match line {
        CommandLine::One(options) => SystemRequest {
            subject: Subject::Fmu,
            directory: options.directory,
            resolution: options.plan.resolution,
            run: Some(options),
        },
        CommandLine::Run(options) => SystemRequest {
            subject: Subject::System,
            directory: options.directory,
            resolution: options.plan.resolution,
            run: Some(options),
        },
        CommandLine::Check(options) => SystemRequest {
            subject: Subject::System,
            directory: options.directory,
            resolution: options.resolution,
            run: None,
        },
    }
}
