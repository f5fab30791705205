ghost use Rattle.std.specs.Prelude.{◌≡◌, [], IfOk};
ghost use Rattle.clap.specs.Simple.{new_rule};
ghost use Rattle.clap.specs.Walk.{texts};
ghost use Rattle.command_line.specs.App.{AddsRule, AddsSub, IsMadeAs, option_rule, sub_app, top_shape};

use clap::{Arg, Command};
use std::alloc::{AllocError, Global};

/// The program's command without its subcommands: there is one level of them, and no help and no version option.
pub(crate) fn top_command<'a>(alloc: Global) -> Command<'a>
    ensures { IsMadeAs (record { top = top_shape; subs = [] }) result }
{
    Command::new(alloc, "ssprun")
        .no_binary_name(true)
        .disable_help_flag(true)
        .disable_help_subcommand(true)
        .disable_version_flag(true)
        .subcommand_required(true)
}

/// The command with one more subcommand, which has positionals and options of these names.
pub(crate) fn with_subcommand<'a>(
    alloc: Global,
    command: Command<'a>,
    name: &'a str,
    positionals: &[&'a str],
    options: &[&'a str],
) -> Result<Command<'a>, AllocError>
    ensures { IfOk result (AddsSub command.entry name.entry.now (texts positionals.now)
        (texts options.now)) }
{
    let subcommand = make_subcommand(alloc, name, positionals, options)?;
    command.subcommand(subcommand)
}

fn make_subcommand<'a>(
    alloc: Global,
    name: &'a str,
    positionals: &[&'a str],
    options: &[&'a str],
) -> Result<Command<'a>, AllocError>
    ensures { IfOk result
        (IsMadeAs (sub_app name.entry.now (texts positionals.now) (texts options.now))) }
{
    let mut command = Command::new(alloc, name);
    for positional in positionals {
        command = with_positional(alloc, command, positional)?;
    }
    for option in options {
        command = with_option(alloc, command, option)?;
    }
    Ok(command)
}

fn with_positional<'a>(
    alloc: Global,
    command: Command<'a>,
    name: &'a str,
) -> Result<Command<'a>, AllocError>
    ensures { IfOk result (AddsRule command.entry (new_rule name.entry.now)) }
{
    command.arg(Arg::new(alloc, name))
}

// An option takes a value. None is required of clap: whether one has to be there is seen when it is read.
fn with_option<'a>(
    alloc: Global,
    command: Command<'a>,
    name: &'a str,
) -> Result<Command<'a>, AllocError>
    ensures { IfOk result (AddsRule command.entry (option_rule name.entry.now)) }
{
    command.arg(Arg::new(alloc, name).long(name))
}
