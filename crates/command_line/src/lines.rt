ghost use Rattle.std.specs.Prelude.{◌≡◌, [], true, List, IfOk, IfErr};
ghost use Rattle.clap.specs.Words.{app_of, fault_of, is_simple_and_free, subcommand_of, subcommand_rows_of};
ghost use Rattle.command_line.specs.Line.{CommandRow, IsLineOf, Lookup, texts};
ghost use Rattle.command_line.specs.Table.{GivesLine, IsTable};
ghost use Rattle.command_line.specs.Words.{Word};
ghost use Rattle.command_line.specs.declared.fault.WordsFault.TheVariants.{NoLine};

use crate::fault::WordsFault;
use crate::form::has_line_form;
use clap::error::ErrorKind;
use clap::{ArgMatches, Command};

/// The matches of arguments that are a line of a table of commands, for the command that has this table.
pub(crate) fn read_line<'a>(
    command: Command<'a>,
    words: &'a [String],
) -> Result<ArgMatches<'a>, WordsFault>
    requires { is_simple_and_free (app_of command) ≡ true }
    ensures ok { (rows : List CommandRow) → IsTable (app_of command.entry) rows →
        IfOk result (GivesLine rows (texts words.entry.now)) }
    ensures none { (rows : List CommandRow) → IsTable (app_of command.entry) rows
        → IfErr result (λ e. e ≡ NoLine → (name : Word) (get : Lookup) → IsLineOf rows (texts words.entry.now) name get → ⊥) }
{
    if !has_line_form(words) {
        return Err(WordsFault::NoLine);
    }
    parse(command, words)
}

// What clap makes of the arguments.
fn parse<'a>(command: Command<'a>, words: &'a [String]) -> Result<ArgMatches<'a>, WordsFault>
    requires { is_simple_and_free (app_of command) ≡ true }
    ensures ok { IfOk result (λ m. (fault_of (app_of command.entry) (texts words.entry.now) ≡ [])
        × (subcommand_rows_of m ≡ subcommand_of (app_of command.entry) (texts words.entry.now))) }
    ensures none { IfErr result (λ e. e ≡ NoLine → fault_of (app_of command.entry)
        (texts words.entry.now) ≡ [] → ⊥) }
{
    match command.try_get_matches_from(words) {
        Ok(matches) => Ok(matches),
        Err(error) => {
            if error.kind() == ErrorKind::OutOfMemory {
                Err(WordsFault::Memory)
            } else {
                Err(WordsFault::NoLine)
            }
        }
    }
}
