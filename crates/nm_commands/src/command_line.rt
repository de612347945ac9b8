//! The command line of `nbdmirror`.
ghost use Rattle.std.specs.Prelude.{◌≡◌, ◌<◌, ◌↔◌, ◌⊎◌, IfErr, IfOk, IsTrue, codes};
ghost use Rattle.std.specs.Prelude.{false, length, map};
ghost use Rattle.clap.specs.Words.{app_of, found_of, kind_of, rows_of, rule_of};
ghost use Rattle.clap.specs.declared.error.kind.ErrorKind.TheVariants.{ArgumentConflict};
ghost use Rattle.clap.specs.declared.error.kind.ErrorKind.TheVariants.{OutOfMemory};
ghost use Rattle.nm_commands.specs.CommandLine.{ArePolicies, AreStarts, nbdmirror, program};
ghost use Rattle.nm_commands.specs.CommandLine.{with_rules, words_rule};
ghost use Rattle.nm_commands.specs.OptionRows.{rule_of_row};
ghost use Rattle.nm_commands.specs.Settings.{AsksFor, IsRefusal, NamesTwo};

use crate::found_settings::settings_of;
use crate::option_row::OptionRow;
use crate::option_table::options;
use crate::server_settings::Settings;
use crate::values::is_named;
use crate::version::VERSION;
use clap::error::ErrorKind;
use clap::{Arg, ArgMatches, Command, Error};
use std::alloc::Global;
use std::convert::AsStr;

/// What is wrong with words that name both an address and a port for clients.
const ADDRESS_AND_PORT: &str =
    "the argument '--listen <ADDRESS>' cannot be used with '--port <PORT>'";

// The program, which tells its version.
fn program<'a>(alloc: Global) -> Result<Command<'a>, Error>
    ensures ok { IfOk result (λ command. app_of command ≡ program) }
    ensures memory { IfErr result (λ error. kind_of error ≡ OutOfMemory) }
{
    let program = Command::new(alloc, "nbdmirror")
        .version(VERSION)
        .bin_name("nbdmirror")?;
    Ok(program)
}

// The program, and the options of these rows.
fn with_options<'a>(
    alloc: Global,
    program: Command<'a>,
    rows: &'a [OptionRow],
) -> Result<Command<'a>, Error>
    ensures ok { IfOk result (λ command.
        app_of command ≡ with_rules (app_of program.entry) (map rule_of_row rows.entry.now)) }
    ensures memory { IfErr result (λ error. kind_of error ≡ OutOfMemory) }
{
    let mut command = program;
    for row in rows {
        command = command.arg(row.arg(alloc))?;
    }
    Ok(command)
}

// The words that name the legs' files.
fn legs<'a>(alloc: Global) -> Arg<'a>
    ensures rule { rule_of result ≡ words_rule (codes "leg") }
    ensures own { result.global ≡ false }
{
    Arg::new(alloc, "leg")
        .value_name("LEG")
        .num_args(1..)
        .required(true)
        .help("the legs' files, from leg 0 on, all of one length")
}

// The options and the legs, as clap is told of them.
fn command_line<'a>(alloc: Global) -> Result<Command<'a>, Error>
    ensures ok { IfOk result (λ command. (policies : _) × ArePolicies policies
        × ((starts : _) × AreStarts starts × (app_of command ≡ nbdmirror policies starts))) }
    ensures memory { IfErr result (λ error. kind_of error ≡ OutOfMemory) }
{
    let program = program(alloc)?;
    let with_options = with_options(alloc, program, options())?;
    let command = with_options.arg(legs(alloc))?;
    Ok(command)
}

// Whether the words have both an address and a port for clients.
fn names_two(matches: &ArgMatches<'_>) -> bool
    ensures { IsTrue result ↔ NamesTwo (rows_of (found_of matches.now)) }
{
    is_named(matches, "listen") && is_named(matches, "port")
}

// Refuses words that have both an address and a port for clients.
fn refuse_two(command: &mut Command<'_>, matches: &ArgMatches<'_>) -> Result<(), Error>
    ensures ok { IfOk result (λ _. NamesTwo (rows_of (found_of matches.now)) → ⊥) }
    ensures refused { IfErr result (λ error. (kind_of error ≡ OutOfMemory)
        ⊎ (NamesTwo (rows_of (found_of matches.now)) × (kind_of error ≡ ArgumentConflict))) }
{
    if !names_two(matches) {
        return Ok(());
    }
    let error = command.error(ErrorKind::ArgumentConflict, ADDRESS_AND_PORT)?;
    Err(error)
}

/// Reads a command line, whose first word is the program's name.
///
/// Each option has the value that the words give it, or its default, and there is at least one leg.
/// Words that clap finds nothing wrong with are refused only where there is no memory, or where
/// they name both an address and a port for clients. Where the words are no command line, or ask
/// for help or the version, the error has the text to show.
pub fn settings<'a, S: AsStr>(alloc: Global, words: &'a [S]) -> Result<Settings<'a>, Error>
    ensures asked { IfOk result (λ settings. AsksFor (map S.text words.entry.now) settings) }
    ensures some_leg { IfOk result (λ settings. 0 < length settings.mirror.legs.items) }
    ensures refused { IfErr result (IsRefusal (map S.text words.entry.now)) }
{
    let mut command = command_line(alloc)?;
    let matches = command.try_get_matches_from_mut(words)?;
    refuse_two(&mut command, &matches)?;
    let settings = settings_of(alloc, &matches)?;
    Ok(settings)
}
