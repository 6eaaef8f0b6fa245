//! The command that the words spell.

ghost use Rattle.std.specs.Prelude.{◌≡◌, IfOk, IfSome, List, Some, true, map};
ghost use Rattle.std.specs.String.{string_bytes};
ghost use Rattle.std.specs.List.{list_any};
ghost use Rattle.clap.specs.Words.{found_of, rows_of, subcommand_rows_of};
ghost use Rattle.oz_commands.specs.Commands.{Given, InRange, IsSpelled, OptionName, Spells, Verb, command_by, fit, value_in, workers};
ghost use Rattle.command_line.specs.Table.{IsFound, id_of, rows_for};
ghost use Rattle.command_line.specs.Reading.{command_of, is_odd, number_in};

use crate::commands::program;
use clap::ArgMatches;
use clap::error::ErrorKind;
use oz_commands::Command;
use std::alloc::{AllocError, Global};

/// Whether clap may take the word and no command has it: a bare `--`, or a word with a plus sign.
fn is_odd(word: &str) -> bool
    ensures { result ≡ is_odd word.now }
{
    word == "--" || word.as_bytes().contains(&b'+')
}

fn has_odd(words: &[String]) -> bool
    ensures { result ≡ list_any (λ w. is_odd (string_bytes w)) words.now }
{
    words.iter().any(|word| is_odd(word.as_str()))
}

/// The number that was given for the option of this name, if one was.
fn number(found: &ArgMatches, id: &str) -> Option<u64>
    ensures { (verb : Verb) (name : OptionName) (given : List Given) → id.now ≡ id_of name
        → rows_of (found_of found.now) ≡ rows_for given → fit verb given ≡ true
        → result ≡ number_in given name }
{
    found.get_one::<u64>(id)
}

/// How many workers the command has.
fn workers_in(found: &ArgMatches) -> u32
    requires { (verb : Verb) × (given : List Given) × (rows_of (found_of found.now) ≡ rows_for given) × (fit verb given ≡ true) }
    ensures { (verb : Verb) (given : List Given) → rows_of (found_of found.now) ≡ rows_for given → fit verb given ≡ true
        → result ≡ value_in given workers }
{
    number(found, "workers").unwrap_or(1) as u32
}

/// The command that clap found, with its numbers.
fn found_command(matches: &ArgMatches) -> Option<Command>
    requires { (verb : Verb) × (given : List Given) × IsFound (subcommand_rows_of matches.now) verb given }
    ensures { (verb : Verb) (given : List Given) → IsFound (subcommand_rows_of matches.now) verb given
        → result ≡ Some (command_by verb given) }
{
    let (name, found) = matches.subcommand()?;
    let budget = number(found, "budget").unwrap_or(1_000_000);
    match name {
        "all" => Some(Command::All {
            workers: workers_in(found),
            budget,
        }),
        "run" => Some(Command::Run { budget }),
        "best" => Some(Command::Best {
            workers: workers_in(found),
            budget,
        }),
        "kernel" => Some(Command::Kernel),
        _ => None,
    }
}

/// The command that the words spell, read from the left.
fn read(alloc: Global, words: &[String]) -> Result<Option<Command>, AllocError>
    ensures { IfOk result (λ command. command ≡ command_of (map string_bytes words.now)) }
{
    if has_odd(words) {
        return Ok(None);
    }
    match program(alloc)?.try_get_matches_from(words) {
        Ok(matches) => Ok(found_command(&matches)),
        Err(error) if error.kind() == ErrorKind::OutOfMemory => Err(AllocError),
        Err(_) => Ok(None),
    }
}

/// The command that the words spell, or nothing where they spell none. The words are those after the program's name.
/// An error is want of memory.
pub fn read_command(alloc: Global, words: &[String]) -> Result<Option<Command>, AllocError>
    ensures spelled { IfOk result (λ command. IsSpelled (map string_bytes words.now) command) }
    ensures only { IfOk result (λ command. IfSome command
        (λ c. (d : Command) → Spells (map string_bytes words.now) d → d ≡ c)) }
    ensures range { IfOk result (λ command. IfSome command InRange) }
{
    read(alloc, words)
}
