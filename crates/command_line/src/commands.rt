//! The commands and their options, as clap is told of them.

ghost use Rattle.std.specs.Prelude.{◌≡◌, IfOk, false};
ghost use Rattle.clap.specs.Words.{app_of, rule_of};
ghost use Rattle.clap.specs.declared.builder.Command.TheViews.{out-Command as fields_of};
ghost use Rattle.oz_commands.specs.Commands.{workers, budget};
ghost use Rattle.command_line.specs.Table.{all_app, best_app, kernel_app, option_rule, oz_app, oz_start, run_app};

use clap::{Arg, Command, value_parser};
use std::alloc::{AllocError, Global};

fn workers<'a>(alloc: Global) -> Arg<'a>
    ensures rule { rule_of result ≡ option_rule workers }
    ensures local { result.global ≡ false }
{
    Arg::new(alloc, "workers")
        .long("workers")
        .value_parser(value_parser!(u64).range(1..=64))
}

fn budget<'a>(alloc: Global) -> Arg<'a>
    ensures rule { rule_of result ≡ option_rule budget }
    ensures local { result.global ≡ false }
{
    Arg::new(alloc, "budget")
        .long("budget")
        .value_parser(value_parser!(u64).range(1..=281_474_976_710_656))
}

/// The command `all`.
fn all<'a>(alloc: Global) -> Result<Command<'a>, AllocError>
    ensures app { IfOk result (λ c. app_of c ≡ all_app) }
    ensures local { IfOk result (λ c. (fields_of c).has_globals ≡ false) }
{
    Command::new(alloc, "all")
        .arg(workers(alloc))?
        .arg(budget(alloc))
}

/// The command `run`.
fn run<'a>(alloc: Global) -> Result<Command<'a>, AllocError>
    ensures app { IfOk result (λ c. app_of c ≡ run_app) }
    ensures local { IfOk result (λ c. (fields_of c).has_globals ≡ false) }
{
    Command::new(alloc, "run").arg(budget(alloc))
}

/// The command `best`.
fn best<'a>(alloc: Global) -> Result<Command<'a>, AllocError>
    ensures app { IfOk result (λ c. app_of c ≡ best_app) }
    ensures local { IfOk result (λ c. (fields_of c).has_globals ≡ false) }
{
    Command::new(alloc, "best")
        .arg(workers(alloc))?
        .arg(budget(alloc))
}

/// The command `kernel`, which takes no options.
fn kernel<'a>(alloc: Global) -> Command<'a>
    ensures app { app_of result ≡ kernel_app }
    ensures local { (fields_of result).has_globals ≡ false }
{
    Command::new(alloc, "kernel")
}

/// The program without its commands. There is no help, and no version.
fn start<'a>(alloc: Global) -> Command<'a>
    ensures { app_of result ≡ oz_start }
{
    Command::new(alloc, "oz")
        .no_binary_name(true)
        .disable_help_flag(true)
        .disable_help_subcommand(true)
        .subcommand_required(true)
}

/// The program with its commands.
pub(crate) fn program<'a>(alloc: Global) -> Result<Command<'a>, AllocError>
    ensures { IfOk result (λ c. app_of c ≡ oz_app) }
{
    start(alloc)
        .subcommand(all(alloc)?)?
        .subcommand(run(alloc)?)?
        .subcommand(best(alloc)?)?
        .subcommand(kernel(alloc))
}
