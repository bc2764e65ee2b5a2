//! The command that `clap` sees: a word, further words, and five options.

ghost use Rattle.std.specs.Prelude.{◌≡◌, IfOk, false};
ghost use Rattle.clap.specs.Words.{app_of, rule_of};
ghost use Rattle.command_words.specs.Given.{balm, option_named, the_command, the_names};

use clap::{Arg, ArgAction, Command};
use std::alloc::{AllocError, Global};

/// A word, one or more further words, and the five options, each with a text.
pub(crate) fn balm_command<'a>(alloc: Global) -> Result<Command<'a>, AllocError>
    ensures { IfOk result (λ command. app_of command ≡ balm) }
{
    let command = Command::new(alloc, "balm").no_binary_name(true);
    let command = command.arg(command_word(alloc))?;
    let command = command.arg(further_words(alloc))?;
    let command = command.arg(option(alloc, "in"))?;
    let command = command.arg(option(alloc, "out"))?;
    let command = command.arg(option(alloc, "mode"))?;
    let command = command.arg(option(alloc, "class"))?;
    command.arg(option(alloc, "limit"))
}

/// The first word.
fn command_word<'a>(alloc: Global) -> Arg<'a>
    ensures rule { rule_of result ≡ the_command }
    ensures here { result.global ≡ false }
{
    Arg::new(alloc, "command")
        .required(true)
        .action(ArgAction::Set)
}

/// The words behind it, one or more.
fn further_words<'a>(alloc: Global) -> Arg<'a>
    ensures rule { rule_of result ≡ the_names }
    ensures here { result.global ≡ false }
{
    Arg::new(alloc, "names")
        .required(true)
        .num_args(1..)
        .action(ArgAction::Append)
}

/// An option `--NAME TEXT`, which may come once.
fn option<'a>(alloc: Global, name: &'a str) -> Arg<'a>
    ensures rule { rule_of result ≡ option_named name.entry.now }
    ensures here { result.global ≡ false }
{
    Arg::new(alloc, name).long(name).action(ArgAction::Set)
}
