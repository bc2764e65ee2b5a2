//! What the words give.

ghost use Rattle.std.specs.Prelude.{◌≡◌, IfOk, IfSome, IfNone, map};
ghost use Rattle.clap.specs.Words.{found_of, rows_of};
ghost use Rattle.command_words.specs.Given.{AreTaken, Give, given_in, rows_for, values_in};
ghost use Rattle.command_words.specs.Found.{given_of};

use crate::args::Args;
use crate::command::balm_command;
use clap::ArgMatches;
use clap::error::ErrorKind;
use std::alloc::{AllocError, Global};

/// What the words give.
#[derive(Drop)]
pub struct Given<'a> {
    /// The first word that is no option.
    pub command: &'a str,
    /// The words behind it that are no options.
    pub names: Vec<&'a str>,
    /// The text of `--in`, and so on.
    pub ins: Option<&'a str>,
    pub outs: Option<&'a str>,
    pub mode: Option<&'a str>,
    pub class: Option<&'a str>,
    pub limit: Option<&'a str>,
}

/// What the words give, where clap takes them (`None` where it doesn't, a request for help included).
pub fn given_by<'a>(alloc: Global, words: &'a Args) -> Result<Option<Given<'a>>, AllocError>
    ensures some { IfOk result (λ found. IfSome found (λ given. Give words.now (given_of given))) }
    ensures none { IfOk result (λ found. IfNone found (AreTaken words.now → ⊥)) }
{
    match parsed(alloc, words)? {
        Some(matches) => Ok(Some(given_in(alloc, &matches)?)),
        None => Ok(None),
    }
}

/// What clap finds in the words, where it takes them.
fn parsed<'a>(alloc: Global, words: &'a Args) -> Result<Option<ArgMatches<'a>>, AllocError>
    ensures taken { IfOk result (λ found. IfSome found (λ matches. AreTaken words.now)) }
    ensures rows { IfOk result (λ found. IfSome found (λ matches. rows_of (found_of matches) ≡ rows_for words.now)) }
    ensures none { IfOk result (λ found. IfNone found (AreTaken words.now → ⊥)) }
{
    let command = balm_command(alloc)?;
    match command.try_get_matches_from(words.as_slice()) {
        Ok(matches) => Ok(Some(matches)),
        Err(error) => match error.kind() {
            ErrorKind::OutOfMemory => Err(AllocError),
            _ => Ok(None),
        },
    }
}

/// What the matches give.
fn given_in<'a>(alloc: Global, matches: &ArgMatches<'a>) -> Result<Given<'a>, AllocError>
    ensures { IfOk result (λ given. given_of given ≡ given_in (rows_of (found_of matches.now))) }
{
    let names = values(alloc, matches, "names")?;
    Ok(Given {
        command: matches.get_str("command").unwrap_or(""),
        names,
        ins: matches.get_str("in"),
        outs: matches.get_str("out"),
        mode: matches.get_str("mode"),
        class: matches.get_str("class"),
        limit: matches.get_str("limit"),
    })
}

/// All values of an argument.
fn values<'a>(
    alloc: Global,
    matches: &ArgMatches<'a>,
    name: &str,
) -> Result<Vec<&'a str>, AllocError>
    ensures { IfOk result (λ values. map (λ value. value.now) values.items ≡ values_in name.now (rows_of (found_of matches.now))) }
{
    match matches.get_strs(name) {
        Some(values) => Vec::from_slice(alloc, values),
        None => Ok(Vec::new(alloc)),
    }
}
