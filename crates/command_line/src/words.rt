//! The words of a command line.

ghost use Rattle.std.specs.Prelude.{◌≡◌, IfOk, is_some, map};
ghost use Rattle.clap.specs.Words.{kind_of, subcommand_rows_of};
ghost use Rattle.command_line.specs.Words.{AreReadAs, exclude_each_other, refusal_kind};

use crate::commands::command;
use crate::subcommands::{Subcommand, matched_subcommand};
use clap::error::ErrorKind;
use clap::{ArgMatches, Error};
use command_words::{Letters, known_letters};
use std::alloc::{AllocError, Global};
use std::convert::AsStr;

/// The subcommand that the words ask for, the first of them being the program's name. Without the options for the
/// numbers of threads there are as many as the processors given, 64 at most.
///
/// The error is what `clap` has to say where they ask for none: the help that was asked for, why they are refused, or
/// that there is not the memory.
pub fn parse_arguments<'a, S: AsStr>(
    alloc: Global,
    words: &'a [S],
    processors: usize,
) -> Result<Subcommand<'a>, Error>
    ensures { AreReadAs (map S.text words.entry.now) processors result }
{
    let letters = known_letters();
    let matches = command(alloc, letters)?.try_get_matches_from(words)?;
    match matched_subcommand(&matches, processors) {
        Some(asked) => Ok(asked),
        None => Err(refusal(alloc, letters, excluded(&matches))?),
    }
}

/// What is said of words that `clap` takes and that ask for no subcommand. A rule of `clap` that two options exclude
/// each other has no exact contract, so that is said here, in the form of its errors.
fn refusal<'a>(
    alloc: Global,
    letters: Letters<'a>,
    excluded: Option<&str>,
) -> Result<Error, AllocError>
    ensures { IfOk result (λ error. kind_of error ≡ refusal_kind (is_some excluded.entry)) }
{
    let mut command = command(alloc, letters)?;
    match excluded {
        Some(text) => command.error(ErrorKind::ArgumentConflict, text),
        None => command.error(ErrorKind::MissingSubcommand, "no such command"),
    }
}

/// What is said of options that exclude each other, if the words have such.
fn excluded(matches: &ArgMatches<'_>) -> Option<&'static str>
    ensures { is_some result ≡ exclude_each_other (subcommand_rows_of matches.now) }
{
    let (_, said) = matches.subcommand()?;
    match board_subcommands::conflict(said) {
        Some(text) => Some(text),
        None => command_words::conflict(said),
    }
}
