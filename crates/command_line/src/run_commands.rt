//! What is done for the words of a command line.

ghost use Rattle.std.specs.Prelude.{IfSome, List, map, option_map, ℕ};
ghost use Rattle.streams.specs.Flushes.{inner_contents};
ghost use Rattle.streams.specs.RunStreams.{devices_of};
ghost use Rattle.command_line.specs.Commands.{AreLinesOf, EndsWords, ExitsBy, MeetsWords, ShowsHelp};
ghost use Rattle.command_line.specs.Commands.{RunsProgram, TellsRefusal};
ghost use Rattle.command_line.specs.Words.{AreReadAs};

use crate::faults::ProgramFault;
use crate::outputs::{close_output, show};
use crate::subcommands::{Subcommand, run_subcommand};
use crate::words::parse_arguments;
use board_subcommands::table::KeptFiles;
use cards::{Sink, Source, write_all};
use certificate_graph::{CardSolver, Solver};
use clap::Error;
use clap::error::ErrorKind;
use farm::{Clock, Means};
use lease_book::Gate;
use play_claims::PlaySolver;
use run_ends::{NamedFiles, NewFiles, Output, Status, tell};
use std::alloc::Global;
use std::convert::AsStr;
use std::fmt::Display;
use std::io::{BufWriter, Write};
use std::sync::Wait;
use std::thread::Threads;
use streams::{Streams, WriterSink};

/// What is printed of refused words if there is no memory for more.
const REFUSED: &str = "ddfarm: the command line is refused\n";

/// Does what the words ask for, the first of them being the program's name, and answers the exit status. If the words
/// don't say how many solvers or checkers, there are as many as the processors given, 64 at most.
///
/// What can't be done is reported on the error output, with nothing on the output but what `play` has written, and the
/// beginning that a failed output has taken; so is what was passed over of evidence, or couldn't be kept, behind a page
/// that was written. Else the error output is as it was. Where the error output fails, nobody is left to be told.
pub fn run_command<
    'a,
    S: AsStr,
    P: Solver + CardSolver + PlaySolver + Sync,
    G: Gate + Sync,
    C: Clock + Sync,
    I: Source,
    O: Output,
    E: Sink,
    R: Threads + Wait + Sync + NamedFiles + KeptFiles + NewFiles,
>(
    rt: &R,
    alloc: Global,
    words: &'a [S],
    processors: usize,
    means: &Means<'_, P, G, C>,
    streams: &mut Streams<I, O, E>,
) -> u8
    ensures { ExitsBy (MeetsWords
        (record {
          answers = P.may_find means.now.solver.now;
          cards = P.may_find_cards means.now.solver.now;
          plays = P.may_find_play means.now.solver.now;
        })
        (C.may_tell means.now.clock.now)
        (record { to_read = R.may_open rt.now; to_keep = R.may_keep rt.now; to_make = R.may_make rt.now })
        (map S.text words.entry.now) processors
        (devices_of I.state O.state E.state streams.old) (devices_of I.state O.state E.state streams.new)
        (O.handed_on streams.new.output)) result }
{
    run_read(
        rt,
        alloc,
        parse_arguments(alloc, words, processors),
        means,
        streams,
    )
}

/// Does what was read of the words of a command line, as [`run_command`] does.
fn run_read<
    P: Solver + CardSolver + PlaySolver + Sync,
    G: Gate + Sync,
    C: Clock + Sync,
    I: Source,
    O: Output,
    E: Sink,
    R: Threads + Wait + Sync + NamedFiles + KeptFiles + NewFiles,
>(
    rt: &R,
    alloc: Global,
    read: Result<Subcommand<'_>, Error>,
    means: &Means<'_, P, G, C>,
    streams: &mut Streams<I, O, E>,
) -> u8
    ensures { (words : List (List ℕ)) → (processors : ℕ) → AreReadAs words processors read.entry → ExitsBy (MeetsWords
        (record {
          answers = P.may_find means.now.solver.now;
          cards = P.may_find_cards means.now.solver.now;
          plays = P.may_find_play means.now.solver.now;
        })
        (C.may_tell means.now.clock.now)
        (record { to_read = R.may_open rt.now; to_keep = R.may_keep rt.now; to_make = R.may_make rt.now })
        words processors (devices_of I.state O.state E.state streams.old)
        (devices_of I.state O.state E.state streams.new) (O.handed_on streams.new.output)) result }
{
    match read {
        Ok(asked) => run_subcommand(rt, alloc, asked, means, streams).0.code(),
        Err(error) => {
            let kind = error.kind();
            tell_words(alloc, kind, error, streams).code()
        }
    }
}

/// Does what was read of the words of a command line, as [`run_command`] does. Then it flushes the output, as
/// [`close_output`] does, and answers the exit status.
pub fn run_program<
    P: Solver + CardSolver + PlaySolver + Sync,
    G: Gate + Sync,
    C: Clock + Sync,
    I: Source,
    W: Write + Drop,
    E: Sink,
    R: Threads + Wait + Sync + NamedFiles + KeptFiles + NewFiles,
>(
    rt: &R,
    alloc: Global,
    read: Result<Subcommand<'_>, Error>,
    means: &Means<'_, P, G, C>,
    streams: &mut Streams<I, WriterSink<BufWriter<W>>, E>,
) -> u8
    ensures { (words : List (List ℕ)) → (processors : ℕ) → AreReadAs words processors read.entry
        → RunsProgram (MeetsWords
        (record {
          answers = P.may_find means.now.solver.now;
          cards = P.may_find_cards means.now.solver.now;
          plays = P.may_find_play means.now.solver.now;
        })
        (C.may_tell means.now.clock.now)
        (record { to_read = R.may_open rt.now; to_keep = R.may_keep rt.now; to_make = R.may_make rt.now })
        words processors)
        (devices_of I.state ⟦<WriterSink<BufWriter<W>> as Sink>⟧.state E.state streams.old)
        (devices_of I.state ⟦<WriterSink<BufWriter<W>> as Sink>⟧.state E.state streams.new)
        (inner_contents W.contents streams.new.output) result }
{
    let code = run_read(rt, alloc, read, means, streams);
    close_output(code, streams)
}

/// Writes the help that was asked for, or tells why the words are refused, by what is said of an error of this kind.
fn tell_words<D: Display + Drop, I: Source, O: Sink, E: Sink>(
    alloc: Global,
    kind: ErrorKind,
    said: D,
    streams: &mut Streams<I, O, E>,
) -> Status
    ensures { EndsWords (D.output said) (devices_of I.state O.state E.state streams.old)
        (devices_of I.state O.state E.state streams.new) kind result }
{
    match kind {
        ErrorKind::OutOfMemory => tell(ProgramFault::OutOfMemory, None, &mut streams.errors),
        ErrorKind::DisplayHelp | ErrorKind::DisplayVersion => {
            show_help(lines_of(alloc, said), streams)
        }
        _ => tell_refusal(lines_of(alloc, said), &mut streams.errors),
    }
}

/// Writes the lines of the help that was asked for, if there was memory for them.
fn show_help<I: Source, O: Sink, E: Sink>(
    lines: Option<String>,
    streams: &mut Streams<I, O, E>,
) -> Status
    ensures { ShowsHelp (option_map (λ text. text.bytes.items) lines)
        (devices_of I.state O.state E.state streams.old) (devices_of I.state O.state E.state streams.new) result }
{
    match lines {
        Some(text) => show(text.as_bytes(), streams),
        None => tell(ProgramFault::OutOfMemory, None, &mut streams.errors),
    }
}

/// Tells the lines of why the words are refused, or, if there was no memory for them, that they are.
fn tell_refusal<E: Sink>(lines: Option<String>, errors: &mut E) -> Status
    ensures { TellsRefusal (option_map (λ text. text.bytes.items) lines) (E.state errors.old)
        (E.state errors.new) result }
{
    let _ = match lines {
        Some(text) => write_all(errors, text.as_bytes()),
        None => write_all(errors, REFUSED.as_bytes()),
    };
    Status::Refused
}

/// What is said of the words, in whole lines; `None` where there is no memory for it.
fn lines_of<D: Display + Drop>(alloc: Global, said: D) -> Option<String>
    ensures { IfSome result (λ text. AreLinesOf (D.output said) text.bytes.items) }
{
    let mut text = format!(in alloc; "{said}").ok()?;
    if !text.as_str().ends_with("\n") {
        text.push_str("\n").ok()?;
    }
    Some(text)
}
