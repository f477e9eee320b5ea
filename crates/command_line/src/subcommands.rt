//! The subcommands: what each asks for, how it is defined, what its words say, and what is done for it.

ghost use Rattle.std.specs.Prelude.{◌≡◌, map, option_map};
ghost use Rattle.clap.specs.Words.{subcommand_rows_of};
ghost use Rattle.command_words.specs.Rules.{shape_in};
ghost use Rattle.command_words.specs.Says.{IsRead};
ghost use Rattle.command_words.specs.declared.commands.Letters.{Letters};
ghost use Rattle.streams.specs.RunStreams.{devices_of};
ghost use Rattle.command_line.specs.Subcommands.{RunsSubcommand, SaysMatched, shapes};

use board_subcommands::audit::AuditOptions;
use board_subcommands::leads::LeadsOptions;
use board_subcommands::plays::{PlaysOptions, PlaysRun};
use board_subcommands::table::{KeptFiles, TableOptions, TableRun};
use board_subcommands::{audit, leads, plays, table};
use cards::{Sink, Source};
use certificate_graph::{CardSolver, Solver};
use clap::ArgMatches;
use command_words::{Definition, LayoutWords};
use deal_subcommands::card_tricks::{CardsOptions, CardsRun};
use deal_subcommands::play::PlayOptions;
use deal_subcommands::solve::SolveOptions;
use deal_subcommands::{card_tricks, check, line, plain, play, solve};
use farm::{Clock, Means};
use lease_book::Gate;
use play_claims::PlaySolver;
use run_ends::{NamedFiles, NewFiles, Output, Status};
use std::alloc::Global;
use std::sync::Wait;
use std::thread::Threads;
use streams::Streams;

/// What is asked of a run.
#[derive(Clone, Copy)]
pub enum Subcommand<'a> {
    /// The tables of the boards of the input.
    Table(TableOptions<'a>),
    /// The tables that evidence shows for the boards of the input.
    Audit(AuditOptions<'a>),
    /// The tricks that each opening lead of the input's boards leads to.
    Leads(LeadsOptions<'a>),
    /// The tricks after each card of the recorded plays of the input.
    Plays(PlaysOptions<'a>),
    /// An answer for a layout.
    Solve(SolveOptions<'a>),
    /// Whether the answer that is the input is right.
    Check(LayoutWords<'a>),
    /// The line of play in which both sides follow the certificates of the answer that is the input.
    Line(LayoutWords<'a>),
    /// A play of the cards against a certificate of an answer.
    Play(PlayOptions<'a>),
    /// The tricks that each card leads to which may be played.
    Cards(CardsOptions<'a>),
    /// The tricks of North and South in a layout.
    Plain(LayoutWords<'a>),
}

/// The subcommands, in the order of the program's help.
pub(crate) fn definitions() -> [Definition; 10]
    ensures { (letters : Letters) → map (shape_in letters) result ≡ shapes letters }
{
    [
        table::definition(),
        audit::definition(),
        leads::definition(),
        plays::definition(),
        solve::definition(),
        check::definition(),
        line::definition(),
        play::definition(),
        card_tricks::definition(),
        plain::definition(),
    ]
}

/// The subcommand that the words name, if the matches have its words. Without the options for the numbers of threads
/// there are as many as the processors given, 64 at most.
pub(crate) fn matched_subcommand<'a>(
    matches: &ArgMatches<'a>,
    processors: usize,
) -> Option<Subcommand<'a>>
    ensures { IsRead (SaysMatched (subcommand_rows_of matches.now) processors) result }
{
    let (name, said) = matches.subcommand()?;
    match name {
        "table" => table::options_of(said, processors).map(Subcommand::Table),
        "audit" => audit::options_of(said).map(Subcommand::Audit),
        "leads" => leads::options_of(said, processors).map(Subcommand::Leads),
        "plays" => plays::options_of(said, processors).map(Subcommand::Plays),
        "solve" => solve::options_of(said).map(Subcommand::Solve),
        "check" => check::options_of(said).map(Subcommand::Check),
        "line" => line::options_of(said).map(Subcommand::Line),
        "play" => play::options_of(said).map(Subcommand::Play),
        "cards" => card_tricks::options_of(said).map(Subcommand::Cards),
        "plain" => plain::options_of(said).map(Subcommand::Plain),
        _ => None,
    }
}

/// Does what is asked, and answers how the run ends. The files that evidence was written to are handed out: the one
/// that `table` has added to, and the one that `plays` or `cards` has made.
///
/// A fault is written on the error output, with a line that explains it. Then the output has nothing but what `play`
/// has written, and the beginning that a failed output has taken. The output hands on all of a page before anything is
/// said of it. After that, the error output has what was passed over of evidence, the notes, and what could not be read
/// or kept. Otherwise it stays as it was. If it fails, nobody is left to be told.
pub fn run_subcommand<
    P: Solver + CardSolver + PlaySolver + Sync,
    G: Gate + Sync,
    C: Clock + Sync,
    I: Source,
    O: Output,
    E: Sink,
    R: Threads + Wait + Sync + NamedFiles + KeptFiles + NewFiles,
>(
    rt: &R,
    alloc: Global,
    asked: Subcommand<'_>,
    means: &Means<'_, P, G, C>,
    streams: &mut Streams<I, O, E>,
) -> (Status, Option<R::Kept>, Option<R::Made>)
    ensures { RunsSubcommand
        (record {
          answers = P.may_find means.now.solver.now;
          cards = P.may_find_cards means.now.solver.now;
          plays = P.may_find_play means.now.solver.now;
        })
        (C.may_tell means.now.clock.now)
        (record { to_read = R.may_open rt.now; to_keep = R.may_keep rt.now; to_make = R.may_make rt.now }) asked.entry
        (record { kept = option_map R.Kept.contents result.1; made = option_map R.Made.state result.2 })
        (devices_of I.state O.state E.state streams.old) (devices_of I.state O.state E.state streams.new)
        (O.handed_on streams.new.output) result.0 }
{
    match asked {
        Subcommand::Table(options) => {
            let TableRun { status, file } = table::run(rt, alloc, options, means, streams);
            (status, file, None)
        }
        Subcommand::Audit(options) => (audit::run(rt, alloc, options, streams), None, None),
        Subcommand::Leads(options) => {
            (leads::run(rt, alloc, options, means, streams), None, None)
        }
        Subcommand::Plays(options) => {
            let PlaysRun { status, made } = plays::run(rt, alloc, options, means.solver, streams);
            (status, None, made)
        }
        Subcommand::Solve(options) => {
            (
                solve::run(alloc, options, means.solver, streams),
                None,
                None,
            )
        }
        Subcommand::Check(options) => (check::run(alloc, options, streams), None, None),
        Subcommand::Line(options) => (line::run(alloc, options, streams), None, None),
        Subcommand::Play(options) => (play::run(rt, alloc, options, streams), None, None),
        Subcommand::Cards(options) => {
            let CardsRun { status, made } = card_tricks::run(
                rt,
                alloc,
                options,
                means.solver,
                streams,
            );
            (status, None, made)
        }
        Subcommand::Plain(options) => (plain::run(options, streams), None, None),
    }
}
