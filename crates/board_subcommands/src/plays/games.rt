//! The plays of the games of the input, or of a file that is named.

ghost use Rattle.std.specs.Prelude.{◌≡◌};
ghost use Rattle.streams.specs.RunStreams.{devices};
ghost use Rattle.play_pages.specs.Making.{MakesPlays};
ghost use Rattle.board_subcommands.specs.Plays.Forms.{text_of};
ghost use Rattle.board_subcommands.specs.Plays.Games.{PlaysOn, outcome, query_of};

use crate::faults::BoardFault;
use crate::plays::options::PlaysOptions;
use cards::{Sink, Source};
use command_words::Proof;
use play_claims::PlaySolver;
use play_pages::{PlayQuery, PlaysFault, PlaysMade, PlaysSettings, make_plays};
use run_ends::{FileFault, NamedFiles};
use std::alloc::Global;
use std::thread::Threads;

/// What came of plays, if this is the fault of a source that fails.
fn outcome(
    source_fault: BoardFault,
    made: Result<PlaysMade, PlaysFault>,
) -> Result<PlaysMade, BoardFault>
    ensures { result ≡ outcome source_fault made }
{
    match made {
        Ok(made) => Ok(made),
        Err(PlaysFault::OutOfMemory) => Err(BoardFault::OutOfMemory),
        Err(PlaysFault::Read) => Err(source_fault),
        Err(PlaysFault::Write) => Err(BoardFault::Write),
    }
}

/// What is asked of the search for each play.
fn query_of(options: PlaysOptions<'_>) -> PlayQuery
    ensures { result ≡ query_of options.entry }
{
    PlayQuery {
        budget: options.budget,
        keeps: matches!(options.proof, Proof::Kept(_)),
    }
}

/// Writes the plays of the games of the input.
fn write_plays<P: PlaySolver + Sync, I: Source, O: Sink, R: Threads + Sync>(
    rt: &R,
    alloc: Global,
    options: PlaysOptions<'_>,
    solver: &P,
    input: &mut I,
    output: &mut O,
) -> Result<PlaysMade, PlaysFault>
    ensures { MakesPlays (P.may_find_play solver.now) (query_of options.entry) (text_of options.entry.form)
        (devices (I.state input.old) (O.state output.old)) (devices (I.state input.new) (O.state output.new)) result }
{
    let settings = PlaysSettings {
        solvers: options.solvers,
        query: query_of(options),
        writer: &options.form,
    };
    make_plays(rt, alloc, input, output, settings, solver)
}

/// Writes the plays of the games of the file that is named, or of the input. The input is not read if a file is named.
/// If the file can't be opened, nothing else is.
pub(crate) fn play_games<P: PlaySolver + Sync, I: Source, O: Sink, R: Threads + Sync + NamedFiles>(
    rt: &R,
    alloc: Global,
    options: PlaysOptions<'_>,
    solver: &P,
    input: &mut I,
    output: &mut O,
) -> Result<PlaysMade, BoardFault>
    ensures { PlaysOn (P.may_find_play solver.now) (R.may_open rt.now) options.entry options.entry.games
        (devices (I.state input.old) (O.state output.old)) (devices (I.state input.new) (O.state output.new)) result }
{
    let Some(name) = options.games else {
        let made = write_plays(rt, alloc, options, solver, input, output);
        return outcome(BoardFault::Read, made);
    };
    match rt.open_named(name) {
        Ok(mut file) => {
            let made = write_plays(rt, alloc, options, solver, &mut file, output);
            outcome(BoardFault::Boards(FileFault::Read), made)
        }
        Err(why) => Err(BoardFault::Boards(FileFault::Open(why))),
    }
}
