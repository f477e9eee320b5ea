//! What `plays` does.

ghost use Rattle.std.specs.Prelude.{◌≡◌, option_map};
ghost use Rattle.streams.specs.RunStreams.{devices, devices_of};
ghost use Rattle.board_subcommands.specs.Plays.Runs.{DoesPlays, RunsPlays, dropped, file_of, is_audit};

use crate::ends::FileNames;
use crate::faults::BoardFault;
use crate::plays::audit::audit_plays;
use crate::plays::ends::{PlaysOutcome, end_plays};
use crate::plays::games::play_games;
use crate::plays::kept::{Ended, keep_made};
use crate::plays::options::PlaysOptions;
use cards::{Sink, Source};
use command_words::Proof;
use evidence::Damage;
use play_claims::PlaySolver;
use play_pages::PlaysMade;
use run_ends::{NamedFiles, NewFiles, Output, Status};
use std::alloc::Global;
use std::thread::Threads;
use streams::Streams;

/// How a run ends, and the file that it made for evidence, if it made one.
#[derive(Drop)]
pub struct PlaysRun<F> {
    pub status: Status,
    pub made: Option<F>,
}

/// What came of plays whose evidence is dropped.
fn dropped(made: Result<PlaysMade, BoardFault>) -> Result<PlaysOutcome, BoardFault>
    ensures { result ≡ dropped made }
{
    match made {
        Ok(made) => Ok(PlaysOutcome {
            report: made.report,
            damage: Damage::none(),
            kept: Ok(()),
        }),
        Err(fault) => Err(fault),
    }
}

/// Whether the numbers come from evidence.
fn is_audit(proof: Proof<'_>) -> bool
    ensures { result ≡ is_audit proof.entry }
{
    matches!(proof, Proof::Audited(_))
}

/// The name of the file with the evidence, if there is one.
fn file_of(proof: Proof<'_>) -> Option<&str>
    ensures { result ≡ file_of proof.entry }
{
    match proof {
        Proof::Dropped => None,
        Proof::Kept(name) | Proof::Audited(name) => Some(name),
    }
}

/// Writes the plays of the games, as the options ask for them.
fn do_plays<P: PlaySolver + Sync, I: Source, O: Sink, R: Threads + Sync + NamedFiles + NewFiles>(
    rt: &R,
    alloc: Global,
    options: PlaysOptions<'_>,
    solver: &P,
    input: &mut I,
    output: &mut O,
) -> Ended<R::Made>
    ensures { DoesPlays (P.may_find_play solver.now) (R.may_open rt.now) (R.may_make rt.now) options.entry
        options.entry.proof (devices (I.state input.old) (O.state output.old))
        (devices (I.state input.new) (O.state output.new)) (option_map R.Made.state result.made) result.answer }
{
    match options.proof {
        Proof::Dropped => Ended {
            answer: dropped(play_games(rt, alloc, options, solver, input, output)),
            made: None,
        },
        Proof::Kept(name) => {
            let made = play_games(rt, alloc, options, solver, input, output);
            keep_made(rt, name, made)
        }
        Proof::Audited(name) => Ended {
            answer: audit_plays(rt, alloc, options, name, input, output),
            made: None,
        },
    }
}

/// Writes the plays of the games that the words name, as they ask for them, or tells why it can't, and answers how the
/// run ends, with the file that it made.
pub fn run<
    P: PlaySolver + Sync,
    I: Source,
    O: Output,
    E: Sink,
    R: Threads + Sync + NamedFiles + NewFiles,
>(
    rt: &R,
    alloc: Global,
    options: PlaysOptions<'_>,
    solver: &P,
    streams: &mut Streams<I, O, E>,
) -> PlaysRun<R::Made>
    ensures { RunsPlays (P.may_find_play solver.now) (R.may_open rt.now) (R.may_make rt.now) options.entry
        (devices_of I.state O.state E.state streams.old) (devices_of I.state O.state E.state streams.new)
        (option_map R.Made.state result.made) (O.handed_on streams.new.output) result.status }
{
    let (input, output) = (&mut streams.input, &mut streams.output);
    let Ended { answer, made } = do_plays(rt, alloc, options, solver, input, output);
    let names = FileNames {
        boards: options.games,
        evidence: file_of(options.proof),
    };
    let status = end_plays(
        answer,
        names,
        is_audit(options.proof),
        output,
        &mut streams.errors,
    );
    PlaysRun { status, made }
}
