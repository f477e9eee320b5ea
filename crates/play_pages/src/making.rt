//! From the text of games to the page of their plays.

ghost use Rattle.std.specs.Prelude.{◌≡◌, IfOk};
ghost use Rattle.streams.specs.RunStreams.{devices};
ghost use Rattle.recorded_plays.specs.Games.{HasPlays};
ghost use Rattle.play_pages.specs.Making.{MakesPlays, Reports};
ghost use Rattle.play_pages.specs.Tasks.{AreLegal, lines_in};

use crate::counts::{count_cut, count_illegal, count_lacking, count_missing, count_passed_over};
use crate::faults::PlaysFault;
use crate::page_tables::PageTable;
use crate::queries::PlayQuery;
use crate::sections::evidence_of;
use crate::threads::find_all;
use crate::writers::PlaysWriter;
use cards::{OutOfMemory, Sink, Source};
use play_claims::PlaySolver;
use recorded_plays::{RecordedGame, read_plays};
use std::alloc::{AllocError, Global};
use std::thread::Threads;
use streams::read_all;

/// How the numbers are looked for, and what writes the page.
#[derive(Drop)]
pub struct PlaysSettings<'a, W> {
    /// How many threads look for numbers.
    pub solvers: usize,
    /// What is asked of the search for each play.
    pub query: PlayQuery,
    /// What writes the page.
    pub writer: &'a W,
}

/// What was written, and what was not.
#[derive(Clone, Copy, Debug, PartialEq, Eq)]
pub struct PlaysReport {
    /// How many games there are.
    pub games: usize,
    /// How many numbers aren't known: for each play the one before its first card, and one after each card.
    pub missing: usize,
    /// How many games were passed over, because they were passed out or have no play.
    pub passed_over: usize,
    /// How many games with a play have no deal, no contract or no declarer.
    pub lacking: usize,
    /// How many plays end before a card that isn't legal.
    pub illegal: usize,
    /// How many plays end at an irregularity, or at a word that is no card.
    pub cut: usize,
}

/// What was made of a text.
#[derive(Drop)]
pub struct PlaysMade {
    /// What was written, and what was not.
    pub report: PlaysReport,
    /// The sections of the plays whose evidence is kept, one after the other, unless memory ran out for them.
    pub evidence: Result<Vec<u8>, OutOfMemory>,
}

/// Returns the games of a text. The cards of their plays are legal.
fn take_games(alloc: Global, text: &[u8]) -> Result<Vec<RecordedGame<'_>>, AllocError>
    ensures games { IfOk result (λ games. HasPlays text.now games.items) }
    ensures legal { IfOk result (λ games. AreLegal games.items) }
{
    read_plays(alloc, text)
}

/// Counts what is missing and what was passed over.
fn report_of(games: &[RecordedGame<'_>], table: &PageTable) -> PlaysReport
    ensures { Reports games.now (lines_in table.now) result }
{
    PlaysReport {
        games: games.len(),
        missing: count_missing(games, table),
        passed_over: count_passed_over(games),
        lacking: count_lacking(games),
        illegal: count_illegal(games),
        cut: count_cut(games),
    }
}

/// Reads the games of a PBN text to its end, asks the solver for the numbers of each recorded play, with the budget,
/// and has the writer write the page of the games. Returns how many numbers are missing, how many games were passed
/// over or end early with a fault, and the evidence that is kept.
///
/// The solver may answer anything. A number that is written is the number of tricks that declarer's side takes in all,
/// double dummy. It is `unknown` only if the solver's answer does not show it: memory ran out in the call, or the claim
/// for it is missing or false; or the evidence is to be kept, and the answer makes no section. The page does not depend
/// on the number of threads, if the solver's answers don't. If there is a fault other than a failed sink, nothing was
/// written.
pub fn make_plays<R: Threads + Sync, I: Source, O: Sink, S: PlaySolver + Sync, W: PlaysWriter>(
    rt: &R,
    alloc: Global,
    input: &mut I,
    output: &mut O,
    options: PlaysSettings<'_, W>,
    solver: &S,
) -> Result<PlaysMade, PlaysFault>
    ensures { MakesPlays (S.may_find_play solver.now) options.entry.query (W.text options.entry.writer.now)
        (devices (I.state input.old) (O.state output.old)) (devices (I.state input.new) (O.state output.new)) result }
{
    let text = read_all(alloc, input)?;
    let games = take_games(alloc, text.as_slice())?;
    let PlaysSettings {
        solvers,
        query,
        writer,
    } = options;
    let table = find_all(rt, alloc, games.as_slice(), solvers, query, solver)?;
    writer.write(output, games.as_slice(), &table)?;
    Ok(PlaysMade {
        report: report_of(games.as_slice(), &table),
        evidence: evidence_of(alloc, games.as_slice(), &table),
    })
}
