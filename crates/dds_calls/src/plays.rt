//! The tricks of declarer's side after each card of a play.

ghost use Rattle.std.specs.Prelude.{◌≡◌, ◌≤◌, length, MatchResult};
ghost use Rattle.dds_calls.specs.Plays.{AnswersPlay, AreWritten, IsBegunWith, IsPlayFault, IsPlayToldOf};
ghost use Rattle.dds_calls.specs.Plays.{IsTraceRead, blank_play, count_told};

use crate::board_shapes::{Ask, BoardDeal};
use crate::codes::{NO_FAULT, STEPS};
use crate::play_faults::PlayFault;
use crate::play_shapes::{PlayTrace, SolvedPlay};
use crate::trick_layouts::position_of;
use crate::trick_reading::card_of;
use card_values::TrickInProgress;
use certified_plays::{PlayValues, certified_play};
use partition_solver::FreshPartition;
use play_values::RecordedPlay;
use std::alloc::Global;

/// A question that has no fault of its own.
const ANY_ASK: Ask = Ask {
    target: -1,
    solutions: 3,
    mode: 1,
};

/// A play, and how many of its cards the board gives.
#[derive(Drop)]
pub struct TraceRead {
    /// The cards of the current trick, and those of the trace that count.
    pub play: RecordedPlay,
    /// How many cards the current trick has.
    pub given: usize,
}

/// Returns how many cards of the trace count: those of the last trick don't.
fn count_told(trick: &TrickInProgress, trace: &PlayTrace) -> usize
    ensures { result ≡ count_told trick.now trace.now }
{
    let number = if trace.number < 0 {
        0
    } else {
        trace.number as usize
    };
    let before_last = 4 * (trick.layout().len() - 1);
    number.min(before_last).saturating_sub(trick.played().len())
}

/// Returns the play of the trick's cards. Declarer's side doesn't lead to the trick.
fn begun_with(trick: &TrickInProgress) -> RecordedPlay
    ensures { IsBegunWith trick.now result }
{
    trick.invariant();
    let declarers = trick.leader().side().other();
    let mut play = RecordedPlay::new(*trick.layout(), trick.leader(), trick.trump(), declarers);
    for card in trick.played() {
        if let Err(_fault) = play.play(*card) {
            unreachable!()
        }
    }
    play
}

/// Returns the play that the numbers stand for, or their first fault.
fn trace_of(board: &BoardDeal, trace: &PlayTrace) -> Result<TraceRead, PlayFault>
    ensures { MatchResult result (IsTraceRead board.now trace.now) (IsPlayFault board.now trace.now) }
{
    let trick = match position_of(board, ANY_ASK) {
        Ok(trick) => trick,
        Err(fault) => return Err(PlayFault::Board(fault)),
    };
    let mut play = begun_with(&trick);
    for place in 0..count_told(&trick, trace) {
        let Some(card) = card_of(trace.suit[place], trace.rank[place]) else {
            return Err(PlayFault::Trace);
        };
        if let Err(_fault) = play.play(card) {
            return Err(PlayFault::Trace);
        }
    }
    let given = trick.played().len();
    Ok(TraceRead { play, given })
}

/// Returns a struct without numbers.
fn blank() -> SolvedPlay
    ensures { result ≡ blank_play }
{
    SolvedPlay {
        number: 0,
        tricks: [0; 53],
    }
}

/// Writes the values after this many cards and after all later ones, if all are known.
fn written(values: &PlayValues, given: usize) -> Option<SolvedPlay>
    requires { given ≤ length values.now.play.position.history }
    ensures { AreWritten values.now given result }
{
    values.play().invariant();
    let end = values.play().cards().len() + 1;
    let mut told = blank();
    for count in given..end {
        let Some(value) = values.value(count) else {
            return None;
        };
        told.tricks[count - given] = i32::from(value);
    }
    told.number = (end - given) as i32;
    Some(told)
}

/// Returns the answer to a call, or its first fault.
fn told_of(alloc: Global, board: &BoardDeal, trace: &PlayTrace) -> Result<SolvedPlay, PlayFault>
    ensures { MatchResult result (IsPlayToldOf board.now trace.now) (IsPlayFault board.now trace.now) }
{
    let read = match trace_of(board, trace) {
        Ok(read) => read,
        Err(fault) => return Err(fault),
    };
    let Ok(found) = certified_play(alloc, read.play, STEPS, &FreshPartition) else {
        return Err(PlayFault::Unknown);
    };
    found.values.invariant();
    match written(&found.values, read.given) {
        Some(told) => Ok(told),
        None => Err(PlayFault::Unknown),
    }
}

/// Says what a play is worth, as DDS's `AnalysePlayBin` does: the tricks of declarer's side, which doesn't lead to the
/// board's current trick, in all tricks from that one on, before the first card of the trace and after each that
/// counts. Cards of the last trick don't count. Each number is the double-dummy value after the cards, and was shown by
/// the checker. Returns DDS's code: 1, or the code of the first fault. After a fault the struct has zeros.
#[unsafe(no_mangle)]
pub extern "C" fn ddfarm_analyse_play(
    alloc: Global,
    deal: &BoardDeal,
    trace: &PlayTrace,
    solved: &mut SolvedPlay,
) -> i32
    ensures { AnswersPlay deal.now trace.now solved.new result }
{
    match told_of(alloc, deal, trace) {
        Ok(told) => {
            *solved = told;
            NO_FAULT
        }
        Err(fault) => {
            *solved = blank();
            fault.code()
        }
    }
}
