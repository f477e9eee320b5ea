//! The tricks to which the cards of a board lead that may be played next.

ghost use Rattle.std.specs.Prelude.{◌≡◌, ◌≤ℤ◌, ◌<◌, pos, negsuc, length, MatchBool, MatchResult};
ghost use Rattle.dds_calls.specs.Boards.{IsFirstFault};
ghost use Rattle.dds_calls.specs.BoardAnswers.{AnswersBoard, AreTold, HaveGroups, IsOneAsked, IsToldOf};
ghost use Rattle.dds_calls.specs.Hands.{AreOfCards};
ghost use Rattle.dds_calls.specs.Lines.{AreChoices};
ghost use Rattle.dds_calls.specs.Readings.{IsRead};

use crate::board_faults::BoardFault;
use crate::board_shapes::{Ask, BoardDeal, FutureTricks};
use crate::codes::{NO_FAULT, STEPS};
use crate::hands::{count_of, words_of};
use crate::lines::lines_of;
use crate::rules::rule_of;
use crate::telling::{blank, written};
use crate::touching::{all_touch, are_whole};
use crate::trick_layouts::position_of;
use best_cards::{BestCards, certified_best};
use card_values::{CardValue, CardValues, TrickInProgress};
use cards::{Layout, Seat};
use certified_cards::certified_cards;
use partition_solver::{FreshBest, FreshPartition};
use std::alloc::Global;

/// Stands for any number of groups above 1.
const SOME_GROUPS: usize = 2;

/// Returns the lines of the values, with this many cards left in the hands and this many groups.
fn told_by(
    ask: Ask,
    left: u32,
    groups: usize,
    layout: &Layout,
    player: Seat,
    values: &[CardValue],
) -> FutureTricks
    requires low { negsuc 0 ≤ℤ ask.target }
    requires high { ask.target ≤ℤ pos 13 }
    requires some { 0 < length values.now }
    requires choices { AreChoices layout.now player values.now }
    ensures { AreTold ask left groups layout.now player values.now result }
{
    let rule = rule_of(ask, left, groups, values);
    let lines = lines_of(layout, player, values, rule.least());
    written(ask, rule, lines.as_slice())
}

/// Returns the answer to a call, from the values of all cards that may be played in the board's position.
fn told_in(board: &BoardDeal, ask: Ask, shown: &CardValues) -> FutureTricks
    requires { IsRead board.now ask shown.now.position }
    ensures { IsToldOf board.now ask result }
{
    shown.invariant();
    let trick = shown.trick();
    trick.invariant();
    let layout = trick.layout();
    let player = trick.turn();
    let values = shown.values();
    let left = count_of(&words_of(&board.remain_cards));
    let groups = lines_of(layout, player, values, 0);
    told_by(ask, left, groups.len(), layout, player, values)
}

/// Returns the answer to a call for one card, from cards that lead to the most tricks. Their groups have to be whole.
fn told_best(board: &BoardDeal, ask: Ask, shown: &BestCards) -> Result<FutureTricks, BoardFault>
    requires read { IsRead board.now ask shown.now.position }
    requires one { IsOneAsked board.now ask }
    requires groups { HaveGroups shown.now.position }
    ensures { MatchResult result (IsToldOf board.now ask) (IsFirstFault board.now ask) }
{
    shown.invariant();
    let trick = shown.trick();
    trick.invariant();
    let layout = trick.layout();
    let player = trick.turn();
    let values = shown.values();
    let legal = trick.legal();
    if !are_whole(layout, player, values, legal.as_slice()) {
        return Err(BoardFault::Unknown);
    }
    let left = count_of(&words_of(&board.remain_cards));
    Ok(told_by(ask, left, SOME_GROUPS, layout, player, values))
}

/// Returns the answer to a call, from the values of all cards that may be played.
fn found_all(
    alloc: Global,
    board: &BoardDeal,
    ask: Ask,
    trick: TrickInProgress,
) -> Result<FutureTricks, BoardFault>
    requires { IsRead board.now ask trick }
    ensures { MatchResult result (IsToldOf board.now ask) (IsFirstFault board.now ask) }
{
    let Ok(Some(found)) = certified_cards(alloc, trick, STEPS, &FreshPartition) else {
        return Err(BoardFault::Unknown);
    };
    Ok(told_in(board, ask, &found.values))
}

/// Returns the answer to a call for one card, by one search for cards that lead to the most tricks.
fn found_best(
    alloc: Global,
    board: &BoardDeal,
    ask: Ask,
    trick: TrickInProgress,
) -> Result<FutureTricks, BoardFault>
    requires read { IsRead board.now ask trick }
    requires one { IsOneAsked board.now ask }
    requires groups { HaveGroups trick }
    ensures { MatchResult result (IsToldOf board.now ask) (IsFirstFault board.now ask) }
{
    let Ok(Some(found)) = certified_best(alloc, trick, STEPS, &FreshBest) else {
        return Err(BoardFault::Unknown);
    };
    told_best(board, ask, &found.cards)
}

/// Returns whether one card is asked for, and it is not the last trick.
fn is_one_asked(board: &BoardDeal, ask: Ask) -> bool
    requires { AreOfCards board.now.remain_cards }
    ensures { MatchBool result (IsOneAsked board.now ask) (IsOneAsked board.now ask → ⊥) }
{
    ask.solutions == 1 && count_of(&words_of(&board.remain_cards)) > 4
}

/// Returns whether two cards that may be played don't touch.
fn have_groups(trick: &TrickInProgress) -> bool
    ensures { MatchBool result (HaveGroups trick.now) (HaveGroups trick.now → ⊥) }
{
    let legal = trick.legal();
    !all_touch(trick.layout(), trick.turn(), legal.as_slice())
}

/// Returns the answer to a call, or its first fault.
fn told_of(alloc: Global, board: &BoardDeal, ask: Ask) -> Result<FutureTricks, BoardFault>
    ensures { MatchResult result (IsToldOf board.now ask) (IsFirstFault board.now ask) }
{
    let trick = match position_of(board, ask) {
        Ok(trick) => trick,
        Err(fault) => return Err(fault),
    };
    if is_one_asked(board, ask) && have_groups(&trick) {
        return found_best(alloc, board, ask, trick);
    }
    found_all(alloc, board, ask, trick)
}

/// Solves a board in the middle of play, as DDS's `SolveBoard` does. Each line has a card that may be played next, the
/// lower cards of its group, and the tricks that the player's side takes from now on, the current trick among them.
/// Each number is the double-dummy value after the card, and was shown by the checker. `target`, `solutions` and `mode`
/// decide which lines come and what their scores are. With `solutions` 1 one search is made, and any one of the groups
/// that lead to the most tricks may come. Returns DDS's code: 1, or the code of the first fault. After a fault the
/// struct has zeros.
#[unsafe(no_mangle)]
pub extern "C" fn ddfarm_solve_board(
    alloc: Global,
    deal: &BoardDeal,
    target: i32,
    solutions: i32,
    mode: i32,
    tricks: &mut FutureTricks,
) -> i32
    ensures { AnswersBoard deal.now (record { target = target; solutions = solutions; mode = mode }) tricks.new result }
{
    let ask = Ask {
        target,
        solutions,
        mode,
    };
    match told_of(alloc, deal, ask) {
        Ok(told) => {
            *tricks = told;
            NO_FAULT
        }
        Err(fault) => {
            *tricks = blank(0);
            fault.code()
        }
    }
}
