//! The layout when the current trick began, and the play since.

ghost use Rattle.std.specs.Prelude.{◌≡◌, ◌≤◌, ℕ, pos, length, MatchOption, MatchResult, Contains};
ghost use Rattle.cards.specs.declared.pack.Card.{Card};
ghost use Rattle.cards.specs.declared.seats.Seat.{Seat};
ghost use Rattle.cards.specs.Hands.{HasBit};
ghost use Rattle.play_rules.specs.Legal.{IsLegalHistory};
ghost use Rattle.dds_calls.specs.Boards.{IsFirstFault};
ghost use Rattle.dds_calls.specs.Readings.{ArePutBack, IsBegun, IsRead, IsReading, opening_with};

use crate::board_faults::BoardFault;
use crate::board_shapes::{Ask, BoardDeal};
use crate::hands::{are_of_cards, words_of};
use crate::trick_counts::{are_held, have_card_twice, trick_size_of};
use crate::trick_reading::{Start, cards_given, start_of};
use arrayvec::ArrayVec;
use card_values::TrickInProgress;
use cards::{Card, Layout, Seat};

/// The numbers of a board, read.
#[derive(Drop)]
pub struct Reading {
    /// The leader and the denomination.
    pub start: Start,
    /// The cards still in the hands.
    pub words: [u64; 4],
    /// How many cards the current trick has.
    pub played: u32,
    /// Those of them that are given, in order.
    pub trick: ArrayVec<Card, 3>,
}

/// Reads the numbers of a board, or returns their first fault.
fn reading_of(board: &BoardDeal, ask: Ask) -> Result<Reading, BoardFault>
    ensures { MatchResult result (IsReading board.now ask) (IsFirstFault board.now ask) }
{
    let start = match start_of(board, ask) {
        Ok(start) => start,
        Err(fault) => return Err(fault),
    };
    let Some(mut trick) = cards_given(board) else {
        return Err(BoardFault::StrayNumber);
    };
    if !are_of_cards(&board.remain_cards) {
        return Err(BoardFault::StrayNumber);
    }
    let words = words_of(&board.remain_cards);
    let played = match trick_size_of(board, ask, start.leader, &words) {
        Ok(played) => played,
        Err(fault) => return Err(fault),
    };
    trick.truncate(played as usize);
    if are_held(&words, trick.as_slice()) {
        return Err(BoardFault::PlayedAndHeld);
    }
    if have_card_twice(&words) {
        return Err(BoardFault::CardTwice);
    }
    Ok(Reading {
        start,
        words,
        played,
        trick,
    })
}

/// Puts the cards of a trick back into the hands from which they were played, and returns these hands.
fn put_back(mut words: [u64; 4], leader: Seat, cards: &[Card]) -> [u64; 4]
    requires few { length cards.now ≤ 3 }
    requires four { length words ≡ 4 }
    requires gone { (card : Card) → Contains cards.now card → (seat : Seat) → HasBit words seat card → ⊥ }
    ensures { ArePutBack words leader cards.now result }
{
    let mut seat = leader;
    for card in cards {
        words[seat.number()] |= 1 << card.number();
        seat = seat.next();
    }
    words
}

/// Returns the trick after these cards, if they may be played in turn.
fn begun(layout: Layout, start: Start, cards: &[Card]) -> Option<TrickInProgress>
    requires { length cards.now ≤ 3 }
    ensures { MatchOption result
        (IsLegalHistory (opening_with layout start) cards.now → ⊥)
        (IsBegun layout start cards.now) }
{
    layout.invariant();
    let mut trick = TrickInProgress::new(layout, start.leader, start.trump);
    for card in cards {
        if let Err(_fault) = trick.play(*card) {
            return None;
        }
    }
    trick.invariant();
    Some(trick)
}

/// Returns the position of a board, or the first fault of the call.
pub(crate) fn position_of(board: &BoardDeal, ask: Ask) -> Result<TrickInProgress, BoardFault>
    ensures { MatchResult result (IsRead board.now ask) (IsFirstFault board.now ask) }
{
    let reading = match reading_of(board, ask) {
        Ok(reading) => reading,
        Err(fault) => return Err(fault),
    };
    let cards = reading.trick.as_slice();
    if cards.len() < reading.played as usize {
        return Err(BoardFault::NoPosition);
    }
    let words = put_back(reading.words, reading.start.leader, cards);
    let Ok(layout) = Layout::from_hands(words) else {
        return Err(BoardFault::NoPosition);
    };
    match begun(layout, reading.start, cards) {
        Some(trick) => Ok(trick),
        None => Err(BoardFault::NoPosition),
    }
}
