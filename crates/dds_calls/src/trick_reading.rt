//! The position that the numbers of a board stand for.

ghost use Rattle.std.specs.Prelude.{◌≡◌, ◌+◌, ◌≤◌, ℕ, pos, length, MatchBool, MatchOption, MatchResult};
ghost use Rattle.cards.specs.declared.pack.Card.{Card};
ghost use Rattle.cards.specs.declared.pack.Rank.{Rank};
ghost use Rattle.cards.specs.declared.suits.Suit.{Suit};
ghost use Rattle.cards.specs.Pack.{rank_number, suit_number};
ghost use Rattle.dds_calls.specs.BoardPositions.{HasStrayTrick, IsNumbered};
ghost use Rattle.dds_calls.specs.Boards.{IsFirstFault};
ghost use Rattle.dds_calls.specs.Readings.{AreGivenTo, IsStart};

use crate::board_faults::BoardFault;
use crate::board_shapes::{Ask, BoardDeal};
use crate::denominations::denomination_of;
use crate::seats::seat_of;
use arrayvec::ArrayVec;
use cards::{Card, Rank, Seat, Suit, Trump};

/// The seat that leads to the current trick, and the denomination.
#[derive(Clone, Copy)]
pub struct Start {
    /// The seat that leads.
    pub leader: Seat,
    /// The denomination.
    pub trump: Trump,
}

/// Returns the leader and the denomination, or the first fault of the numbers that are asked.
pub(crate) fn start_of(board: &BoardDeal, ask: Ask) -> Result<Start, BoardFault>
    ensures { MatchResult result (IsStart board.now ask) (IsFirstFault board.now ask) }
{
    if ask.target < -1 {
        return Err(BoardFault::TargetTooLow);
    }
    if ask.target > 13 {
        return Err(BoardFault::TargetTooHigh);
    }
    if ask.solutions < 1 {
        return Err(BoardFault::SolutionsTooFew);
    }
    if ask.solutions > 3 {
        return Err(BoardFault::SolutionsTooMany);
    }
    if ask.mode < 0 {
        return Err(BoardFault::ModeTooLow);
    }
    if ask.mode > 2 {
        return Err(BoardFault::ModeTooHigh);
    }
    let Some(trump) = denomination_of(board.trump) else {
        return Err(BoardFault::NoDenomination);
    };
    let Some(leader) = seat_of(board.first) else {
        return Err(BoardFault::NoSeat);
    };
    Ok(Start { leader, trump })
}

/// Returns the suit with this number.
fn suit_of(number: i32) -> Option<Suit>
    ensures { MatchOption result
        ((suit : Suit) → pos (suit_number suit) ≡ number → ⊥)
        (λ suit. pos (suit_number suit) ≡ number) }
{
    match number {
        0 => Some(Suit::Spades),
        1 => Some(Suit::Hearts),
        2 => Some(Suit::Diamonds),
        3 => Some(Suit::Clubs),
        _ => None,
    }
}

/// Returns the rank with this number, 2 for the deuce.
fn rank_of(number: i32) -> Option<Rank>
    ensures { MatchOption result
        ((rank : Rank) → pos (rank_number rank + 2) ≡ number → ⊥)
        (λ rank. pos (rank_number rank + 2) ≡ number) }
{
    if number < 2 || number > 14 {
        return None;
    }
    match number {
        2 => Some(Rank::Two),
        3 => Some(Rank::Three),
        4 => Some(Rank::Four),
        5 => Some(Rank::Five),
        6 => Some(Rank::Six),
        7 => Some(Rank::Seven),
        8 => Some(Rank::Eight),
        9 => Some(Rank::Nine),
        10 => Some(Rank::Ten),
        11 => Some(Rank::Jack),
        12 => Some(Rank::Queen),
        13 => Some(Rank::King),
        _ => Some(Rank::Ace),
    }
}

/// Returns the card with these numbers.
pub(crate) fn card_of(given_suit: i32, given_rank: i32) -> Option<Card>
    ensures { MatchOption result
        ((card : Card) → IsNumbered card given_suit given_rank → ⊥)
        (λ card. IsNumbered card given_suit given_rank) }
{
    let Some(suit) = suit_of(given_suit) else {
        return None;
    };
    let Some(rank) = rank_of(given_rank) else {
        return None;
    };
    Some(Card { suit, rank })
}

/// Returns the cards that are given for the current trick, if its numbers are right.
pub(crate) fn cards_given(board: &BoardDeal) -> Option<ArrayVec<Card, 3>>
    ensures { MatchOption result (HasStrayTrick board.now) (λ cards. AreGivenTo board.now 3 cards.items) }
{
    let mut cards = ArrayVec::new();
    for place in 0..3 {
        let rank = board.current_trick_rank[place];
        if rank != 0 {
            let Some(card) = card_of(board.current_trick_suit[place], rank) else {
                return None;
            };
            if cards.len() < place {
                return None;
            }
            cards.push(card);
        }
    }
    Some(cards)
}
