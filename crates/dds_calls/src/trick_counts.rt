//! The sizes of the hands when the current trick began, and cards in more than one place.

ghost use Rattle.std.specs.Prelude.{◌≡◌, ◌≢◌, ◌≤◌, ◌<◌, ℕ, pos, length, MatchBool, MatchOption, MatchResult, Contains};
ghost use Rattle.cards.specs.declared.pack.Card.{Card};
ghost use Rattle.cards.specs.declared.seats.Seat.{Seat};
ghost use Rattle.cards.specs.declared.seats.Seat.TheVariants.{North};
ghost use Rattle.cards.specs.Seats.{seat_number};
ghost use Rattle.cards.specs.Hands.{HasBit, HaveCardTwice, HaveCardsAlone};
ghost use Rattle.dds_calls.specs.Hands.{words_of};
ghost use Rattle.dds_calls.specs.BoardPositions.{size_with};
ghost use Rattle.dds_calls.specs.Boards.{IsClearTo, IsFirstFault};
ghost use Rattle.dds_calls.specs.Readings.{AreApart, IsTrickSize};

use crate::board_faults::BoardFault;
use crate::board_shapes::{Ask, BoardDeal};
use crate::hands::{PACK, count_of};
use cards::{Card, Seat, holder_by_words};

/// Returns how many cards a seat had when the trick began, to which this many cards were played.
fn size_before(words: &[u64; 4], leader: Seat, played: u32, seat: Seat) -> u32
    ensures { result ≡ size_with words.now (pos (seat_number leader)) played seat }
{
    let size = words[seat.number()].count_ones();
    if ((seat.number() + 4 - leader.number()) % 4) < played as usize {
        size + 1
    } else {
        size
    }
}

/// Returns whether the hands had one size when the trick began.
fn are_equal(words: &[u64; 4], leader: Seat, played: u32) -> bool
    ensures { MatchBool result
        ((seat : Seat) → size_with words.now (pos (seat_number leader)) played seat
        ≡ size_with words.now (pos (seat_number leader)) played North)
        ((seat : Seat) × (size_with words.now (pos (seat_number leader)) played seat
        ≢ size_with words.now (pos (seat_number leader)) played North)) }
{
    let size = size_before(words, leader, played, Seat::North);
    size_before(words, leader, played, Seat::East) == size
        && size_before(words, leader, played, Seat::South) == size
        && size_before(words, leader, played, Seat::West) == size
}

/// Returns how many cards the current trick has, or the first fault that the numbers of cards have.
pub(crate) fn trick_size_of(
    board: &BoardDeal,
    ask: Ask,
    leader: Seat,
    words: &[u64; 4],
) -> Result<u32, BoardFault>
    requires words { words.now ≡ words_of board.now.remain_cards }
    requires leader { pos (seat_number leader) ≡ board.now.first }
    requires clear { IsClearTo 9 board.now ask }
    ensures { MatchResult result (IsTrickSize board.now ask) (IsFirstFault board.now ask) }
{
    let count = count_of(words);
    if count == 0 {
        return Err(BoardFault::NoCards);
    }
    if count > PACK {
        return Err(BoardFault::TooManyCards);
    }
    if (((count + 3) / 4) as i32) < ask.target {
        return Err(BoardFault::TargetTooFar);
    }
    let played = (PACK - count) % 4;
    if !are_equal(words, leader, played) {
        return Err(BoardFault::Unequal);
    }
    Ok(played)
}

/// Returns whether one of the cards is in a hand.
pub(crate) fn are_held(words: &[u64; 4], cards: &[Card]) -> bool
    ensures { MatchBool result
        ((card : Card) × Contains cards.now card × (seat : Seat) × HasBit words.now seat card)
        ((card : Card) → Contains cards.now card → (seat : Seat) → HasBit words.now seat card → ⊥) }
{
    for card in cards {
        if let Some(_holder) = holder_by_words(words, card.number()) {
            return true;
        }
    }
    false
}

/// Returns whether a card is in two hands.
pub(crate) fn have_card_twice(words: &[u64; 4]) -> bool
    requires { HaveCardsAlone words.now }
    ensures { MatchBool result (HaveCardTwice words.now) (AreApart words.now) }
{
    let [north, east, south, west] = *words;
    let shared = north & east
        | north & south
        | north & west
        | east & south
        | east & west
        | south & west;
    shared != 0
}
