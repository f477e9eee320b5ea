//! Who may win a trick.

ghost use Rattle.std.specs.Prelude.{◌≡◌, ◌↔◌, IsTrue, Some};
ghost use Rattle.std.specs.List.{list_any};
ghost use Rattle.cards.specs.declared.seats.Seat.{Seat};
ghost use Rattle.pattern_step.specs.declared.pat_cards.PatCard.TheVariants.{Low};
ghost use Rattle.pattern_step.specs.PatCards.{is_of_suit};
ghost use Rattle.pattern_step.specs.SeatSets.{is_in};
ghost use Rattle.pattern_step.specs.Tricks.{played_by, winning_suit, MayWin};
ghost use Rattle.pattern_step.specs.HighestTops.{IsHighestTop, lesser};

use crate::pat_cards::PatCard;
use crate::seat_sets::SeatSet;
use cards::{Seat, Suit, Trump};
use patterns::Pattern;

/// The possible winners of four pattern cards that were played clockwise from the leader. If a top of the winning
/// suit was played, the owner of the one with the least place wins; else every seat that played a low card of
/// that suit may win. The winning suit is trump if a trump was played, else the suit led (Laws 44E and 44F).
pub fn winners(pattern: &Pattern, trump: Trump, leader: Seat, cards: &[PatCard; 4]) -> SeatSet
    ensures { (seat : Seat) → IsTrue (is_in result seat) ↔ MayWin pattern.now trump leader cards.now seat }
{
    let suit = winning_suit(trump, cards);
    match highest(cards, suit) {
        Some(place) => alone(pattern.owner(suit, place as usize)),
        None => low_players(leader, cards, suit),
    }
}

/// The set of this seat, if there is one.
fn alone(seat: Option<Seat>) -> SeatSet
    ensures { (other : Seat) → IsTrue (is_in result other) ↔ (seat ≡ Some other) }
{
    match seat {
        Some(owner) => SeatSet::new().with(owner),
        None => SeatSet::new(),
    }
}

/// The seats that played a low card of the suit.
fn low_players(leader: Seat, cards: &[PatCard; 4], suit: Suit) -> SeatSet
    ensures { (seat : Seat) → IsTrue (is_in result seat) ↔ (played_by leader cards.now seat ≡ Low suit) }
{
    SeatSet::of([
        played_by(leader, cards, Seat::North).is_low_of(suit),
        played_by(leader, cards, Seat::East).is_low_of(suit),
        played_by(leader, cards, Seat::South).is_low_of(suit),
        played_by(leader, cards, Seat::West).is_low_of(suit),
    ])
}

/// Whether a card of the suit was played.
fn is_played(cards: &[PatCard; 4], suit: Suit) -> bool
    ensures { result ≡ list_any (is_of_suit suit) cards.now }
{
    cards.iter().any(|card| card.is_of(suit))
}

/// The suit that decides who wins.
fn winning_suit(trump: Trump, cards: &[PatCard; 4]) -> Suit
    ensures { result ≡ winning_suit trump cards.now }
{
    match trump {
        Trump::Suit(suit) if is_played(cards, suit) => suit,
        _ => cards[0].suit(),
    }
}

/// The least place of a top of the suit that was played, if one was.
fn highest(cards: &[PatCard; 4], suit: Suit) -> Option<u8>
    ensures { IsHighestTop cards.now suit result }
{
    let mut least = None;
    for card in cards {
        if let Some(place) = card.top_of(suit) {
            least = Some(lesser(least, place));
        }
    }
    least
}

/// The lesser of two places, the first of which may be missing.
fn lesser(least: Option<u8>, place: u8) -> u8
    ensures { result ≡ lesser least place }
{
    least.map_or(place, |before| before.min(place))
}

/// The card that the seat played.
fn played_by(leader: Seat, cards: &[PatCard; 4], seat: Seat) -> PatCard
    ensures { result ≡ played_by leader cards.now seat }
{
    cards[(seat.number() + 4 - leader.number()) % 4]
}
