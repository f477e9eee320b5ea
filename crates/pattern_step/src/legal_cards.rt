//! The cards that a seat may play.

ghost use Rattle.std.specs.Prelude.{◌≡◌, ◌+◌, ◌≤◌, ◌++◌, ◌↔◌, IsTrue, Some, Contains, [], length, slice_get};
ghost use Rattle.patterns.specs.Shapes.{suit_of, len_of};
ghost use Rattle.pattern_step.specs.PatCards.{IsLegal};
ghost use Rattle.pattern_step.specs.LegalCards.{cards_in, legal_cards};
ghost use Rattle.pattern_step.specs.declared.pat_cards.PatCard.{PatCard};

use crate::pat_cards::PatCard;
use arrayvec::ArrayVec;
use cards::{Seat, Suit};
use patterns::Pattern;

/// The seat's legal cards where this suit was led, or where the seat leads: those of the suit led if it has any,
/// else all its cards (Laws 44A, 44C and 44D). They come by suit, and in a suit the tops by their places and then
/// the low card. There are never more than 13.
pub fn legal(pattern: &Pattern, seat: Seat, led: Option<Suit>) -> ArrayVec<PatCard, 13>
    ensures cards { result.items ≡ legal_cards pattern.now seat led }
    ensures all { (card : PatCard) → Contains result.items card ↔ IsLegal pattern.now seat led card }
{
    pattern.invariant();
    let mut cards = ArrayVec::new();
    list(&mut cards, pattern, seat, led);
    cards
}

/// Lists the legal cards, suit by suit, where none are listed yet.
fn list(cards: &mut ArrayVec<PatCard, 13>, pattern: &Pattern, seat: Seat, led: Option<Suit>)
    requires { cards.old.items ≡ [] }
    ensures { cards.new.items ≡ legal_cards pattern.now seat led }
{
    pattern.invariant();
    if let Some(suit) = led {
        if pattern.len(suit, seat) != 0 {
            add_suit(cards, pattern, seat, suit);
            return;
        }
    }
    add_suit(cards, pattern, seat, Suit::Spades);
    add_suit(cards, pattern, seat, Suit::Hearts);
    add_suit(cards, pattern, seat, Suit::Diamonds);
    add_suit(cards, pattern, seat, Suit::Clubs);
}

/// Whether the seat is the owner in this place.
pub(crate) fn owns(pattern: &Pattern, suit: Suit, place: usize, seat: Seat) -> bool
    ensures { IsTrue result ↔ (slice_get (suit_of pattern.now suit).owners place ≡ Some seat) }
{
    pattern.owner(suit, place) == Some(seat)
}

/// Adds the seat's cards of the suit.
fn add_suit(cards: &mut ArrayVec<PatCard, 13>, pattern: &Pattern, seat: Seat, suit: Suit)
    requires { length cards.old.items + len_of (suit_of pattern.now suit) seat ≤ 13 }
    ensures { cards.new.items ≡ cards.old.items ++ cards_in pattern.now seat suit }
{
    pattern.invariant();
    let held = pattern.suit(suit);
    let before = cards.len();
    let mut places = held.places_of(seat);
    while places != 0 {
        let bit = places.trailing_zeros();
        cards.push(PatCard::Top(suit, (bit / 2) as u8));
        places &= places - 1;
    }
    if cards.len() - before < held.len(seat) as usize {
        cards.push(PatCard::Low(suit));
    }
}
