//! Whether cards are legal.

ghost use Rattle.std.specs.Prelude.{◌≡◌, ◌↔◌, IsTrue};
ghost use Rattle.pattern_step.specs.PatCards.{HasCard, FollowsSuit, IsLegal};
ghost use Rattle.pattern_step.specs.Tricks.{AreLegalInTurn};

use crate::legal_cards::owns;
use crate::pat_cards::PatCard;
use cards::{Seat, Suit};
use patterns::Pattern;

/// Whether the four cards are legal in turn, clockwise from the leader.
pub fn are_legal(pattern: &Pattern, leader: Seat, cards: &[PatCard; 4]) -> bool
    ensures { IsTrue result ↔ AreLegalInTurn pattern.now leader cards.now }
{
    let led = Some(cards[0].suit());
    let second = leader.next();
    let third = second.next();
    is_legal(pattern, leader, None, cards[0])
        && is_legal(pattern, second, led, cards[1])
        && is_legal(pattern, third, led, cards[2])
        && is_legal(pattern, third.next(), led, cards[3])
}

/// Whether the seat may play the card where this suit was led, or where it leads.
pub fn is_legal(pattern: &Pattern, seat: Seat, led: Option<Suit>, card: PatCard) -> bool
    ensures { IsTrue result ↔ IsLegal pattern.now seat led card }
{
    has(pattern, seat, card) && follows(pattern, seat, led, card)
}

/// Whether the seat has the card.
fn has(pattern: &Pattern, seat: Seat, card: PatCard) -> bool
    ensures { IsTrue result ↔ HasCard pattern.now seat card }
{
    match card {
        PatCard::Top(suit, place) => owns(pattern, suit, place as usize, seat),
        PatCard::Low(suit) => pattern.tops(suit, seat) < pattern.len(suit, seat),
    }
}

/// Whether the card is of the suit led, or the seat has none of that suit.
fn follows(pattern: &Pattern, seat: Seat, led: Option<Suit>, card: PatCard) -> bool
    ensures { IsTrue result ↔ FollowsSuit pattern.now seat led card }
{
    match led {
        None => true,
        Some(suit) => pattern.len(suit, seat) == 0 || card.suit() == suit,
    }
}
