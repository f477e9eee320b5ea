//! Which pattern card stands for a card of the deal.

ghost use Rattle.std.specs.Prelude.{◌≡◌, ◌≤◌, ◌↔◌, IsTrue};
ghost use Rattle.pattern_step.specs.LayoutCards.{place_in_suit, StandsFor};

use crate::pat_cards::PatCard;
use cards::{Card, Rank, Seat};
use patterns::Pattern;

/// How many higher cards of its suit are in the four hands, where these hold each card by its number.
fn place_in_suit(deal: &[Option<Seat>; 52], card: Card) -> usize
    ensures place { result ≡ place_in_suit deal.now card }
    ensures within { result ≤ 12 }
{
    let mut higher = 0;
    for place in 0..Rank::COUNT - 1 - card.rank.number() {
        let above = Card {
            suit: card.suit,
            rank: Rank::at(Rank::COUNT - 1 - place),
        };
        if deal[above.number()].is_some() {
            higher += 1;
        }
    }
    higher
}

/// The pattern card that stands for the card, where these seats hold the cards of the layout, each by its number.
pub fn pat_card_of(deal: &[Option<Seat>; 52], pattern: &Pattern, card: Card) -> PatCard
    ensures { StandsFor pattern.now deal.now result card }
{
    let place = place_in_suit(deal, card);
    if place < pattern.owner_count(card.suit) {
        PatCard::Top(card.suit, place as u8)
    } else {
        PatCard::Low(card.suit)
    }
}

/// Whether the pattern card stands for the card, where these seats hold the cards of the layout, each by its number.
pub fn stands_for(
    deal: &[Option<Seat>; 52],
    pattern: &Pattern,
    pat_card: PatCard,
    card: Card,
) -> bool
    ensures { IsTrue result ↔ StandsFor pattern.now deal.now pat_card card }
{
    let place = place_in_suit(deal, card);
    match pat_card {
        PatCard::Top(suit, top) => {
            card.suit == suit && place == top as usize && (top as usize) < pattern.owner_count(suit)
        }
        PatCard::Low(suit) => card.suit == suit && pattern.owner_count(suit) <= place,
    }
}
