//! The last card for which a pattern card stands.

ghost use Rattle.std.specs.Prelude.{◌<◌, MatchOption, Contains, length, ⊤};
ghost use Rattle.cards.specs.declared.pack.Card.{Card};
ghost use Rattle.pattern_step.specs.LayoutCards.{StandsFor};
ghost use Rattle.certificate_play.specs.OwnCards.{IsLastWith};

use cards::{Card, Seat};
use pattern_step::{PatCard, stands_for};
use patterns::Pattern;

/// The last of the cards for which the pattern card stands, if there is one.
pub(crate) fn last_stood_for(
    deal: &[Option<Seat>; 52],
    pattern: &Pattern,
    pat_card: PatCard,
    cards: &[Card],
) -> Option<Card>
    ensures { MatchOption result
        ((card : Card) → Contains cards.now card → StandsFor pattern.now deal.now pat_card card → ⊥)
        (IsLastWith (StandsFor pattern.now deal.now pat_card) cards.now) }
{
    for place in 0..cards.len() {
        let card = cards[cards.len() - 1 - place];
        if stands_for(deal, pattern, pat_card, card) {
            return Some(card);
        }
    }
    None
}

/// The last of the cards.
pub(crate) fn last_card(cards: &[Card]) -> Card
    requires { 0 < length cards.now }
    ensures { IsLastWith (λ _. ⊤) cards.now result }
{
    cards[cards.len() - 1]
}
