//! Cards that touch: they are of one suit, and no card between them was another seat's when the trick began.

ghost use Rattle.std.specs.Prelude.{Contains, MatchBool};
ghost use Rattle.cards.specs.declared.pack.Card.{Card};
ghost use Rattle.card_values.specs.CardValues.{cards_of};
ghost use Rattle.dds_calls.specs.Touching.{AllTouch, AreWhole, LackCard, SomeApart, Touch, TouchesValue};

use crate::lines::is_clear;
use card_values::CardValue;
use cards::{Card, Layout, Seat};

/// Returns whether the cards touch.
fn do_touch(layout: &Layout, player: Seat, one: Card, other: Card) -> bool
    ensures { MatchBool result (Touch layout.now player one other) (Touch layout.now player one other → ⊥) }
{
    one.suit == other.suit
        && is_clear(layout, player, one.suit, one.rank, other.rank)
        && is_clear(layout, player, one.suit, other.rank, one.rank)
}

/// Returns whether the card touches each of these.
fn touches_all(layout: &Layout, player: Seat, card: Card, cards: &[Card]) -> bool
    ensures { MatchBool result
        ((other : Card) → Contains cards.now other → Touch layout.now player card other)
        ((other : Card) × Contains cards.now other × (Touch layout.now player card other → ⊥)) }
{
    for other in cards {
        if !do_touch(layout, player, card, *other) {
            return false;
        }
    }
    true
}

/// Returns whether any two of the cards touch.
pub(crate) fn all_touch(layout: &Layout, player: Seat, cards: &[Card]) -> bool
    ensures { MatchBool result (AllTouch layout.now player cards.now) (SomeApart layout.now player cards.now) }
{
    for card in cards {
        if !touches_all(layout, player, *card, cards) {
            return false;
        }
    }
    true
}

/// Returns whether the card has a value.
fn has_value(values: &[CardValue], card: Card) -> bool
    ensures { MatchBool result (Contains (cards_of values.now) card) (Contains (cards_of values.now) card → ⊥) }
{
    for value in values {
        if value.card == card {
            return true;
        }
    }
    false
}

/// Returns whether the card touches one that has a value.
fn touches_value(layout: &Layout, player: Seat, values: &[CardValue], card: Card) -> bool
    ensures { MatchBool result
        (TouchesValue layout.now player values.now card)
        (TouchesValue layout.now player values.now card → ⊥) }
{
    for value in values {
        if do_touch(layout, player, value.card, card) {
            return true;
        }
    }
    false
}

/// Returns whether the card has no value and touches one that has.
fn is_left_out(layout: &Layout, player: Seat, values: &[CardValue], card: Card) -> bool
    ensures { MatchBool result
        (TouchesValue layout.now player values.now card × (Contains (cards_of values.now) card → ⊥))
        (TouchesValue layout.now player values.now card → Contains (cards_of values.now) card) }
{
    touches_value(layout, player, values, card) && !has_value(values, card)
}

/// Returns whether each of the cards that touches one that has a value has a value itself.
pub(crate) fn are_whole(layout: &Layout, player: Seat, values: &[CardValue], cards: &[Card]) -> bool
    ensures { MatchBool result
        (AreWhole layout.now player values.now cards.now)
        (LackCard layout.now player values.now cards.now) }
{
    for card in cards {
        if is_left_out(layout, player, values, *card) {
            return false;
        }
    }
    true
}
