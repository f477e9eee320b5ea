//! Groups of cards of one suit that lead to the same tricks.

ghost use Rattle.std.specs.Prelude.{◌≡◌, ◌≢◌, ◌+◌, ◌≤◌, ◌<◌, ℕ, length, All, Contains, MatchBool, Some};
ghost use Rattle.cards.specs.declared.seats.Seat.{Seat};
ghost use Rattle.cards.specs.declared.pack.Rank.{Rank};
ghost use Rattle.card_values.specs.declared.values.CardValue.{CardValue};
ghost use Rattle.dds_calls.specs.Lines.{AreChoices, AreEquals, AreLines, HasLines, IsClearBetween, IsLineOf};
ghost use Rattle.dds_calls.specs.Lines.{IsTop, Joins};

use arrayvec::ArrayVec;
use card_values::CardValue;
use cards::{Card, Layout, Rank, Seat, Suit};

/// A group of cards of one suit that lead to the same tricks.
#[derive(Clone, Copy, Default)]
pub struct Line {
    /// The highest card.
    pub card: Card,
    /// The lower cards: bit 2 stands for the deuce.
    pub equals: u16,
    /// The tricks of the player's side, the current trick among them.
    pub tricks: u8,
}

/// Returns whether another seat than the player had the card.
fn is_other(owner: Option<Seat>, player: Seat) -> bool
    ensures { MatchBool result
        ((seat : Seat) × (owner ≡ Some seat) × (seat ≢ player))
        ((seat : Seat) → owner ≡ Some seat → seat ≡ player) }
{
    match owner {
        Some(seat) => seat != player,
        None => false,
    }
}

/// Returns whether no card between these ranks was another seat's when the trick began.
pub(crate) fn is_clear(layout: &Layout, player: Seat, suit: Suit, low: Rank, high: Rank) -> bool
    ensures { MatchBool result
        (IsClearBetween layout.now player suit low high)
        (IsClearBetween layout.now player suit low high → ⊥) }
{
    for number in low.number() + 1..high.number() {
        let rank = Rank::at(number);
        if is_other(layout.owner(Card { suit, rank }), player) {
            return false;
        }
    }
    true
}

/// Returns whether the lower card is in the group of the higher one.
fn joins(layout: &Layout, player: Seat, high: CardValue, low: CardValue) -> bool
    ensures { MatchBool result (Joins layout.now player high low) (Joins layout.now player high low → ⊥) }
{
    high.card.suit == low.card.suit
        && low.card.rank.number() < high.card.rank.number()
        && high.tricks == low.tricks
        && is_clear(
            layout,
            player,
            high.card.suit,
            low.card.rank,
            high.card.rank,
        )
}

/// Returns whether the card is the highest of its group.
fn is_top(layout: &Layout, player: Seat, values: &[CardValue], value: CardValue) -> bool
    ensures { MatchBool result
        (IsTop layout.now player values.now value)
        ((other : CardValue) × Contains values.now other × Joins layout.now player other value) }
{
    for other in values {
        if joins(layout, player, *other, value) {
            return false;
        }
    }
    true
}

/// Returns the lower cards of a card's group.
fn equals_of(layout: &Layout, player: Seat, values: &[CardValue], value: CardValue) -> u16
    ensures { AreEquals layout.now player values.now value result }
{
    let mut equals = 0u16;
    for other in values {
        if joins(layout, player, value, *other) {
            equals |= 1 << (other.card.rank.number() + 2);
        }
    }
    equals
}

/// Returns the group of a card.
fn line_of(layout: &Layout, player: Seat, values: &[CardValue], value: CardValue) -> Line
    ensures { IsLineOf layout.now player values.now value result }
{
    Line {
        card: value.card,
        equals: equals_of(layout, player, values, value),
        tricks: value.tricks,
    }
}

/// Adds the groups that lead to this many tricks, by suit and with ranks falling.
fn with_worth(
    layout: &Layout,
    player: Seat,
    values: &[CardValue],
    tricks: u8,
    mut lines: ArrayVec<Line, 13>,
) -> ArrayVec<Line, 13>
    requires choices { AreChoices layout.now player values.now }
    requires lines { HasLines layout.now player values.now (tricks + 1) 0 lines.items }
    ensures { HasLines layout.now player values.now tricks 0 result.items }
{
    for value in values {
        if value.tricks == tricks && is_top(layout, player, values, *value) {
            lines.push(line_of(layout, player, values, *value));
        }
    }
    lines
}

/// Returns the groups that lead to at least this many tricks, those of the most tricks first.
pub(crate) fn lines_of(
    layout: &Layout,
    player: Seat,
    values: &[CardValue],
    least: u8,
) -> ArrayVec<Line, 13>
    requires choices { AreChoices layout.now player values.now }
    requires least { least ≤ 14 }
    ensures { AreLines layout.now player values.now least result.items }
{
    let mut lines = ArrayVec::new();
    for lack in 0..14 - least {
        lines = with_worth(layout, player, values, 13 - lack, lines);
    }
    lines
}
