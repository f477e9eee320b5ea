//! The cards that are left, their holders, and which of them may be played.

ghost use Rattle.std.specs.Prelude.{◌≡◌, ◌<◌, ◌≤◌, Some, MatchBool};
ghost use Rattle.cards.specs.Deal.{holder_of, count_of};
ghost use Rattle.play_rules.specs.Position.{listed_place};
ghost use Rattle.play_rules.specs.Holdings.{HoldsSuit, IsSuitToFollow, Follows, MayBePlayed, Revokes, AreListedTo};

use arrayvec::ArrayVec;
use cards::{Card, Layout, Rank, Seat, Suit};

/// Returns the holder of each card of the layout, by the card's number.
pub fn holders(layout: &Layout) -> [Option<Seat>; 52]
    ensures { result ≡ layout.now }
{
    let mut holders = [None; 52];
    layout.invariant();
    for number in 0..Card::COUNT {
        holders[number] = layout.owner(Card::at(number));
    }
    holders
}

/// Returns whether the card is one of the player's cards that are left.
pub(crate) fn is_held(left: &[Option<Seat>; 52], player: Seat, card: Card) -> bool
    ensures { MatchBool result (holder_of left.now card ≡ Some player) (holder_of left.now card ≡ Some player → ⊥) }
{
    left[card.number()] == Some(player)
}

/// Returns whether the player has a card of the suit left.
fn has_suit(left: &[Option<Seat>; 52], player: Seat, suit: Suit) -> bool
    ensures { MatchBool result (HoldsSuit left.now player suit) (HoldsSuit left.now player suit → ⊥) }
{
    for number in 0..Rank::COUNT {
        if is_held(
            left,
            player,
            Card {
                suit,
                rank: Rank::at(number),
            },
        ) {
            return true;
        }
    }
    false
}

/// Returns the suit led, if the player has a card of it left.
fn suit_to_follow(left: &[Option<Seat>; 52], player: Seat, trick: &[Card]) -> Option<Suit>
    ensures { IsSuitToFollow left.now player trick.now result }
{
    match trick {
        [first, ..] if has_suit(left, player, first.suit) => Some(first.suit),
        _ => None,
    }
}

/// Returns whether the card is of the suit, or there is none.
fn follows(suit: Option<Suit>, card: Card) -> bool
    ensures { MatchBool result (Follows suit card) (Follows suit card → ⊥) }
{
    match suit {
        Some(suit) => card.suit == suit,
        None => true,
    }
}

/// Returns whether the player would fail to follow suit with the card.
pub(crate) fn revokes(left: &[Option<Seat>; 52], player: Seat, trick: &[Card], card: Card) -> bool
    ensures { MatchBool result (Revokes left.now player trick.now card) (Revokes left.now player trick.now card → ⊥) }
{
    !follows(suit_to_follow(left, player, trick), card)
}

/// Returns the player's cards that are left and may be played to the trick, by suit and with ranks falling.
pub(crate) fn legal_cards(
    left: &[Option<Seat>; 52],
    player: Seat,
    trick: &[Card],
) -> ArrayVec<Card, 13>
    requires { count_of left.now player ≤ 13 }
    ensures { AreListedTo left.now player trick.now 52 result.items }
{
    let suit = suit_to_follow(left, player, trick);
    let mut cards = ArrayVec::new();
    for place in 0..Card::COUNT {
        let card = card_listed(place);
        if is_playable(left, player, suit, card) {
            cards.push(card);
        }
    }
    cards
}

/// Returns the card in this place of the list of all cards, by suit and with ranks falling.
fn card_listed(place: usize) -> Card
    requires { place < 52 }
    ensures { listed_place result ≡ place }
{
    Card {
        suit: Suit::at(place / Rank::COUNT),
        rank: Rank::at(Rank::COUNT - 1 - place % Rank::COUNT),
    }
}

/// Returns whether the player still has the card, and it is of the suit that has to be followed, if there is one.
fn is_playable(left: &[Option<Seat>; 52], player: Seat, suit: Option<Suit>, card: Card) -> bool
    ensures { MatchBool result
        ((holder_of left.now card ≡ Some player) × Follows suit card)
        ((holder_of left.now card ≡ Some player) × Follows suit card → ⊥) }
{
    is_held(left, player, card) && follows(suit, card)
}
