//! A hand: the letter of its seat, its cards, and its honour points.

ghost use Rattle.std.specs.Prelude.{◌≡◌, ◌≤◌};
ghost use Rattle.cards.specs.Deal.{holder_of, is_held_by};
ghost use Rattle.cards.specs.Seats.{seat_letter};
ghost use Rattle.cards.specs.Devices.{Writes};
ghost use Rattle.html.specs.Templates.{filled};
ghost use Rattle.sheets.specs.HandText.{rank_shown, card_shown, cards_shown, is_void, holding_shown, points_if};
ghost use Rattle.sheets.specs.HandText.{suit_points, points_of, hand_place, hand_value};
ghost use Rattle.sheets.specs.declared.templates.TheConstants as template;

use crate::names::is_named;
use crate::templates::HAND;
use cards::{Card, DeviceFault, Layout, Rank, Seat, Sink, Suit, write_all, write_number};
use html::{Values, write_filled};

/// What is shown of a suit of which the hand has no card: a dash.
const VOID: &[u8] = b"\xE2\x80\x93";

/// A rank as players write it.
pub fn rank_shown(rank: Rank) -> &'static [u8]
    ensures { result.now ≡ rank_shown rank }
{
    if rank == Rank::Ten {
        b"10"
    } else {
        rank.letter().as_bytes()
    }
}

/// Writes the rank of a card that the seat holds, and nothing of another.
fn write_card<S: Sink>(
    sink: &mut S,
    layout: &Layout,
    seat: Seat,
    card: Card,
) -> Result<(), DeviceFault>
    ensures { Writes (S.state sink.old) (S.state sink.new) (card_shown layout.now seat card.suit card.rank) result }
{
    if layout.holds(seat, card) {
        write_all(sink, rank_shown(card.rank))
    } else {
        Ok(())
    }
}

/// Writes the seat's cards of a suit, the ranks falling.
fn write_cards<S: Sink>(
    sink: &mut S,
    layout: &Layout,
    seat: Seat,
    suit: Suit,
) -> Result<(), DeviceFault>
    ensures { Writes (S.state sink.old) (S.state sink.new) (cards_shown layout.now seat suit) result }
{
    for rank in Rank::FALLING {
        write_card(sink, layout, seat, Card { suit, rank })?;
    }
    Ok(())
}

/// Whether the seat holds the card.
fn is_held(layout: &Layout, seat: Seat, card: Card) -> bool
    ensures { result ≡ is_held_by seat (holder_of layout.now card) }
{
    layout.holds(seat, card)
}

/// Whether the seat has no card of a suit.
fn is_void(layout: &Layout, seat: Seat, suit: Suit) -> bool
    ensures { result ≡ is_void layout.now seat suit }
{
    for rank in Rank::FALLING {
        if is_held(layout, seat, Card { suit, rank }) {
            return false;
        }
    }
    true
}

/// Writes the seat's cards of a suit, or a dash if it has none.
fn write_holding<S: Sink>(
    sink: &mut S,
    layout: &Layout,
    seat: Seat,
    suit: Suit,
) -> Result<(), DeviceFault>
    ensures { Writes (S.state sink.old) (S.state sink.new) (holding_shown layout.now seat suit) result }
{
    if is_void(layout, seat, suit) {
        write_all(sink, VOID)
    } else {
        write_cards(sink, layout, seat, suit)
    }
}

/// So many points if the seat holds the card.
fn points_if(layout: &Layout, seat: Seat, card: Card, points: u8) -> u8
    ensures value { result ≡ points_if layout.now seat card.suit card.rank points }
    ensures below { result ≤ points }
{
    if layout.holds(seat, card) { points } else { 0 }
}

/// The honour points of the seat's cards of a suit.
fn suit_points(layout: &Layout, seat: Seat, suit: Suit) -> u8
    ensures points { result ≡ suit_points layout.now seat suit }
    ensures below { result ≤ 10 }
{
    let ace = Card {
        suit,
        rank: Rank::Ace,
    };
    let king = Card {
        suit,
        rank: Rank::King,
    };
    let queen = Card {
        suit,
        rank: Rank::Queen,
    };
    let jack = Card {
        suit,
        rank: Rank::Jack,
    };
    points_if(layout, seat, ace, 4)
        + points_if(layout, seat, king, 3)
        + points_if(layout, seat, queen, 2)
        + points_if(layout, seat, jack, 1)
}

/// The seat's honour points: ace 4, king 3, queen 2, jack 1.
fn points_of(layout: &Layout, seat: Seat) -> u8
    ensures { result ≡ points_of layout.now seat }
{
    suit_points(layout, seat, Suit::Spades)
        + suit_points(layout, seat, Suit::Hearts)
        + suit_points(layout, seat, Suit::Diamonds)
        + suit_points(layout, seat, Suit::Clubs)
}

/// The seat's letter.
fn seat_letter(seat: Seat) -> &'static [u8]
    ensures { result.now ≡ seat_letter seat }
{
    seat.letter().as_bytes()
}

/// A place of a hand's template.
enum HandPlace {
    /// The seat's letter.
    Letter,
    /// The cards of a suit.
    Holding(Suit),
    /// The honour points.
    Points,
}

/// The place of this name.
fn hand_place(name: &[u8]) -> Option<HandPlace>
    ensures { result ≡ hand_place name.now }
{
    if is_named(name, b"seat") {
        Some(HandPlace::Letter)
    } else if is_named(name, b"spades") {
        Some(HandPlace::Holding(Suit::Spades))
    } else if is_named(name, b"hearts") {
        Some(HandPlace::Holding(Suit::Hearts))
    } else if is_named(name, b"diamonds") {
        Some(HandPlace::Holding(Suit::Diamonds))
    } else if is_named(name, b"clubs") {
        Some(HandPlace::Holding(Suit::Clubs))
    } else if is_named(name, b"points") {
        Some(HandPlace::Points)
    } else {
        None
    }
}

/// The values of a hand.
#[derive(Drop)]
struct HandValues<'a> {
    layout: &'a Layout,
    seat: Seat,
}

impl Values for HandValues<'_> {
    ghost values = { λ hand. hand_value hand.layout.now hand.seat };

    fn write<S: Sink>(&self, sink: &mut S, name: &[u8]) -> Result<(), DeviceFault> {
        match hand_place(name) {
            Some(HandPlace::Letter) => write_all(sink, seat_letter(self.seat)),
            Some(HandPlace::Holding(suit)) => write_holding(sink, self.layout, self.seat, suit),
            Some(HandPlace::Points) => write_number(sink, points_of(self.layout, self.seat) as u64),
            None => Ok(()),
        }
    }
}

/// Writes the hand of a seat.
pub(crate) fn write_hand<S: Sink>(
    sink: &mut S,
    layout: &Layout,
    seat: Seat,
) -> Result<(), DeviceFault>
    ensures { Writes (S.state sink.old) (S.state sink.new) (filled (hand_value layout.now seat) template.HAND.now)
        result }
{
    write_filled(sink, HAND, &HandValues { layout, seat })
}
