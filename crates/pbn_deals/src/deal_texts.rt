//! How a deal is printed.

ghost use Rattle.std.specs.Prelude.{◌∷◌};
ghost use Rattle.cards.specs.Devices.{Writes};
ghost use Rattle.pbn_deals.specs.DealText.{held_letter, group_text, hand_text, deal_text};

use cards::{Card, DeviceFault, Layout, Rank, Seat, Sink, Suit, write_all};

/// Writes the letter of a card that the seat holds, and nothing for another.
fn write_card<S: Sink>(
    sink: &mut S,
    layout: &Layout,
    seat: Seat,
    card: Card,
) -> Result<(), DeviceFault>
    ensures { Writes (S.state sink.old) (S.state sink.new) (held_letter layout.now seat card.suit card.rank) result }
{
    if layout.holds(seat, card) {
        write_all(sink, card.rank.letter().as_bytes())
    } else {
        Ok(())
    }
}

/// Writes the seat's cards of a suit, the ranks falling.
fn write_group<S: Sink>(
    sink: &mut S,
    layout: &Layout,
    seat: Seat,
    suit: Suit,
) -> Result<(), DeviceFault>
    ensures { Writes (S.state sink.old) (S.state sink.new) (group_text layout.now seat suit) result }
{
    for rank in Rank::FALLING {
        write_card(sink, layout, seat, Card { suit, rank })?;
    }
    Ok(())
}

/// Writes a dot and the seat's cards of a suit.
fn write_next_group<S: Sink>(
    sink: &mut S,
    layout: &Layout,
    seat: Seat,
    suit: Suit,
) -> Result<(), DeviceFault>
    ensures { Writes (S.state sink.old) (S.state sink.new) (46 ∷ group_text layout.now seat suit) result }
{
    write_all(sink, b".")?;
    write_group(sink, layout, seat, suit)
}

/// Writes the seat's hand.
fn write_hand<S: Sink>(sink: &mut S, layout: &Layout, seat: Seat) -> Result<(), DeviceFault>
    ensures { Writes (S.state sink.old) (S.state sink.new) (hand_text layout.now seat) result }
{
    write_group(sink, layout, seat, Suit::Spades)?;
    write_next_group(sink, layout, seat, Suit::Hearts)?;
    write_next_group(sink, layout, seat, Suit::Diamonds)?;
    write_next_group(sink, layout, seat, Suit::Clubs)
}

/// Writes a space and the seat's hand.
fn write_next_hand<S: Sink>(sink: &mut S, layout: &Layout, seat: Seat) -> Result<(), DeviceFault>
    ensures { Writes (S.state sink.old) (S.state sink.new) (32 ∷ hand_text layout.now seat) result }
{
    write_all(sink, b" ")?;
    write_hand(sink, layout, seat)
}

/// Writes the value of the Deal tag for a layout, from North on, with the ranks falling. After a fault of the sink a
/// beginning of it has gone out. Takes no memory.
pub fn write_layout<S: Sink>(sink: &mut S, layout: &Layout) -> Result<(), DeviceFault>
    ensures { Writes (S.state sink.old) (S.state sink.new) (deal_text layout.now) result }
{
    write_all(sink, b"N:")?;
    write_hand(sink, layout, Seat::North)?;
    write_next_hand(sink, layout, Seat::East)?;
    write_next_hand(sink, layout, Seat::South)?;
    write_next_hand(sink, layout, Seat::West)
}
