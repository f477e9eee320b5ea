//! A card in a cell of the table, with its marks.

ghost use Rattle.std.specs.Prelude.{◌≡◌};
ghost use Rattle.cards.specs.Devices.{Writes};
ghost use Rattle.play_sheets.specs.Cells.{with_number, suit_template, card_text, losing_text, line_text};
ghost use Rattle.play_sheets.specs.Cells.{winning_text, won_text, lead_text, marked_text};

use crate::templates::{CLUB, DIAMOND, HEART, LEADS, LOSES, LOSS, SPADE, WINS, WINS_END};
use cards::{Card, DeviceFault, Sink, Suit, write_all};
use play_pages::{CardLine, is_mistake, known_loss};
use sheets::{rank_shown, write_with, write_with_number};

/// Writes a template with a number of tricks, or with the word that it isn't known, in each of its places.
pub(crate) fn write_with_known<S: Sink>(
    sink: &mut S,
    template: &[u8],
    number: Option<u64>,
) -> Result<(), DeviceFault>
    ensures { Writes (S.state sink.old) (S.state sink.new) (with_number template.now number) result }
{
    match number {
        Some(number) => write_with_number(sink, template, number),
        None => write_with(sink, template, b"unknown"),
    }
}

/// The template of a card of this suit.
pub(crate) fn suit_template(suit: Suit) -> &'static [u8]
    ensures { result.now ≡ suit_template suit }
{
    match suit {
        Suit::Spades => SPADE,
        Suit::Hearts => HEART,
        Suit::Diamonds => DIAMOND,
        Suit::Clubs => CLUB,
    }
}

/// Writes a card.
pub(crate) fn write_card<S: Sink>(sink: &mut S, card: Card) -> Result<(), DeviceFault>
    ensures { Writes (S.state sink.old) (S.state sink.new) (card_text card) result }
{
    write_with(sink, suit_template(card.suit), rank_shown(card.rank))
}

/// Writes a card that loses this many tricks.
#[tactic(auto, unfolding(crate::specs::Cells::losing_text))]
fn write_losing<S: Sink>(sink: &mut S, card: Card, lost: u8) -> Result<(), DeviceFault>
    ensures { Writes (S.state sink.old) (S.state sink.new) (losing_text card lost) result }
{
    write_all(sink, LOSES)?;
    write_card(sink, card)?;
    write_with_number(sink, LOSS, lost as u64)
}

/// Writes the card of a line, marked if it is known to lose tricks.
fn write_line<S: Sink>(sink: &mut S, line: &CardLine) -> Result<(), DeviceFault>
    ensures { Writes (S.state sink.old) (S.state sink.new) (line_text line.now) result }
{
    if is_mistake(line) {
        write_losing(sink, line.card, known_loss(line))
    } else {
        write_card(sink, line.card)
    }
}

/// Writes the card of a line, which wins its trick.
#[tactic(auto, unfolding(crate::specs::Cells::winning_text))]
fn write_winning<S: Sink>(sink: &mut S, line: &CardLine) -> Result<(), DeviceFault>
    ensures { Writes (S.state sink.old) (S.state sink.new) (winning_text line.now) result }
{
    write_all(sink, WINS)?;
    write_line(sink, line)?;
    write_all(sink, WINS_END)
}

/// Writes the card of a line, marked if it wins its trick.
fn write_won<S: Sink>(sink: &mut S, wins: bool, line: &CardLine) -> Result<(), DeviceFault>
    ensures { Writes (S.state sink.old) (S.state sink.new) (won_text wins line.now) result }
{
    if wins {
        write_winning(sink, line)
    } else {
        write_line(sink, line)
    }
}

/// Writes the mark of the card that is led.
fn write_lead<S: Sink>(sink: &mut S, leads: bool) -> Result<(), DeviceFault>
    ensures { Writes (S.state sink.old) (S.state sink.new) (lead_text leads) result }
{
    if leads {
        write_all(sink, LEADS)
    } else {
        Ok(())
    }
}

/// Writes the card of a line with all its marks: whether it is led, wins its trick, or loses tricks.
#[tactic(auto, unfolding(crate::specs::Cells::marked_text))]
pub(crate) fn write_marked<S: Sink>(
    sink: &mut S,
    leads: bool,
    wins: bool,
    line: &CardLine,
) -> Result<(), DeviceFault>
    ensures { Writes (S.state sink.old) (S.state sink.new) (marked_text leads wins line.now) result }
{
    write_lead(sink, leads)?;
    write_won(sink, wins, line)
}
