//! The texts of a card's line, and of a card that isn't legal.

ghost use Rattle.std.specs.Prelude.{◌≡◌, ◌++◌, codes};
ghost use Rattle.cards.specs.Devices.{Writes};
ghost use Rattle.play_pages.specs.Counts.{known_or_none};
ghost use Rattle.play_pages.specs.Texts.{number_text, loses_text, is_mistake, loss_text, line_text, suit_name};
ghost use Rattle.play_pages.specs.Texts.{reason_text, illegal_text, stop_text};

use crate::lines::CardLine;
use cards::{DeviceFault, Seat, Sink, Suit, write_all, write_card, write_number};
use recorded_plays::{IllegalCard, IllegalReason, PlayEnd};

/// Writes a number, or that it isn't known.
pub fn write_known<S: Sink>(sink: &mut S, number: Option<u64>) -> Result<(), DeviceFault>
    ensures { Writes (S.state sink.old) (S.state sink.new) (number_text number) result }
{
    match number {
        Some(number) => write_number(sink, number),
        None => write_all(sink, b"unknown"),
    }
}

/// The same number in a wider type, if it is known.
pub fn wide(number: Option<u8>) -> Option<u64>
    ensures { result ≡ number }
{
    match number {
        Some(number) => Some(number as u64),
        None => None,
    }
}

/// The tricks that the card is known to lose.
pub fn known_loss(line: &CardLine) -> u8
    ensures { result ≡ known_or_none line.now.lost }
{
    match line.lost {
        Some(lost) => lost,
        None => 0,
    }
}

/// Whether the card is known to lose a trick.
pub fn is_mistake(line: &CardLine) -> bool
    ensures { result ≡ is_mistake line.now }
{
    known_loss(line) > 0
}

/// Writes who loses how many tricks.
#[tactic(auto, unfolding(crate::specs::Texts::loses_text))]
fn write_loses<S: Sink>(sink: &mut S, seat: Seat, lost: u8) -> Result<(), DeviceFault>
    ensures { Writes (S.state sink.old) (S.state sink.new) (loses_text seat lost) result }
{
    write_all(sink, b" ")?;
    write_all(sink, seat.letter().as_bytes())?;
    write_all(sink, b" loses ")?;
    write_number(sink, lost as u64)
}

/// Writes what the card loses, if it is known to lose a trick.
fn write_loss<S: Sink>(sink: &mut S, line: &CardLine) -> Result<(), DeviceFault>
    ensures { Writes (S.state sink.old) (S.state sink.new) (loss_text line.now) result }
{
    if is_mistake(line) {
        write_loses(sink, line.seat, known_loss(line))
    } else {
        Ok(())
    }
}

/// Writes the line of a card in this trick.
#[tactic(auto, unfolding(crate::specs::Texts::line_text))]
pub(crate) fn write_line<S: Sink>(
    sink: &mut S,
    trick: usize,
    line: &CardLine,
) -> Result<(), DeviceFault>
    ensures { Writes (S.state sink.old) (S.state sink.new) (line_text trick line.now) result }
{
    write_number(sink, trick as u64)?;
    write_all(sink, b" ")?;
    write_all(sink, line.seat.letter().as_bytes())?;
    write_card(line.card, sink)?;
    write_all(sink, b" ")?;
    write_known(sink, wide(line.after))?;
    write_loss(sink, line)?;
    write_all(sink, b"\n")
}

/// The name of a suit.
fn suit_name(suit: Suit) -> &'static [u8]
    ensures { result.now ≡ suit_name suit }
{
    match suit {
        Suit::Spades => b"spades",
        Suit::Hearts => b"hearts",
        Suit::Diamonds => b"diamonds",
        Suit::Clubs => b"clubs",
    }
}

/// Writes two pieces and the end of the line.
fn write_ended<S: Sink>(sink: &mut S, first: &[u8], second: &[u8]) -> Result<(), DeviceFault>
    ensures { Writes (S.state sink.old) (S.state sink.new) (first.now ++ (second.now ++ codes "\n")) result }
{
    write_all(sink, first)?;
    write_all(sink, second)?;
    write_all(sink, b"\n")
}

/// Writes why a card isn't legal.
fn write_reason<S: Sink>(sink: &mut S, reason: IllegalReason) -> Result<(), DeviceFault>
    ensures { Writes (S.state sink.old) (S.state sink.new) (reason_text reason) result }
{
    match reason {
        IllegalReason::NotHeld => write_all(sink, b"not held\n"),
        IllegalReason::OutOfTurn(seat) => write_ended(sink, b"held by ", seat.letter().as_bytes()),
        IllegalReason::HoldsSuit(suit) => write_ended(sink, b"holds ", suit_name(suit)),
    }
}

/// Writes the card that isn't legal.
#[tactic(auto, unfolding(crate::specs::Texts::illegal_text))]
fn write_illegal<S: Sink>(sink: &mut S, illegal: IllegalCard) -> Result<(), DeviceFault>
    ensures { Writes (S.state sink.old) (S.state sink.new) (illegal_text illegal) result }
{
    write_all(sink, b"illegal ")?;
    write_number(sink, illegal.trick as u64)?;
    write_all(sink, b" ")?;
    write_all(sink, illegal.seat.letter().as_bytes())?;
    write_card(illegal.card, sink)?;
    write_all(sink, b": ")?;
    write_reason(sink, illegal.reason)
}

/// Writes the line of the card that isn't legal, if the play ends before one.
pub fn write_stop<S: Sink>(sink: &mut S, end: PlayEnd) -> Result<(), DeviceFault>
    ensures { Writes (S.state sink.old) (S.state sink.new) (stop_text end) result }
{
    match end {
        PlayEnd::Illegal(illegal) => write_illegal(sink, illegal),
        PlayEnd::Whole | PlayEnd::Early | PlayEnd::Unknown | PlayEnd::Irregular | PlayEnd::Unread =>
            Ok(()),
    }
}
