//! The values of cards as a text.

ghost use Rattle.std.specs.Prelude.{◌≡◌};
ghost use Rattle.std.specs.List.{list_any};
ghost use Rattle.cards.specs.Devices.{Writes};
ghost use Rattle.card_values.specs.Texts.{is_worth, card_if_worth, cards_worth, line_of, line_if_any, lines_text};
ghost use Rattle.card_values.specs.Texts.{group_of, group_if_any, groups_text, values_text};

use crate::values::{CardValue, CardValues};
use cards::{DeviceFault, Sink, write_all, write_card, write_number};

/// The numbers of tricks, the most first.
const FALLING: [u8; 14] = [13, 12, 11, 10, 9, 8, 7, 6, 5, 4, 3, 2, 1, 0];

/// Writes the card after a blank, if it leads to this many tricks.
fn write_if_worth<S: Sink>(sink: &mut S, value: CardValue, tricks: u8) -> Result<(), DeviceFault>
    ensures { Writes (S.state sink.old) (S.state sink.new) (card_if_worth tricks value) result }
{
    if value.tricks == tricks {
        write_card(value.card, sink)
    } else {
        Ok(())
    }
}

/// Writes the cards that lead to this many tricks.
#[tactic(auto, unfolding(crate::specs::Texts::cards_worth))]
fn write_worth<S: Sink>(sink: &mut S, values: &[CardValue], tricks: u8) -> Result<(), DeviceFault>
    ensures { Writes (S.state sink.old) (S.state sink.new) (cards_worth values.now tricks) result }
{
    for value in values {
        write_if_worth(sink, *value, tricks)?;
    }
    Ok(())
}

/// Writes the line of the cards that lead to this many tricks.
#[tactic(auto, unfolding(crate::specs::Texts::line_of))]
fn write_line<S: Sink>(sink: &mut S, values: &[CardValue], tricks: u8) -> Result<(), DeviceFault>
    ensures { Writes (S.state sink.old) (S.state sink.new) (line_of values.now tricks) result }
{
    write_number(sink, tricks as u64)?;
    write_all(sink, b" ")?;
    write_worth(sink, values, tricks)?;
    write_all(sink, b"\n")
}

/// Whether a card leads to this many tricks.
fn is_any_worth(values: &[CardValue], tricks: u8) -> bool
    ensures { result ≡ list_any (is_worth tricks) values.now }
{
    values.iter().any(|value| value.tricks == tricks)
}

/// Writes the line for this many tricks, if a card leads to them.
fn write_line_if_any<S: Sink>(
    sink: &mut S,
    values: &[CardValue],
    tricks: u8,
) -> Result<(), DeviceFault>
    ensures { Writes (S.state sink.old) (S.state sink.new) (line_if_any values.now tricks) result }
{
    if is_any_worth(values, tricks) {
        write_line(sink, values, tricks)
    } else {
        Ok(())
    }
}

/// Writes the lines, those of the most tricks first.
#[tactic(auto, unfolding(crate::specs::Texts::lines_text))]
fn write_lines<S: Sink>(sink: &mut S, values: &[CardValue]) -> Result<(), DeviceFault>
    ensures { Writes (S.state sink.old) (S.state sink.new) (lines_text values.now) result }
{
    for tricks in FALLING {
        write_line_if_any(sink, values, tricks)?;
    }
    Ok(())
}

/// Writes whose turn it is, and then for each number of tricks that a card leads to, the most first, a line of these
/// cards: `3  HK HQ DA`. If the sink fails, it has got a beginning of the text. Takes no memory.
#[tactic(auto, unfolding(crate::specs::Texts::values_text))]
pub fn write_values<S: Sink>(sink: &mut S, shown: &CardValues) -> Result<(), DeviceFault>
    ensures { Writes (S.state sink.old) (S.state sink.new) (values_text shown.now) result }
{
    write_all(sink, shown.trick().turn().letter().as_bytes())?;
    write_all(sink, b" to play\n")?;
    write_lines(sink, shown.values())
}

/// Writes the group of the cards that lead to this many tricks.
#[tactic(auto, unfolding(crate::specs::Texts::group_of))]
fn write_group<S: Sink>(sink: &mut S, values: &[CardValue], tricks: u8) -> Result<(), DeviceFault>
    ensures { Writes (S.state sink.old) (S.state sink.new) (group_of values.now tricks) result }
{
    write_all(sink, b"  ")?;
    write_number(sink, tricks as u64)?;
    write_worth(sink, values, tricks)
}

/// Writes the group for this many tricks, if a card leads to them.
fn write_group_if_any<S: Sink>(
    sink: &mut S,
    values: &[CardValue],
    tricks: u8,
) -> Result<(), DeviceFault>
    ensures { Writes (S.state sink.old) (S.state sink.new) (group_if_any values.now tricks) result }
{
    if is_any_worth(values, tricks) {
        write_group(sink, values, tricks)
    } else {
        Ok(())
    }
}

/// Writes for each number of tricks that a card leads to, the most first, two blanks, the number and these cards:
/// `  5 HK HQ  4 S3 C8`. If the sink fails, it has got a beginning of the text. Takes no memory.
#[tactic(auto, unfolding(crate::specs::Texts::groups_text))]
pub fn write_groups<S: Sink>(sink: &mut S, values: &[CardValue]) -> Result<(), DeviceFault>
    ensures { Writes (S.state sink.old) (S.state sink.new) (groups_text values.now) result }
{
    for tricks in FALLING {
        write_group_if_any(sink, values, tricks)?;
    }
    Ok(())
}
