//! A Deal value alone.

ghost use Rattle.std.specs.Prelude.{◌≡◌, Some};
ghost use Rattle.pbn_deals.specs.DealValue.{naming_of, naming_from};
ghost use Rattle.pbn_deals.specs.LayoutValue.{SaysLayout};
ghost use Rattle.pbn_deals.specs.Words.{ReadsNaming};

use crate::dealings::Dealing;
use crate::faults::PbnFault;
use crate::hands::{after_blanks, first_word};
use crate::letters::seat_of_letter;
use cards::{Layout, Seat};

/// The layout that a Deal value says, of 1 to 13 cards a hand (PBN 2.1, 3.4.11), or its first fault, with line 1:
/// `DealForm` for every other form, a hand that is not known among them, `CardTwice`, or `HandSize` for hands that are
/// unequal, empty or of over 13 cards. Takes no memory.
pub fn read_layout(value: &[u8]) -> Result<Layout, PbnFault>
    ensures { SaysLayout value.now result }
{
    let Some(dealing) = read_dealing(value) else {
        return Err(PbnFault::DealForm { line: 1 });
    };
    if dealing.is_partial {
        return Err(PbnFault::DealForm { line: 1 });
    }
    if dealing.is_twice {
        return Err(PbnFault::CardTwice { line: 1 });
    }
    match Layout::from_hands(dealing.hands) {
        Ok(layout) => Ok(layout),
        Err(_) => Err(PbnFault::HandSize { line: 1 }),
    }
}

/// The cards that a value names, if it is a seat letter, a colon and four hands (PBN 2.1, 3.4.11). The hands may be of
/// any sizes, and a card may be in two of them. Takes no memory.
pub fn read_dealing(value: &[u8]) -> Option<Dealing>
    ensures { ReadsNaming result (naming_of value.now) }
{
    let [letter, colon, hands @ ..] = after_blanks(value) else {
        return None;
    };
    if *colon != b':' {
        return None;
    }
    let first = seat_of_letter(*letter)?;
    read_hands(first, hands)
}

/// What the four hands clockwise from the seat say.
fn read_hands(first: Seat, text: &[u8]) -> Option<Dealing>
    ensures { ReadsNaming result (naming_from (Some first) text.now) }
{
    let mut dealing = Dealing::new();
    let mut seat = first;
    let mut rest = text;
    for _hand in 0..4u8 {
        let (word, after) = first_word(rest)?;
        if !dealing.add_hand(seat, word) {
            return None;
        }
        seat = seat.next();
        rest = after;
    }
    match first_word(rest) {
        None => Some(dealing),
        Some(_) => None,
    }
}
