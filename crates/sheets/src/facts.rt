//! Who deals and who is vulnerable, in words and round the compass.

ghost use Rattle.std.specs.Prelude.{◌≡◌};
ghost use Rattle.cards.specs.Devices.{Writes};
ghost use Rattle.sheets.specs.Facts.{dealer_text, vulnerable_text, is_dealer, is_exposed};
ghost use Rattle.sheets.specs.Facts.{seat_template, seat_text, seats_text, words_text, facts_text};

use crate::templates::{
    COMPASS, DEALER, DEALS, DEALS_EXPOSED, EXPOSED, FACTS, HANDS, SEAT, VULNERABLE,
};
use crate::values::{write_with, write_with_seat};
use board_conditions::Conditions;
use cards::{DeviceFault, Seat, Sink, write_all};
use par::{Vulnerability, VulnerableSides};
use tables::sides_shown;

/// Writes who deals, if that is known.
fn write_dealer<S: Sink>(sink: &mut S, dealer: Option<Seat>) -> Result<(), DeviceFault>
    ensures { Writes (S.state sink.old) (S.state sink.new) (dealer_text dealer) result }
{
    match dealer {
        Some(dealer) => write_with_seat(sink, DEALER, dealer),
        None => Ok(()),
    }
}

/// Writes who is vulnerable, if that is known.
fn write_vulnerable<S: Sink>(
    sink: &mut S,
    vulnerable: Option<VulnerableSides>,
) -> Result<(), DeviceFault>
    ensures { Writes (S.state sink.old) (S.state sink.new) (vulnerable_text vulnerable) result }
{
    match vulnerable {
        Some(sides) => write_with(sink, VULNERABLE, sides_shown(sides)),
        None => Ok(()),
    }
}

/// Whether the seat deals.
fn is_dealer(dealer: Option<Seat>, seat: Seat) -> bool
    ensures { result ≡ is_dealer dealer seat }
{
    match dealer {
        Some(dealer) => dealer == seat,
        None => false,
    }
}

/// Whether the seat is vulnerable.
fn is_exposed(vulnerable: Option<VulnerableSides>, seat: Seat) -> bool
    ensures { result ≡ is_exposed vulnerable seat }
{
    match vulnerable {
        Some(sides) => match sides.vulnerability(seat.side()) {
            Vulnerability::Vulnerable => true,
            Vulnerability::NotVulnerable => false,
        },
        None => false,
    }
}

/// The template of a seat that deals or not, and is vulnerable or not.
fn seat_template(deals: bool, is_exposed: bool) -> &'static [u8]
    ensures { result.now ≡ seat_template deals is_exposed }
{
    match (deals, is_exposed) {
        (false, false) => SEAT,
        (true, false) => DEALS,
        (false, true) => EXPOSED,
        (true, true) => DEALS_EXPOSED,
    }
}

/// Writes a seat of the compass.
fn write_seat<S: Sink>(sink: &mut S, conditions: Conditions, seat: Seat) -> Result<(), DeviceFault>
    ensures { Writes (S.state sink.old) (S.state sink.new) (seat_text conditions seat) result }
{
    let deals = is_dealer(conditions.dealer, seat);
    let is_exposed = is_exposed(conditions.vulnerable, seat);
    write_with_seat(sink, seat_template(deals, is_exposed), seat)
}

/// Writes the four seats of the compass.
fn write_seats<S: Sink>(sink: &mut S, conditions: Conditions) -> Result<(), DeviceFault>
    ensures { Writes (S.state sink.old) (S.state sink.new) (seats_text conditions) result }
{
    write_seat(sink, conditions, Seat::North)?;
    write_seat(sink, conditions, Seat::West)?;
    write_seat(sink, conditions, Seat::East)?;
    write_seat(sink, conditions, Seat::South)
}

/// Writes who deals and who is vulnerable in words.
fn write_words<S: Sink>(sink: &mut S, conditions: Conditions) -> Result<(), DeviceFault>
    ensures { Writes (S.state sink.old) (S.state sink.new) (words_text conditions) result }
{
    write_dealer(sink, conditions.dealer)?;
    write_vulnerable(sink, conditions.vulnerable)
}

/// Writes who deals and who is vulnerable, in words and round the compass.
pub(crate) fn write_facts<S: Sink>(sink: &mut S, conditions: Conditions) -> Result<(), DeviceFault>
    ensures { Writes (S.state sink.old) (S.state sink.new) (facts_text conditions) result }
{
    write_all(sink, FACTS)?;
    write_words(sink, conditions)?;
    write_all(sink, COMPASS)?;
    write_seats(sink, conditions)?;
    write_all(sink, HANDS)
}
