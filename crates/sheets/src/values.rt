//! A template with one value.

ghost use Rattle.std.specs.Prelude.{◌≡◌, ◌<◌, ◌^◌};
ghost use Rattle.std.specs.Fmt.{decimal};
ghost use Rattle.cards.specs.Devices.{Writes};
ghost use Rattle.cards.specs.Seats.{seat_letter};
ghost use Rattle.sheets.specs.Facts.{with_value};

use cards::{DeviceFault, Seat, Sink, write_number};
use html::{Values, write_filled, write_value};

/// One value for every place.
#[derive(Drop)]
struct OneValue<'a> {
    value: &'a [u8],
}

impl Values for OneValue<'_> {
    ghost values = { λ one place. one.value.now };

    fn write<S: Sink>(&self, sink: &mut S, _name: &[u8]) -> Result<(), DeviceFault> {
        write_value(sink, self.value)
    }
}

/// Writes a template with this value in each of its places.
pub fn write_with<S: Sink>(sink: &mut S, template: &[u8], value: &[u8]) -> Result<(), DeviceFault>
    ensures { Writes (S.state sink.old) (S.state sink.new) (with_value template.now value.now) result }
{
    write_filled(sink, template, &OneValue { value })
}

/// Writes a template with a seat's letter in each of its places.
pub fn write_with_seat<S: Sink>(
    sink: &mut S,
    template: &[u8],
    seat: Seat,
) -> Result<(), DeviceFault>
    ensures { Writes (S.state sink.old) (S.state sink.new) (with_value template.now (seat_letter seat)) result }
{
    write_with(sink, template, seat.letter().as_bytes())
}

/// One number for every place.
#[derive(Drop)]
struct OneNumber {
    number: u64,
}

/// The number.
fn number_of(one: &OneNumber) -> u64
    ensures value { result ≡ one.now.number }
    ensures below { result < 2 ^ 64 }
{
    one.number
}

impl Values for OneNumber {
    ghost use Rattle.std.specs.Fmt.{decimal};

    ghost values = { λ one place. decimal one.number };

    fn write<S: Sink>(&self, sink: &mut S, _name: &[u8]) -> Result<(), DeviceFault> {
        write_number(sink, number_of(self))
    }
}

/// Writes a template with this number in each of its places.
pub fn write_with_number<S: Sink>(
    sink: &mut S,
    template: &[u8],
    number: u64,
) -> Result<(), DeviceFault>
    ensures { Writes (S.state sink.old) (S.state sink.new) (with_value template.now (decimal number)) result }
{
    write_filled(sink, template, &OneNumber { number })
}
