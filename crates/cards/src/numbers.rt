//! Numbers in a text.

ghost use Rattle.std.specs.Fmt.{decimal};
ghost use Rattle.cards.specs.Devices.{Writes};

use crate::devices::{DeviceFault, Sink, write_all};

/// Writes the decimal digits of the number. After a fault a beginning of them has gone out. Takes no memory.
pub fn write_number<S: Sink>(sink: &mut S, number: u64) -> Result<(), DeviceFault>
    ensures { Writes (S.state sink.old) (S.state sink.new) (decimal number) result }
{
    if number < 10 {
        return write_all(sink, &[b'0' + number as u8]);
    }
    write_number(sink, number / 10)?;
    write_all(sink, &[b'0' + (number % 10) as u8])
}
