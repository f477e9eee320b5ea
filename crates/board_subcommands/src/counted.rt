//! A number of things, as it is printed.

ghost use Rattle.cards.specs.Devices.{Writes};
ghost use Rattle.board_subcommands.specs.Counted.{counted};

use cards::{DeviceFault, Sink, write_all, write_number};

/// Writes the words for one thing, or the number and the words for any other number.
pub(crate) fn write_counted<E: Sink>(
    count: u64,
    one: &[u8],
    others: &[u8],
    errors: &mut E,
) -> Result<(), DeviceFault>
    ensures { Writes (E.state errors.old) (E.state errors.new) (counted count one.now others.now) result }
{
    if count == 1 {
        return write_all(errors, one);
    }
    write_number(errors, count)?;
    write_all(errors, others)
}
