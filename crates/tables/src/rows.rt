//! How a row of a table is printed.

ghost use Rattle.std.specs.Prelude.{◌≡◌, ◌<◌, ◌++◌};
ghost use Rattle.std.specs.Fmt.{decimal};
ghost use Rattle.cards.specs.Devices.{Writes};
ghost use Rattle.tables.specs.TablesText.{right_in_two, row_text};

use crate::pieces::write_line;
use cards::{DeviceFault, Seat, Sink, Trump};

/// A number, right in two places.
pub(crate) fn two_places(number: u8) -> [u8; 2]
    requires { number < 100 }
    ensures { result ≡ right_in_two (decimal number) }
{
    let tens = if number < 10 {
        b' '
    } else {
        b'0' + number / 10
    };
    [tens, b'0' + number % 10]
}

/// Writes a row, with the end of its line.
pub(crate) fn write_row<S: Sink>(
    sink: &mut S,
    declarer: Seat,
    trump: Trump,
    tricks: u8,
    end: &[u8],
) -> Result<(), DeviceFault>
    requires { tricks < 100 }
    ensures { Writes (S.state sink.old) (S.state sink.new) (row_text declarer trump tricks ++ end.now) result }
{
    let letters = trump.letters().as_bytes();
    let indent: &[u8] = if letters.len() < 2 { b" " } else { b"" };
    write_line(
        sink,
        &[
            declarer.letter().as_bytes(),
            b" ",
            indent,
            letters,
            b" ",
            &two_places(tricks),
        ],
        end,
    )
}
