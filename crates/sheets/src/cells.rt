//! A result in a table.

ghost use Rattle.std.specs.Prelude.{◌≡◌, ◌<◌};
ghost use Rattle.std.specs.Fmt.{decimal};
ghost use Rattle.cards.specs.Devices.{Writes};
ghost use Rattle.html.specs.Templates.{filled};
ghost use Rattle.sheets.specs.CellText.{level_shown, in_parentheses, tricks_shown, cell_place, cell_value};
ghost use Rattle.sheets.specs.declared.templates.TheConstants as template;

use crate::names::is_named;
use crate::templates::CELL;
use cards::{DeviceFault, Sink, write_all, write_number};
use html::{Values, write_filled};

/// A place of a cell's template.
enum CellPlace {
    /// The level that makes.
    Level,
    /// The tricks in parentheses, if no level makes.
    Tricks,
}

/// The place of this name.
fn cell_place(name: &[u8]) -> Option<CellPlace>
    ensures { result ≡ cell_place name.now }
{
    if is_named(name, b"level") {
        Some(CellPlace::Level)
    } else if is_named(name, b"tricks") {
        Some(CellPlace::Tricks)
    } else {
        None
    }
}

/// Writes the level that makes, if there is one.
fn write_level<S: Sink>(sink: &mut S, tricks: u8) -> Result<(), DeviceFault>
    ensures { Writes (S.state sink.old) (S.state sink.new) (level_shown tricks) result }
{
    if tricks > 6 {
        write_number(sink, (tricks - 6) as u64)
    } else {
        Ok(())
    }
}

/// Writes a number in parentheses.
fn write_in_parentheses<S: Sink>(sink: &mut S, number: u8) -> Result<(), DeviceFault>
    ensures { Writes (S.state sink.old) (S.state sink.new) (in_parentheses (decimal number)) result }
{
    write_all(sink, b"(")?;
    write_number(sink, number as u64)?;
    write_all(sink, b")")
}

/// Writes the tricks in parentheses, if no level makes.
fn write_tricks<S: Sink>(sink: &mut S, tricks: u8) -> Result<(), DeviceFault>
    ensures { Writes (S.state sink.old) (S.state sink.new) (tricks_shown tricks) result }
{
    if tricks > 6 {
        Ok(())
    } else {
        write_in_parentheses(sink, tricks)
    }
}

/// The values of a result's cell.
#[derive(Drop)]
struct CellValues {
    /// How many tricks declarer takes.
    tricks: u8,
}

/// How many tricks they are of.
fn tricks_of(cell: &CellValues) -> u8
    ensures value { result ≡ cell.now.tricks }
    ensures byte { result < 256 }
{
    cell.tricks
}

impl Values for CellValues {
    ghost values = { λ cell. cell_value cell.tricks };

    fn write<S: Sink>(&self, sink: &mut S, name: &[u8]) -> Result<(), DeviceFault> {
        match cell_place(name) {
            Some(CellPlace::Level) => write_level(sink, tricks_of(self)),
            Some(CellPlace::Tricks) => write_tricks(sink, tricks_of(self)),
            None => Ok(()),
        }
    }
}

/// Writes the cell of a result.
pub(crate) fn write_cell<S: Sink>(sink: &mut S, tricks: u8) -> Result<(), DeviceFault>
    ensures { Writes (S.state sink.old) (S.state sink.new) (filled (cell_value tricks) template.CELL.now) result }
{
    write_filled(sink, CELL, &CellValues { tricks })
}
