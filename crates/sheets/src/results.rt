//! The table of a board.

ghost use Rattle.cards.specs.Devices.{Writes};
ghost use Rattle.sheets.specs.Results.{cells_text, row_text, rows_text, complete_text, results_text};

use crate::cells::write_cell;
use crate::templates::{INCOMPLETE, ROW, ROW_END, TABLE, TABLE_END};
use crate::values::{write_with_number, write_with_seat};
use cards::{DeviceFault, Seat, Sink, Suit, Trump, write_all};
use tables::{Results, count_results};

/// The denominations in the order of the columns.
const COLUMNS: [Trump; 5] = [
    Trump::Suit(Suit::Clubs),
    Trump::Suit(Suit::Diamonds),
    Trump::Suit(Suit::Hearts),
    Trump::Suit(Suit::Spades),
    Trump::Nt,
];

/// Writes the cells of a declarer, of each result that is known.
fn write_cells<S: Sink, T: Results>(
    sink: &mut S,
    results: &T,
    board: usize,
    declarer: Seat,
) -> Result<(), DeviceFault>
    ensures { Writes (S.state sink.old) (S.state sink.new)
        (cells_text (T.printed_of results.now board).results declarer) result }
{
    for trump in COLUMNS {
        if let Some(tricks) = results.result(board, declarer, trump) {
            write_cell(sink, tricks)?;
        }
    }
    Ok(())
}

/// Writes the row of a declarer.
fn write_row<S: Sink, T: Results>(
    sink: &mut S,
    results: &T,
    board: usize,
    declarer: Seat,
) -> Result<(), DeviceFault>
    ensures { Writes (S.state sink.old) (S.state sink.new)
        (row_text (T.printed_of results.now board).results declarer) result }
{
    write_with_seat(sink, ROW, declarer)?;
    write_cells(sink, results, board, declarer)?;
    write_all(sink, ROW_END)
}

/// Writes the rows of a board.
fn write_rows<S: Sink, T: Results>(
    sink: &mut S,
    results: &T,
    board: usize,
) -> Result<(), DeviceFault>
    ensures { Writes (S.state sink.old) (S.state sink.new) (rows_text (T.printed_of results.now board).results) result }
{
    write_row(sink, results, board, Seat::North)?;
    write_row(sink, results, board, Seat::South)?;
    write_row(sink, results, board, Seat::East)?;
    write_row(sink, results, board, Seat::West)
}

/// Writes a complete table.
fn write_complete<S: Sink, T: Results>(
    sink: &mut S,
    results: &T,
    board: usize,
) -> Result<(), DeviceFault>
    ensures { Writes (S.state sink.old) (S.state sink.new)
        (complete_text (T.printed_of results.now board).results) result }
{
    write_all(sink, TABLE)?;
    write_rows(sink, results, board)?;
    write_all(sink, TABLE_END)
}

/// Writes the table of a board, or how many of its results are known if these are not all twenty.
pub(crate) fn write_results<S: Sink, T: Results>(
    sink: &mut S,
    results: &T,
    board: usize,
) -> Result<(), DeviceFault>
    ensures { Writes (S.state sink.old) (S.state sink.new)
        (results_text (T.printed_of results.now board).results) result }
{
    let known = count_results(results, board);
    if known < 20 {
        write_with_number(sink, INCOMPLETE, known as u64)
    } else {
        write_complete(sink, results, board)
    }
}
