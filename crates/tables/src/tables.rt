//! The table of a board.

ghost use Rattle.std.specs.Prelude.{◌≡◌, ◌<◌, ◌≤◌, ◌++◌};
ghost use Rattle.std.specs.List.{flat_map};
ghost use Rattle.cards.specs.Devices.{Writes};
ghost use Rattle.tables.specs.TablesText.{entry_row, entries_of, rows_text, table_text};
ghost use Rattle.tables.specs.TablesText.{published_among, published_count, complete_count, incomplete_text};
ghost use Rattle.tables.specs.TablesText.{section_text};

use crate::pars::write_par;
use crate::pieces::write_line;
use crate::results::Results;
use crate::rows::{two_places, write_row};
use cards::{DeviceFault, Seat, Sink, Trump};

/// The declarers in the order of the rows.
pub const DECLARERS: [Seat; 4] = [Seat::North, Seat::South, Seat::East, Seat::West];

/// The heading of a complete table (PBN 2.1, the OptimumResultTable tag).
const TABLE_TAG: &[u8] = b"[OptimumResultTable \"Declarer;Denomination\\2R;Result\\2R\"]";

/// Writes the rows of a declarer.
fn write_declarer_rows<S: Sink, T: Results>(
    sink: &mut S,
    results: &T,
    board: usize,
    declarer: Seat,
    end: &[u8],
) -> Result<(), DeviceFault>
    ensures { Writes (S.state sink.old) (S.state sink.new)
        (flat_map (entry_row end.now (T.printed_of results.now board).results) (entries_of declarer)) result }
{
    for trump in Trump::ALL {
        if let Some(tricks) = results.result(board, declarer, trump) {
            write_row(sink, declarer, trump, tricks, end)?;
        }
    }
    Ok(())
}

/// Writes the rows of a board.
fn write_rows<S: Sink, T: Results>(
    sink: &mut S,
    results: &T,
    board: usize,
    end: &[u8],
) -> Result<(), DeviceFault>
    ensures { Writes (S.state sink.old) (S.state sink.new)
        (rows_text end.now (T.printed_of results.now board).results) result }
{
    for declarer in DECLARERS {
        write_declarer_rows(sink, results, board, declarer, end)?;
    }
    Ok(())
}

/// How many results a declarer has.
fn count_declarer_results<T: Results>(results: &T, board: usize, declarer: Seat) -> u8
    ensures count { result ≡ published_among (T.printed_of results.now board).results (entries_of declarer) }
    ensures at_most_5 { result ≤ 5 }
{
    let mut count = 0;
    for trump in Trump::ALL {
        if results.result(board, declarer, trump).is_some() {
            count += 1;
        }
    }
    count
}

/// How many results a board has, by its place from 0.
pub fn count_results<T: Results>(results: &T, board: usize) -> u8
    ensures count { result ≡ published_count (T.printed_of results.now board).results }
    ensures at_most_20 { result ≤ 20 }
{
    let mut count = 0;
    for declarer in DECLARERS {
        count += count_declarer_results(results, board, declarer);
    }
    count
}

/// Writes the line that stands in place of an incomplete table.
fn write_incomplete<S: Sink>(sink: &mut S, published: u8, end: &[u8]) -> Result<(), DeviceFault>
    requires { published < 100 }
    ensures { Writes (S.state sink.old) (S.state sink.new) (incomplete_text published ++ end.now) result }
{
    let places = two_places(published);
    let digits = if published < 10 {
        &places[1..]
    } else {
        &places[..]
    };
    write_line(sink, &[b"; table incomplete: ", digits, b" of 20"], end)
}

/// How many boards have all twenty results.
pub fn count_complete<T: Results>(results: &T) -> usize
    ensures { result ≡ complete_count (T.boards_of results.now) (T.printed_of results.now) }
{
    let mut complete = 0;
    for place in 0..results.boards().len() {
        if count_results(results, place) == 20 {
            complete += 1;
        }
    }
    complete
}

/// Writes the table of a board, by its place from 0, each line with this end.
fn write_table<S: Sink, T: Results>(
    sink: &mut S,
    results: &T,
    board: usize,
    end: &[u8],
) -> Result<(), DeviceFault>
    ensures { Writes (S.state sink.old) (S.state sink.new)
        (table_text end.now (T.printed_of results.now board).results) result }
{
    let published = count_results(results, board);
    if published < 20 {
        return write_incomplete(sink, published, end);
    }
    write_line(sink, &[TABLE_TAG], end)?;
    write_rows(sink, results, board, end)
}

/// Writes the par of a board, by its place from 0, if it is printed, and its table, each line with this
/// end. After a fault of the sink a beginning of the text has gone out. Takes no memory.
pub fn write_section<S: Sink, T: Results>(
    sink: &mut S,
    results: &T,
    board: usize,
    end: &[u8],
) -> Result<(), DeviceFault>
    ensures { Writes (S.state sink.old) (S.state sink.new)
        (section_text end.now (T.printed_of results.now board)) result }
{
    write_par(sink, results.par(board), end)?;
    write_table(sink, results, board, end)
}
