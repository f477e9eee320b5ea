//! The table of a play.

ghost use Rattle.std.specs.Prelude.{◌≡◌, ◌≤◌, ◌<◌, length};
ghost use Rattle.cards.specs.Devices.{Writes};
ghost use Rattle.play_sheets.specs.Tricks.{trick_winner, number_after, is_winner, seat_text, place_text, cell_text};
ghost use Rattle.play_sheets.specs.Tricks.{cells_text, row_text, trick_count, row_at, rows_text, total_text};
ghost use Rattle.play_sheets.specs.Tricks.{totals_text, table_text};

use crate::cells::{write_marked, write_with_known};
use crate::templates::{CELL, CELL_END, NUMBER, ROW, TABLE, TABLE_END, TOTALS};
use cards::{DeviceFault, Seat, Sink, Trump, write_all};
use play_pages::{CardLine, PlayLines, total_of, wide};
use play_rules::winner;
use sheets::templates::ROW_END;
use sheets::write_with_number;

/// The seat that wins the trick of the first four lines, if there are four (Law 44E and 44F).
fn trick_winner(trump: Trump, trick: &[CardLine]) -> Option<Seat>
    ensures { result ≡ trick_winner trump trick.now }
{
    match trick {
        [a, b, c, d, ..] => Some(winner(trump, a.seat, a.card, b.card, c.card, d.card)),
        _ => None,
    }
}

/// Declarer's number after the trick of the first four lines, or the last one if there are fewer.
fn number_after(end: Option<u8>, trick: &[CardLine]) -> Option<u8>
    ensures { result ≡ number_after end trick.now }
{
    match trick {
        [_, _, _, last, ..] => last.after,
        _ => end,
    }
}

/// Whether the seat wins the trick.
fn is_winner(winner: Option<Seat>, seat: Seat) -> bool
    ensures { result ≡ is_winner winner seat }
{
    match winner {
        Some(winner) => winner == seat,
        None => false,
    }
}

/// Writes the card of a line, if the seat played it.
fn write_seat<S: Sink>(
    sink: &mut S,
    seat: Seat,
    winner: Option<Seat>,
    leads: bool,
    line: &CardLine,
) -> Result<(), DeviceFault>
    ensures { Writes (S.state sink.old) (S.state sink.new) (seat_text seat winner leads line.now) result }
{
    if line.seat == seat {
        write_marked(sink, leads, is_winner(winner, seat), line)
    } else {
        Ok(())
    }
}

/// Writes the card in this place of a trick, if there is one and the seat played it.
fn write_place<S: Sink>(
    sink: &mut S,
    seat: Seat,
    winner: Option<Seat>,
    trick: &[CardLine],
    place: usize,
) -> Result<(), DeviceFault>
    ensures { Writes (S.state sink.old) (S.state sink.new) (place_text seat winner trick.now place) result }
{
    match trick.get(place) {
        Some(line) => write_seat(sink, seat, winner, place == 0, line),
        None => Ok(()),
    }
}

/// Writes the cell of a seat.
#[tactic(auto, unfolding(crate::specs::Tricks::cell_text))]
fn write_cell<S: Sink>(
    sink: &mut S,
    winner: Option<Seat>,
    trick: &[CardLine],
    seat: Seat,
) -> Result<(), DeviceFault>
    ensures { Writes (S.state sink.old) (S.state sink.new) (cell_text winner trick.now seat) result }
{
    write_all(sink, CELL)?;
    write_place(sink, seat, winner, trick, 0)?;
    write_place(sink, seat, winner, trick, 1)?;
    write_place(sink, seat, winner, trick, 2)?;
    write_place(sink, seat, winner, trick, 3)?;
    write_all(sink, CELL_END)
}

/// Writes the cells of the four seats.
#[tactic(auto, unfolding(crate::specs::Tricks::cells_text))]
fn write_cells<S: Sink>(
    sink: &mut S,
    winner: Option<Seat>,
    trick: &[CardLine],
) -> Result<(), DeviceFault>
    ensures { Writes (S.state sink.old) (S.state sink.new) (cells_text winner trick.now) result }
{
    write_cell(sink, winner, trick, Seat::West)?;
    write_cell(sink, winner, trick, Seat::North)?;
    write_cell(sink, winner, trick, Seat::East)?;
    write_cell(sink, winner, trick, Seat::South)
}

/// Writes the row of a trick. Its lines come first in those given.
#[tactic(auto, unfolding(crate::specs::Tricks::row_text))]
fn write_row<S: Sink>(
    sink: &mut S,
    trump: Trump,
    end: Option<u8>,
    trick: &[CardLine],
    number: usize,
) -> Result<(), DeviceFault>
    ensures { Writes (S.state sink.old) (S.state sink.new) (row_text trump end trick.now number) result }
{
    write_with_number(sink, ROW, number as u64)?;
    write_cells(sink, trick_winner(trump, trick), trick)?;
    write_with_known(sink, NUMBER, wide(number_after(end, trick)))?;
    write_all(sink, ROW_END)
}

/// How many tricks the lines are of.
fn trick_count(lines: &[CardLine]) -> usize
    requires { length lines.now ≤ 52 }
    ensures { result ≡ trick_count lines.now }
{
    (lines.len() + 3) / 4
}

/// Writes the row of the trick in this place, counted from 0.
fn write_row_at<S: Sink>(
    sink: &mut S,
    trump: Trump,
    end: Option<u8>,
    lines: &[CardLine],
    place: usize,
) -> Result<(), DeviceFault>
    requires few { length lines.now ≤ 52 }
    requires within { place < trick_count lines.now }
    ensures { Writes (S.state sink.old) (S.state sink.new) (row_at trump end lines.now place) result }
{
    write_row(sink, trump, end, &lines[4 * place..], place + 1)
}

/// Writes the rows of all tricks.
#[tactic(auto, unfolding(crate::specs::Tricks::rows_text))]
fn write_rows<S: Sink>(
    sink: &mut S,
    trump: Trump,
    end: Option<u8>,
    lines: &[CardLine],
) -> Result<(), DeviceFault>
    requires { length lines.now ≤ 52 }
    ensures { Writes (S.state sink.old) (S.state sink.new) (rows_text trump end lines.now) result }
{
    for place in 0..trick_count(lines) {
        write_row_at(sink, trump, end, lines, place)?;
    }
    Ok(())
}

/// Writes what a seat loses in all.
fn write_total<S: Sink>(sink: &mut S, lines: &[CardLine], seat: Seat) -> Result<(), DeviceFault>
    requires { length lines.now ≤ 52 }
    ensures { Writes (S.state sink.old) (S.state sink.new) (total_text lines.now seat) result }
{
    write_with_known(sink, NUMBER, total_of(seat, lines))
}

/// Writes what the seats lose in all.
#[tactic(auto, unfolding(crate::specs::Tricks::totals_text))]
fn write_totals<S: Sink>(sink: &mut S, lines: &[CardLine]) -> Result<(), DeviceFault>
    requires { length lines.now ≤ 52 }
    ensures { Writes (S.state sink.old) (S.state sink.new) (totals_text lines.now) result }
{
    write_all(sink, TOTALS)?;
    write_total(sink, lines, Seat::West)?;
    write_total(sink, lines, Seat::North)?;
    write_total(sink, lines, Seat::East)?;
    write_total(sink, lines, Seat::South)?;
    write_all(sink, TABLE_END)
}

/// Writes the table of a play with this trump.
#[tactic(auto, unfolding(crate::specs::Tricks::table_text))]
pub(crate) fn write_table<S: Sink>(
    sink: &mut S,
    trump: Trump,
    lines: &PlayLines,
) -> Result<(), DeviceFault>
    ensures { Writes (S.state sink.old) (S.state sink.new) (table_text trump lines.now) result }
{
    let cards = lines.lines.as_slice();
    write_with_known(sink, TABLE, wide(lines.start))?;
    write_rows(sink, trump, lines.end, cards)?;
    write_totals(sink, cards)
}
