//! The whole text with its tables.

ghost use Rattle.std.specs.Prelude.{◌≡◌, ◌≤◌, ◌++◌, ℕ, false, List, length, IfOk};
ghost use Rattle.std.specs.List.{flat_map, enumerate_from};
ghost use Rattle.cards.specs.Devices.{Writes};
ghost use Rattle.pbn_deals.specs.Pieces.{Line, line_bytes, rows_of, AreLines};
ghost use Rattle.tables.specs.declared.results.Renews.{Renews};
ghost use Rattle.tables.specs.TablesText.{section_text, complete_count};
ghost use Rattle.whole_texts.specs.OldTables.{left_of};
ghost use Rattle.whole_texts.specs.WholeText.{first_end, if_none, whole_lines, IsOfLines, WholeText};
ghost use Rattle.whole_texts.specs.LineEnds.{missing_end};
ghost use Rattle.whole_texts.specs.LeftText.{WritesLast};
ghost use Rattle.whole_texts.specs.FirstGame.{HasGameLines};
ghost use Rattle.whole_texts.specs.WrittenGame.{WritesGame};

use crate::games::{GameText, first_game};
use crate::leaving::{Before, write_lines};
use crate::line_ends::{if_none, missing_end};
use cards::{DeviceFault, Sink, write_all};
use pbn_deals::{first_row, front_of, without_mark};
use tables::{Renews, Report, Results, count_complete};

/// The end of the text's first line, if it has one, and else a line feed.
fn first_end(text: &[u8]) -> &[u8]
    ensures { (lines : List Line) → AreLines false (rows_of text.now) lines false → result.now ≡ first_end lines }
{
    let Some((row, _)) = first_row(text) else {
        return b"\n";
    };
    if_none(b"\n", row.end)
}

/// Writes the lines of a game as they are.
fn write_same<S: Sink>(sink: &mut S, game: &GameText<'_>) -> Result<(), DeviceFault>
    ensures { (old : Renews) (lines : List Line) → HasGameLines old lines game.now
        → Writes (S.state sink.old) (S.state sink.new) (flat_map line_bytes lines) result }
{
    write_all(sink, game.front)?;
    write_all(sink, game.back)
}

/// Writes what is left of the lines of a game. Answers the last byte.
fn write_left_of_game<S: Sink>(
    sink: &mut S,
    renews: Renews,
    game: &GameText<'_>,
) -> Result<Option<u8>, DeviceFault>
    ensures { (lines : List Line) → HasGameLines renews lines game.now
        → WritesLast (S.state sink.old) (S.state sink.new) None (flat_map line_bytes (left_of renews lines)) result }
{
    let before = write_lines(sink, renews, Before::first(), game.front, false)?;
    let behind = write_lines(sink, renews, before, game.back, true)?;
    Ok(behind.last)
}

/// Writes the section of a board after lines with this last byte: with the end of the Deal tag's line, or if that has
/// none, with the end that it gets.
fn write_section<T: Results, S: Sink>(
    sink: &mut S,
    results: &T,
    place: usize,
    deal_end: &[u8],
    other: &[u8],
    last: Option<u8>,
) -> Result<(), DeviceFault>
    ensures { Writes (S.state sink.old) (S.state sink.new)
        (missing_end last (if_none other.now deal_end.now)
        ++ section_text (if_none (missing_end last (if_none other.now deal_end.now)) deal_end.now)
        (T.printed_of results.now place)) result }
{
    let missing = missing_end(last, if_none(other, deal_end));
    write_all(sink, missing)?;
    tables::write_section(sink, results, place, if_none(missing, deal_end))
}

/// Writes the lines of a game, of which the board is at this place, if it has a Deal tag. Answers the place of the next
/// board.
fn write_game<T: Results, S: Sink>(
    sink: &mut S,
    results: &T,
    place: usize,
    game: &GameText<'_>,
    other: &[u8],
) -> Result<usize, DeviceFault>
    ensures { (lines : List Line) → HasGameLines (T.renews_of results.now) lines game.now
        → WritesGame (T.renews_of results.now) (S.state sink.old) (S.state sink.new) (T.boards_of results.now)
        (T.printed_of results.now) place other.now lines result }
{
    let Some(deal_end) = game.deal_end else {
        write_same(sink, game)?;
        return Ok(place);
    };
    let last = write_left_of_game(sink, results.renews(), game)?;
    let Some(board) = results.boards().get(place) else {
        return Ok(place);
    };
    if board.deal.is_some() {
        write_section(sink, results, place, deal_end, other, last)?;
    }
    Ok(place + 1)
}

/// Writes the games of a text.
fn write_games<T: Results, S: Sink>(
    sink: &mut S,
    results: &T,
    text: &[u8],
) -> Result<(), DeviceFault>
    ensures { (lines : List Line) → AreLines false (rows_of text.now) lines false
        → Writes (S.state sink.old) (S.state sink.new)
        (flat_map line_bytes
        (whole_lines (T.renews_of results.now) (T.boards_of results.now) (T.printed_of results.now) lines)) result }
{
    let other = first_end(text);
    let mut rest = text;
    let mut place = 0;
    while !rest.is_empty() {
        let game = first_game(results.renews(), rest);
        place = write_game(sink, results, place, &game, other)?;
        write_all(sink, game.gap)?;
        rest = game.rest;
    }
    Ok(())
}

/// Writes a text whose boards are those of the results, with their tables in place of those that it has. Answers how
/// many boards there are and how many of their tables are complete. After a fault of the sink a beginning of the text
/// is written. Takes no memory. A text in which a comment is open at the end has no lines, and no caller has one: it is
/// refused when its boards are read.
pub fn write_whole<T: Results, S: Sink>(
    text: &[u8],
    results: &T,
    sink: &mut S,
) -> Result<Report, DeviceFault>
    requires { IsOfLines text.now }
    ensures writes { (written : List ℕ)
        → WholeText (T.renews_of results.now) text.now (T.boards_of results.now) (T.printed_of results.now) written
        → Writes (S.state sink.old) (S.state sink.new) written result }
    ensures boards { IfOk result (λ report. report.boards ≡ length (T.boards_of results.now)) }
    ensures complete { IfOk result (λ report. report.complete
        ≡ complete_count (T.boards_of results.now) (T.printed_of results.now)) }
{
    let lines = without_mark(text);
    write_all(sink, front_of(text, lines))?;
    write_games(sink, results, lines)?;
    Ok(Report {
        boards: results.boards().len(),
        complete: count_complete(results),
    })
}
