//! The sheet of a tournament.

ghost use Rattle.std.specs.Prelude.{◌≡◌, map, slice_index_or, length, IfOk};
ghost use Rattle.cards.specs.Devices.{Writes};
ghost use Rattle.board_conditions.specs.Titles.{titles_said};
ghost use Rattle.tables.specs.TablesText.{complete_count};
ghost use Rattle.sheets.specs.Pages.{unknown, no_titles, titles_at, boards_text, head_text, without_section};
ghost use Rattle.sheets.specs.Pages.{sheet_text};

use crate::boards::write_board;
use crate::headings::{titles_after, write_group, write_titles};
use crate::templates::{BODY, END, HEAD, STYLE};
use board_conditions::{Conditions, Titles};
use cards::{DeviceFault, Sink, write_all};
use tables::{Report, Results, count_complete};

/// What is said of the titles of a board, by its place from 0.
fn titles_of<'a>(titles: &[Titles<'a>], place: usize) -> Titles<'a>
    ensures { titles_said result ≡ slice_index_or (map titles_said titles.entry.now) place no_titles }
{
    match titles.get(place) {
        Some(titles) => *titles,
        None => Titles {
            event: None,
            section: None,
            site: None,
            date: None,
        },
    }
}

/// The titles of a board, by its place from 0, behind one with these titles.
fn titles_at<'a>(titles: &[Titles<'a>], before: Titles<'a>, place: usize) -> Titles<'a>
    ensures { titles_said result ≡ titles_at (map titles_said titles.entry.now) (titles_said before.entry) place }
{
    titles_after(before, titles_of(titles, place))
}

/// The conditions of a board, by its place from 0.
fn conditions_at(conditions: &[Conditions], place: usize) -> Conditions
    ensures { result ≡ slice_index_or conditions.now place unknown }
{
    match conditions.get(place) {
        Some(conditions) => *conditions,
        None => Conditions {
            dealer: None,
            vulnerable: None,
        },
    }
}

/// Writes the boards, each behind the heading of its event and section, if these begin with it.
fn write_boards<'a, S: Sink, T: Results>(
    sink: &mut S,
    results: &T,
    first: Titles<'a>,
    titles: &[Titles<'a>],
    conditions: &[Conditions],
) -> Result<(), DeviceFault>
    ensures { Writes (S.state sink.old) (S.state sink.new)
        (boards_text (map titles_said titles.entry.now) conditions.now (T.printed_of results.now)
        (titles_said first.entry) 0 (T.boards_of results.now)) result }
{
    let boards = results.boards();
    let mut before = first;
    let mut place = 0;
    while place < boards.len() {
        let current = titles_at(titles, before, place);
        write_group(sink, before, current)?;
        write_board(
            sink,
            results,
            place,
            &boards[place],
            conditions_at(conditions, place),
        )?;
        before = current;
        place += 1;
    }
    Ok(())
}

/// Writes the head of a sheet.
fn write_head<S: Sink>(sink: &mut S, head: Titles<'_>) -> Result<(), DeviceFault>
    ensures { Writes (S.state sink.old) (S.state sink.new) (head_text (titles_said head.entry)) result }
{
    write_titles(sink, HEAD, head)?;
    write_all(sink, STYLE)?;
    write_titles(sink, BODY, head)
}

/// The titles without a section.
fn without_section(head: Titles<'_>) -> Titles<'_>
    ensures { titles_said result ≡ without_section (titles_said head.entry) }
{
    Titles {
        section: None,
        ..head
    }
}

/// Writes all boards behind a head with these titles.
fn write_all_boards<'a, S: Sink, T: Results>(
    sink: &mut S,
    results: &T,
    head: Titles<'a>,
    titles: &[Titles<'a>],
    conditions: &[Conditions],
) -> Result<(), DeviceFault>
    ensures { Writes (S.state sink.old) (S.state sink.new)
        (boards_text (map titles_said titles.entry.now) conditions.now (T.printed_of results.now)
        (without_section (titles_said head.entry)) 0 (T.boards_of results.now)) result }
{
    write_boards(sink, results, without_section(head), titles, conditions)
}

/// Writes the whole page.
fn write_whole<'a, S: Sink, T: Results>(
    sink: &mut S,
    results: &T,
    head: Titles<'a>,
    titles: &[Titles<'a>],
    conditions: &[Conditions],
) -> Result<(), DeviceFault>
    ensures { Writes (S.state sink.old) (S.state sink.new)
        (sheet_text (titles_said head.entry) (T.boards_of results.now) (map titles_said titles.entry.now) conditions.now
        (T.printed_of results.now)) result }
{
    write_head(sink, head)?;
    write_all_boards(sink, results, head, titles, conditions)?;
    write_all(sink, END)
}

/// Writes the sheet of the boards as a page of HTML, with these titles in its head, and tells how many boards there are
/// and how many of their tables are complete. Of each board there are the titles and the conditions, by its place.
/// After a fault of the sink a beginning of the page has gone out. Takes no memory.
pub fn write_page<'a, S: Sink, T: Results>(
    sink: &mut S,
    results: &T,
    head: Titles<'a>,
    titles: &[Titles<'a>],
    conditions: &[Conditions],
) -> Result<Report, DeviceFault>
    ensures writes { Writes (S.state sink.old) (S.state sink.new)
        (sheet_text (titles_said head.entry) (T.boards_of results.now) (map titles_said titles.entry.now) conditions.now
        (T.printed_of results.now)) result }
    ensures boards { IfOk result (λ report. report.boards ≡ length (T.boards_of results.now)) }
    ensures complete { IfOk result (λ report. report.complete
        ≡ complete_count (T.boards_of results.now) (T.printed_of results.now)) }
{
    write_whole(sink, results, head, titles, conditions)?;
    Ok(Report {
        boards: results.boards().len(),
        complete: count_complete(results),
    })
}
