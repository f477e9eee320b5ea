//! How a run ends with a page, and what is said of it.

ghost use Rattle.std.specs.Prelude.{◌≡◌};
ghost use Rattle.board_subcommands.specs.Reports.{deal_count, lacking_tables, notes_with, page_status, refusal_count};
ghost use Rattle.board_subcommands.specs.Reports.{is_refused_reply, searched_notes, unshown_notes};

use crate::notes::{Lacking, Notes, Searches};
use lease_book::{Book, Event, Reply};
use pbn_deals::Board;
use run_ends::Status;
use tables::Report;
use tournaments::PageForm;

/// How many boards have a deal.
fn count_deals(boards: &[Board]) -> usize
    ensures { result ≡ deal_count boards.now }
{
    let mut count = 0;
    for board in boards {
        count += usize::from(board.deal.is_some());
    }
    count
}

/// How many claims a history refuses.
pub(crate) fn count_refusals(events: &[Event]) -> u64
    ensures { result ≡ refusal_count events.now }
{
    let mut count = 0;
    for event in events {
        count += u64::from(is_refusal(event.reply));
    }
    count
}

/// Whether a reply refuses what a claim is to show.
fn is_refusal(reply: Reply) -> bool
    ensures { result ≡ is_refused_reply reply }
{
    match reply {
        Reply::BadCertificate(_) => true,
        _ => false,
    }
}

/// How many tables of boards with a deal are incomplete.
fn lacking_tables(report: Report, boards: &[Board]) -> u64
    ensures { result ≡ lacking_tables report boards.now }
{
    count_deals(boards).saturating_sub(report.complete) as u64
}

/// Whether the page shows an incomplete table. The tables alone show one for a board without a deal too; the whole
/// input stays as it is there, and a sheet has no table.
pub(crate) fn page_status(page: PageForm, report: Report, boards: &[Board]) -> Status
    ensures { result ≡ page_status page report boards.now }
{
    let wanted = match page {
        PageForm::Tables => report.boards,
        PageForm::Whole | PageForm::Sheet => count_deals(boards),
    };
    if report.complete < wanted {
        Status::Incomplete
    } else {
        Status::Done
    }
}

/// What is said of a page, if these tables are incomplete.
fn notes_with(report: Report, boards: &[Board], lacking: Lacking) -> Notes
    ensures { result ≡ notes_with report boards.now lacking }
{
    Notes {
        lacks_boards: report.boards == 0,
        undealt: boards.len().saturating_sub(count_deals(boards)) as u64,
        read_only: false,
        lacking,
    }
}

/// What is said of a page for whose numbers searches were made.
pub(crate) fn searched_notes(report: Report, book: &Book, searches: Searches) -> Notes
    ensures { result ≡ searched_notes report book.now.terms.boards searches }
{
    let lacking = match lacking_tables(report, book.boards()) {
        0 => Lacking::Nothing,
        tables => Lacking::Searched(tables, searches),
    };
    notes_with(report, book.boards(), lacking)
}

/// What is said of a page with the numbers that evidence shows.
pub(crate) fn unshown_notes(report: Report, book: &Book) -> Notes
    ensures { result ≡ unshown_notes report book.now.terms.boards }
{
    let lacking = match lacking_tables(report, book.boards()) {
        0 => Lacking::Nothing,
        tables => Lacking::Unshown(tables),
    };
    notes_with(report, book.boards(), lacking)
}
