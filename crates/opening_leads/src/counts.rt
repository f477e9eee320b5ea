//! How many rows are known or missing.

ghost use Rattle.std.specs.Prelude.{◌≡◌, ◌-◌, ◌<◌, ◌≤◌, ◌^◌, length};
ghost use Rattle.opening_leads.specs.Making.{IsReportOf, undealt_count};
ghost use Rattle.opening_leads.specs.Tasks.{leads_in};
ghost use Rattle.opening_leads.specs.Texts.{counted_of, counted_on, counted_rows, missing_count, missing_of, row_count};

use crate::rows::{Counted, LeadTable};
use cards::{Layout, Seat, Trump};
use pbn_deals::Board;
use tables::DECLARERS;

/// How many contracts a board has.
pub(crate) const CONTRACTS: u8 = 20;

/// What was written.
#[derive(Clone, Copy, Debug, PartialEq, Eq)]
pub struct LeadReport {
    /// How many boards there are.
    pub boards: usize,
    /// How many of them have no deal.
    pub undealt: usize,
    /// How many rows are missing, of twenty for each board with a deal.
    pub missing: usize,
    /// For how many of them the steps ran out.
    pub steps: usize,
    /// For how many memory ran out.
    pub memory: usize,
    /// For how many the answer was refused.
    pub refused: usize,
}

/// How many rows of a declarer on a board, by its place from 0, are counted.
#[tactic(auto, unfolding(crate::specs::Texts::counted_of))]
fn count_declarer_rows(table: &LeadTable, board: usize, declarer: Seat, counted: Counted) -> u8
    requires { board < 2 ^ 32 }
    ensures count { result ≡ counted_of counted (leads_in table.now board) declarer }
    ensures at_most_5 { result ≤ 5 }
{
    let mut count = 0;
    for trump in Trump::ALL {
        if table.counts(board, declarer, trump, counted) {
            count += 1;
        }
    }
    count
}

/// How many of the twenty rows of a board, by its place from 0, are counted.
#[tactic(auto, unfolding(crate::specs::Texts::row_count))]
pub(crate) fn count_rows(table: &LeadTable, board: usize, counted: Counted) -> u8
    requires { board < 2 ^ 32 }
    ensures count { result ≡ row_count counted (leads_in table.now board) }
    ensures at_most_20 { result ≤ 20 }
{
    let mut count = 0;
    for declarer in DECLARERS {
        count += count_declarer_rows(table, board, declarer, counted);
    }
    count
}

/// How many rows of a board are missing, by its place from 0, if it has this deal.
fn count_missing_on(table: &LeadTable, place: usize, deal: &Option<Layout>) -> usize
    requires { place < 2 ^ 32 }
    ensures count { result ≡ missing_of deal.now (leads_in table.now place) }
    ensures at_most_20 { result ≤ 20 }
{
    match deal {
        Some(_) => (CONTRACTS - count_rows(table, place, Counted::Known)) as usize,
        None => 0,
    }
}

/// How many rows of the boards are missing.
#[tactic(auto, unfolding(crate::specs::Texts::missing_count))]
fn count_missing(boards: &[Board], table: &LeadTable) -> usize
    requires { length boards.now ≤ 4096 }
    ensures { result ≡ missing_count boards.now (leads_in table.now) }
{
    let mut missing = 0;
    for (place, board) in boards.iter().enumerate() {
        missing += count_missing_on(table, place, &board.deal);
    }
    missing
}

/// How many rows of a board, by its place from 0, are counted, if it has this deal.
fn count_rows_on(table: &LeadTable, place: usize, deal: &Option<Layout>, counted: Counted) -> usize
    requires { place < 2 ^ 32 }
    ensures count { result ≡ counted_on counted deal.now (leads_in table.now place) }
    ensures at_most_20 { result ≤ 20 }
{
    match deal {
        Some(_) => count_rows(table, place, counted) as usize,
        None => 0,
    }
}

/// How many rows of the boards are counted.
#[tactic(auto, unfolding(crate::specs::Texts::counted_rows))]
fn count_all(boards: &[Board], table: &LeadTable, counted: Counted) -> usize
    requires { length boards.now ≤ 4096 }
    ensures { result ≡ counted_rows counted boards.now (leads_in table.now) }
{
    let mut count = 0;
    for (place, board) in boards.iter().enumerate() {
        count += count_rows_on(table, place, &board.deal, counted);
    }
    count
}

/// How many boards have no deal.
fn count_undealt(boards: &[Board]) -> usize
    ensures { result ≡ undealt_count boards.now }
{
    let dealt = boards.iter().filter(|board| board.deal.is_some()).count();
    boards.len().saturating_sub(dealt)
}

/// Counts the boards and the rows that are missing.
pub(crate) fn report_of(boards: &[Board], table: &LeadTable) -> LeadReport
    requires { length boards.now ≤ 4096 }
    ensures { IsReportOf boards.now (leads_in table.now) result }
{
    LeadReport {
        boards: boards.len(),
        undealt: count_undealt(boards),
        missing: count_missing(boards, table),
        steps: count_all(boards, table, Counted::Steps),
        memory: count_all(boards, table, Counted::Memory),
        refused: count_all(boards, table, Counted::Refused),
    }
}
