//! A row of a table: the tricks of the four declarers of a denomination.

ghost use Rattle.std.specs.Prelude.{◌≤◌, IfSome, MatchResult};
ghost use Rattle.dds_calls.specs.RowsFound.{HasNumbers};
ghost use Rattle.dds_calls.specs.Tables.{AnswersRow, IsRowFault, IsRowOf};

use crate::codes::NO_FAULT;
use crate::finding::{RowFault, found_for};
use certified_tricks::FourTricks;
use std::alloc::Global;

/// The cards of four hands. It has the shape of DDS's `ddTableDeal`.
#[repr(C)]
#[derive(Clone, Copy)]
pub struct TableDeal {
    /// The hands clockwise from North. Each has a word for spades, hearts, diamonds and clubs.
    pub cards: [[u32; 4]; 4],
}

/// The tricks of the declarers of a denomination. It has the shape of a row of DDS's `resTable`.
#[repr(C)]
#[derive(Clone, Copy)]
pub struct TableRow {
    /// By declarer, clockwise from North.
    pub tricks: [i32; 4],
}

/// The row of a call that shows no number.
const NO_ROW: TableRow = TableRow { tricks: [0; 4] };

/// Returns the row of four numbers, if all are known. Each is greater by the number of cards that a hand lacks to 13.
fn row_with(four: &FourTricks, size: usize) -> Option<TableRow>
    requires { size ≤ 13 }
    ensures { IfSome result (HasNumbers four.now size) }
{
    let missing = 13 - size as i32;
    Some(TableRow {
        tricks: [
            missing + i32::from(four.north?),
            missing + i32::from(four.east?),
            missing + i32::from(four.south?),
            missing + i32::from(four.west?),
        ],
    })
}

/// Returns the row of a denomination, or why there is none.
fn row_of(alloc: Global, deal: &TableDeal, strain: i32) -> Result<TableRow, RowFault>
    ensures { MatchResult result (IsRowOf deal.now strain) (IsRowFault deal.now strain) }
{
    let row = match found_for(alloc, deal, strain) {
        Ok(row) => row,
        Err(fault) => return Err(fault),
    };
    row.layout.invariant();
    match row_with(&row.found.tricks, row.layout.len()) {
        Some(shown) => Ok(shown),
        None => Err(RowFault::Unknown),
    }
}

/// Answers the row of a table for a denomination: by declarer, the double-dummy value. Hands of fewer than 13 cards get
/// numbers that are greater by the cards that a hand lacks, as DDS has it. The code is 1. Otherwise the row is zeros,
/// and the code is -18 if the number stands for no denomination, -12 if a word stands for no cards, -2 without cards,
/// -10 for over 52 cards, -14 for hands of different sizes, -4 if a card is in two hands, and -1 if steps or memory ran
/// out.
#[unsafe(no_mangle)]
pub extern "C" fn ddfarm_table_row(
    alloc: Global,
    deal: &TableDeal,
    strain: i32,
    row: &mut TableRow,
) -> i32
    ensures { AnswersRow deal.now strain row.new result }
{
    match row_of(alloc, deal, strain) {
        Ok(shown) => {
            *row = shown;
            NO_FAULT
        }
        Err(fault) => {
            *row = NO_ROW;
            fault.code()
        }
    }
}
