//! What is found of the hands of a table in a denomination.

ghost use Rattle.std.specs.Prelude.{◌≡◌, MatchResult};
ghost use Rattle.dds_calls.specs.RowsFound.{IsFoundFor};
ghost use Rattle.dds_calls.specs.Tables.{IsRowFault, row_code};

use crate::codes::{STEPS, TRUMP_WRONG, UNKNOWN_FAULT};
use crate::denominations::denomination_of;
use crate::hands::{HandsFault, layout_of};
use crate::tables::TableDeal;
use cards::{Layout, Trump};
use certified_tricks::{TricksFound, certified_tricks};
use partition_solver::FreshPartition;
use std::alloc::Global;

/// Why there is no row: the first that applies.
#[derive(Clone, Copy)]
pub enum RowFault {
    /// The number stands for no denomination.
    NoDenomination,
    /// The hands are no layout.
    Hands(HandsFault),
    /// Steps or memory ran out.
    Unknown,
}

impl RowFault {
    /// Returns DDS's code for it.
    pub(crate) fn code(self) -> i32
        ensures { result ≡ row_code self }
    {
        match self {
            RowFault::NoDenomination => TRUMP_WRONG,
            RowFault::Hands(fault) => fault.code(),
            RowFault::Unknown => UNKNOWN_FAULT,
        }
    }
}

/// What was found of a layout in a denomination.
#[derive(Drop)]
pub struct RowFound {
    pub layout: Layout,
    pub trump: Trump,
    pub found: TricksFound,
}

/// Returns what the search finds of the hands in a denomination, or why it finds nothing.
pub(crate) fn found_for(alloc: Global, deal: &TableDeal, strain: i32) -> Result<RowFound, RowFault>
    ensures { MatchResult result (IsFoundFor deal.now strain) (IsRowFault deal.now strain) }
{
    let Some(trump) = denomination_of(strain) else {
        return Err(RowFault::NoDenomination);
    };
    let layout = match layout_of(&deal.cards) {
        Ok(layout) => layout,
        Err(fault) => return Err(RowFault::Hands(fault)),
    };
    match certified_tricks(alloc, &layout, trump, STEPS, &FreshPartition) {
        Ok(Some(found)) => Ok(RowFound {
            layout,
            trump,
            found,
        }),
        _ => Err(RowFault::Unknown),
    }
}
