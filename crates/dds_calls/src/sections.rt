//! The evidence of a denomination, as text.

ghost use Rattle.std.specs.Prelude.{◌≡◌, ◌≤◌, ◌<◌, length, MatchBool, MatchResult};
ghost use Rattle.dds_calls.specs.Sections.{AllAreKnown, AnswersEvidence, IsCopied, IsEvidence};
ghost use Rattle.dds_calls.specs.Tables.{IsRowFault};

use crate::finding::{RowFault, found_for};
use crate::tables::TableDeal;
use certified_tricks::FourTricks;
use evidence::bundle_bytes;
use std::alloc::Global;

/// Returns whether the tricks of all four declarers are known.
fn all_are_known(tricks: &FourTricks) -> bool
    ensures { MatchBool result (AllAreKnown tricks.now) (AllAreKnown tricks.now → ⊥) }
{
    tricks.north.is_some()
        && tricks.east.is_some()
        && tricks.south.is_some()
        && tricks.west.is_some()
}

/// Returns the text of the evidence of a denomination, or why there is none.
fn evidence_of(alloc: Global, deal: &TableDeal, strain: i32) -> Result<Vec<u8>, RowFault>
    ensures { MatchResult result (λ text. IsEvidence deal.now strain text.items) (IsRowFault deal.now strain) }
{
    let row = match found_for(alloc, deal, strain) {
        Ok(row) => row,
        Err(fault) => return Err(fault),
    };
    if !all_are_known(&row.found.tricks) {
        return Err(RowFault::Unknown);
    }
    match bundle_bytes(alloc, &row.layout, row.trump, &row.found.bundle) {
        Ok(Some(text)) => Ok(text),
        _ => Err(RowFault::Unknown),
    }
}

/// Copies a text to the front of a buffer, if it has room for all of it.
fn copy_to(buffer: &mut [u8], text: &[u8])
    ensures { IsCopied text.now buffer.old buffer.new }
{
    if text.len() <= buffer.len() {
        buffer[..text.len()].copy_from_slice(text);
    }
}

/// Answers the length of the evidence of a denomination, and writes the evidence to the front of the buffer if it has
/// room for all of it: a section as `ddfarm table --evidence` keeps it, which `ddfarm audit` takes as the proof of all
/// four numbers. Answers a code of [`ddfarm_table_row`](crate::tables::ddfarm_table_row) below 0 if there is none. Then
/// the buffer is as before.
#[unsafe(no_mangle)]
pub extern "C" fn ddfarm_evidence_section(
    alloc: Global,
    deal: &TableDeal,
    strain: i32,
    buffer: &mut [u8],
) -> i64
    ensures { AnswersEvidence deal.now strain buffer.old buffer.new result }
{
    match evidence_of(alloc, deal, strain) {
        Ok(text) => {
            copy_to(buffer, text.as_slice());
            text.len() as i64
        }
        Err(fault) => i64::from(fault.code()),
    }
}
