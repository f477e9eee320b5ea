//! The verdict on a claim that is handed in.

ghost use Rattle.std.specs.Prelude.{IfOk};
ghost use Rattle.lease_book.specs.Histories.{deal_of};
ghost use Rattle.lease_book.specs.Proofs.{IsProven};
ghost use Rattle.lease_desk.specs.Askings.{IsVerdictOn};

use crate::announcing::Announced;
use checker::{Claimed, HandFault, Verdict, check_claim};
use lease_book::{Entry, deal_on};
use pbn_deals::Board;

/// The verdict on a claim for an entry, on the deal of its board. The check was announced to the gate.
pub(crate) fn verdict_on(
    boards: &[Board],
    entry: Entry,
    claimed: &Claimed,
    _check: Announced,
) -> Verdict
    ensures verdict { IsVerdictOn (deal_of boards.now entry.board) entry claimed.now result }
    ensures proven { IfOk result IsProven }
{
    let Some(layout) = deal_on(boards, entry.board) else {
        return Err(HandFault::NoDeal);
    };
    match check_claim(layout, entry.declarer, entry.trump, claimed) {
        Ok(proven) => {
            proven.invariant();
            Ok(proven)
        }
        Err(fault) => Err(HandFault::Entry(fault)),
    }
}
