//! What was shown, published in a new book.

ghost use Rattle.std.specs.Prelude.{◌≡◌, ◌+◌, ℕ, [], List, IfOk, OnOk};
ghost use Rattle.lease_book.specs.Books.{AreBoards, AreTries};
ghost use Rattle.lease_book.specs.Histories.{held_after};
ghost use Rattle.lease_book.specs.Settling.{settled_in};
ghost use Rattle.lease_book.specs.Settling.{given_in as weight_given_in};
ghost use Rattle.lease_book.specs.Moments.{AreTimed};
ghost use Rattle.audits.specs.Firsts.{AreForEntries, AreFirstShown};
ghost use Rattle.audits.specs.Grants.{AreWithin, weight_of, HandsInFirsts, GivesUpAll};
ghost use Rattle.audits.specs.Shows.{ShowsSections};
ghost use Rattle.evidence.specs.Sections.{SectionShape};

use crate::firsts::FirstProofs;
use cards::OutOfMemory;
use lease_book::{Book, Grant, Reply};
use std::alloc::Global;

/// Leases one entry after another, until none is open, and hands in the first proof of each under its lease. The leases
/// of entries without a proof are handed out: they are held.
fn hand_in_firsts(
    alloc: Global,
    book: &mut Book,
    now: u64,
    firsts: &FirstProofs,
) -> Result<Vec<Grant>, OutOfMemory>
    requires new { book.old.events ≡ [] }
    requires boards { AreBoards book.old.terms.boards }
    requires tries { AreTries book.old.terms.tries }
    requires for_entries { AreForEntries book.old.terms.boards firsts.now }
    ensures { IfOk result (λ kept. HandsInFirsts book.old book.new now firsts.now kept.items) }
{
    let mut kept = Vec::new(alloc);
    for _turn in 0..u64::MAX {
        let _events = book.history();
        let Reply::Given {
            lease,
            entry,
            deadline,
        } = book.lease(now)?
        else {
            return Ok(kept);
        };
        let Some(proven) = firsts.of(entry) else {
            let grant = Grant {
                lease,
                entry,
                deadline,
            };
            if kept.push(grant).is_err() {
                return Err(OutOfMemory);
            }
            continue;
        };
        let _reply = book.settle(lease, entry, Ok(proven))?;
    }
    let _events = book.history();
    unreachable!()
}

/// Gives up the leases that are held.
fn give_up_all(book: &mut Book, now: u64, kept: &[Grant]) -> Result<(), OutOfMemory>
    requires held { held_after book.old.events ≡ kept.now }
    requires rising { (high : ℕ) × AreWithin 1 high kept.now }
    requires settled { (weight : ℕ → ℕ)
        → settled_in weight book.old.events + weight_of weight kept.now ≡ weight_given_in weight book.old.events }
    requires timed { AreTimed (λ moment. moment ≡ now) book.old.events }
    ensures { OnOk result (GivesUpAll book.old book.new now) }
{
    for grant in kept {
        let _reply = book.give_up(grant.lease)?;
    }
    Ok(())
}

/// Leases each entry of a new book once, at this moment. The first proof of an entry is handed in under its lease, and
/// the other leases are given up.
pub(crate) fn publish_firsts(
    alloc: Global,
    book: &mut Book,
    now: u64,
    firsts: &FirstProofs,
) -> Result<(), OutOfMemory>
    requires new { book.old.events ≡ [] }
    requires boards { AreBoards book.old.terms.boards }
    requires tries { AreTries book.old.terms.tries }
    requires for_entries { AreForEntries book.old.terms.boards firsts.now }
    ensures { OnOk result ((sections : List SectionShape) → AreFirstShown book.old.terms.boards sections firsts.now
        → ShowsSections book.old book.new now sections) }
{
    let kept = hand_in_firsts(alloc, book, now, firsts)?;
    give_up_all(book, now, kept.as_slice())
}
