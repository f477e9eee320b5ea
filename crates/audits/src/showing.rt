//! A book in which what evidence shows is published.

ghost use Rattle.std.specs.Prelude.{◌≡◌, [], IfOk, OnErr};
ghost use Rattle.lease_book.specs.Books.{AreBoards, AreTries};
ghost use Rattle.audits.specs.Shows.{ShowsEvidence, LosesEvidence};

use crate::firsts::FirstProofs;
use crate::publishing::publish_firsts;
use crate::reading::{EvidenceRead, read_firsts};
use cards::{OutOfMemory, Source};
use evidence::Sections;
use lease_book::Book;
use std::alloc::Global;
use std::thread::Threads;

/// Reads evidence to its end, checks each section whose deal is on a board, and publishes in a new book what it shows:
/// for each entry the number of the first section that shows one for its deal, declarer and denomination.
///
/// Whatever the evidence holds, each entry of a board with a deal is leased once at this moment, unless an earlier
/// board has the same deal. If a section shows a number for the entry, the proof is handed in under this lease. A claim
/// that its graphs don't show is dropped. The other leases are given up, so that no lease is held after this.
///
/// If the evidence can't be read to its end, or memory runs out for a section, what the sections before that show is
/// published. Fails only if memory runs out for the book.
pub fn show_evidence<R: Threads + Sync, E: Source>(
    rt: &R,
    alloc: Global,
    book: &mut Book,
    now: u64,
    evidence: &mut Sections<E>,
) -> Result<EvidenceRead, OutOfMemory>
    requires new { book.old.events ≡ [] }
    requires boards { AreBoards book.old.terms.boards }
    requires tries { AreTries book.old.terms.tries }
    ensures ok { IfOk result (ShowsEvidence book.old book.new now evidence.old evidence.new) }
    ensures err { OnErr result (LosesEvidence evidence.old evidence.new) }
{
    let mut firsts = FirstProofs::none(alloc);
    let read = read_firsts(rt, alloc, book.boards(), evidence, &mut firsts);
    publish_firsts(alloc, book, now, &firsts)?;
    Ok(read)
}
