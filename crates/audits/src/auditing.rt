//! The tables that evidence shows.

ghost use Rattle.std.specs.Prelude.{◌≡◌};
ghost use Rattle.lease_book.specs.Books.{AreBoards};
ghost use Rattle.tournaments.specs.Putting.{page_fact};
ghost use Rattle.streams.specs.RunStreams.{devices};
ghost use Rattle.audits.specs.Audits.{AuditsOrStops, AuditsOrHalts, AuditsTables};

use crate::faults::AuditFault;
use crate::firsts::FirstProofs;
use crate::publishing::publish_firsts;
use crate::reading::read_firsts;
use cards::{Sink, Source};
use evidence::{Damage, Sections};
use lease_book::{Book, is_true_history};
use pbn_deals::Board;
use std::alloc::Global;
use std::thread::Threads;
use streams::{InputFault, read_all};
use tables::Report;
use tournaments::{MakeFault, Page, open_book, put_page, take_boards};

/// A book over the boards, in which what the evidence shows is published, and what was passed over.
fn audited_book<R: Threads + Sync, E: Source>(
    rt: &R,
    alloc: Global,
    boards: Vec<Board>,
    evidence: &mut Sections<E>,
) -> Result<(Book, Damage), InputFault>
    requires { AreBoards boards.items }
    ensures { AuditsOrStops boards.items evidence.old evidence.new result }
{
    let Ok(mut book) = open_book(alloc, boards, 1, 1) else {
        return Err(InputFault::OutOfMemory);
    };
    let mut firsts = FirstProofs::none(alloc);
    let read = read_firsts(rt, alloc, book.boards(), evidence, &mut firsts);
    read.ended?;
    if publish_firsts(alloc, &mut book, 0, &firsts).is_err() {
        return Err(InputFault::OutOfMemory);
    }
    is_true_history(&book);
    Ok((book, read.damage))
}

/// Reads a PBN text to its end and then the evidence. The text is handed out, a book over its boards, in which what the
/// evidence shows is published, and what was passed over.
fn audit_text<R: Threads + Sync, I: Source, E: Source>(
    rt: &R,
    alloc: Global,
    input: &mut I,
    evidence: &mut Sections<E>,
) -> Result<(Vec<u8>, Book, Damage), AuditFault>
    ensures { AuditsOrHalts (I.state input.old) (I.state input.new) evidence.old evidence.new result }
{
    let text = match read_all(alloc, input) {
        Ok(text) => text,
        Err(InputFault::OutOfMemory) => return Err(AuditFault::Page(MakeFault::OutOfMemory)),
        Err(InputFault::Read) => return Err(AuditFault::Page(MakeFault::Read)),
    };
    let boards = match take_boards(alloc, text.as_slice()) {
        Ok(boards) => boards,
        Err(fault) => return Err(AuditFault::Page(fault)),
    };
    match audited_book(rt, alloc, boards, evidence) {
        Ok((book, damage)) => Ok((text, book, damage)),
        Err(InputFault::OutOfMemory) => Err(AuditFault::Page(MakeFault::OutOfMemory)),
        Err(InputFault::Read) => Err(AuditFault::Evidence),
    }
}

/// Reads the boards of a PBN text to its end and then the evidence, checks each section whose deal is on a board, and
/// writes the page that is asked for, with what was shown. It hands out the book and what was passed over. Nothing is
/// searched.
///
/// Whatever the evidence is, a number that is written is the double-dummy value of its deal. An entry has one exactly
/// where a section for its deal and denomination has a claim for its declarer that the graphs of the section show, and
/// then that of the first such section: sections of other deals, damaged ones, false claims and repeats take nothing
/// away. With all faults but a failed sink nothing was written.
pub fn audit_tables<R: Threads + Sync, I: Source, E: Source, O: Sink>(
    rt: &R,
    alloc: Global,
    page: Page,
    input: &mut I,
    evidence: &mut Sections<E>,
    output: &mut O,
) -> Result<(Report, Book, Damage), AuditFault>
    ensures { AuditsTables (page_fact page) (devices (I.state input.old) (O.state output.old))
        (devices (I.state input.new) (O.state output.new)) evidence.old evidence.new result }
{
    let (text, book, damage) = audit_text(rt, alloc, input, evidence)?;
    match put_page(alloc, text.as_slice(), &book, page, output) {
        Ok(report) => Ok((report, book, damage)),
        Err(fault) => Err(AuditFault::Page(fault)),
    }
}
