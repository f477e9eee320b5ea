//! The tables of a run that begins with what a file of evidence shows.

ghost use Rattle.std.specs.Prelude.{◌≡◌, ◌≤◌, Ok, drop, length};
ghost use Rattle.streams.specs.RunStreams.{devices};
ghost use Rattle.board_subcommands.specs.Table.Beside.{MakesBookBeside, PutsBeside, tries_beside};

use crate::faults::BoardFault;
use crate::finished_runs::FinishedRun;
use crate::table::making::halted;
use crate::table::options::TableOptions;
use crate::table::pages::outcome_of;
use audits::{EvidenceRead, show_evidence};
use cards::{Sink, Source};
use certificate_graph::Solver;
use evidence::Sections;
use farm::{Clock, MOST_TRIES, Means, Settings, Unclaimed, resume_farm};
use lease_book::{Book, Event, Gate};
use std::alloc::Global;
use std::io::Read;
use std::sync::Wait;
use std::thread::Threads;
use streams::{ReaderSource, read_all};
use tournaments::{MakeFault, open_book, put_page, take_boards};

/// How tables are made.
#[derive(Drop)]
pub(crate) struct Making<'a, P, G, C> {
    pub(crate) options: TableOptions<'a>,
    pub(crate) means: &'a Means<'a, P, G, C>,
}

/// What came of tables beside a file.
#[derive(Drop)]
pub(crate) struct TablesBeside {
    /// What came of them, but for what is said of the file.
    pub(crate) outcome: FinishedRun,
    book: Book,
    /// How many events of the book's history published what the file shows.
    shown: usize,
}

impl TablesBeside {
    /// The events after what the file showed was published.
    pub(crate) fn later(&self) -> &[Event]
        requires { self.now.shown ≤ length self.now.book.events }
        ensures { result.now ≡ drop self.now.shown self.now.book.events }
    {
        &self.book.history()[self.shown..]
    }
}

/// How often an entry is leased at most: once for what the evidence shows, and then as often as the settings say.
fn tries_beside(settings: Settings) -> u32
    ensures { result ≡ tries_beside settings.tries }
{
    settings.tries.saturating_add(1).min(MOST_TRIES)
}

/// Reads a PBN text to its end and then the evidence of a file, publishes what it shows, and has a farm work through
/// what is left. The text and the book of the run are handed out, how far the file was read, how many leases got no
/// claim, and how many events published what the file shows.
fn make_book_beside<
    F: Read + Drop,
    I: Source,
    S: Solver + Sync,
    G: Gate + Sync,
    C: Clock + Sync,
    R: Threads + Wait + Sync,
>(
    rt: &R,
    alloc: Global,
    file: F,
    input: &mut I,
    settings: Settings,
    means: &Means<'_, S, G, C>,
) -> Result<(Vec<u8>, Book, EvidenceRead, Unclaimed, usize), MakeFault>
    ensures { MakesBookBeside (F.remaining file) (S.may_find means.now.solver.now) (C.may_tell means.now.clock.now)
        settings (I.state input.old) (I.state input.new) result }
{
    let text = read_all(alloc, input)?;
    let boards = take_boards(alloc, text.as_slice())?;
    let mut book = open_book(alloc, boards, settings.term, tries_beside(settings))?;
    let mut evidence = Sections::new(alloc, ReaderSource::new(file));
    let now = means.clock.now();
    let Ok(read) = show_evidence(rt, alloc, &mut book, now, &mut evidence) else {
        return Err(MakeFault::OutOfMemory);
    };
    let shown = book.history().len();
    match resume_farm(rt, alloc, book, settings, means) {
        Ok((book, unclaimed)) => Ok((text, book, read, unclaimed, shown)),
        Err(fault) => Err(halted(fault)),
    }
}

/// Writes the tables of the boards of the input. What the file shows is published, and the rest is searched. The book
/// is handed out.
pub(crate) fn write_tables_beside<
    F: Read + Drop,
    I: Source,
    O: Sink,
    S: Solver + Sync,
    G: Gate + Sync,
    C: Clock + Sync,
    R: Threads + Wait + Sync,
>(
    rt: &R,
    alloc: Global,
    making: Making<'_, S, G, C>,
    file: F,
    input: &mut I,
    output: &mut O,
) -> Result<TablesBeside, BoardFault>
    ensures { PutsBeside (F.remaining file) (S.may_find making.entry.means.now.solver.now)
        (C.may_tell making.entry.means.now.clock.now) making.entry.options
        (devices (I.state input.old) (O.state output.old))
        (devices (I.state input.new) (O.state output.new)) result }
{
    let Making { options, means } = making;
    let (text, book, read, unclaimed, shown) = make_book_beside(
        rt,
        alloc,
        file,
        input,
        options.settings,
        means,
    )?;
    let report = put_page(alloc, text.as_slice(), &book, options.page, output)?;
    let outcome = FinishedRun {
        damage: read.damage,
        read: read.ended,
        ..outcome_of(options.page.form, report, &book, unclaimed)
    };
    Ok(TablesBeside {
        outcome,
        book,
        shown,
    })
}
