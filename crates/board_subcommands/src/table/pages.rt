//! The page of tables by many threads: alone, in the input or on a sheet.

ghost use Rattle.std.specs.Prelude.{◌≡◌};
ghost use Rattle.streams.specs.RunStreams.{devices};
ghost use Rattle.board_subcommands.specs.Table.Pages.{IsOutcomeOf, WritesTables};

use crate::faults::BoardFault;
use crate::finished_runs::FinishedRun;
use crate::notes::Searches;
use crate::reports::{count_refusals, page_status, searched_notes};
use crate::table::making::make_tables;
use crate::table::options::TableOptions;
use cards::{Sink, Source};
use certificate_graph::Solver;
use evidence::Damage;
use farm::{Clock, Means, Unclaimed};
use lease_book::{Book, Gate};
use std::alloc::Global;
use std::sync::Wait;
use std::thread::Threads;
use tables::Report;
use tournaments::PageForm;

/// Nobody is told of the work.
#[derive(Drop)]
pub(crate) struct Unwatched;

impl Gate for Unwatched {
    fn before_solve(&self, _lease: u64) {}

    fn before_check(&self, _lease: u64) {}
}

/// Writes the page of the boards of the input that is asked for.
pub(crate) fn write_page<
    P: Solver + Sync,
    G: Gate + Sync,
    C: Clock + Sync,
    I: Source,
    O: Sink,
    R: Threads + Wait + Sync,
>(
    rt: &R,
    alloc: Global,
    options: TableOptions<'_>,
    means: &Means<'_, P, G, C>,
    input: &mut I,
    output: &mut O,
) -> Result<FinishedRun, BoardFault>
    ensures { WritesTables (P.may_find means.now.solver.now) (C.may_tell means.now.clock.now) options.entry
        (devices (I.state input.old) (O.state output.old)) (devices (I.state input.new) (O.state output.new)) result }
{
    let (report, book, unclaimed) = make_tables(rt, alloc, options, means, input, output)?;
    Ok(outcome_of(options.page.form, report, &book, unclaimed))
}

/// What came of a page that was written for the book of a run, in which so many leases got no claim.
pub(crate) fn outcome_of(
    page: PageForm,
    report: Report,
    book: &Book,
    unclaimed: Unclaimed,
) -> FinishedRun
    ensures { IsOutcomeOf page report book.now unclaimed result }
{
    let searches = Searches {
        steps: unclaimed.steps,
        memory: unclaimed.memory,
        refused: count_refusals(book.history()),
    };
    FinishedRun {
        status: page_status(page, report, book.boards()),
        damage: Damage { count: 0, first: 0 },
        notes: searched_notes(report, book, searches),
        read: Ok(()),
        kept: Ok(()),
    }
}
