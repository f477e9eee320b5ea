//! The tables on one thread.

ghost use Rattle.std.specs.Prelude.{[], ◌<◌, ◌≢◌, IfErr};
ghost use Rattle.lease_book.specs.Books.{AreTries};
ghost use Rattle.tournaments.specs.declared.faults.MakeFault.TheVariants.{NoThread};
ghost use Rattle.streams.specs.RunStreams.{devices};
ghost use Rattle.plain_runs.specs.Working.{IsWholeRun};
ghost use Rattle.tournaments.specs.Making.{MakesPage};
ghost use Rattle.tournaments.specs.Pages.{AreTables};

use crate::working::work_through;
use cards::{Sink, Source};
use certificate_graph::Solver;
use lease_book::{Book, Clock, is_true_history};
use std::alloc::Global;
use streams::read_all;
use tables::Report;
use tournaments::{MakeFault, Page, PageForm, ParTags, open_book, put_page, take_boards};

/// Reads the boards of a PBN text to its end, has the solver work on each entry in turn, as often as `tries` says, with
/// a budget of the solver's steps, and writes the tables. Returns the report and the book of the run.
///
/// The solver and the clock may answer anything. A number that is written is the double-dummy value of its deal: an
/// answer whose certificates don't show it gives none. Right after each lease the checker's verdict on the solver's
/// answer is handed in. If there is a fault other than a failed sink, nothing was written.
pub fn make_single<I: Source, O: Sink, S: Solver, C: Clock>(
    alloc: Global,
    input: &mut I,
    output: &mut O,
    term: u64,
    tries: u32,
    budget: u64,
    solver: &S,
    clock: &C,
) -> Result<(Report, Book), MakeFault>
    requires tries { AreTries tries }
    requires budget { 0 < budget }
    ensures made { MakesPage (IsWholeRun (S.may_find solver.now) (C.may_tell clock.now) budget) (AreTables [])
        term tries (devices (I.state input.old) (O.state output.old))
        (devices (I.state input.new) (O.state output.new)) result }
    ensures one_thread { IfErr result (λ fault. fault ≢ NoThread) }
{
    let text = read_all(alloc, input)?;
    let boards = take_boards(alloc, text.as_slice())?;
    let mut book = open_book(alloc, boards, term, tries)?;
    work_through(alloc, &mut book, budget, solver, clock)?;
    is_true_history(&book);
    let page = Page {
        form: PageForm::Tables,
        par: ParTags::Without,
    };
    let report = put_page(alloc, text.as_slice(), &book, page, output)?;
    Ok((report, book))
}
