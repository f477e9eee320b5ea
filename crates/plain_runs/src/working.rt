//! The work on the entries of a book, one after another.

ghost use Rattle.std.specs.Prelude.{◌≡◌, [], IfOk, OnOk, MatchOption};
ghost use Rattle.lease_book.specs.Histories.{deal_of};
ghost use Rattle.certificate_graph.specs.Bundles.{MayAnswer};
ghost use Rattle.plain_runs.specs.Asking.{IsVerdictOnFound, IsFoundFor};
ghost use Rattle.plain_runs.specs.Working.{GivesOut, WorksOn};

use cards::{Layout, OutOfMemory};
use certificate_graph::{Answer, Solver};
use checker::{HandFault, Verdict, check_entry};
use lease_book::{Book, Clock, Entry, Reply};
use pbn_deals::Board;
use std::alloc::Global;

/// Returns the layout of an entry's board, if it has one.
fn layout_for(boards: &[Board], entry: Entry) -> Option<&Layout>
    ensures { MatchOption result (deal_of boards.now entry.board ≡ None)
        (λ layout. deal_of boards.now entry.board ≡ Some layout.now) }
{
    boards.get(entry.board)?.deal.as_ref()
}

/// Returns the checker's verdict on an answer for an entry with this layout.
fn verdict_of(layout: &Layout, entry: Entry, answer: &Answer) -> Verdict
    ensures { IsVerdictOnFound layout.now entry (Some answer.now) (Some result) }
{
    let checked = check_entry(
        layout,
        entry.declarer,
        entry.trump,
        answer.k,
        &answer.declarer,
        &answer.defenders,
    );
    checked.map_err(HandFault::Entry)
}

/// Returns the solver's answer for an entry with this layout. There is none if nothing was found within the budget, or
/// if the solver had no memory. Fails only if memory runs out for the answer's graphs.
fn answer_for<S: Solver>(
    alloc: Global,
    layout: &Layout,
    entry: Entry,
    budget: u64,
    solver: &S,
) -> Result<Option<Answer>, OutOfMemory>
    ensures { IfOk result (MayAnswer (S.may_find solver.now) layout.now entry.declarer entry.trump budget) }
{
    let Ok(Some(bundle)) = solver.solve(alloc, layout, &[entry.declarer], entry.trump, budget)
    else {
        return Ok(None);
    };
    bundle
        .answer_for(alloc, entry.declarer)
        .map_err(|_| OutOfMemory)
}

/// Returns the verdict on the solver's answer for an entry. There is none without an answer, or if the board has no
/// deal.
fn verdict_on<S: Solver>(
    alloc: Global,
    boards: &[Board],
    entry: Entry,
    budget: u64,
    solver: &S,
) -> Result<Option<Verdict>, OutOfMemory>
    ensures { IfOk result (IsFoundFor (S.may_find solver.now) budget (deal_of boards.now entry.board) entry) }
{
    let Some(layout) = layout_for(boards, entry) else {
        return Ok(None);
    };
    let Some(answer) = answer_for(alloc, layout, entry, budget, solver)? else {
        return Ok(None);
    };
    Ok(Some(verdict_of(layout, entry, &answer)))
}

/// Hands in the solver's answer for the entry of a lease, or gives the lease up.
fn work_on<S: Solver>(
    alloc: Global,
    book: &mut Book,
    lease: u64,
    entry: Entry,
    budget: u64,
    solver: &S,
) -> Result<(), OutOfMemory>
    ensures { OnOk result (WorksOn (S.may_find solver.now) budget book.old book.new lease entry) }
{
    match verdict_on(alloc, book.boards(), entry, budget, solver)? {
        Some(verdict) => book.settle(lease, entry, verdict)?,
        None => book.give_up(lease)?,
    };
    Ok(())
}

/// Leases one entry after another and works on it, until none is open and no lease has run out.
pub(crate) fn work_through<S: Solver, C: Clock>(
    alloc: Global,
    book: &mut Book,
    budget: u64,
    solver: &S,
    clock: &C,
) -> Result<(), OutOfMemory>
    requires { book.old.events ≡ [] }
    ensures { OnOk result (GivesOut (S.may_find solver.now) (C.may_tell clock.now) budget book.old book.new) }
{
    for _turn in 0..u64::MAX {
        let _events = book.history();
        if let Reply::Given { lease, entry, .. } = book.lease(clock.now())? {
            work_on(alloc, book, lease, entry, budget, solver)?;
        } else if let Reply::Freed(0) = book.expire(clock.now())? {
            return Ok(());
        }
    }
    let _events = book.history();
    unreachable!()
}
