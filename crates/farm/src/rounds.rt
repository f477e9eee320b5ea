//! The run of a farm: round after round, until all work is done.

ghost use Rattle.std.specs.Prelude.{◌≡◌, IfOk, IfErr};
ghost use Rattle.farm.specs.declared.faults.FarmFault.TheVariants as faults;
ghost use Rattle.lease_book.specs.Settling.{AreSettledOnce};
ghost use Rattle.farm.specs.Faults.{IsFaultOf, IsHalt};
ghost use Rattle.farm.specs.Rounds.{EndsRounds, Finishes};
ghost use Rattle.farm.specs.Searched.{AreSearched, AreSearchedSince};
ghost use Rattle.farm.specs.Asks.{IsAsked};
ghost use Rattle.farm.specs.Runs.{IsBookOf, terms_for};

use crate::faults::FarmFault;
use crate::leftovers::take_back_all;
use crate::means::Means;
use crate::opening::{deals_of, open_book};
use crate::running::work_round;
use crate::settings::Settings;
use crate::telling::tell_published;
use crate::unclaimed::Unclaimed;
use cards::Layout;
use certificate_graph::Solver;
use farm_threads::Halt;
use lease_book::{Book, Clock, Gate, first_boards, is_true_history};
use pbn_deals::Board;
use std::alloc::Global;
use std::sync::Wait;
use std::thread::Threads;

/// Works on a book, round after round, until no lease is held and no entry is open. After each round it gives up the
/// leases that the round left behind. Returns the book, and how many leases ran out of steps.
fn work_through<S: Solver + Sync, G: Gate + Sync, C: Clock + Sync, R: Threads + Wait + Sync>(
    rt: &R,
    alloc: Global,
    book: Book,
    deals: &[Option<Layout>],
    settings: Settings,
    means: &Means<'_, S, G, C>,
) -> Result<(Book, u64), Halt>
    ensures { IfOk result (λ worked. EndsRounds (C.may_tell means.now.clock.now)
        (IsAsked (S.may_find means.now.solver.now) deals.now settings.budget) book worked.0 worked.1) }
{
    let mut book = book;
    let mut steps = 0u64;
    for _round in rt.forever() {
        let (worked, more) = work_round(rt, alloc, book, deals, settings, means)?;
        book = worked;
        steps = steps.saturating_add(more);
        take_back_all(&mut book)?;
        if book.is_idle() {
            is_true_history(&book);
            return Ok((book, steps));
        }
    }
    unreachable!()
}

/// Has threads work through a book, whatever its history. Returns the book when no lease is held and each entry whose
/// board has a deal has a number, or was leased as often as it may be. Returns with it how many leases got no claim.
///
/// The threads work in rounds, whose sizes are in [`Settings`]. In a round the lender leases entries until none is
/// open, and the solvers' answers are checked and handed in. When all threads have ended, nothing is on its way any
/// more. Leases that were left behind are given up, and another round begins if an entry is open, such as one whose
/// claim was refused at the end.
///
/// The gate is called for the numbers that the book has published before the first round.
pub fn resume_farm<S: Solver + Sync, G: Gate + Sync, C: Clock + Sync, R: Threads + Wait + Sync>(
    rt: &R,
    alloc: Global,
    book: Book,
    settings: Settings,
    means: &Means<'_, S, G, C>,
) -> Result<(Book, Unclaimed), FarmFault>
    ensures book { IfOk result (λ run. Finishes (C.may_tell means.now.clock.now) book run.0) }
    ensures searched { IfOk result (λ run. AreSearchedSince (S.may_find means.now.solver.now) settings.budget book
        run.0 run.1) }
    ensures fault { IfErr result IsHalt }
{
    let deals = deals_of(alloc, book.boards())?;
    let before = book.history().len();
    let firsts = first_boards(alloc, book.boards())?;
    means.gate.before_work(book.boards(), firsts.as_slice());
    tell_published(&book, firsts.as_slice(), means.gate);
    drop(firsts);
    let (book, steps) = work_through(rt, alloc, book, deals.as_slice(), settings, means)?;
    means.gate.after_work();
    let later = &book.history()[before..];
    let unclaimed = Unclaimed::of(later, steps);
    Ok((book, unclaimed))
}

/// Has threads work through a new book over the boards, as [`resume_farm`] does.
pub fn run_farm<S: Solver + Sync, G: Gate + Sync, C: Clock + Sync, R: Threads + Wait + Sync>(
    rt: &R,
    alloc: Global,
    boards: Vec<Board>,
    settings: Settings,
    means: &Means<'_, S, G, C>,
) -> Result<(Book, Unclaimed), FarmFault>
    ensures book { IfOk result (λ run. IsBookOf (C.may_tell means.now.clock.now) (terms_for boards.items settings)
        run.0) }
    ensures searched { IfOk result (λ run. AreSearched (S.may_find means.now.solver.now) settings.budget run.1
        run.0.terms run.0.events) }
    ensures fault { IfErr result (IsFaultOf boards.items) }
{
    let book = open_book(alloc, boards, settings)?;
    resume_farm(rt, alloc, book, settings, means)
}
