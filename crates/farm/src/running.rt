//! One round of a farm.

ghost use Rattle.std.specs.Prelude.{◌≡◌, ◌+◌, All, IfOk, length};
ghost use Rattle.farm.specs.Working.{IsNew};
ghost use Rattle.farm.specs.Asks.{IsAsked};
ghost use Rattle.farm.specs.Rounds.{IsRound};
ghost use Rattle.farm.specs.Running.{MayBegin, AreOpenedPosts, HaveEnded, HaveWorked};

use crate::crews::Crew;
use crate::lease_lock::LeaseLock;
use crate::means::Means;
use crate::posts::{CheckerPost, ClerkPost, LenderPost, Posts, SolverPost, steps_at};
use crate::relays::Relays;
use crate::settings::Settings;
use crate::started::{Started, end_all, join_all, start_all};
use cards::Layout;
use certificate_graph::Solver;
use farm_threads::{Halt, Work};
use lease_book::{Book, Clock, Gate};
use lease_desk::{Chair, Closed, Desk};
use std::alloc::Global;
use std::sync::Wait;
use std::thread;
use std::thread::{Scope, Threads};

/// The relays of a round, the post of its lender, and the posts of its threads.
type Opened = (Relays, LenderPost, Posts);

/// Works at all posts, the lender's in this thread and each other in one of a scope, and returns the relays and the
/// posts. Nothing is lent before each thread has started. If one can't be started, all have ended when this returns.
fn work_in<
    's,
    E,
    L: Work<LenderPost, Halt>,
    A: Work<SolverPost, Halt> + Sync,
    B: Work<CheckerPost, Halt> + Sync,
    D: Work<ClerkPost, Halt> + Sync,
    R: Threads + Wait + Sync,
>(
    rt: &'s R,
    scope: &Scope<'s, E>,
    lender: &L,
    solver: &'s A,
    checker: &'s B,
    clerk: &'s D,
    opened: Opened,
) -> Result<Opened, Halt>
    requires lender { L.begins lender.now opened.1 }
    requires posts { MayBegin (A.begins solver.now) (B.begins checker.now) (D.begins clerk.now) opened.2 }
    ensures relays { IfOk result (λ worked. worked.0 ≡ opened.0) }
    ensures lender { IfOk result (λ worked. L.ends lender.now opened.1 worked.1) }
    ensures posts { IfOk result (λ worked. HaveEnded (A.ends solver.now) (B.ends checker.now)
        (D.ends clerk.now) opened.2 worked.2) }
{
    let (relays, lent, posts) = opened;
    let mut started = Started::new(&posts)?;
    match start_all(rt, scope, solver, checker, clerk, posts, &mut started) {
        Ok(()) => {
            let mut lent = lent;
            let outcome = lender.work(rt, &mut lent);
            let posts = join_all(rt, solver, checker, clerk, started)?;
            outcome?;
            Ok((relays, lent, posts))
        }
        Err(halt) => {
            let mut relays = relays;
            end_all(rt, &mut relays, started);
            Err(halt)
        }
    }
}

/// Works at all posts as [`work_in`] does, in a scope of its own.
fn work_at<
    L: Work<LenderPost, Halt>,
    A: Work<SolverPost, Halt> + Sync,
    B: Work<CheckerPost, Halt> + Sync,
    D: Work<ClerkPost, Halt> + Sync,
    R: Threads + Wait + Sync,
>(rt: &R, lender: &L, solver: &A, checker: &B, clerk: &D, opened: Opened) -> Result<Opened, Halt>
    requires lender { L.begins lender.now opened.1 }
    requires posts { MayBegin (A.begins solver.now) (B.begins checker.now) (D.begins clerk.now) opened.2 }
    ensures relays { IfOk result (λ worked. worked.0 ≡ opened.0) }
    ensures lender { IfOk result (λ worked. L.ends lender.now opened.1 worked.1) }
    ensures posts { IfOk result (λ worked. HaveEnded (A.ends solver.now) (B.ends checker.now)
        (D.ends clerk.now) opened.2 worked.2) }
{
    thread::scope(
        thread::scope_env(),
        rt,
        |scope| -> Result<Opened, Halt>
            requires lender { L.begins lender.now opened.1 }
            requires posts { MayBegin (A.begins solver.now) (B.begins checker.now) (D.begins clerk.now) opened.2 }
            ensures relays { IfOk result (λ worked. worked.0 ≡ opened.0) }
            ensures lender { IfOk result (λ worked. L.ends lender.entry.now opened.1 worked.1) }
            ensures posts { IfOk result (λ worked. HaveEnded (A.ends solver.entry.now) (B.ends checker.entry.now)
                (D.ends clerk.entry.now) opened.2 worked.2) }
        { work_in(rt, scope, lender, solver, checker, clerk, opened) },
    )
}

/// Works at all posts as [`work_at`] does, if one value does all four kinds of work. The two are apart because a
/// closure's contract can't name one type's several works, and a call can't borrow one value for several types.
fn work_as<
    W: Work<LenderPost, Halt>
        + Work<SolverPost, Halt>
        + Work<CheckerPost, Halt>
        + Work<ClerkPost, Halt>
        + Sync,
    R: Threads + Wait + Sync,
>(rt: &R, staff: &W, opened: Opened) -> Result<Opened, Halt>
    requires lender { ⟦<W as Work<LenderPost, Halt>>⟧.begins staff.now opened.1 }
    requires posts { MayBegin (⟦<W as Work<SolverPost, Halt>>⟧.begins staff.now)
        (⟦<W as Work<CheckerPost, Halt>>⟧.begins staff.now)
        (⟦<W as Work<ClerkPost, Halt>>⟧.begins staff.now) opened.2 }
    ensures relays { IfOk result (λ worked. worked.0 ≡ opened.0) }
    ensures lender { IfOk result (λ worked. ⟦<W as Work<LenderPost, Halt>>⟧.ends staff.now opened.1 worked.1) }
    ensures posts { IfOk result (λ worked. HaveEnded (⟦<W as Work<SolverPost, Halt>>⟧.ends staff.now)
        (⟦<W as Work<CheckerPost, Halt>>⟧.ends staff.now)
        (⟦<W as Work<ClerkPost, Halt>>⟧.ends staff.now) opened.2 worked.2) }
{
    work_at(rt, staff, staff, staff, staff, opened)
}

/// Opens relays, and posts at these chairs with all ends of the relays. The lender's post is at the first chair, the
/// solvers' are at the next ones.
fn open_posts<S, G, C>(crew: &Crew<'_, S, G, C>, chairs: Vec<Chair>) -> Result<Opened, Halt>
    requires new { All (IsNew crew.now.desk.now) chairs.items }
    requires count { length chairs.items ≡ crew.now.settings.solvers + crew.now.settings.checkers + 1 }
    ensures { IfOk result (λ opened. AreOpenedPosts crew.now.settings crew.now.desk.now chairs.items opened.0
        opened.1 opened.2) }
{
    let (relays, ends) = Relays::open(crew.alloc, crew.settings)?;
    let (lender, posts) = Posts::of(crew.alloc, chairs, ends)?;
    Ok((relays, lender, posts))
}

/// Works at all chairs, the lender's first and then the solvers'. Returns them, and how many leases ran out of steps.
fn work_all<S: Solver + Sync, G: Gate + Sync, C: Clock + Sync, R: Threads + Wait + Sync>(
    rt: &R,
    crew: &Crew<'_, S, G, C>,
    chairs: Vec<Chair>,
) -> Result<(Vec<Chair>, u64), Halt>
    requires new { All (IsNew crew.now.desk.now) chairs.items }
    requires count { length chairs.items ≡ crew.now.settings.solvers + crew.now.settings.checkers + 1 }
    ensures { IfOk result (λ worked. HaveWorked C.may_tell S.may_find crew.now chairs.items worked.0.items worked.1) }
{
    let opened = open_posts(crew, chairs)?;
    let (relays, lender, posts) = work_as(rt, crew, opened)?;
    let steps = steps_at(posts.solvers.as_slice());
    let (chairs, ends) = posts.apart(crew.alloc, lender)?;
    relays.close(rt, ends)?;
    Ok((chairs, steps))
}

/// Opens a desk over the book. One lender works in this thread, and in threads of their own as many solvers and
/// checkers as the settings say, and as many clerks as checkers. When all have ended it returns the book, and how many
/// leases ran out of steps.
///
/// The lender leases entries, batch by batch, each at the clock's moment, and puts those of one board and denomination
/// together for the solvers. If no entry is open it frees the leases that have run out, and ends if there is none. A
/// solver calls the gate for each lease that it takes, asks for an answer once, and puts it for the checkers. It gives
/// up the leases without a claim. A checker calls the gate for the leases, checks both graphs, and puts each claim for
/// the clerks. A clerk hands in one claim after another, and the desk calls the gate. If memory runs out for a message,
/// it is dropped and its leases stay held.
pub(crate) fn work_round<
    S: Solver + Sync,
    G: Gate + Sync,
    C: Clock + Sync,
    R: Threads + Wait + Sync,
>(
    rt: &R,
    alloc: Global,
    book: Book,
    deals: &[Option<Layout>],
    settings: Settings,
    means: &Means<'_, S, G, C>,
) -> Result<(Book, u64), Halt>
    ensures { IfOk result (λ worked. IsRound (C.may_tell means.now.clock.now)
        (IsAsked (S.may_find means.now.solver.now) deals.now settings.budget) book worked.0 worked.1) }
{
    let count = settings.solvers + settings.checkers + 1;
    let (desk, chairs) = Desk::over(rt, alloc, book, count)?;
    let lease_lock = LeaseLock::new();
    let crew = Crew {
        alloc,
        desk: &desk,
        deals,
        settings,
        means: *means,
        lease_lock: &lease_lock,
    };
    let (chairs, steps) = work_all(rt, &crew, chairs)?;
    drop(crew);
    let Closed { book, chairs: _ } = desk.close(rt, chairs);
    Ok((book, steps))
}
