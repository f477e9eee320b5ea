//! The threads of a run: their start, and their end.

ghost use Rattle.std.specs.Prelude.{All, IfOk, OnOk};
ghost use Rattle.farm_threads.specs.Promises.{HasEnded, IsKept};
ghost use Rattle.farm.specs.Relaying.{AreEnded};
ghost use Rattle.farm.specs.Running.{IsEmpty, MayBegin, AreStarted, HaveEnded};
ghost use Rattle.farm.specs.declared.posts.Posts.{Posts as PostsOfRun};

use crate::posts::{CheckerPost, ClerkPost, Posts, SolverPost};
use crate::relays::Relays;
use farm_threads::{Halt, Thread, Work, end_each, join_each, start_each};
use std::alloc::AllocError;
use std::sync::Wait;
use std::thread::{Scope, Threads};

/// The threads of solvers, which do the work `A`, of checkers and of clerks. They can't be dropped: [`join_all`] or
/// [`end_all`] waits for them.
pub(crate) struct Started<
    A: Work<SolverPost, Halt>,
    B: Work<CheckerPost, Halt>,
    D: Work<ClerkPost, Halt>,
> {
    solvers: Vec<Thread<SolverPost, Halt, A>>,
    checkers: Vec<Thread<CheckerPost, Halt, B>>,
    clerks: Vec<Thread<ClerkPost, Halt, D>>,
}

impl<A: Work<SolverPost, Halt>, B: Work<CheckerPost, Halt>, D: Work<ClerkPost, Halt>> Started<
    A,
    B,
    D,
> {
    /// Makes room for a thread at each post.
    pub(crate) fn new(posts: &Posts) -> Result<Started<A, B, D>, AllocError>
        ensures { IfOk result IsEmpty }
    {
        let alloc = *posts.solvers.allocator();
        Ok(Started {
            solvers: Vec::with_capacity(alloc, posts.solvers.len())?,
            checkers: Vec::with_capacity(alloc, posts.checkers.len())?,
            clerks: Vec::with_capacity(alloc, posts.clerks.len())?,
        })
    }
}

/// Starts a thread at each post: first the checkers, then the solvers, then the clerks. On a fault the posts that have
/// no thread are dropped.
pub(crate) fn start_all<
    's,
    E,
    A: Work<SolverPost, Halt> + Sync,
    B: Work<CheckerPost, Halt> + Sync,
    D: Work<ClerkPost, Halt> + Sync,
    R: Threads + Wait + Sync,
>(
    rt: &'s R,
    scope: &Scope<'s, E>,
    solver: &'s A,
    checker: &'s B,
    clerk: &'s D,
    posts: Posts,
    started: &mut Started<A, B, D>,
) -> Result<(), Halt>
    requires posts { MayBegin (A.begins solver.now) (B.begins checker.now) (D.begins clerk.now) posts }
    requires none { IsEmpty started.old }
    ensures { OnOk result (AreStarted solver.now checker.now clerk.now posts started.new) }
{
    let Posts {
        solvers,
        checkers,
        clerks,
    } = posts;
    start_each(rt, scope, checker, checkers, &mut started.checkers)?;
    start_each(rt, scope, solver, solvers, &mut started.solvers)?;
    start_each(rt, scope, clerk, clerks, &mut started.clerks)?;
    Ok(())
}

/// Waits for the threads, and returns their posts, unless the work of one failed.
pub(crate) fn join_all<
    A: Work<SolverPost, Halt>,
    B: Work<CheckerPost, Halt>,
    D: Work<ClerkPost, Halt>,
    R: Threads,
>(rt: &R, solver: &A, checker: &B, clerk: &D, started: Started<A, B, D>) -> Result<Posts, Halt>
    ensures { (posts : PostsOfRun) → AreStarted solver.now checker.now clerk.now posts started →
        IfOk result (HaveEnded (A.ends solver.now) (B.ends checker.now) (D.ends clerk.now) posts) }
{
    let Started {
        solvers,
        checkers,
        clerks,
    } = started;
    let alloc = *solvers.allocator();
    let solvers = join_each(rt, alloc, solver, solvers)?;
    let checkers = join_each(rt, alloc, checker, checkers)?;
    let clerks = join_each(rt, alloc, clerk, clerks)?;
    Ok(Posts {
        solvers,
        checkers,
        clerks,
    })
}

/// Waits for the threads that were started, if not all were, so that nothing was lent. When nobody is left to put into
/// a relay, each of its takers gets an end mark. A message that nobody takes is handed back. So no thread waits for
/// ever.
pub(crate) fn end_all<
    A: Work<SolverPost, Halt>,
    B: Work<CheckerPost, Halt>,
    D: Work<ClerkPost, Halt>,
    R: Threads + Wait,
>(rt: &R, relays: &mut Relays, started: Started<A, B, D>)
    ensures solvers { All (HasEnded (IsKept A.leaves A.ends)) started.solvers.items }
    ensures checkers { All (HasEnded (IsKept B.leaves B.ends)) started.checkers.items }
    ensures clerks { All (HasEnded (IsKept D.leaves D.ends)) started.clerks.items }
    ensures relays { AreEnded relays.new }
{
    let Started {
        solvers,
        checkers,
        clerks,
    } = started;
    relays.groups.end(rt);
    end_each(rt, solvers);
    relays.found.end(rt);
    end_each(rt, checkers);
    relays.claims.end(rt);
    end_each(rt, clerks);
}
