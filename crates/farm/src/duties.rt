//! The work of the lender, of solvers, of checkers and of clerks, each at its post. Even if its work fails, a thread
//! finishes the relay that it puts into, and empties the relay that it takes from until an end mark comes.

use crate::checking::check_all;
use crate::clerks::settle_all;
use crate::crews::Crew;
use crate::lending::lend_all;
use crate::posts::{CheckerPost, ClerkPost, LenderPost, SolverPost};
use crate::solving::solve_all;
use certificate_graph::Solver;
use farm_threads::{Halt, Work};
use lease_book::{Clock, Gate};
use std::sync::Wait;
use std::thread::Threads;

impl<S: Solver, G: Gate, C: Clock> Work<LenderPost, Halt> for Crew<'_, S, G, C> {
    ghost use Rattle.farm.specs.Posts.{IsNewLender, LeavesLender, HasLent};

    ghost begins = { λ crew. IsNewLender crew.desk.now };

    ghost leaves = { λ crew. LeavesLender };

    ghost ends = { HasLent C.may_tell };

    fn work<R: Threads + Wait + Sync>(&self, rt: &R, post: &mut LenderPost) -> Result<(), Halt> {
        let outcome = lend_all(rt, self, post);
        post.groups.finish(rt);
        outcome
    }
}

impl<S: Solver, G: Gate, C: Clock> Work<SolverPost, Halt> for Crew<'_, S, G, C> {
    ghost use Rattle.farm.specs.Posts.{IsNewSolver, LeavesSolver, HasSolved};

    ghost begins = { λ crew. IsNewSolver crew.desk.now };

    ghost leaves = { λ crew. LeavesSolver };

    ghost ends = { HasSolved C.may_tell S.may_find };

    fn work<R: Threads + Wait + Sync>(&self, rt: &R, post: &mut SolverPost) -> Result<(), Halt> {
        let outcome = solve_all(rt, self, post);
        post.found.finish(rt);
        outcome
    }
}

impl<S: Solver, G: Gate, C: Clock> Work<CheckerPost, Halt> for Crew<'_, S, G, C> {
    ghost use Rattle.farm.specs.Posts.{IsNewChecker, LeavesChecker, HasChecked};

    ghost begins = { λ crew. IsNewChecker };

    ghost leaves = { λ crew. LeavesChecker };

    ghost ends = { λ crew. HasChecked };

    fn work<R: Threads + Wait + Sync>(&self, rt: &R, post: &mut CheckerPost) -> Result<(), Halt> {
        check_all(rt, self, post);
        post.claims.finish(rt);
        Ok(())
    }
}

impl<S: Solver, G: Gate, C: Clock> Work<ClerkPost, Halt> for Crew<'_, S, G, C> {
    ghost use Rattle.farm.specs.Posts.{IsNewClerk, LeavesClerk, HasSettled};

    ghost begins = { λ crew. IsNewClerk crew.desk.now };

    ghost leaves = { λ crew. LeavesClerk };

    ghost ends = { HasSettled C.may_tell };

    fn work<R: Threads + Wait + Sync>(&self, rt: &R, post: &mut ClerkPost) -> Result<(), Halt> {
        settle_all(rt, self, post)?;
        Ok(())
    }
}
