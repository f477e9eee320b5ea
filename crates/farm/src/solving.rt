//! The work of a solver.

ghost use Rattle.std.specs.Prelude.{◌≡◌, ◌+◌, ℕ, length, Ok, Some, OnOk, OnErr};
ghost use Rattle.lease_desk.specs.Desks.{receipts_in};
ghost use Rattle.farm_relay.specs.Relays.{put_by, marks_of, PutsAtSame};
ghost use Rattle.farm.specs.Working.{IsOnDuty, StaysOnDuty};
ghost use Rattle.farm.specs.Findings.{PutsLeases};
ghost use Rattle.farm.specs.Asks.{IsFoundFor, found_in, as_counted};
ghost use Rattle.farm.specs.Flows.{GaveUp, of_tasks};
ghost use Rattle.farm.specs.Posts.{StaysSolver, Answers, AsksFor, AsksTaken};

use crate::crews::Crew;
use crate::draining::take_rest;
use crate::groups::{by_claims, declarers_of};
use crate::posts::SolverPost;
use crate::requests::give_up_all;
use crate::tasks::{FoundBundle, Tasks};
use certificate_graph::{Bundle, Solver};
use farm_relay::Putter;
use farm_threads::Halt;
use lease_book::{Clock, Gate};
use lease_desk::Chair;
use std::alloc::AllocError;
use std::sync::Wait;

/// Asks for an answer to leases of one board and denomination. There is none if the solver finds nothing within the
/// budget, and an error if it has no memory.
fn answer_for<S: Solver, G, C>(
    crew: &Crew<'_, S, G, C>,
    group: &Tasks,
) -> Result<Option<Bundle>, AllocError>
    ensures { IsFoundFor (S.may_find crew.now.means.solver.now) crew.now.deals.now crew.now.settings.budget
        group.now.items (found_in result) }
{
    let Some(first) = group.as_slice().first() else {
        return Ok(None);
    };
    let entry = first.entry;
    let Some(Some(layout)) = crew.deals.get(entry.board) else {
        return Ok(None);
    };
    let declarers = declarers_of(group);
    crew.means.solver.solve(
        crew.alloc,
        layout,
        declarers.as_slice(),
        entry.trump,
        crew.settings.budget,
    )
}

/// Gives up leases for which the solver's answer has no claim, and counts them: their search ran out of steps.
fn give_up_counted<S, G, C: Clock, R: Wait>(
    rt: &R,
    crew: &Crew<'_, S, G, C>,
    chair: &mut Chair,
    steps: &mut u64,
    tasks: &Tasks,
) -> Result<(), Halt>
    requires { IsOnDuty C.may_tell crew.now chair.old }
    ensures stays { StaysOnDuty C.may_tell crew.now chair.old chair.new }
    ensures leases { OnOk result ((weight : ℕ → ℕ) →
        GaveUp weight (receipts_in chair.old) (receipts_in chair.new) (of_tasks weight tasks.now.items)) }
    ensures steps { OnOk result (steps.new ≡ as_counted (steps.old + length tasks.now.items)) }
{
    give_up_all(rt, crew, chair, tasks)?;
    *steps = steps.saturating_add(tasks.len() as u64);
    Ok(())
}

/// Puts leases for the checkers with the bundle that has a claim for each, if there are some. The relay hands them back
/// if no checker is left to take them: then not all threads were started.
fn put_found<R: Wait>(
    rt: &R,
    found: &mut Putter<FoundBundle>,
    tasks: Tasks,
    bundle: Bundle,
) -> Result<(), Halt>
    ensures same { PutsAtSame found.old found.new }
    ensures puts { OnOk result (PutsLeases tasks.items bundle (put_by found.old) (put_by found.new)) }
{
    if tasks.is_empty() {
        return Ok(());
    }
    let Err(_back) = found.put(rt, FoundBundle { tasks, bundle }) else {
        return Ok(());
    };
    Err(Halt::NoThread)
}

/// Gives up the leases for which a bundle has no claim, and puts the others for the checkers.
fn act_on_claims<S, G, C: Clock, R: Wait>(
    rt: &R,
    crew: &Crew<'_, S, G, C>,
    post: &mut SolverPost,
    group: &Tasks,
    bundle: Bundle,
) -> Result<(), Halt>
    requires { IsOnDuty C.may_tell crew.now post.old.chair }
    ensures stays { StaysSolver C.may_tell crew.now post.old post.new }
    ensures taken { post.new.groups ≡ post.old.groups }
    ensures answers { OnOk result (Answers (record { tasks = group.now.items; answer = Ok (Some bundle) })
        post.old post.new) }
{
    let (tasks, others) = by_claims(group, &bundle);
    give_up_counted(rt, crew, &mut post.chair, &mut post.steps, &others)?;
    put_found(rt, &mut post.found, tasks, bundle)?;
    Ok(())
}

/// Acts on an answer: gives up the leases for which it has no claim, and puts the others for the checkers.
fn act_on<S, G, C: Clock, R: Wait>(
    rt: &R,
    crew: &Crew<'_, S, G, C>,
    post: &mut SolverPost,
    group: &Tasks,
    answer: Result<Option<Bundle>, AllocError>,
) -> Result<(), Halt>
    requires { IsOnDuty C.may_tell crew.now post.old.chair }
    ensures stays { StaysSolver C.may_tell crew.now post.old post.new }
    ensures taken { post.new.groups ≡ post.old.groups }
    ensures answers { OnOk result (Answers (record { tasks = group.now.items; answer = answer })
        post.old post.new) }
{
    match answer {
        Ok(Some(bundle)) => {
            act_on_claims(rt, crew, post, group, bundle)?;
            Ok(())
        }
        Ok(None) => {
            give_up_counted(rt, crew, &mut post.chair, &mut post.steps, group)?;
            Ok(())
        }
        Err(_) => {
            give_up_all(rt, crew, &mut post.chair, group)?;
            Ok(())
        }
    }
}

/// Works on leases of one board and denomination. It calls the gate for each lease, asks the solver once, puts the
/// answer for the checkers, and gives up the leases without a claim.
fn work_on<S: Solver, G: Gate, C: Clock, R: Wait>(
    rt: &R,
    crew: &Crew<'_, S, G, C>,
    post: &mut SolverPost,
    group: &Tasks,
) -> Result<(), Halt>
    requires { IsOnDuty C.may_tell crew.now post.old.chair }
    ensures stays { StaysSolver C.may_tell crew.now post.old post.new }
    ensures taken { post.new.groups ≡ post.old.groups }
    ensures asks { OnOk result (AsksFor S.may_find crew.now group.now.items post.old post.new) }
{
    for task in group.iter() {
        crew.means.gate.before_solve(task.lease);
    }
    let answer = answer_for(crew, group);
    act_on(rt, crew, post, group, answer)?;
    Ok(())
}

/// Takes groups of leases and works on each, until an end mark comes, memory runs out or no checker is left.
fn work_on_all<S: Solver, G: Gate, C: Clock, R: Wait>(
    rt: &R,
    crew: &Crew<'_, S, G, C>,
    post: &mut SolverPost,
) -> Result<(), Halt>
    requires duty { IsOnDuty C.may_tell crew.now post.old.chair }
    requires asks { AsksTaken S.may_find crew.now post.old }
    ensures stays { StaysSolver C.may_tell crew.now post.old post.new }
    ensures ended { OnOk result (marks_of post.new.groups ≡ marks_of post.old.groups + 1) }
    ensures going { OnErr result (marks_of post.new.groups ≡ marks_of post.old.groups) }
    ensures asks { OnOk result (AsksTaken S.may_find crew.now post.new) }
{
    for _ in rt.forever() {
        let Some(group) = post.groups.take(rt) else {
            return Ok(());
        };
        work_on(rt, crew, post, &group.tasks)?;
    }
    unreachable!()
}

/// Takes groups of leases until an end mark comes, and works on each. After its work has failed it only takes them, so
/// that the lender never waits for room.
pub(crate) fn solve_all<S: Solver, G: Gate, C: Clock, R: Wait>(
    rt: &R,
    crew: &Crew<'_, S, G, C>,
    post: &mut SolverPost,
) -> Result<(), Halt>
    requires duty { IsOnDuty C.may_tell crew.now post.old.chair }
    requires asks { AsksTaken S.may_find crew.now post.old }
    ensures stays { StaysSolver C.may_tell crew.now post.old post.new }
    ensures ended { marks_of post.new.groups ≡ marks_of post.old.groups + 1 }
    ensures asks { OnOk result (AsksTaken S.may_find crew.now post.new) }
{
    match work_on_all(rt, crew, post) {
        Ok(()) => Ok(()),
        Err(fault) => {
            take_rest(rt, &mut post.groups);
            Err(fault)
        }
    }
}
