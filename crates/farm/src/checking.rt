//! The work of a checker.

ghost use Rattle.std.specs.Prelude.{◌≡◌, ◌+◌, ◌≤◌, ℕ};
ghost use Rattle.farm_relay.specs.Relays.{PutsAtSame, put_by, taken_by, marks_of};
ghost use Rattle.farm.specs.Findings.{PutsClaim, PutsClaims};
ghost use Rattle.farm.specs.Flows.{ClaimsOwn, of_found, all_claimed};
ghost use Rattle.farm.specs.Posts.{StaysChecker, ClaimsTaken};

use crate::crews::Crew;
use crate::posts::CheckerPost;
use crate::tasks::{CheckedClaim, FoundBundle, Task};
use certificate_graph::Bundle;
use checker::CheckedPair;
use farm_relay::Putter;
use lease_book::Gate;
use std::alloc::AllocError;
use std::sync::Wait;
use std::thread::Threads;

/// Puts the claim for a lease, if there is one. A claim that the relay hands back is dropped, and its lease stays held.
fn put_claim<R: Wait>(
    rt: &R,
    bundle: &Bundle,
    pair: &CheckedPair,
    task: Task,
    claims: &mut Putter<CheckedClaim>,
) -> Result<(), AllocError>
    ensures puts { PutsClaim bundle.now pair.now task (put_by claims.old) (put_by claims.new) }
    ensures leases { (weight : ℕ → ℕ) →
        all_claimed weight (put_by claims.new) ≤ all_claimed weight (put_by claims.old) + weight task.lease }
    ensures same { PutsAtSame claims.old claims.new }
{
    let Some(claim) = bundle.claim_for(task.entry.declarer) else {
        return Ok(());
    };
    let claimed = pair.claimed(claim)?;
    let Err(_back) = claims.put(rt, CheckedClaim { task, claimed }) else {
        return Ok(());
    };
    Ok(())
}

/// Checks the graphs of a message, and puts its claims. Before that it calls the gate for each lease.
fn check_found<S, G: Gate, C, R: Threads + Wait + Sync>(
    rt: &R,
    crew: &Crew<'_, S, G, C>,
    found: FoundBundle,
    claims: &mut Putter<CheckedClaim>,
) -> Result<(), AllocError>
    ensures leases { (weight : ℕ → ℕ) →
        all_claimed weight (put_by claims.new) ≤ all_claimed weight (put_by claims.old) + of_found weight found }
    ensures puts { PutsClaims found (put_by claims.old) (put_by claims.new) }
    ensures same { PutsAtSame claims.old claims.new }
{
    let FoundBundle { tasks, bundle } = found;
    for task in tasks.iter() {
        crew.means.gate.before_graphs(task.lease);
    }
    let pair = CheckedPair::of(rt, crew.alloc, &bundle)?;
    for task in tasks.iter() {
        put_claim(rt, &bundle, &pair, *task, claims)?;
    }
    Ok(())
}

/// Takes messages until an end mark comes, checks their graphs, and puts their claims. If memory runs out for a
/// message, its remaining claims are dropped, and their leases stay held.
pub(crate) fn check_all<S, G: Gate, C, R: Threads + Wait + Sync>(
    rt: &R,
    crew: &Crew<'_, S, G, C>,
    post: &mut CheckerPost,
)
    requires leases { (weight : ℕ → ℕ) → ClaimsOwn weight post.old }
    requires claims { ClaimsTaken post.old }
    ensures stays { StaysChecker post.old post.new }
    ensures ended { marks_of post.new.found ≡ marks_of post.old.found + 1 }
    ensures leases { (weight : ℕ → ℕ) → ClaimsOwn weight post.new }
    ensures claims { ClaimsTaken post.new }
{
    for _ in rt.forever() {
        let Some(message) = post.found.take(rt) else {
            return;
        };
        let _ = check_found(rt, crew, message, &mut post.claims);
    }
}
