//! The numbers that a solver claims, checked.

ghost use Rattle.std.specs.Prelude.{◌≡◌, IfOk, IfSome};
ghost use Rattle.checker.specs.Pairs.{IsPairOf};
ghost use Rattle.certified_tricks.specs.FourValues.{AreValues};
ghost use Rattle.certified_tricks.specs.Searches.{AreKnownBy, FindsTricks, IsKnown};

use crate::answers::{FourTricks, TricksFound};
use cards::{Layout, OutOfMemory, Seat, Trump};
use certificate_graph::{Bundle, Graph, Solver};
use checker::{CheckedGraph, CheckedPair, check_claim};
use std::alloc::Global;
use std::sync::Arc;

/// Checks a graph, once, in this thread.
fn checked_here(alloc: Global, graph: &Arc<Graph>) -> Result<Arc<CheckedGraph>, OutOfMemory>
    ensures { IfOk result (λ checked. checked.value ≡ graph.now.value) }
{
    let graph = graph.clone()?;
    Ok(Arc::new(alloc, CheckedGraph::of(graph))?)
}

/// Checks both graphs of a bundle, each once, in this thread.
fn pair_of(alloc: Global, bundle: &Bundle) -> Result<CheckedPair, OutOfMemory>
    ensures { IfOk result (IsPairOf bundle.now) }
{
    Ok(CheckedPair {
        ns: checked_here(alloc, &bundle.ns)?,
        ew: checked_here(alloc, &bundle.ew)?,
    })
}

/// Returns the tricks of a declarer, if the first claim for this one is shown.
fn shown_for(
    layout: &Layout,
    declarer: Seat,
    trump: Trump,
    bundle: &Bundle,
    pair: &CheckedPair,
) -> Result<Option<u8>, OutOfMemory>
    requires { IsPairOf bundle.now pair.now }
    ensures { IfOk result (IsKnown layout.now trump bundle.now declarer) }
{
    let Some(claim) = bundle.claim_for(declarer) else {
        return Ok(None);
    };
    let claimed = pair.claimed(claim)?;
    match check_claim(layout, declarer, trump, &claimed) {
        Ok(proven) => {
            proven.invariant();
            Ok(Some(proven.shown().k))
        }
        Err(_) => Ok(None),
    }
}

/// Returns what a bundle shows of the four declarers.
fn four_tricks(
    alloc: Global,
    layout: &Layout,
    trump: Trump,
    bundle: &Bundle,
) -> Result<FourTricks, OutOfMemory>
    ensures { IfOk result (AreKnownBy layout.now trump bundle.now) }
{
    let pair = pair_of(alloc, bundle)?;
    Ok(FourTricks {
        north: shown_for(layout, Seat::North, trump, bundle, &pair)?,
        east: shown_for(layout, Seat::East, trump, bundle, &pair)?,
        south: shown_for(layout, Seat::South, trump, bundle, &pair)?,
        west: shown_for(layout, Seat::West, trump, bundle, &pair)?,
    })
}

/// Has the solver look for the tricks of the four declarers of a denomination, checks both graphs of its answer, and
/// returns the claims that they show: each is the double-dummy value. Returns `None` if there is no answer. Fails only
/// if memory runs out.
pub fn certified_tricks<S: Solver>(
    alloc: Global,
    layout: &Layout,
    trump: Trump,
    budget: u64,
    solver: &S,
) -> Result<Option<TricksFound>, OutOfMemory>
    ensures values { IfOk result (λ answer. IfSome answer (λ found. AreValues layout.now trump found.tricks)) }
    ensures found { FindsTricks (S.may_find solver.now) layout.now trump budget result }
{
    let found = match solver.solve(alloc, layout, &Seat::ALL, trump, budget) {
        Ok(found) => found,
        Err(_) => return Err(OutOfMemory),
    };
    let Some(bundle) = found else {
        return Ok(None);
    };
    let tricks = four_tricks(alloc, layout, trump, &bundle)?;
    Ok(Some(TricksFound { tricks, bundle }))
}
