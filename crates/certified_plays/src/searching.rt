//! The values of a play that a solver finds, checked.

ghost use Rattle.certified_plays.specs.Searches.{IsBundleJudged, FindsPlay};

use crate::judging::judge_play;
use crate::proofs::PlayProofs;
use crate::values::PlayValues;
use cards::OutOfMemory;
use checker::CheckedGraph;
use play_claims::{PlayBundle, PlaySolver};
use play_values::RecordedPlay;
use std::alloc::Global;

/// The values of a play, and the claims and nodes that show them.
#[derive(Drop)]
pub struct PlayFound {
    pub values: PlayValues,
    pub bundle: PlayBundle,
}

/// Returns the values of a play that a bundle shows, and why it doesn't show the others. Each graph is checked once.
/// Fails only if memory runs out.
pub fn judge_play_bundle(play: RecordedPlay, bundle: &PlayBundle) -> Result<PlayValues, OutOfMemory>
    ensures { IsBundleJudged play bundle.now result }
{
    let ns = CheckedGraph::of(bundle.ns.graph.clone()?);
    let ew = CheckedGraph::of(bundle.ew.graph.clone()?);
    let proofs = PlayProofs {
        ns_graph: &ns,
        ew_graph: &ew,
        ns_begun: bundle.ns.begun.as_slice(),
        ew_begun: bundle.ew.begun.as_slice(),
    };
    let values = judge_play(&proofs, bundle.claims.as_slice(), play);
    values.invariant();
    Ok(values)
}

/// Has the solver look for what a play is worth after each of its cards, and judges its answer. A number that the
/// answer doesn't show isn't known. Fails only if memory runs out.
pub fn certified_play<P: PlaySolver>(
    alloc: Global,
    play: RecordedPlay,
    budget: u64,
    solver: &P,
) -> Result<PlayFound, OutOfMemory>
    ensures { FindsPlay (P.may_find_play solver.now) play budget result }
{
    let found = solver.solve_play(
        alloc,
        play.layout(),
        play.leader(),
        play.trump(),
        play.cards(),
        budget,
    );
    let Ok(bundle) = found else {
        return Err(OutOfMemory);
    };
    match judge_play_bundle(play, &bundle) {
        Ok(values) => Ok(PlayFound { values, bundle }),
        Err(OutOfMemory) => Err(OutOfMemory),
    }
}
