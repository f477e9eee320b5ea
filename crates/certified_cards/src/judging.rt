//! The judgement of what a solver claims for a trick.

ghost use Rattle.certified_cards.specs.Bundles.{AreJudged};

use card_values::{CardFault, CardGraphs, CardValues, TrickInProgress, judge_cards};
use cards::OutOfMemory;
use certificate_graph::CardBundle;
use checker::CheckedGraph;

/// Returns the values that a bundle shows of the cards that may be played, or why it doesn't show them all. Fails only
/// if memory runs out.
pub fn judge_bundle(
    trick: TrickInProgress,
    bundle: &CardBundle,
) -> Result<Result<CardValues, CardFault>, OutOfMemory>
    ensures { AreJudged trick bundle.now result }
{
    let ns = CheckedGraph::of(bundle.ns.clone()?);
    let ew = CheckedGraph::of(bundle.ew.clone()?);
    let graphs = CardGraphs { ns: &ns, ew: &ew };
    match judge_cards(trick, &graphs, bundle.claims.as_slice()) {
        Ok(values) => {
            values.invariant();
            Ok(Ok(values))
        }
        Err(fault) => Ok(Err(fault)),
    }
}
