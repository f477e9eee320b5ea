//! Graphs that have to show a claim, checked before or not.

ghost use Rattle.std.specs.Prelude.{◌≡◌, MatchResult};
ghost use Rattle.checker.specs.Steps.{StepsHold};
ghost use Rattle.checker.specs.Faults.{IsGraphFault};
ghost use Rattle.checker.specs.Witnesses.{seen_as};

use crate::claims::Rooted;
use crate::faults::NodeFault;
use crate::graphs::check_graph;
use certificate_graph::Graph;

/// A graph that has to show a claim.
#[derive(Drop)]
pub(crate) enum Witness<'a> {
    /// A whole graph, read from its node 0. Its steps are still to be checked.
    Whole(&'a Graph),
    /// A graph with its root. Its steps were checked.
    At(&'a Rooted),
}

impl<'a> Witness<'a> {
    /// Returns the graph, whether it was checked or not.
    pub(crate) fn graph(&self) -> &Graph
        ensures { result.now ≡ (seen_as self.now).graph }
    {
        match self {
            Witness::Whole(graph) => graph,
            Witness::At(rooted) => rooted.graph.graph(),
        }
    }

    /// Returns the number of the node that is read as the first.
    pub(crate) fn root(&self) -> Option<u32>
        ensures { result ≡ (seen_as self.now).root }
    {
        match self {
            Witness::Whole(graph) if graph.nodes().is_empty() => None,
            Witness::Whole(_) => Some(0),
            Witness::At(rooted) => rooted.root,
        }
    }

    /// Returns `Ok` if all steps hold, otherwise the first fault.
    pub(crate) fn verdict(&self) -> Result<(), NodeFault>
        ensures { MatchResult result
            (λ _. StepsHold (seen_as self.now).graph)
            (IsGraphFault (seen_as self.now).graph) }
    {
        match self {
            Witness::Whole(graph) => check_graph(graph),
            Witness::At(rooted) => rooted.graph.verdict(),
        }
    }
}
