//! Graphs with the result of their check.

ghost use Rattle.std.specs.Prelude.{◌≡◌, MatchResult};
ghost use Rattle.checker.specs.Steps.{StepsHold};
ghost use Rattle.checker.specs.Faults.{IsGraphFault};

use crate::faults::NodeFault;
use crate::graphs::check_graph;
use crate::wide::check_graph_wide;
use certificate_graph::Graph;
use std::marker::Model;
use std::sync::Arc;
use std::thread::Threads;

/// With fewer nodes new threads cost more than they gain.
const WIDE: usize = 16_384;

/// A graph with the result of [`check_graph`]. One check serves all claims of the graph's nodes, and every holder of
/// the value, in any thread, knows that it was made. Contracts see the graph alone, from which the verdict follows.
#[derive(Drop)]
pub struct CheckedGraph {
    graph: Arc<Graph>,
    verdict: Result<(), NodeFault>,
}

impl Model for CheckedGraph {
    ghost use Rattle.std.specs.Prelude.{MatchResult};
    ghost use Rattle.std.specs.Coded.{codes};
    ghost use Rattle.certificate_graph.specs.Graphs.{GraphShape};
    ghost use Rattle.certificate_graph.specs.TreeCodes.{tree_code};
    ghost use Rattle.checker.specs.Steps.{StepsHold};
    ghost use Rattle.checker.specs.Faults.{IsGraphFault};

    ghost Value = { GraphShape };

    ghost coded = { Prim.hlevel (codes, tree_code) };

    ghost view = { λ checked. checked.graph.value };

    ghost invariant = { λ checked. MatchResult checked.verdict (λ _. StepsHold checked.graph.value)
        (IsGraphFault checked.graph.value) };
}

impl CheckedGraph {
    /// Checks the graph, once. Takes no memory.
    pub fn of(graph: Arc<Graph>) -> CheckedGraph
        ensures { result ≡ graph.value }
    {
        let verdict = check_graph(&graph);
        CheckedGraph { graph, verdict }
    }

    /// Checks the graph once. If it has 16,384 nodes or more, as many threads as there are processors check it, unless
    /// memory runs out for them.
    pub fn of_wide(graph: Arc<Graph>, rt: &(impl Threads + Sync)) -> CheckedGraph
        ensures { result ≡ graph.value }
    {
        if graph.nodes().len() < WIDE {
            return CheckedGraph::of(graph);
        }
        match check_graph_wide(&graph, rt) {
            Ok(verdict) => CheckedGraph { graph, verdict },
            Err(_) => CheckedGraph::of(graph),
        }
    }

    /// Returns the graph that was checked.
    pub fn graph(&self) -> &Graph
        ensures { result.now ≡ self.now }
    {
        &self.graph
    }

    /// Returns `Ok` if all steps hold, otherwise the first fault. It looks at no node.
    pub fn verdict(&self) -> Result<(), NodeFault>
        ensures { MatchResult result (λ _. StepsHold self.now) (IsGraphFault self.now) }
    {
        self.verdict
    }
}
