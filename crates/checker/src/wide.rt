//! The check of a graph by several threads.

ghost use Rattle.std.specs.Prelude.{◌≡◌, ◌<◌, IfOk, MatchResult, length};
ghost use Rattle.std.specs.Option.{is_some};
ghost use Rattle.checker.specs.Steps.{StepsHold};
ghost use Rattle.checker.specs.Faults.{IsGraphFault, NodeTells};

use crate::faults::NodeFault;
use crate::graphs::fault_of;
use cards::OutOfMemory;
use certificate_graph::Graph;
use rayon::prelude::*;
use std::thread::Threads;

/// Checks that the steps of all nodes hold, as [`check_graph`](crate::check_graph) does. If the graph has 2,048 nodes
/// or more, as many threads as there are processors check it. The answer is the same, to the fault. All nodes are
/// looked at, also after one that has a fault. Nothing asks for memory today, so it never runs out.
pub fn check_graph_wide(
    graph: &Graph,
    rt: &(impl Threads + Sync),
) -> Result<Result<(), NodeFault>, OutOfMemory>
    ensures { IfOk result (λ told. MatchResult told (λ _. StepsHold graph.now) (IsGraphFault graph.now)) }
{
    Ok(first_fault(graph, rt))
}

/// Returns the fault of the least node that has one.
fn first_fault(graph: &Graph, rt: &(impl Threads + Sync)) -> Result<(), NodeFault>
    ensures { MatchResult result (λ _. StepsHold graph.now) (IsGraphFault graph.now) }
{
    let count = graph.nodes().len();
    let first = (0..count)
        .into_par_iter()
        .map(
            |number: usize| -> Option<NodeFault>
                requires { number < length graph.now.nodes }
                ensures { NodeTells graph.entry.now number result }
            { fault_of(graph, number) },
        )
        .find_first(
            rt,
            |told: &Option<NodeFault>| -> bool
                ensures { result ≡ is_some told.now }
            { told.is_some() },
        );
    let Some(told) = first else {
        return Ok(());
    };
    match told {
        Some(fault) => Err(fault),
        None => Ok(()),
    }
}
