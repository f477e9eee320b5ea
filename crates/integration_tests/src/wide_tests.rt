//! Large graphs: several threads answer what one does, and several are at work.

use crate::expect::{expect_eq, got};
use certificate_graph::Graph;
use checker::{CheckedGraph, NodeFault, StepFault, check_graph, check_graph_wide};
use std::alloc::Global;
use std::process::Abort;
use std::sync::Arc;
use std::thread::{Threads, available_parallelism};
use std::time::{CpuClock, Duration};

/// The head of a graph's text, before the number of its nodes.
const HEAD: &str = "DDC 1\ntrump NT\nside NS\nnodes ";

/// North's ace wins the only trick.
const RIGHT: &str = "N 1 1.1.1.1/N 0.0.0.0/ 0.0.0.0/ 0.0.0.0/ Sa(SxSx(Sx{}))\n";

/// Nothing is played.
const ENDED: &str = "N 1 1.1.1.1/N 0.0.0.0/ 0.0.0.0/ 0.0.0.0/ {}\n";

/// North plays a card that nobody has.
const OTHER_CARD: &str = "N 1 1.1.1.1/N 0.0.0.0/ 0.0.0.0/ 0.0.0.0/ Sb(SxSx(Sx{}))\n";

/// The line of a node of a graph of `count` nodes, of which node `ended` ends at once and the last `others` play
/// another card.
fn line_of(number: u32, count: u32, ended: u32, others: u32) -> &'static str {
    if number == ended {
        ENDED
    } else if number >= count.saturating_sub(others) {
        OTHER_CARD
    } else {
        RIGHT
    }
}

/// A graph of so many nodes. One ends at once, if this is below the count, and so many of the last ones play another
/// card.
fn graph_of(rt: &impl Abort, alloc: Global, count: u32, ended: u32, others: u32) -> Graph {
    let mut text = got(rt, format!(in alloc; "{HEAD}{count}\n"));
    for number in 0..count {
        got(rt, text.push_str(line_of(number, count, ended, others)));
    }
    got(rt, Graph::read(alloc, text.as_bytes()))
}

/// One thread, several, and a graph that keeps its verdict give this answer.
fn expect_answers<R: Threads + Sync + Abort>(
    rt: &R,
    alloc: Global,
    graph: Graph,
    answer: Result<(), NodeFault>,
) {
    let plain = check_graph(&graph);
    let wide = got(rt, check_graph_wide(&graph, rt));
    let graph = got(rt, Arc::new(alloc, graph));
    let kept = CheckedGraph::of_wide(graph, rt).verdict();
    expect_eq(rt, &[plain, wide, kept], &[answer; 3]);
}

/// A fault of a node.
fn fault_at(number: u32, fault: StepFault) -> Result<(), NodeFault> {
    Err(NodeFault { number, fault })
}

#[test]
fn the_first_fault_of_a_large_graph(rt: HostRuntime) {
    for count in [2_047u32, 2_048, 5_000, 16_383, 16_384] {
        let (middle, last) = (count / 2, count - 1);
        for (ended, others, answer) in [
            (middle, 1, fault_at(middle, StepFault::TreeShape)),
            (count, 1, fault_at(last, StepFault::CardNotLegal)),
            (count, 0, Ok(())),
        ] {
            let graph = graph_of(&rt, rt.alloc(), count, ended, others);
            expect_answers(&rt, rt.alloc(), graph, answer);
        }
    }
}

/// Graphs of 2,000 to 20,000 nodes, damaged in several places.
#[test]
fn two_hundred_damaged_graphs(rt: HostRuntime) {
    for step in 0..200u32 {
        let count = 2_000 + step * 90;
        let ended = step * 7_919 % (count + 5_000);
        let others = 1 + step * 104_729 % count;
        let graph = graph_of(&rt, rt.alloc(), count, ended, others);
        let first = if ended <= count - others {
            fault_at(ended, StepFault::TreeShape)
        } else {
            fault_at(count - others, StepFault::CardNotLegal)
        };
        expect_answers(&rt, rt.alloc(), graph, first);
    }
}

/// How often a graph is checked while the processors' time is taken.
const TIMES: u32 = 50;

/// The processors' time that this thread has used, and what all others of the process have, those that have ended too.
fn used(rt: &(impl CpuClock + Abort)) -> (Duration, Duration) {
    let own = got(rt, rt.thread_cpu_time());
    let all = got(rt, rt.process_cpu_time());
    (own, all.saturating_sub(own))
}

/// Whether other threads than this one take a quarter at least of the processors' time that checks of the graph cost.
fn is_shared<R: Threads + Sync + CpuClock + Abort>(rt: &R, graph: &Arc<Graph>) -> bool {
    let (own_before, others_before) = used(rt);
    for _ in 0..TIMES {
        CheckedGraph::of_wide(got(rt, Arc::try_clone(graph)), rt);
    }
    let (own, others) = used(rt);
    let own = own.saturating_sub(own_before);
    let others = others.saturating_sub(others_before);
    others.saturating_mul(3) >= own
}

/// From 16,384 nodes on, where there are several processors. With one node fewer no thread is started.
#[test]
fn large_graphs_are_checked_by_several_threads(rt: HostRuntime) {
    let are_several = got(&rt, available_parallelism(&rt)).get() > 1;
    for (count, shared) in [(16_383u32, false), (16_384, are_several)] {
        let graph = graph_of(&rt, rt.alloc(), count, count, 0);
        let graph = got(&rt, Arc::new(rt.alloc(), graph));
        expect_eq(&rt, &is_shared(&rt, &graph), &shared);
    }
}
