//! Readings of boards and of a graph, and a graph begun with another node.

use crate::outcomes::{Outcome, Told};
use crate::spending::Spending;
use crate::texts::{CR_LF, FINESSE, FROM_SECOND};
use cards::{Buffer, Layout, OutOfMemory};
use certificate_graph::{Graph, TextFault};
use pbn_deals::{Board, PbnFault, read_boards, read_layout};
use std::alloc::{AllocError, Global};
use test_support::deals::FOUR_SUITS;

/// Whether these are the boards of the text.
fn are_boards(boards: &[Board], deal: Option<Layout>) -> bool {
    let [seventh, eighth] = boards else {
        return false;
    };
    let are_named = seventh.name.as_bytes() == b"7".as_slice()
        && eighth.name.as_bytes() == b"8".as_slice();
    are_named && deal.is_some() && seventh.deal == deal && eighth.deal.is_none()
}

/// `read_boards`.
pub fn boards(alloc: Global, spending: Spending) -> Result<Told, AllocError> {
    let deal = read_layout(FOUR_SUITS.as_bytes()).ok();
    spending.spend(alloc)?;
    let read = read_boards(alloc, CR_LF);
    let left = spending.left(alloc);
    let outcome = match read {
        Ok(boards) if are_boards(boards.as_slice(), deal) => Outcome::Answer,
        Err(PbnFault::OutOfMemory) => Outcome::OutOfMemory,
        _ => Outcome::Wrong,
    };
    Ok(Told::Called(outcome, left))
}

/// Whether the graph is written so.
fn is_written(graph: &Graph, sink: &mut Buffer, text: &[u8]) -> Outcome {
    if graph.write(sink).is_ok() && sink.bytes() == text {
        Outcome::Answer
    } else {
        Outcome::Wrong
    }
}

/// `Graph::read`.
pub fn graph(alloc: Global, spending: Spending) -> Result<Told, AllocError> {
    let mut sink = Buffer::new(alloc, FINESSE.len(), FINESSE.len())?;
    spending.spend(alloc)?;
    let read = Graph::read(alloc, FINESSE);
    let left = spending.left(alloc);
    let outcome = match read {
        Ok(graph) => is_written(&graph, &mut sink, FINESSE),
        Err(TextFault::OutOfMemory) => Outcome::OutOfMemory,
        Err(_) => Outcome::Wrong,
    };
    Ok(Told::Called(outcome, left))
}

/// `Graph::extract`.
pub fn extracted(alloc: Global, spending: Spending) -> Result<Told, AllocError> {
    let mut sink = Buffer::new(alloc, FINESSE.len(), FINESSE.len())?;
    let Ok(graph) = Graph::read(alloc, FINESSE) else {
        return Ok(Told::Before);
    };
    if graph.nodes().len() < 2 {
        return Ok(Told::Called(Outcome::Wrong, None));
    }
    spending.spend(alloc)?;
    let begun = graph.extract(alloc, Some(1));
    let left = spending.left(alloc);
    let outcome = match begun {
        Ok(graph) => is_written(&graph, &mut sink, FROM_SECOND),
        Err(OutOfMemory) => Outcome::OutOfMemory,
    };
    Ok(Told::Called(outcome, left))
}
