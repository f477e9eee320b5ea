//! Calls that take no memory.

use crate::books::board;
use crate::claims::{ace_claim, ace_graphs};
use crate::outcomes::{Outcome, Told};
use crate::spending::Spending;
use crate::texts::{FINESSE, HEAD_OF_ACE};
use cards::{Buffer, Layout, Seat, Trump};
use certificate_graph::Graph;
use checker::{CheckedGraph, Claimed, check_claim, check_entry, check_graph};
use lease_book::Book;
use pbn_deals::read_layout;
use plain_runs::write_tables;
use std::alloc::{AllocError, Global};
use std::sync::Arc;
use test_support::deals::ACE;

/// The trick of North's ace, and what shows it.
#[derive(Drop)]
struct Shown {
    layout: Layout,
    declarer: Graph,
    defenders: Graph,
    claimed: Claimed,
}

/// Reads what the calls are made on.
fn read_shown(alloc: Global) -> Result<Shown, AllocError> {
    let Ok(layout) = read_layout(ACE.as_bytes()) else {
        return Err(AllocError);
    };
    let (declarer, defenders) = ace_graphs(alloc)?;
    Ok(Shown {
        layout,
        declarer,
        defenders,
        claimed: ace_claim(alloc)?,
    })
}

/// Whether the entry is accepted, by its graphs and by its claim.
fn is_accepted(shown: &Shown) -> bool {
    let Shown {
        layout,
        declarer,
        defenders,
        claimed,
    } = shown;
    let by_graphs = check_entry(layout, Seat::North, Trump::Nt, 1, declarer, defenders);
    let by_claim = check_claim(layout, Seat::North, Trump::Nt, claimed);
    by_graphs.is_ok() && by_claim.is_ok() && check_graph(declarer).is_ok()
}

/// The graph of the finesse.
fn finesse(alloc: Global) -> Result<Arc<Graph>, AllocError> {
    match Graph::read(alloc, FINESSE) {
        Ok(graph) => Ok(Arc::new(alloc, graph)?),
        Err(_) => Err(AllocError),
    }
}

/// What comes of `check_graph`, `check_entry`, `check_claim`, `CheckedGraph::of` and `Graph::write`.
fn outcome_of_checks(shown: &Shown, graph: Arc<Graph>, sink: &mut Buffer) -> Outcome {
    let is_written = graph.write(sink).is_ok() && sink.bytes() == FINESSE;
    let checked = CheckedGraph::of(graph);
    if checked.verdict().is_ok() && is_accepted(shown) && is_written {
        Outcome::Answer
    } else {
        Outcome::Wrong
    }
}

/// `check_graph`, `check_entry`, `check_claim`, `CheckedGraph::of` and `Graph::write`.
pub fn checks(alloc: Global, spending: Spending) -> Result<Told, AllocError> {
    let mut sink = Buffer::new(alloc, FINESSE.len(), FINESSE.len())?;
    let graph = finesse(alloc)?;
    let shown = read_shown(alloc)?;
    spending.spend(alloc)?;
    let outcome = outcome_of_checks(&shown, graph, &mut sink);
    Ok(Told::Called(outcome, spending.left(alloc)))
}

/// What comes of `write_tables`.
fn outcome_of_writing(book: &Book, sink: &mut Buffer) -> Outcome {
    if write_tables(book, sink).is_ok() && sink.bytes() == HEAD_OF_ACE {
        Outcome::Answer
    } else {
        Outcome::Wrong
    }
}

/// `write_tables`.
pub fn writes(alloc: Global, spending: Spending) -> Result<Told, AllocError> {
    let mut sink = Buffer::new(alloc, HEAD_OF_ACE.len(), HEAD_OF_ACE.len())?;
    let Ok(book) = Book::new(alloc, board(alloc)?, 10, 2) else {
        return Ok(Told::Before);
    };
    spending.spend(alloc)?;
    let outcome = outcome_of_writing(&book, &mut sink);
    Ok(Told::Called(outcome, spending.left(alloc)))
}
