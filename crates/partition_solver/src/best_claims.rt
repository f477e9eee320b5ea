//! What a call claims of cards that lead to the most tricks: one number, the begun nodes that show it after each card
//! of a run, and the one which shows that no card leads to more.

use crate::card_claims::{Candidate, SideNodes, add_candidates, write_side};
use crate::graph_writing::Writing;
use cards::{Side, Trump};
use certificate_graph::{CardBundle, CardClaim, Graph, Node};
use partition_search::{Begun, CardSet, OURS, Search, side_at, side_of};
use std::alloc::AllocError;
use std::sync::Arc;

/// The graph of the side that is not to play, and the begun node that stands beside it, if that side wins a trick.
#[derive(Drop)]
struct Hold {
    graph: Arc<Graph>,
    node: Option<Node>,
}

/// The claims for the cards of a run that lead to the most tricks after those of the trick, with their graphs. The
/// first claim has the node which shows that no card leads to more. None where a graph can't be finished, the steps are
/// not enough or memory ran out.
pub(crate) fn best_bundle_of(
    search: &mut Search,
    trump: Trump,
    begun: &Begun,
    budget: u64,
) -> Option<CardBundle> {
    search.steps = budget;
    let ours = search.value_after(begun, None)?;
    let Ok(candidates) = candidates_of(search, begun, ours) else {
        search.run_out();
        return None;
    };
    let run = best_run(search, &candidates)?;
    let Ok(best) = those_of(search, candidates, run) else {
        search.run_out();
        return None;
    };
    let player = side_at(side_of(begun.seat()));
    let nodes = write_side(search, trump, player, &best)?;
    let need = best.first()?.tricks_of(player.other())?;
    let hold = write_hold(search, trump, player.other(), begun, need)?;
    bundle_of_run(search, player, &best, nodes, hold)
}

/// The cards that may be played next, each with this number of tricks for North and South.
fn candidates_of(search: &Search, begun: &Begun, ours: i32) -> Result<Vec<Candidate>, AllocError> {
    let mut candidates = Vec::new(search.alloc);
    add_candidates(search, begun, &mut candidates)?;
    for candidate in candidates.iter_mut() {
        candidate.ours = Some(ours);
    }
    Ok(candidates)
}

/// The run whose cards lead to the tricks of the candidates: one that is known from what is remembered, else one that
/// is found. None where no steps are left or memory ran out.
fn best_run(search: &mut Search, candidates: &Vec<Candidate>) -> Option<CardSet> {
    let steps = search.steps;
    search.steps = 0;
    let known = run_in(search, candidates);
    search.steps = steps;
    if known.is_some() {
        return known;
    }
    run_in(search, candidates)
}

/// The first run whose cards lead to the tricks of the candidates, with the steps that are left.
fn run_in(search: &mut Search, candidates: &Vec<Candidate>) -> Option<CardSet> {
    let mut last: CardSet = 0;
    for candidate in candidates.iter() {
        if candidate.run != last && reaches(search, candidate) {
            return Some(candidate.run);
        }
        last = candidate.run;
    }
    None
}

/// Whether the side that plays the card is found to take its tricks after it.
fn reaches(search: &mut Search, candidate: &Candidate) -> bool {
    let need = candidate.tricks_of(candidate.player).unwrap_or(0);
    if need <= 0 {
        return true;
    }
    let tricks = search.deal.hands[0].count_ones();
    let needed = need.cast_unsigned().min(tricks);
    let want = match candidate.player {
        Side::NorthSouth => needed,
        Side::EastWest => tricks.wrapping_add(1).wrapping_sub(needed),
    };
    search.stopped = false;
    let found = search.found_after(&candidate.begun, tricks, want);
    !search.stopped && side_at(found.side) == candidate.player
}

/// The candidates of a run.
fn those_of(
    search: &Search,
    candidates: Vec<Candidate>,
    run: CardSet,
) -> Result<Vec<Candidate>, AllocError> {
    let mut those = Vec::new(search.alloc);
    for candidate in candidates {
        if candidate.run == run {
            those.push(candidate)?;
        }
    }
    Ok(those)
}

/// Writes the graph of a side with the begun node which shows that it wins this many tricks, whatever is played next.
fn write_hold(
    search: &mut Search,
    trump: Trump,
    side: Side,
    begun: &Begun,
    need: i32,
) -> Option<Hold> {
    let mut writing = Writing::new(search, side)?;
    let node = if need > 0 {
        Some(writing.begun_node(search, begun, need)?)
    } else {
        None
    };
    let graph = writing.finish(search, trump)?;
    Some(Hold { graph, node })
}

/// The claims for the candidates, of which the first has the node of the other side.
fn bundle_of_run(
    search: &mut Search,
    player: Side,
    best: &Vec<Candidate>,
    mut nodes: SideNodes,
    hold: Hold,
) -> Option<CardBundle> {
    let Hold { graph, node } = hold;
    let mut others = node;
    let mut claims = Vec::new(search.alloc);
    for (place, candidate) in best.iter().enumerate() {
        let tricks = candidate.tricks_of(player)?;
        let claim = CardClaim {
            card: candidate.card,
            tricks: (tricks & 15) as u8,
            player: nodes.take(place),
            others: others.take(),
        };
        if claims.push(claim).is_err() {
            search.run_out();
            return None;
        }
    }
    let SideNodes { graph: own, .. } = nodes;
    let (ns, ew) = match player {
        Side::NorthSouth => (own, graph),
        Side::EastWest => (graph, own),
    };
    Some(CardBundle { ns, ew, claims })
}
