//! What a call claims of the cards that may be played: the tricks after each, and the begun nodes that are to show
//! them.

use crate::graph_writing::Writing;
use cards::{Card, Layout, Rank, Seat, Side, Suit, Trump};
use certificate_graph::{CardBundle, CardClaim, Graph, Node};
use partition_search::{
    Begun, CardSet, HandRuns, Search, below, highest, may_be_played, side_at, side_of,
};
use std::alloc::AllocError;
use std::sync::Arc;

/// A card that may be played.
#[derive(Drop)]
pub(crate) struct Candidate {
    pub(crate) card: Card,
    /// The side that plays it.
    pub(crate) player: Side,
    /// The trick after it.
    pub(crate) begun: Begun,
    /// The lowest card of its run. All cards of a run lead to as many tricks.
    pub(crate) run: CardSet,
    /// How many tricks there are.
    most: i32,
    /// How many of them North and South take after it, if that is found.
    pub(crate) ours: Option<i32>,
}

/// The graph of a side, and for each candidate the begun node beside it, if there is one.
#[derive(Drop)]
pub(crate) struct SideNodes {
    pub(crate) graph: Arc<Graph>,
    nodes: Vec<Option<Node>>,
}

/// The claims for the cards that may be played next to any of these tricks, with their graphs. None where a graph can't
/// be finished, nothing is claimed or memory ran out. The tricks after each card are searched with so many steps. Where
/// that was not enough for all, half of what the others have left is searched with too, and the graphs are written with
/// the rest.
pub(crate) fn card_bundle_of(
    search: &mut Search,
    trump: Trump,
    tricks: &Vec<Begun>,
    budget: u64,
) -> Option<CardBundle> {
    let Ok(mut candidates) = candidates_of(search, tricks) else {
        search.run_out();
        return None;
    };
    let left = find_each(search, &mut candidates, budget);
    let spare = left / 2;
    search.steps = spare;
    find_missing(search, &mut candidates);
    search.steps = left.wrapping_sub(spare).saturating_add(search.steps);
    if search.memory_ran_out {
        return None;
    }
    write_claims(search, trump, &candidates)
}

/// Whether these cards may be played in turn to the first trick, whichever of these seats leads.
pub(crate) fn may_all_be_played(layout: &Layout, leaders: &[Seat], played: &[Card]) -> bool {
    for leader in leaders {
        if !may_be_played(layout, *leader, played) {
            return false;
        }
    }
    true
}

/// The tricks to which these cards were played, one for each leader.
pub(crate) fn tricks_begun(
    search: &Search,
    leaders: &[Seat],
    played: &[Card],
) -> Result<Vec<Begun>, AllocError> {
    let mut tricks = Vec::new(search.alloc);
    for leader in leaders {
        tricks.push(Begun::of(&search.deal, *leader, played))?;
    }
    Ok(tricks)
}

/// How many cards may be played next, those of each of these tricks counted.
pub(crate) fn count_cards(search: &Search, tricks: &Vec<Begun>) -> usize {
    let mut cards = 0u32;
    for begun in tricks.iter() {
        cards = cards.wrapping_add(begun.legal(&search.deal).count_ones());
    }
    cards as usize
}

/// The cards that may be played next to any of these tricks.
fn candidates_of(search: &Search, tricks: &Vec<Begun>) -> Result<Vec<Candidate>, AllocError> {
    let mut candidates = Vec::new(search.alloc);
    for begun in tricks.iter() {
        add_candidates(search, begun, &mut candidates)?;
    }
    Ok(candidates)
}

/// Adds the cards that may be played next to a trick, by suit, the highest of a suit first: those of a run follow one
/// another.
pub(crate) fn add_candidates(
    search: &Search,
    begun: &Begun,
    candidates: &mut Vec<Candidate>,
) -> Result<(), AllocError> {
    let own = begun.legal(&search.deal);
    let bottoms = HandRuns::of(own, search.all_cards().cards).bottoms;
    for suit in Suit::ALL {
        for rank in Rank::FALLING {
            let card = Card { suit, rank };
            let set = search.deal.set_of(card);
            if own & set != 0 {
                candidates.push(Candidate {
                    card,
                    player: side_at(side_of(begun.seat())),
                    begun: begun.with(set),
                    run: highest(bottoms & (below(set) | set)),
                    most: search.deal.hands[0].count_ones() as i32,
                    ours: None,
                })?;
            }
        }
    }
    Ok(())
}

/// Finds the tricks after each card, each with so many steps, and answers how many they leave. Of a run one card is
/// searched. The first guess for a card is what was found before it.
fn find_each(search: &mut Search, candidates: &mut Vec<Candidate>, budget: u64) -> u64 {
    let mut left = 0u64;
    let mut last: Option<(CardSet, i32)> = None;
    for candidate in candidates.iter_mut() {
        search.steps = budget;
        candidate.ours = match last {
            Some((run, ours)) if run == candidate.run => Some(ours),
            Some((_, guess)) => search.value_after(&candidate.begun, Some(guess)),
            None => search.value_after(&candidate.begun, None),
        };
        if let Some(ours) = candidate.ours {
            last = Some((candidate.run, ours));
        }
        left = left.saturating_add(search.steps);
        if search.memory_ran_out {
            break;
        }
    }
    left
}

/// Finds the tricks that are missing, as far as the steps of the search go.
fn find_missing(search: &mut Search, candidates: &mut Vec<Candidate>) {
    for candidate in candidates.iter_mut() {
        if search.steps > 0 && candidate.ours.is_none() {
            candidate.ours = search.value_after(&candidate.begun, None);
        }
    }
}

/// Writes both graphs with their begun nodes, and the claims that these show.
fn write_claims(
    search: &mut Search,
    trump: Trump,
    candidates: &Vec<Candidate>,
) -> Option<CardBundle> {
    let mut ns = write_side(search, trump, Side::NorthSouth, candidates)?;
    let mut ew = write_side(search, trump, Side::EastWest, candidates)?;
    let mut claims = Vec::new(search.alloc);
    for (place, candidate) in candidates.iter().enumerate() {
        let our_node = ns.take(place);
        let their_node = ew.take(place);
        if let Some(claim) = candidate.claim(our_node, their_node) {
            if claims.push(claim).is_err() {
                search.run_out();
                return None;
            }
        }
    }
    if claims.is_empty() {
        return None;
    }
    Some(CardBundle {
        ns: ns.graph,
        ew: ew.graph,
        claims,
    })
}

/// Writes the graph of a side, and for each card the begun node that shows the tricks that the side takes after it.
pub(crate) fn write_side(
    search: &mut Search,
    trump: Trump,
    side: Side,
    candidates: &Vec<Candidate>,
) -> Option<SideNodes> {
    let mut writing = Writing::new(search, side)?;
    let mut nodes = Vec::new(search.alloc);
    for candidate in candidates.iter() {
        let need = candidate.tricks_of(side).unwrap_or(0);
        let node = if need > 0 {
            writing.begun_node(search, &candidate.begun, need)
        } else {
            None
        };
        if nodes.push(node).is_err() {
            search.run_out();
            return None;
        }
    }
    let graph = writing.finish(search, trump)?;
    Some(SideNodes { graph, nodes })
}

impl SideNodes {
    /// Takes out the node of the candidate in this place.
    pub(crate) fn take(&mut self, place: usize) -> Option<Node> {
        self.nodes.get_mut(place)?.take()
    }
}

impl Candidate {
    /// How many tricks a side takes after the card, if that is found.
    pub(crate) fn tricks_of(&self, side: Side) -> Option<i32> {
        let ours = self.ours?;
        match side {
            Side::NorthSouth => Some(ours),
            Side::EastWest => Some(self.most.wrapping_sub(ours)),
        }
    }

    /// The claim that North's and South's node and East's and West's show. None where a node is missing.
    fn claim(&self, our_node: Option<Node>, their_node: Option<Node>) -> Option<CardClaim> {
        let ours = self.tricks_of(Side::NorthSouth)?;
        let theirs = self.tricks_of(Side::EastWest)?;
        if our_node.is_none() && ours > 0 || their_node.is_none() && theirs > 0 {
            return None;
        }
        let (tricks, player, others) = match self.player {
            Side::NorthSouth => (ours, our_node, their_node),
            Side::EastWest => (theirs, their_node, our_node),
        };
        Some(CardClaim {
            card: self.card,
            tricks: (tricks & 15) as u8,
            player,
            others,
        })
    }
}
