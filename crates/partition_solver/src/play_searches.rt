//! What a call claims of a recorded play: the tricks that both sides take after each of its cards, and the nodes that
//! are to show them.
//!
//! The last cards are searched first, so each search finds the positions after it in the memory. It begins with the
//! number that was found there: a card that loses no trick keeps it. Both graphs serve all cards.

use crate::claims::start_of;
use crate::graph_writing::Writing;
use cards::{Card, Seat, Side, Trump};
use certificate_graph::Node;
use partition_search::{Begun, CardSet, OURS, Search, TRICK_CARDS, seat_to_left, side_of, suit_of};
use play_claims::{PlayBundle, PlayClaim, PlayNodes};
use std::alloc::AllocError;

/// The first cards of a play, before the last one of a layout.
#[derive(Drop)]
struct Moment {
    /// What the seats held when the trick in progress began.
    hands: [CardSet; 4],
    /// The trick in progress.
    begun: Begun,
    /// How many tricks North and South won before it.
    won: i32,
    /// How many of the tricks left then they take, if that is found.
    ours: Option<i32>,
}

/// The node that shows what a side takes.
#[derive(Clone, Copy)]
enum Root {
    /// None is needed.
    Needless,
    /// A node of the graph, by its number.
    Kept(u32),
    /// A begun node, by its place.
    Begun(u32),
    /// None is known.
    Missing,
}

/// The nodes of a side, and for each moment the one that shows what the side takes.
#[derive(Drop)]
struct SidePlay {
    nodes: PlayNodes,
    roots: Vec<Root>,
}

/// The claims for the first cards of a play, with their graphs. Each number of first cards has a search with the whole
/// budget of steps. The graphs are written with what the searches leave. Nothing is claimed if a graph can't be
/// finished. None if memory ran out.
pub(crate) fn play_bundle_of(
    search: &mut Search,
    leader: Seat,
    trump: Trump,
    cards: &[Card],
    budget: u64,
) -> Option<PlayBundle> {
    let whole = search.deal.hands;
    let Ok(mut moments) = moments_of(search, leader, cards) else {
        search.run_out();
        return None;
    };
    let left = find_each(search, &mut moments, budget);
    search.steps = left;
    let mut bundle = write_play(search, trump, whole, &moments);
    if bundle.is_none() && !search.memory_ran_out {
        for moment in moments.iter_mut() {
            moment.ours = None;
        }
        bundle = write_play(search, trump, whole, &moments);
    }
    search.deal.hands = whole;
    bundle
}

/// Whether something is claimed for the first cards of each number.
pub(crate) fn is_all_claimed(bundle: &PlayBundle) -> bool {
    bundle.claims.iter().all(|claim| claim.is_some())
}

/// The first cards of each number, from none on, as long as a card is left.
fn moments_of(search: &Search, leader: Seat, cards: &[Card]) -> Result<Vec<Moment>, AllocError> {
    let mut moments = Vec::new(search.alloc);
    let mut next = Moment {
        hands: search.deal.hands,
        begun: Begun::at(leader.number()),
        won: 0,
        ours: None,
    };
    for card in cards {
        let after = next.after(search.deal.set_of(*card), search.deal.trumps);
        moments.push(next)?;
        next = after;
        if next.hands[0] == 0 {
            return Ok(moments);
        }
    }
    moments.push(next)?;
    Ok(moments)
}

/// Finds the tricks after the first cards of each number, the last ones first. Each search has the whole budget.
/// Answers how many steps they leave. The first guess is the number that was found after one card more.
fn find_each(search: &mut Search, moments: &mut Vec<Moment>, budget: u64) -> u64 {
    let mut left = 0u64;
    let mut total: Option<i32> = None;
    for moment in moments.iter_mut().rev() {
        search.deal.hands = moment.hands;
        search.steps = budget;
        let guess = match total {
            Some(tricks) => Some(tricks.wrapping_sub(moment.won)),
            None => None,
        };
        moment.ours = search.value_after(&moment.begun, guess);
        if let Some(ours) = moment.ours {
            total = Some(ours.wrapping_add(moment.won));
        }
        left = left.saturating_add(search.steps);
        if search.memory_ran_out {
            break;
        }
    }
    left
}

/// Writes both graphs with their begun nodes, and the claims that these show. The whole deal had these hands.
fn write_play(
    search: &mut Search,
    trump: Trump,
    whole: [CardSet; 4],
    moments: &Vec<Moment>,
) -> Option<PlayBundle> {
    let ns = write_side(search, trump, Side::NorthSouth, whole, moments)?;
    let ew = write_side(search, trump, Side::EastWest, whole, moments)?;
    let mut claims = Vec::new(search.alloc);
    for (place, moment) in moments.iter().enumerate() {
        let claim = moment.claim(ns.number(place), ew.number(place));
        if claims.push(claim).is_err() {
            search.run_out();
            return None;
        }
    }
    Some(PlayBundle {
        ns: ns.nodes,
        ew: ew.nodes,
        claims,
    })
}

/// Writes the graph of a side, and the nodes that show what the side takes at each moment.
fn write_side(
    search: &mut Search,
    trump: Trump,
    side: Side,
    whole: [CardSet; 4],
    moments: &Vec<Moment>,
) -> Option<SidePlay> {
    let mut writing = Writing::new(search, side)?;
    let mut begun = Vec::new(search.alloc);
    let mut roots = Vec::new(search.alloc);
    for moment in moments.iter() {
        search.deal.hands = moment.hands;
        let root = root_of(search, &mut writing, side, moment, &mut begun);
        if search.memory_ran_out || roots.push(root).is_err() {
            search.run_out();
            return None;
        }
    }
    search.deal.hands = whole;
    let graph = writing.finish(search, trump)?;
    Some(SidePlay {
        nodes: PlayNodes { graph, begun },
        roots,
    })
}

/// The node that shows what a side takes at a moment. It is put down for the graph, or added to the begun nodes.
fn root_of(
    search: &mut Search,
    writing: &mut Writing,
    side: Side,
    moment: &Moment,
    begun: &mut Vec<Node>,
) -> Root {
    let Some(need) = moment.tricks_of(side) else {
        return Root::Missing;
    };
    if need <= 0 {
        return Root::Needless;
    }
    if moment.begun.cards.is_empty() {
        let start = start_of(search, moment.begun.leader, side, need);
        if let Some(Some(start)) = start {
            return match writing.put_down(start) {
                Ok(number) => Root::Kept(number.wrapping_sub(1)),
                Err(_) => {
                    search.run_out();
                    Root::Missing
                }
            };
        }
    }
    let Some(node) = writing.begun_node(search, &moment.begun, need) else {
        return Root::Missing;
    };
    let place = (begun.len() & 0xff) as u32;
    if begun.push(node).is_err() {
        search.run_out();
        return Root::Missing;
    }
    Root::Begun(place)
}

impl Moment {
    /// The moment after one more card. If it ends a trick, the hands are those that the trick leaves.
    fn after(&self, card: CardSet, trumps: CardSet) -> Moment {
        let begun = self.begun.with(card);
        if begun.others() > 0 {
            return Moment {
                hands: self.hands,
                begun,
                won: self.won,
                ours: None,
            };
        }
        let mut gone = 0;
        for card in begun.cards.as_slice() {
            gone |= *card;
        }
        let mut hands = self.hands;
        for seat in 0..4usize {
            hands[seat] &= !gone;
        }
        let winner = winner_of(&begun, trumps);
        let more = if side_of(winner) == OURS { 1 } else { 0 };
        Moment {
            hands,
            begun: Begun::at(winner),
            won: self.won.wrapping_add(more),
            ours: None,
        }
    }

    /// How many of the tricks left when the trick in progress began a side takes, if that is found.
    fn tricks_of(&self, side: Side) -> Option<i32> {
        let ours = self.ours?;
        match side {
            Side::NorthSouth => Some(ours),
            Side::EastWest => Some((self.hands[0].count_ones() as i32).wrapping_sub(ours)),
        }
    }

    /// The claim that the nodes with these numbers show. None if a node is missing.
    fn claim(&self, ns: Option<Option<u32>>, ew: Option<Option<u32>>) -> Option<PlayClaim> {
        let ours = self.ours?;
        Some(PlayClaim {
            tricks: (ours.wrapping_add(self.won) & 15) as u8,
            ns: ns?,
            ew: ew?,
        })
    }
}

impl SidePlay {
    /// The number of the node for the moment in this place, if one is needed. None if it is missing.
    fn number(&self, place: usize) -> Option<Option<u32>> {
        match self.roots.get(place) {
            Some(Root::Needless) => Some(None),
            Some(Root::Kept(number)) => Some(Some(*number)),
            Some(Root::Begun(after)) => {
                let count = (self.nodes.graph.nodes().len() & 0xffff_ffff) as u32;
                Some(Some(count.wrapping_add(*after)))
            }
            _ => None,
        }
    }
}

/// The seat that wins a whole trick. Trumps lie above all other suits.
fn winner_of(begun: &Begun, trumps: CardSet) -> usize {
    let mut best: CardSet = 0;
    let mut winner = begun.leader;
    for place in 0..TRICK_CARDS as usize {
        let Some(card) = begun.cards.as_slice().get(place).copied() else {
            break;
        };
        if best == 0 || card & (suit_of(best) | trumps) > best {
            best = card;
            winner = seat_to_left(begun.leader, place);
        }
    }
    winner
}
