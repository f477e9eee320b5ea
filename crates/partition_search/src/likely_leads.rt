//! Leads after whose likely trick the rest is known. The first of them is tried before all other leads.

use crate::lead_suits::FEWEST_TRICKS;
use crate::moves::{HandRuns, Move, Moves};
use crate::positions::seat_to_left;
use crate::search::Search;
use crate::starts::{Start, side_of};
use crate::words::{CardSet, Lengths, MOST_CARDS, below, highest, lowest, start_of, suit_of};

/// A card of each seat in the lowest suit, as in the lengths.
const ONE_EACH: Lengths = 0x1111;

/// A trick to which all follow suit.
#[derive(Clone, Copy)]
struct LikelyTrick {
    /// The four cards.
    cards: CardSet,
    /// How many places to the left of the leader the winner sits.
    winner: usize,
}

/// The lowest of the cards that are above this one, or the lowest of all where none is.
fn cheapest_above(cards: CardSet, card: CardSet) -> CardSet {
    let above = cards & !below(card) & !card;
    lowest(if above == 0 { cards } else { above })
}

impl LikelyTrick {
    /// The trick after these two cards of a suit, where the third and the fourth hand have these cards of it. Each of
    /// them plays the cheapest card that wins, unless its partner's wins already.
    fn after(first: CardSet, second: CardSet, third: CardSet, fourth: CardSet) -> LikelyTrick {
        let best = first.max(second);
        let strongest = highest(fourth);
        let third = if first == best && first > strongest {
            lowest(third)
        } else {
            cheapest_above(third, best.max(strongest))
        };
        let best = best.max(third);
        let fourth = if second == best {
            lowest(fourth)
        } else {
            cheapest_above(fourth, best)
        };
        let best = best.max(fourth);
        let winner = if best == first {
            0
        } else if best == second {
            1
        } else if best == third {
            2
        } else {
            3
        };
        LikelyTrick {
            cards: first | second | third | fourth,
            winner,
        }
    }
}

impl Search {
    /// The first of the leads, by the weights, after which the rest of what its side wants is known, whether the second
    /// hand plays its lowest card or its highest. None where there is no such lead, or few tricks are left.
    pub(crate) fn likely_lead(
        &self,
        tricks: u32,
        start: &Start,
        runs: HandRuns,
        moves: &mut Moves,
    ) -> Option<Move> {
        if tricks < FEWEST_TRICKS {
            return None;
        }
        self.sort_leads(tricks, start, runs, moves);
        let mut waiting = *moves;
        for _ in 0..MOST_CARDS {
            let tried = waiting.next()?;
            if self.is_likely(tricks, start, tried.card) {
                return Some(tried);
            }
        }
        None
    }

    /// Whether all can follow this lead, and the rest of what its side wants is then known.
    fn is_likely(&self, tricks: u32, start: &Start, card: CardSet) -> bool {
        let suit = suit_of(card);
        let second = self.held.hands[seat_to_left(start.leader, 1)] & suit;
        let third = self.held.hands[seat_to_left(start.leader, 2)] & suit;
        let fourth = self.held.hands[seat_to_left(start.leader, 3)] & suit;
        if second == 0 || third == 0 || fourth == 0 {
            return false;
        }
        let played = ONE_EACH.wrapping_shl(start_of(card));
        let lengths = self.held.lengths.wrapping_sub(played);
        let Some(shape) = self.records.shape(lengths) else {
            return false;
        };
        [lowest(second), highest(second)].iter().all(|second| {
            let trick = LikelyTrick::after(card, *second, third, fourth);
            self.wins_rest(tricks, start, &trick, shape)
        })
    }

    /// Whether it is known that the leader's side gets the rest of what it wants after this trick, where the shape of
    /// what is left has this number.
    fn wins_rest(&self, tricks: u32, start: &Start, trick: &LikelyTrick, shape: u32) -> bool {
        let side = side_of(start.leader);
        let left = start.left & !trick.cards;
        let winner = seat_to_left(start.leader, trick.winner);
        let next = start.next(winner, left, Some(shape));
        let need = next.wanted_by(side, tricks.wrapping_sub(1));
        self.known_from(self.list(&next, side), left, need, side)
            .is_some()
    }
}
