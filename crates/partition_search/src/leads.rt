//! In which order leads are tried.

use crate::lead_suits::SuitScores;
use crate::moves::{HandRuns, Moves};
use crate::order::{NO_BIT, best_two, rank_of, sum_of, whole};
use crate::positions::Turn;
use crate::words::CardSet;

/// The place of the last three weights of leads, those of the highest card, of the second and of lower ones.
const LAST_CLASSES: u32 = 177;

/// The weights of the leads of one suit.
#[derive(Clone, Copy)]
struct SuitLeads {
    /// Where the suit begins.
    start: u32,
    /// The bit of the highest card left, and of the second.
    best: u32,
    second: u32,
    /// The weights of these and of the others, before the rank is taken off.
    sums: [i32; 3],
    /// The factor of the rank.
    factor: i32,
}

/// How many cards the seat so many places to the left has, of lengths from the leader on.
fn length_of(lengths: u32, places: u32) -> i32 {
    (lengths.wrapping_shr(places.wrapping_mul(4)) & 15) as i32
}

/// The part of a lead's weight that goes by the lengths of its suit, by the factors from this place on.
fn weigh_lengths(factors: &[i32; 16], first: usize, lengths: u32) -> i32 {
    let mut sum = factors[first & 8].wrapping_mul(length_of(lengths, 0));
    for places in 1..4u32 {
        let place = (first & 8) + places as usize;
        let length = length_of(lengths, places);
        sum = sum.wrapping_add(factors[place & 15].wrapping_mul(length));
        if length == 0 {
            sum = sum.wrapping_add(whole(factors[place + 4 & 15]));
        }
    }
    sum
}

/// The parts of the weights of a side suit that go by who can ruff: of the highest card, and of the others. `first`
/// tells who owns the highest, as places to the left of the leader.
fn weigh_chances(turn: &Turn, lengths: u32, first: u32) -> (i32, i32) {
    let ruffs = &turn.weights.lead_ruffs;
    let trumps = turn.lengths(48);
    let left = length_of(lengths, 1) == 0 && length_of(trumps, 1) != 0;
    let right = length_of(lengths, 3) == 0 && length_of(trumps, 3) != 0;
    let mut best = 0i32;
    let mut others = 0i32;
    if length_of(lengths, 2) == 0 && length_of(trumps, 2) != 0 {
        best = if left { ruffs[3] } else { ruffs[4] };
        others = if left { ruffs[3] } else { ruffs[5] };
    }
    if left {
        best = best.wrapping_add(ruffs[0]);
        others = others.wrapping_add(ruffs[0]);
    }
    if right {
        best = best.wrapping_add(ruffs[1]);
        others = others.wrapping_add(if first == 2 { ruffs[1] } else { ruffs[2] });
    }
    (whole(best), whole(others))
}

/// Who owns the highest card left of a suit and who the second, as places to the left of the leader; 4 where there is
/// no second.
fn first_owners(turn: &Turn, start: u32, has_second: bool) -> (u32, u32) {
    let ranks = (turn.left.wrapping_shr(start) & 0x1fff) as usize;
    let owners = turn.deal.near_in((start >> 4 & 3) as usize, ranks);
    let seat = (turn.seat & 3) as u32;
    let first = owners.wrapping_sub(seat) & 3;
    if has_second {
        (first, (owners >> 2).wrapping_sub(seat) & 3)
    } else {
        (first, 4)
    }
}

/// The group of a suit in the tables of leads.
fn group_of(trumps: CardSet, start: u32) -> u32 {
    if trumps == 0 {
        0
    } else if start == 48 {
        2
    } else {
        1
    }
}

impl SuitLeads {
    /// Those of the suit that starts here.
    fn of(turn: &Turn, suits: SuitScores, start: u32) -> SuitLeads {
        let (best, second) = best_two(turn.left, start);
        let (first, next) = first_owners(turn, start, second != NO_BIT);
        let trumps = turn.deal.trumps;
        let group = group_of(trumps, start);
        let factors = if trumps == 0 { 0 } else { 8 };
        let lengths = turn.lengths(start);
        let sum = weigh_lengths(&turn.weights.lead_lengths, factors, lengths).wrapping_add(
            suits[(start >> 4 & 3) as usize],
        );
        let (highest, others) = if group == 1 {
            weigh_chances(turn, lengths, first)
        } else {
            (0, 0)
        };
        let place = (group & 3) * 60 + (first & 3) * 15 + (next & 7) * 3;
        let place = place.min(LAST_CLASSES) as usize;
        let leads = &turn.weights.leads;
        SuitLeads {
            start,
            best,
            second,
            sums: [
                whole(leads[place]).wrapping_add(sum).wrapping_add(highest),
                whole(leads[place + 1])
                    .wrapping_add(sum)
                    .wrapping_add(others),
                whole(leads[place + 2])
                    .wrapping_add(sum)
                    .wrapping_add(others),
            ],
            factor: turn.weights.lead_lengths[factors + 4],
        }
    }

    /// Whether they are those of the bit's suit.
    fn are_of(&self, bit: u32) -> bool {
        self.start == bit & 48
    }

    /// The weight of the card of a bit.
    fn weigh(&self, bit: u32) -> i32 {
        sum_of(self.sums, self.best, self.second, bit).wrapping_sub(
            self.factor.wrapping_mul(rank_of(bit)),
        )
    }
}

impl Moves {
    /// Adds the leads, with these scores of their suits.
    #[inline(always)]
    pub fn add_leads(&mut self, mut runs: HandRuns, turn: &Turn, suits: SuitScores) {
        let mut suit = SuitLeads::of(turn, suits, runs.first_suit());
        for _ in 0..runs.count() {
            let run = runs.next();
            if !suit.are_of(run.top) {
                suit = SuitLeads::of(turn, suits, run.top & 48);
            }
            self.add(run, true, suit.weigh(run.top));
        }
    }
}
