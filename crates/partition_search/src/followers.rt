//! In which order the cards of the other hands are tried.

use crate::moves::{HandRuns, Moves, card_at};
use crate::order::{SuitDiscards, rank_of, whole};
use crate::positions::{Trick, Turn};
use crate::words::{CardSet, highest};

/// What a winning card of the last hand weighs more, or where partner's card stands a losing one.
const CHOICE: i32 = 1000;

/// Ruffs of the last hand, by the same bits as those of the others.
static LAST_RUFFS: [i32; 8] = [0, 125, 112, -13, 0, 0, 0, 0];

/// How the cards of the suit led are weighed, of the second or third hand.
#[derive(Clone, Copy)]
struct InSuit {
    /// Pairs of a weight and the factor of the rank.
    pairs: &'static [i32; 64],
    /// The number of the first pair for such a turn: two bits more tell of the card.
    first: usize,
    /// The next hand's best.
    next: CardSet,
}

/// How ruffs are weighed.
#[derive(Clone, Copy)]
struct Ruffs {
    weights: &'static [i32; 8],
    /// Whether partner's card stands.
    stands: bool,
    /// The trump with which the next hand can overruff.
    next: CardSet,
}

/// 1 where it holds.
fn one_if(holds: bool) -> usize {
    if holds { 1 } else { 0 }
}

/// Whether partner's card wins so far.
fn partner_stands(turn: &Turn, trick: &Trick) -> bool {
    (trick.winner as usize ^ turn.seat) & 1 == 0
}

impl InSuit {
    /// The order of a second hand.
    fn second(turn: &Turn, trick: &Trick) -> InSuit {
        let next = highest(turn.hand(1) & trick.led);
        let partner = highest(turn.hand(2) & trick.led);
        let over = partner > next && partner > trick.best;
        let high = trick.best == highest(turn.left & trick.led);
        InSuit {
            pairs: &turn.weights.second,
            first: one_if(over) << 2 | one_if(high) << 3 | InSuit::ruffed(turn, next),
            next,
        }
    }

    /// The order of a third hand.
    fn third(turn: &Turn, trick: &Trick) -> InSuit {
        let next = highest(turn.hand(1) & trick.led);
        let stands = partner_stands(turn, trick);
        let over = stands && trick.best > next;
        InSuit {
            pairs: &turn.weights.third,
            first: one_if(over) << 2 | one_if(stands) << 3 | InSuit::ruffed(turn, next),
            next,
        }
    }

    /// The bit that tells whether the next hand, whose best this is, can ruff.
    fn ruffed(turn: &Turn, next: CardSet) -> usize {
        one_if(next == 0 && turn.hand(1) & turn.deal.trumps != 0) << 4
    }

    /// The weight of a card.
    fn weigh(&self, bit: u32, wins: bool) -> i32 {
        let pair = (self.first | one_if(wins) | one_if(card_at(bit) > self.next) << 1) << 1;
        let factor = self.pairs[(pair | 1) & 63];
        whole(self.pairs[pair & 63]).wrapping_sub(factor.wrapping_mul(rank_of(bit)))
    }
}

impl Ruffs {
    /// The order of a turn.
    fn of(turn: &Turn, trick: &Trick, weights: &'static [i32; 8], stands: bool) -> Ruffs {
        let next = if turn.hand(1) & trick.led == 0 {
            highest(turn.hand(1) & turn.deal.trumps)
        } else {
            0
        };
        Ruffs {
            weights,
            stands,
            next,
        }
    }

    /// The weight of a ruff.
    fn weigh(&self, bit: u32, wins: bool) -> i32 {
        let over = self.next > card_at(bit);
        let place = one_if(wins) | one_if(self.stands) << 1 | one_if(over) << 2;
        whole(self.weights[place & 7]).wrapping_sub(rank_of(bit))
    }
}

impl Moves {
    /// Adds the cards of the second hand.
    #[inline(always)]
    pub fn add_second(&mut self, runs: HandRuns, turn: &Turn, trick: &Trick) {
        if runs.own & trick.led != 0 {
            self.add_in_suit(runs, trick, InSuit::second(turn, trick));
        } else {
            let ruffs = Ruffs::of(turn, trick, &turn.weights.second_ruffs, false);
            self.add_off(runs, turn, trick, ruffs);
        }
    }

    /// Adds the cards of the third hand.
    #[inline(always)]
    pub fn add_third(&mut self, runs: HandRuns, turn: &Turn, trick: &Trick) {
        if runs.own & trick.led != 0 {
            self.add_in_suit(runs, trick, InSuit::third(turn, trick));
        } else {
            let stands = partner_stands(turn, trick);
            let ruffs = Ruffs::of(turn, trick, &turn.weights.third_ruffs, stands);
            self.add_off(runs, turn, trick, ruffs);
        }
    }

    /// Adds the cards of the last hand: where it follows suit upwards, winning ones first unless partner's stands.
    #[inline(always)]
    pub fn add_last(&mut self, runs: HandRuns, turn: &Turn, trick: &Trick) {
        let stands = partner_stands(turn, trick);
        if runs.own & trick.led != 0 {
            self.add_upwards(runs, trick.best_in_suit(), stands);
        } else {
            let ruffs = Ruffs {
                weights: &LAST_RUFFS,
                stands,
                next: 0,
            };
            self.add_off(runs, turn, trick, ruffs);
        }
    }

    /// Adds runs of the suit led.
    #[inline(always)]
    fn add_in_suit(&mut self, mut runs: HandRuns, trick: &Trick, order: InSuit) {
        let best = trick.best_in_suit();
        for _ in 0..runs.count() {
            let run = runs.next();
            let wins = run.highest() > best;
            self.add(run, wins, order.weigh(run.choice(wins), wins));
        }
    }

    /// Adds runs of the suit led of a last hand.
    #[inline(always)]
    fn add_upwards(&mut self, mut runs: HandRuns, best: CardSet, stands: bool) {
        for _ in 0..runs.count() {
            let run = runs.next();
            let wins = run.highest() > best;
            let choice = if wins == stands { 0 } else { CHOICE };
            self.add(run, wins, choice.wrapping_sub(rank_of(run.choice(wins))));
        }
    }

    /// Adds runs of a hand without the suit led.
    #[inline(always)]
    fn add_off(&mut self, mut runs: HandRuns, turn: &Turn, trick: &Trick, ruffs: Ruffs) {
        let trumps = turn.deal.trumps;
        let best = trick.best;
        let mut discards = SuitDiscards::of(turn, runs.first_suit());
        for _ in 0..runs.count() {
            let run = runs.next();
            if run.highest() & trumps != 0 {
                let wins = run.highest() > best;
                self.add(run, wins, ruffs.weigh(run.choice(wins), wins));
                continue;
            }
            if !discards.are_of(run.bottom) {
                discards = SuitDiscards::of(turn, run.bottom & 48);
            }
            self.add(run, false, discards.weigh(run.bottom));
        }
    }
}
