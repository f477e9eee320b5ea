//! How many tricks a side can win: a first guess, and questions up and down from there.

use crate::begun::Begun;
use crate::deals::CardsLeft;
use crate::positions::Holdings;
use crate::search::Search;
use crate::starts::{Found, OURS, Start};
use crate::words::{CardSet, MOST_CARDS};

/// How many cards a set has.
fn count_of(cards: CardSet) -> i32 {
    cards.count_ones() as i32
}

/// Four for an ace, three for a king, two for a queen, one for a jack.
fn points_of(cards: CardSet) -> i32 {
    let aces = count_of(cards & 0x1000_1000_1000_1000);
    let kings = count_of(cards & 0x1800_1800_1800_1800);
    let queens = count_of(cards & 0x1c00_1c00_1c00_1c00);
    let jacks = count_of(cards & 0x1e00_1e00_1e00_1e00);
    aces.wrapping_add(kings)
        .wrapping_add(queens)
        .wrapping_add(jacks)
}

impl Search {
    /// A first guess: half the tricks, and more by the difference of high cards and that of trumps, in hundredths of a
    /// trick.
    pub fn guess(&self, tricks: i32) -> i32 {
        let trumps = self.deal.trumps;
        let hands = self.deal.hands;
        let ours = hands[0] | hands[2];
        let theirs = hands[1] | hands[3];
        let points = points_of(ours).wrapping_sub(points_of(theirs));
        let longer = count_of(ours & trumps).wrapping_sub(count_of(theirs & trumps));
        let factor = if trumps == 0 { 17 } else { 14 };
        tricks
            .wrapping_mul(50)
            .wrapping_add(points.wrapping_mul(factor))
            .wrapping_add(longer.wrapping_mul(33))
            .wrapping_add(50)
            / 100
    }

    /// How many tricks North and South can win with this seat to lead, as `value_after` finds them with this guess.
    pub fn value(&mut self, leader: usize, guess: i32) -> Option<i32> {
        self.value_after(&Begun::at(leader), Some(guess))
    }

    /// How many tricks North and South can win after the cards of a trick, the one in progress among them. So many are
    /// asked for first, if a guess is given. Each question brings the bounds nearer by one at least. None where no
    /// steps are left or memory ran out.
    pub fn value_after(&mut self, begun: &Begun, guess: Option<i32>) -> Option<i32> {
        let tricks = self.deal.hands[0].count_ones();
        let mut least = 0;
        let mut most = tricks;
        let mut want = guess
            .unwrap_or(self.guess(tricks as i32))
            .max(0)
            .cast_unsigned();
        self.stopped = false;
        for _ in 0..MOST_CARDS {
            if least >= most {
                break;
            }
            want = want.max(least.wrapping_add(1)).min(most);
            let found = self.found_after(begun, tricks, want);
            if self.stopped {
                return None;
            }
            if found.side == OURS {
                least = least.max(found.bound);
                want = least.wrapping_add(1);
            } else {
                most = most.min(tricks.wrapping_sub(found.bound));
                want = most;
            }
        }
        Some((least & 15) as i32)
    }

    /// What a search finds after the cards of a trick, where North and South want so many tricks.
    pub fn found_after(&mut self, begun: &Begun, tricks: u32, want: u32) -> Found {
        self.held = Holdings::of(self.deal.hands);
        let start = self.start(begun.leader, want);
        match self.play_begun(begun) {
            None => self.search(tricks, &start),
            Some(trick) => self.begun_turn(tricks, &start, &trick, begun.others()),
        }
    }

    /// The start of play, where North and South want so many tricks.
    fn start(&self, leader: usize, want: u32) -> Start {
        Start {
            left: self.held.all(),
            shape: self.records.shape(self.held.lengths),
            leader: leader & 3,
            want,
            asked: None,
        }
    }

    /// All cards, with their owners.
    pub fn all_cards(&self) -> CardsLeft<'_> {
        let hands = self.deal.hands;
        let cards = hands[0] | hands[1] | hands[2] | hands[3];
        self.deal.cards_left(cards)
    }
}
