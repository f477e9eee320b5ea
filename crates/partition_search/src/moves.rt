//! The cards to be tried at a turn, in their order: one of each run of touching cards.

use crate::positions::Trick;
use crate::words::{
    CardSet, below, bottoms, highest, highest_bit, lowest, lowest_bit, suit_of, without_lowest,
};

/// How many runs there is room for: more than a hand has.
const ROOM: usize = 16;

/// What a weight is multiplied with beside the numbers of two bits, the bit that tells that the highest card is tried,
/// and what the number of its bit is multiplied with.
const WEIGHED: i32 = 8192;

const TOP: i32 = 4096;

const HIGHEST: i32 = 64;

/// A card to be tried, with the lowest and the highest card of its run.
#[derive(Clone, Copy)]
pub struct Move {
    pub card: CardSet,
    pub bottom: CardSet,
    pub top: CardSet,
}

/// The runs of a hand's cards, from the lowest.
#[derive(Clone, Copy)]
pub struct HandRuns {
    /// The cards.
    pub own: CardSet,
    /// The lowest card of each run.
    pub bottoms: CardSet,
    /// Those of the runs that are still to come.
    rest: CardSet,
}

/// A run, by the numbers of the bits of its lowest and its highest card.
#[derive(Clone, Copy)]
pub struct Run {
    pub bottom: u32,
    pub top: u32,
}

/// The runs that are still to be tried.
#[derive(Clone, Copy)]
pub struct Moves {
    own: CardSet,
    /// The cards that have failed, and those that would fail alike. A run is skipped where its highest is one.
    dead: CardSet,
    /// The runs by falling weight: the weight, whether the highest card is tried, and the bits of the highest and the
    /// lowest.
    runs: [i32; ROOM],
    count: usize,
    /// The place of the run that is tried next.
    next: usize,
}

/// The card of a bit.
pub fn card_at(bit: u32) -> CardSet {
    1u64.wrapping_shl(bit)
}

impl Move {
    /// All bits from the lowest card of the run up to the highest.
    fn cards(&self) -> CardSet {
        self.top.wrapping_shl(1).wrapping_sub(self.bottom)
    }
}

impl Run {
    /// The highest card.
    pub fn highest(&self) -> CardSet {
        card_at(self.top)
    }

    /// The bit of the card that is tried: the highest where it wins, else the lowest.
    pub fn choice(&self, wins: bool) -> u32 {
        if wins { self.top } else { self.bottom }
    }
}

impl HandRuns {
    /// The runs of these cards, where those in all hands are these.
    pub fn of(own: CardSet, left: CardSet) -> HandRuns {
        let all = bottoms(own, left);
        HandRuns {
            own,
            bottoms: all,
            rest: all,
        }
    }

    /// Whether there is one run at most.
    pub fn is_single(&self) -> bool {
        without_lowest(self.bottoms) == 0
    }

    /// Where the suit of the lowest run begins.
    pub(crate) fn first_suit(&self) -> u32 {
        lowest_bit(self.bottoms) & 48
    }

    /// The only run. Its highest card is tried, or its lowest.
    pub fn only(&self, tries_top: bool) -> Move {
        let top = highest(self.own);
        Move {
            card: if tries_top { top } else { self.bottoms },
            bottom: self.bottoms,
            top,
        }
    }

    /// The run of this card, which is tried, if it is one of these.
    fn of_card(&self, card: CardSet) -> Option<Move> {
        if card & self.own == 0 {
            return None;
        }
        let bottom = highest(self.bottoms & (below(card) | card));
        let above = self.bottoms & !below(bottom) & !bottom;
        let top = highest(self.own & below(lowest(above)));
        Some(Move { card, bottom, top })
    }

    /// The run whose highest card is this, if there is one.
    pub fn of_top(&self, card: CardSet) -> Option<Move> {
        let run = self.of_card(card)?;
        if run.top == card { Some(run) } else { None }
    }

    /// The run of which this card is the one to be tried: the highest where it beats what lies, else the lowest.
    pub fn of_choice(&self, card: CardSet, trick: &Trick, trumps: CardSet) -> Option<Move> {
        let run = self.of_card(card)?;
        let wins = trick.beats(run.top, trumps);
        let choice = if wins { run.top } else { run.bottom };
        if choice == card { Some(run) } else { None }
    }

    /// How many runs there are.
    pub fn count(&self) -> u32 {
        self.bottoms.count_ones()
    }

    /// The next run, where one is left.
    #[inline(always)]
    pub fn next(&mut self) -> Run {
        let bottom = lowest_bit(self.rest);
        self.rest = without_lowest(self.rest);
        Run {
            bottom,
            top: highest_bit(self.own & below(lowest(self.rest))),
        }
    }
}

impl Moves {
    /// No run yet of these.
    pub fn of(runs: &HandRuns) -> Moves {
        Moves {
            own: runs.own,
            dead: 0,
            runs: [0; ROOM],
            count: 0,
            next: 0,
        }
    }

    /// Whether runs wait that have no weights yet.
    pub fn are_unsorted(&self) -> bool {
        self.count == 0 && self.own & !self.dead != 0
    }

    /// Puts a run where it belongs by its weight. Its highest card is tried, or its lowest.
    #[inline(always)]
    pub(crate) fn add(&mut self, run: Run, tries_top: bool, weight: i32) {
        let top = if tries_top { TOP } else { 0 };
        let cards = ((run.top & 63) as i32).wrapping_mul(HIGHEST) | (run.bottom & 63) as i32;
        let entry = weight.wrapping_mul(WEIGHED) | top | cards;
        let mut place = self.count;
        for before in (0..self.count).rev() {
            let other = self.runs[before & 15];
            if other >= entry {
                break;
            }
            self.runs[place & 15] = other;
            place = before;
        }
        self.runs[place & 15] = entry;
        self.count = self.count.wrapping_add(1);
    }

    /// The next card.
    #[inline(always)]
    pub fn next(&mut self) -> Option<Move> {
        for place in self.next..self.count {
            let entry = self.runs[place & 15];
            let top = card_at((entry >> 6 & 63) as u32);
            if self.dead & top == 0 {
                self.next = place.wrapping_add(1);
                let bottom = card_at((entry & 63) as u32);
                let card = if entry & TOP != 0 { top } else { bottom };
                return Some(Move { card, bottom, top });
            }
        }
        None
    }

    /// After a card failed for reasons that need these cards: cards of its suit that lie below them would fail alike,
    /// if its whole run does.
    pub fn skip(&mut self, tried: Move, relevant: CardSet) {
        let suit = suit_of(tried.bottom);
        let alike = below(lowest(relevant & suit));
        if tried.top <= alike {
            self.dead |= suit & alike;
        }
        self.dead |= tried.cards();
    }
}
