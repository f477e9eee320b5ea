//! The tables of one deal: who owns the cards of a suit, and which rank each of them has.

use crate::words::{CardSet, MOST_CARDS, PACK, SUIT};
use cards::{Card, Layout, Seat, Suit, Trump};
use std::alloc::{AllocError, Global};

const SETS: usize = 8192;

/// How many are filled in at a time: those of the nine lowest ranks beside the same of the four others.
const LOW_SETS: usize = 512;

/// The lowest of those four.
const HIGH_RANK: u32 = 9;

/// How many sets of ranks four suits have.
const ALL_SETS: usize = 4 * SETS;

/// The number of no rank: its bit is no card's.
const NO_RANK: u64 = 15;

/// A deal in one denomination.
#[derive(Drop)]
pub struct DealTables {
    /// The four hands.
    pub hands: [CardSet; 4],
    /// All bits of the trump suit.
    pub trumps: CardSet,
    /// The suits as they lie in a word, from the lowest.
    pub suits: [Suit; 4],
    /// By suit and set of ranks the owners of the first eight.
    near: Vec<u16>,
    /// And of the others.
    deep: Vec<u16>,
    ranks: Vec<u64>,
}

/// The cards in all hands, with the first eight owners of each suit. Those of the others are looked up where they are
/// asked for.
#[derive(Clone, Copy)]
pub struct CardsLeft<'a> {
    deal: &'a DealTables,
    pub cards: CardSet,
    pub near: u64,
}

/// The suits in the order of a word: the trump suit last.
fn suits_of(trump: Trump) -> [Suit; 4] {
    match trump {
        Trump::Nt | Trump::Suit(Suit::Clubs) => {
            [Suit::Spades, Suit::Hearts, Suit::Diamonds, Suit::Clubs]
        }
        Trump::Suit(Suit::Spades) => [Suit::Clubs, Suit::Hearts, Suit::Diamonds, Suit::Spades],
        Trump::Suit(Suit::Hearts) => [Suit::Spades, Suit::Clubs, Suit::Diamonds, Suit::Hearts],
        Trump::Suit(Suit::Diamonds) => [Suit::Spades, Suit::Hearts, Suit::Clubs, Suit::Diamonds],
    }
}

/// Where a suit is in a word: its number there, from the lowest.
pub fn lane_of(suits: [Suit; 4], suit: Suit) -> usize {
    if suits[0] == suit {
        0
    } else if suits[1] == suit {
        1
    } else if suits[2] == suit {
        2
    } else {
        3
    }
}

/// A hand of the layout as a word.
fn hand_of(layout: &Layout, seat: Seat, suits: [Suit; 4]) -> CardSet {
    u64::from(layout.holding(seat, suits[0]))
        | u64::from(layout.holding(seat, suits[1])).wrapping_shl(16)
        | u64::from(layout.holding(seat, suits[2])).wrapping_shl(32)
        | u64::from(layout.holding(seat, suits[3])).wrapping_shl(48)
}

/// The four hands of the layout as words.
fn hands_of(layout: &Layout, suits: [Suit; 4]) -> [CardSet; 4] {
    [
        hand_of(layout, Seat::North, suits),
        hand_of(layout, Seat::East, suits),
        hand_of(layout, Seat::South, suits),
        hand_of(layout, Seat::West, suits),
    ]
}

/// All bits of the trump suit, which lies highest.
fn trumps_of(trump: Trump) -> CardSet {
    match trump {
        Trump::Nt => 0,
        Trump::Suit(_) => SUIT.wrapping_shl(48),
    }
}

/// Who of the four holds the card.
fn holder(hands: [CardSet; 4], card: CardSet) -> u32 {
    if hands[1] & card != 0 {
        1
    } else if hands[2] & card != 0 {
        2
    } else if hands[3] & card != 0 {
        3
    } else {
        0
    }
}

/// The owners of these cards by a table of four suits.
fn owners_by(table: &[u16], left: CardSet) -> u64 {
    if table.len() < ALL_SETS {
        return 0;
    }
    let lowest = table[(left & 0x1fff) as usize];
    let second = table[SETS + (left >> 16 & 0x1fff) as usize];
    let third = table[2 * SETS + (left >> 32 & 0x1fff) as usize];
    let highest = table[3 * SETS + (left >> 48 & 0x1fff) as usize];
    u64::from(lowest)
        | u64::from(second).wrapping_shl(16)
        | u64::from(third).wrapping_shl(32)
        | u64::from(highest).wrapping_shl(48)
}

/// Who owns the card of this rank in a suit, by the suit's number in the word.
fn owner_of(hands: [CardSet; 4], lane: u32, rank: u32) -> u32 {
    holder(
        hands,
        1u64.wrapping_shl(rank.wrapping_add(lane.wrapping_mul(16))),
    )
}

/// For each set of the lowest ranks of a suit the owners, the highest first. The others of a set are a set before it.
fn low_owners(hands: [CardSet; 4], lane: u32) -> [u32; LOW_SETS] {
    let mut low = [0u32; LOW_SETS];
    for rank in 0..HIGH_RANK {
        let owner = owner_of(hands, lane, rank);
        let highest = 1usize.wrapping_shl(rank);
        for others in 0..highest {
            let before = low[others & (LOW_SETS - 1)];
            low[(highest | others) & (LOW_SETS - 1)] = before.wrapping_shl(2) | owner;
        }
    }
    low
}

/// The owners of a set of the four highest ranks of a suit, the highest first, and how many bits they take.
fn high_owners(hands: [CardSet; 4], lane: u32, set: u32) -> (u32, u32) {
    let (mut owners, mut bits) = (0u32, 0u32);
    for rank in HIGH_RANK..MOST_CARDS {
        if set.wrapping_shr(rank.wrapping_sub(HIGH_RANK)) & 1 != 0 {
            owners = owners.wrapping_shl(2) | owner_of(hands, lane, rank);
            bits = bits.wrapping_add(2);
        }
    }
    (owners, bits)
}

impl CardsLeft<'_> {
    /// The owners after the eighth of each suit.
    pub fn deep(&self) -> u64 {
        owners_by(self.deal.deep.as_slice(), self.cards)
    }
}

impl DealTables {
    /// The tables of a layout.
    pub fn new(alloc: Global, layout: &Layout, trump: Trump) -> Result<DealTables, AllocError> {
        let suits = suits_of(trump);
        let mut deal = DealTables {
            hands: hands_of(layout, suits),
            trumps: trumps_of(trump),
            suits,
            near: Vec::with_capacity(alloc, ALL_SETS)?,
            deep: Vec::with_capacity(alloc, ALL_SETS)?,
            ranks: Vec::with_capacity(alloc, SETS)?,
        };
        deal.fill_owners()?;
        deal.fill_ranks()?;
        Ok(deal)
    }

    /// Whether these are the tables of the layout.
    pub fn is_of(&self, layout: &Layout) -> bool {
        self.hands == hands_of(layout, self.suits)
    }

    /// Whether this is the denomination of the tables.
    pub fn has_trump(&self, trump: Trump) -> bool {
        self.suits == suits_of(trump) && self.trumps == trumps_of(trump)
    }

    /// The card as a set of it alone.
    pub fn set_of(&self, card: Card) -> CardSet {
        let lane = (lane_of(self.suits, card.suit) & 3) as u32;
        1u64.wrapping_shl(card.rank.number() as u32 + 16 * lane)
    }

    /// For each suit and each set of its ranks the owners, the highest first.
    fn fill_owners(&mut self) -> Result<(), AllocError> {
        for lane in 0..4u32 {
            let low = low_owners(self.hands, lane);
            for high in 0..16u32 {
                let (owners, bits) = high_owners(self.hands, lane, high);
                self.add_row(&low, owners, bits)?;
            }
        }
        Ok(())
    }

    /// Adds the owners of the sets that have the same of the highest ranks, with these owners in so many bits.
    fn add_row(&mut self, low: &[u32; LOW_SETS], high: u32, bits: u32) -> Result<(), AllocError> {
        let (mut near, mut deep) = ([0u16; LOW_SETS], [0u16; LOW_SETS]);
        for set in 0..LOW_SETS {
            let owners = low[set].wrapping_shl(bits) | high;
            near[set] = (owners & 0xffff) as u16;
            deep[set] = (owners >> 16 & 0xffff) as u16;
        }
        self.near.extend_from_slice(near.as_slice())?;
        self.deep.extend_from_slice(deep.as_slice())
    }

    /// For each set of ranks the ranks themselves, four bits each, the highest first, behind four bits of no rank.
    fn fill_ranks(&mut self) -> Result<(), AllocError> {
        self.ranks.push(NO_RANK)?;
        for top in 0..MOST_CARDS {
            for others in 0..1usize.wrapping_shl(top) {
                let ranks = self.ranks.get(others).copied().unwrap_or(NO_RANK) ^ NO_RANK;
                let rank = u64::from(top).wrapping_shl(4);
                self.ranks.push(ranks.wrapping_shl(4) | rank | NO_RANK)?;
            }
        }
        Ok(())
    }

    /// The owners of the first eight cards of a suit, by its number in the word.
    pub(crate) fn near_in(&self, lane: usize, ranks: usize) -> u32 {
        let place = lane.wrapping_mul(SETS).wrapping_add(ranks & 0x1fff);
        u32::from(self.near.get(place).copied().unwrap_or(0))
    }

    /// These cards with their owners.
    pub fn cards_left(&self, cards: CardSet) -> CardsLeft<'_> {
        CardsLeft {
            deal: self,
            cards,
            near: owners_by(self.near.as_slice(), cards),
        }
    }

    /// The card of a suit that has this place among the cards left, the highest being the first. The suit is named by
    /// its start. A bit that is no card for the place 0: no jump goes by that.
    fn card_in(&self, left: CardSet, start: u32, place: u16) -> CardSet {
        let set = (left.wrapping_shr(start) & 0x1fff) as usize;
        let ranks = self.ranks.get(set).copied().unwrap_or(NO_RANK);
        let rank = ranks.wrapping_shr(u32::from(place).wrapping_mul(4)) & 15;
        1u64.wrapping_shl((rank as u32).wrapping_add(start))
    }

    /// The lowest card of each suit that these depths name, four bits a suit.
    pub fn cards_at(&self, left: CardSet, depths: u16) -> CardSet {
        let named = self.card_in(left, 0, depths & 15)
            | self.card_in(left, 16, depths >> 4 & 15)
            | self.card_in(left, 32, depths >> 8 & 15)
            | self.card_in(left, 48, depths >> 12);
        named & PACK
    }
}
