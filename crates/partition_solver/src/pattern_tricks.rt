//! A trick played on a remembered pattern, with the cards of a position that it stands for. In each suit those down to
//! the lowest whose owner is named are tops; the others are low cards, of which none beats another.

use partition_search::{
    CardSet, CardsLeft, DealTables, LOW, Lengths, PACK, SUIT, below, below_lowest, highest, lowest,
    lowest_of_each, seat_to_left, start_of, suit_of,
};
use pattern_store::{Owners, Record};

/// The lowest bit of each suit.
const LOWEST: u64 = 0x0001_0001_0001_0001;

/// How many owners of a suit stand in the first word of a record.
const NEAR: u32 = 8;

/// A pattern before a trick is played on it, and a position that it stands for.
#[derive(Clone, Copy, Default)]
pub(crate) struct PatternStart {
    /// The cards in all hands.
    left: CardSet,
    /// Those that are tops.
    tops: CardSet,
    /// The cards that each seat may choose from: of each run of its touching tops the highest, and of its low cards of
    /// each suit the lowest.
    choices: [CardSet; 4],
    /// The lengths, as the search has them.
    lengths: Lengths,
    /// How many low cards each seat has, like the lengths.
    lows: Lengths,
    /// How many tops there are, four bits a suit.
    depths: u16,
    /// All bits of the suits of which some owners stand in the second word of a record.
    deep_suits: u64,
    /// The card that showed it in the search, where the side leads, with others that are none to choose; or no card.
    pub first_card: CardSet,
}

/// A trick in progress.
#[derive(Clone, Copy)]
pub(crate) struct PatternTrick {
    /// The cards that were played.
    played: CardSet,
    /// The lengths, as the search has them.
    pub lengths: Lengths,
    /// How many low cards each seat has left, like the lengths.
    lows: Lengths,
    /// The bits of the owners of the tops left in the first word of a record, where no suit had more tops than stand
    /// there.
    known: u64,
    /// All bits of the suit led, 0 before the lead.
    pub led: CardSet,
    /// The card that wins so far, or no card. A low card is the lowest bit of its suit.
    best: CardSet,
    /// In each suit one card of the seat to play, like the lengths.
    ones: Lengths,
    /// The seats that may have played the card that wins so far, as `seat_bit` has them.
    pub winners: u32,
}

/// What a trick leaves: the owners, and the bits of those that are known. Where one seat alone has low cards of a suit
/// it is known to own them.
#[derive(Clone, Copy)]
pub(crate) struct Remains {
    pub owners: Owners,
    pub known: Owners,
}

/// A suit's part of a word.
fn lane_of(word: u64, lane: usize) -> u64 {
    word.wrapping_shr((lane & 3) as u32 * 16) & SUIT
}

/// The bit of a seat, four apart, as in the lengths.
pub(crate) fn seat_bit(seat: usize) -> u32 {
    1u32.wrapping_shl((seat & 3) as u32 * 4)
}

/// The highest card of each run of a hand's touching cards: those above which no card is gone up to another of the
/// hand. The gaps are the cards that nobody has.
fn tops_of_runs(own: CardSet, gaps: [CardSet; 4]) -> CardSet {
    let mut above = own;
    above |= gaps[0] & above >> 1;
    above |= gaps[1] & above >> 2;
    above |= gaps[2] & above >> 4;
    above |= gaps[3] & above >> 8;
    own & !(above >> 1)
}

/// The cards that nobody has, and those that are the lowest of two, four and eight of them in a row.
fn gaps_in(left: CardSet) -> [CardSet; 4] {
    let one = PACK & !left;
    let two = one & one >> 1;
    let four = two & two >> 2;
    [one, two, four, four & four >> 4]
}

/// How many of the cards there are in each suit, in the lowest four bits of its part of the word.
fn counts_in(cards: CardSet) -> u64 {
    let pairs = cards.wrapping_sub(cards >> 1 & 0x5555_5555_5555_5555);
    let fours = (pairs & 0x3333_3333_3333_3333).wrapping_add(pairs >> 2 & 0x3333_3333_3333_3333);
    let eights = fours.wrapping_add(fours >> 4) & 0x0f0f_0f0f_0f0f_0f0f;
    eights.wrapping_add(eights >> 8) & 0x000f_000f_000f_000f
}

/// How many of the cards there are, four bits a suit.
pub(crate) fn depths_in(cards: CardSet) -> u16 {
    let counts = counts_in(cards);
    ((counts | counts >> 12 | counts >> 24 | counts >> 36) & 0xffff) as u16
}

/// The bits of the first of so many owners of each suit that stand in the first word of a record.
fn near_bits(depths: u16) -> u64 {
    bits_in(depths, 0) | bits_in(depths, 1) | bits_in(depths, 2) | bits_in(depths, 3)
}

/// The bits of so many owners of a suit, where it lies in the first word.
fn bits_in(depths: u16, lane: u32) -> u64 {
    let depth = u32::from(depths.wrapping_shr(lane.wrapping_mul(4)) & 15);
    let bits = 1u64.wrapping_shl(depth.wrapping_mul(2)).wrapping_sub(1) & SUIT;
    bits.wrapping_shl(lane.wrapping_mul(16))
}

/// The same in the second word.
fn deep_bits(depths: u16) -> u64 {
    let mut less = 0u16;
    for lane in 0..4u32 {
        let depth = u32::from(depths.wrapping_shr(lane.wrapping_mul(4)) & 15);
        let deep = depth.saturating_sub(NEAR) as u16;
        less |= deep.wrapping_shl(lane.wrapping_mul(4));
    }
    near_bits(less)
}

/// All bits of the suits of which one seat at most has low cards.
fn whole_suits(lows: Lengths) -> u64 {
    let holders = (lows | lows >> 1 | lows >> 2 | lows >> 3) & 0x1111_1111_1111_1111;
    let others = (holders | LOWEST << 15).wrapping_sub(LOWEST) & holders;
    let many = (others >> 4 | others >> 8 | others >> 12) & LOWEST;
    !many.wrapping_shl(16).wrapping_sub(many)
}

/// All bits of the suits that have more cards than owners stand in the first word of a record.
fn deep_suits(left: CardSet) -> u64 {
    let mut deep = 0u64;
    for lane in 0..4usize {
        if lane_of(left, lane).count_ones() > NEAR {
            deep |= SUIT.wrapping_shl(lane as u32 * 16);
        }
    }
    deep
}

/// A suit of a record of these lengths as the words of a pattern have it: the lengths, how many owners are known, and
/// who they are.
pub(crate) fn word_of(record: &Record, lengths: Lengths, lane: usize) -> u64 {
    let depth = u64::from(record.depths.wrapping_shr((lane & 3) as u32 * 4) & 15);
    let owners = lane_of(record.near, lane) | lane_of(record.deep, lane) << 16;
    lane_of(lengths, lane) | depth << 16 | owners << 20
}

impl PatternStart {
    /// The pattern of a record, with the cards of a position that it serves, of these lengths.
    pub(crate) fn of(
        deal: &DealTables,
        record: &Record,
        left: CardSet,
        lengths: Lengths,
    ) -> PatternStart {
        let tops = left & !below_lowest(deal.cards_at(left, record.depths));
        let gaps = gaps_in(left);
        let mut held = PatternStart {
            left,
            tops,
            choices: [0; 4],
            lengths,
            lows: 0,
            depths: record.depths,
            deep_suits: deep_suits(left),
            first_card: 0,
        };
        held.first_card = held.cards_named(deal, record.first_card);
        for seat in 0..4usize {
            let hand = deal.hands[seat] & left;
            let low = hand & !tops;
            held.choices[seat] = tops_of_runs(hand & tops, gaps) | lowest_of_each(low);
            held.lows |= counts_in(low).wrapping_shl((seat & 3) as u32 * 4);
        }
        held
    }

    /// The card that a record names so, or all low cards of a suit, or no card.
    fn cards_named(&self, deal: &DealTables, name: u8) -> CardSet {
        if name >= 64 {
            return 0;
        }
        let start = u32::from(name) & 48;
        let place = u16::from(name) & 15;
        if u32::from(place) == LOW {
            SUIT.wrapping_shl(start) & !self.tops
        } else {
            deal.cards_at(self.left, (place + 1).wrapping_shl(start >> 2))
        }
    }

    /// The cards that the seat to play may play, of each run of its touching tops the highest.
    pub(crate) fn legal_cards(&self, trick: &PatternTrick) -> CardSet {
        let cards = self.choices[trick.seat() & 3];
        let follows = cards & trick.led;
        if follows != 0 { follows } else { cards }
    }

    /// The place of a top among the cards of its suit, the highest first; none for a low card.
    pub(crate) fn place_of(&self, card: CardSet) -> Option<u8> {
        if card & self.tops == 0 {
            return None;
        }
        let above = self.left & suit_of(card) & !below(card) & !card;
        Some((above.count_ones() & 15) as u8)
    }

    /// What a trick leaves.
    #[inline(always)]
    pub(crate) fn remains(&self, deal: &DealTables, trick: &PatternTrick) -> Remains {
        let left = deal.cards_left(self.cards_left(trick));
        let whole = whole_suits(trick.lows);
        let mut remains = Remains {
            owners: Owners {
                near: left.near,
                deep: 0,
            },
            known: Owners {
                near: trick.known | whole,
                deep: 0,
            },
        };
        if self.depths & 0x8888 != 0 || whole & self.deep_suits != 0 {
            self.put_deep(&mut remains, &left, trick, whole);
        }
        remains
    }

    /// Puts in the owners of the second word, where a suit has some.
    fn put_deep(
        &self,
        remains: &mut Remains,
        left: &CardsLeft<'_>,
        trick: &PatternTrick,
        whole: u64,
    ) {
        let mut known = whole & self.deep_suits;
        if self.depths & 0x8888 != 0 {
            let depths = self
                .depths
                .wrapping_sub(depths_in(self.tops & trick.played));
            remains.known.near = near_bits(depths) | whole;
            known |= deep_bits(depths);
        }
        if known != 0 {
            remains.known.deep = known;
            remains.owners.deep = left.deep();
        }
    }

    /// The cards that a trick leaves.
    pub(crate) fn cards_left(&self, trick: &PatternTrick) -> CardSet {
        self.left & !trick.played
    }

    /// Which of the cards is tried next, before so many of other seats.
    pub(crate) fn choose(&self, trick: &PatternTrick, waiting: CardSet, others: u32) -> CardSet {
        if waiting & waiting.wrapping_sub(1) == 0 {
            return waiting;
        }
        if trick.led == 0 {
            return highest(waiting & suit_of(waiting));
        }
        if others < 2 && trick.winners & seat_bit(seat_to_left(trick.seat(), 2)) == 0 {
            let above = !below(trick.best) & !trick.best;
            let winning = waiting & self.tops & suit_of(trick.best) & above;
            if winning != 0 {
                return if others == 1 {
                    highest(winning)
                } else {
                    lowest(winning)
                };
            }
        }
        lowest(waiting & suit_of(highest(waiting)))
    }
}

impl PatternTrick {
    /// The start of a trick on a pattern, with this seat to lead.
    pub(crate) fn start(held: &PatternStart, leader: usize) -> PatternTrick {
        PatternTrick {
            played: 0,
            lengths: held.lengths,
            lows: held.lows,
            known: near_bits(held.depths),
            led: 0,
            best: 0,
            ones: LOWEST.wrapping_shl((leader & 3) as u32 * 4),
            winners: 0,
        }
    }

    /// The seat to play.
    pub(crate) fn seat(&self) -> usize {
        (self.ones.trailing_zeros() >> 2 & 3) as usize
    }

    /// The trick after the seat to play has played the card. Of the suit led and trumps the greatest wins.
    #[inline(always)]
    pub(crate) fn after(
        &self,
        held: &PatternStart,
        card: CardSet,
        trumps: CardSet,
    ) -> PatternTrick {
        let start = start_of(card);
        let suit = SUIT.wrapping_shl(start);
        let bit = (self.ones & SUIT) as u32;
        let one = self.ones & suit;
        let is_low = card & held.tops == 0;
        let value = if is_low { LOWEST & suit } else { card };
        let led = if self.led == 0 { suit } else { self.led };
        let worth = value & (led | trumps);
        let with_it = if worth < self.best { 0 } else { bit };
        let others = if worth > self.best { 0 } else { self.winners };
        let known = self.known & !suit | (self.known & suit) >> 2 & suit;
        PatternTrick {
            played: self.played | card,
            lengths: self.lengths.wrapping_sub(one),
            lows: self.lows.wrapping_sub(if is_low { one } else { 0 }),
            known: if is_low { self.known } else { known },
            led,
            best: worth.max(self.best),
            ones: self.ones.rotate_left(4),
            winners: with_it | others,
        }
    }
}
