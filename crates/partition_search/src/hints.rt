//! Cards that succeeded before where the cards near them were the same: they are tried first.

use crate::moves::card_at;
use crate::positions::{Trick, seat_to_left};
use crate::starts::Start;
use crate::words::{CardSet, MIXER};
use std::alloc::{AllocError, Global};

/// There are 2 to this power of places.
const BITS: u32 = 17;

/// How many more bits of a key are kept with its card, so that most other keys of the same place are told apart.
const TAG_BITS: u32 = 2;

/// How many places a row has.
const ROW: usize = 64;

/// How many rows are made at a time: one place after another would take longer than a small search.
const ROWS_AT_ONCE: usize = 64;

/// The number of a bit that is no card's.
const NO_BIT: u8 = 15;

/// Rows in which nothing is remembered.
const EMPTY: [[u8; ROW]; ROWS_AT_ONCE] = [[NO_BIT; ROW]; ROWS_AT_ONCE];

/// With so many tricks left, or fewer, nothing is remembered.
pub(crate) const FEW_TRICKS: u32 = 3;

/// What the own cards, the next hand's, partner's, and the best card on the table are multiplied with.
const OWN: u64 = 0xD6E8_FEB8_6659_FD93;

const NEXT: u64 = 0xA24B_AED4_963E_E407;

const PARTNER: u64 = 0x9FB2_1C65_1E98_DF25;

const BEST: u64 = 0x1234_5678_9ABC_DEF1;

/// By place the bit of the card that succeeded last, and above it the tag of its key.
#[derive(Drop)]
pub(crate) struct Hints {
    rows: Vec<[u8; ROW]>,
}

impl Hints {
    /// Nothing is remembered.
    pub(crate) fn new(alloc: Global) -> Result<Hints, AllocError> {
        let count = (1usize << BITS) / ROW;
        let mut rows = Vec::with_capacity(alloc, count)?;
        for _ in 0..count / ROWS_AT_ONCE {
            rows.extend_from_slice(EMPTY.as_slice())?;
        }
        Ok(Hints { rows })
    }

    /// The card that succeeded last where the key was this; no card of a hand where none is known.
    pub(crate) fn card(&self, key: usize) -> CardSet {
        let Some(row) = self.rows.get(row_of(key)) else {
            return 0;
        };
        let hint = row[key % ROW] ^ tag_of(key);
        if hint < 64 {
            card_at(u32::from(hint))
        } else {
            0
        }
    }

    /// Remembers that this card succeeded.
    pub(crate) fn keep(&mut self, key: usize, card: CardSet) {
        if let Some(row) = self.rows.get_mut(row_of(key)) {
            row[key % ROW] = (card.trailing_zeros() & 63) as u8 | tag_of(key);
        }
    }
}

/// The row of a key.
fn row_of(key: usize) -> usize {
    key % (1 << BITS) / ROW
}

/// The tag of a key, above the bits of a card's number.
fn tag_of(key: usize) -> u8 {
    ((key >> BITS & 3) as u8) << 6
}

/// A key of few bits.
fn mixed(key: u64) -> usize {
    (key.wrapping_mul(MIXER) >> 64 - BITS - TAG_BITS) as usize
}

/// The key of a lead: by the leader, what is wanted, and the leader's and partner's cards.
pub(crate) fn lead_key(hands: &[CardSet; 4], start: &Start) -> usize {
    let leader = start.leader & 3;
    mixed(
        (leader as u64).wrapping_shl(61)
            ^ u64::from(start.want).wrapping_shl(57)
            ^ hands[leader].wrapping_mul(OWN)
            ^ hands[leader ^ 2].wrapping_mul(PARTNER),
    )
}

/// The key of a card of the second or third hand: by the seat, the best card on the table and whose it is, and the
/// cards that it may play; where it follows suit by the cards of that suit in the next hand and partner's, and else by
/// what is wanted.
pub(crate) fn follow_key(
    hands: &[CardSet; 4],
    start: &Start,
    seat: usize,
    own: CardSet,
    trick: &Trick,
) -> usize {
    let key = (seat as u64).wrapping_shl(61)
        ^ u64::from(trick.best.trailing_zeros()).wrapping_mul(BEST)
        ^ u64::from(trick.winner).wrapping_shl(50)
        ^ own.wrapping_mul(OWN);
    if own & trick.led == 0 {
        return mixed(key ^ u64::from(start.want).wrapping_shl(57));
    }
    let next = hands[seat_to_left(seat, 1)] & trick.led;
    let partner = hands[seat_to_left(seat, 2)] & trick.led;
    mixed(key ^ next.wrapping_mul(NEXT) ^ partner.wrapping_mul(PARTNER))
}
