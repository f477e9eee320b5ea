//! What the weights of all turns share (`leads`, `followers`): the tables, and the weights of discards.

use crate::positions::Turn;
use crate::words::{CardSet, highest, highest_bit, lowest_bit};

/// How often a weight counts beside the factors of a length or a rank.
const SCALE: i32 = 8;

/// The number of no bit.
pub(crate) const NO_BIT: u32 = 64;

/// The weights of the discards of one suit.
#[derive(Clone, Copy)]
pub(crate) struct SuitDiscards {
    /// Where the suit begins.
    start: u32,
    /// The bit of the highest card left, and of the second.
    best: u32,
    second: u32,
    /// The weights of these and of the others, before the rank is taken off.
    sums: [i32; 3],
    /// The factor of the rank.
    factor: i32,
}

/// A weight as it counts beside the factors of a length or a rank.
pub(crate) fn whole(weight: i32) -> i32 {
    weight.wrapping_mul(SCALE)
}

/// The rank of the card of a bit, 2 for the deuce.
pub(crate) fn rank_of(bit: u32) -> i32 {
    (bit & 15) as i32 + 2
}

/// The bits of the highest card left of the suit that starts here and of the second, `NO_BIT` where there is none.
pub(crate) fn best_two(left: CardSet, start: u32) -> (u32, u32) {
    let suit = left & 0x1fffu64.wrapping_shl(start);
    let best = highest(suit);
    let second = suit & !best;
    if second == 0 {
        (lowest_bit(best), NO_BIT)
    } else {
        (lowest_bit(best), highest_bit(second))
    }
}

/// Which of the sums of a suit is a card's: that of the highest card, of the second or of the others.
pub(crate) fn sum_of(sums: [i32; 3], best: u32, second: u32, bit: u32) -> i32 {
    if bit == best {
        sums[0]
    } else if bit == second {
        sums[1]
    } else {
        sums[2]
    }
}

impl SuitDiscards {
    /// Those of the suit that starts here.
    pub(crate) fn of(turn: &Turn, start: u32) -> SuitDiscards {
        let weights = &turn.weights.discards;
        let (best, second) = best_two(turn.left, start);
        let lengths = turn.lengths(start);
        let length = lengths & 15;
        let sum = weights[0]
            .wrapping_mul(length as i32)
            .wrapping_add(weights[5].wrapping_mul((lengths >> 8 & 15) as i32));
        let holds_second = second != NO_BIT && turn.hand(0).wrapping_shr(second) & 1 != 0;
        let guards = if length == 2 && holds_second {
            whole(weights[4])
        } else {
            0
        };
        let bare = if length == 1 { whole(weights[3]) } else { 0 };
        let others = sum.wrapping_add(guards);
        SuitDiscards {
            start,
            best,
            second,
            sums: [
                others.wrapping_add(whole(weights[2])),
                sum.wrapping_add(bare),
                others,
            ],
            factor: weights[1],
        }
    }

    /// Whether they are those of the bit's suit.
    pub(crate) fn are_of(&self, bit: u32) -> bool {
        self.start == bit & 48
    }

    /// The weight of the card of a bit.
    pub(crate) fn weigh(&self, bit: u32) -> i32 {
        sum_of(self.sums, self.best, self.second, bit).wrapping_sub(
            self.factor.wrapping_mul(rank_of(bit)),
        )
    }
}
