//! How the leads of each suit have fared so far in a search. A suit whose leads succeed is led sooner.

use crate::words::{CardSet, start_of};

/// With fewer tricks left nothing is learned of a suit or used, and no likely trick is looked at.
pub(crate) const FEWEST_TRICKS: u32 = 8;

/// The score of a suit whose leads always succeed. It is as far below 0 if they always fail.
const MOST: i32 = 1000;

/// A lead moves the score of its suit by 1 over 2 to this power of the way.
const SHARE: u32 = 6;

/// The scores of a seat's suits, the lowest suit first. They are added to the weights of its leads.
pub(crate) type SuitScores = [i32; 4];

/// The scores of leads, by the seat that leads and the suit.
#[derive(Clone, Copy)]
pub(crate) struct LeadSuits {
    scores: [SuitScores; 4],
}

impl LeadSuits {
    /// No lead was tried yet.
    pub(crate) fn new() -> LeadSuits {
        LeadSuits {
            scores: [[0; 4]; 4],
        }
    }

    /// The scores of a seat's suits; 0 each if few tricks are left.
    pub(crate) fn of(&self, tricks: u32, seat: usize) -> SuitScores {
        if tricks < FEWEST_TRICKS {
            [0; 4]
        } else {
            self.scores[seat & 3]
        }
    }

    /// Learns from a lead that was tried with this number of tricks left.
    pub(crate) fn learn(&mut self, tricks: u32, seat: usize, card: CardSet, succeeded: bool) {
        if tricks < FEWEST_TRICKS {
            return;
        }
        let suit = (start_of(card) >> 4 & 3) as usize;
        let score = self.scores[seat & 3][suit];
        let aim = if succeeded { MOST } else { -MOST };
        self.scores[seat & 3][suit] = score.wrapping_add(aim.wrapping_sub(score) >> SHARE);
    }
}
