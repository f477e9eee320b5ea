//! The start of a trick, and what a search answers.

use crate::moves::Move;
use crate::relevant_cards::whole_runs;
use crate::words::CardSet;
use cards::Side;

/// More tricks than a hand has.
const NO_BOUND: u32 = 14;

/// The answer of a search.
#[derive(Clone, Copy)]
pub struct Found {
    /// The cards whose rank that needed.
    pub relevant: CardSet,
    /// How many of the tricks left the side can win, at least.
    pub bound: u32,
    /// The side that gets what it wants. Its number takes as much room as a bound: no bytes lie between the fields,
    /// which would be copied too, one by one.
    pub side: u32,
}

/// North's and South's side, by its number. That of the other side is 1.
pub const OURS: u32 = 0;

/// The start of a trick. What the seats hold then stands in the search.
#[derive(Clone, Copy)]
pub(crate) struct Start {
    /// The cards in all hands.
    pub left: CardSet,
    /// The number of the shape, if it had one when it was looked up.
    pub shape: Option<u32>,
    /// The seat that leads.
    pub leader: usize,
    /// How many of the tricks left North and South want.
    pub want: u32,
    /// The side whose records were looked through in vain, if any.
    pub asked: Option<u32>,
}

/// The number of a seat's side.
pub fn side_of(seat: usize) -> u32 {
    (seat & 1) as u32
}

/// The side with this number.
pub fn side_at(side: u32) -> Side {
    if side == OURS {
        Side::NorthSouth
    } else {
        Side::EastWest
    }
}

/// The number of the other side.
pub(crate) fn other_side(side: u32) -> u32 {
    side ^ 1
}

/// A trick that the seat wins, where it counts for the side.
pub(crate) fn trick_for(seat: usize, side: u32) -> u32 {
    if side_of(seat) == side { 1 } else { 0 }
}

impl Found {
    /// The answer where a side wants nothing.
    pub(crate) fn nothing_needed(side: u32) -> Found {
        Found {
            relevant: 0,
            bound: 0,
            side,
        }
    }

    /// The answer of a turn, for the other side, before a card has failed.
    pub(crate) fn unless_one_succeeds(side: u32) -> Found {
        Found {
            relevant: 0,
            bound: NO_BOUND,
            side,
        }
    }

    /// The answer of a turn after this card has failed too.
    pub(crate) fn with_failed(self, tried: Move, found: Found) -> Found {
        Found {
            relevant: self.relevant | whole_runs(tried, found.relevant),
            bound: self.bound.min(found.bound),
            side: self.side,
        }
    }
}

impl Start {
    /// How many of so many tricks left a side wants to get its way.
    pub(crate) fn wanted_by(&self, side: u32, tricks: u32) -> u32 {
        if side == OURS {
            self.want
        } else {
            tricks.wrapping_add(1).wrapping_sub(self.want)
        }
    }

    /// The side that wants fewer of so many tricks, or just half of them.
    pub(crate) fn wants_fewer(&self, tricks: u32) -> u32 {
        if self.want.wrapping_mul(2) <= tricks {
            OURS
        } else {
            other_side(OURS)
        }
    }

    /// What is known of so many tricks left where a side wants none of them.
    pub(crate) fn settled(&self, tricks: u32) -> Option<Found> {
        if self.want == 0 {
            Some(Found::nothing_needed(OURS))
        } else if self.want > tricks {
            Some(Found::nothing_needed(other_side(OURS)))
        } else {
            None
        }
    }

    /// The start of the next trick, where this seat has won this one.
    pub(crate) fn next(&self, winner: usize, left: CardSet, shape: Option<u32>) -> Start {
        Start {
            left,
            shape,
            leader: winner & 3,
            want: self.want.wrapping_sub(trick_for(winner, OURS)),
            asked: None,
        }
    }

    /// The same start, where another seat has won the trick before.
    pub(crate) fn led_by(&self, seat: usize) -> Start {
        let before = self.want.wrapping_add(trick_for(self.leader, OURS));
        Start {
            left: self.left,
            shape: self.shape,
            leader: seat & 3,
            want: before.wrapping_sub(trick_for(seat, OURS)),
            asked: None,
        }
    }
}
