//! Boards of one card a hand, all of a suit, and the certificates of their entries.

use cards::{Seat, Side, Suit, Trump};
use lease_book::Entry;
use pbn_deals::{Board, BoardName, read_layout};
use plain_runs::{GraphText, Request};
use std::alloc::{AllocError, Global};
use std::process::Abort;
use test_support::texts::joined;

/// North has the ace.
pub const NORTH_HIGH: &str = "N:A... K... Q... J...";

/// East has the ace.
pub const EAST_HIGH: &str = "N:K... A... Q... J...";

/// North declares no-trump on the first board: the first entry.
pub const NT: Entry = Entry {
    board: 0,
    declarer: Seat::North,
    trump: Trump::Nt,
};

/// The second entry.
pub const SPADES: Entry = Entry {
    trump: Trump::Suit(Suit::Spades),
    ..NT
};

/// A board with this layout, or without a deal.
fn board(rt: &impl Abort, alloc: Global, layout: Option<&str>) -> Board {
    let deal = match layout {
        Some(text) => Some(read_layout(text.as_bytes()).expect(rt, "a deal")),
        None => None,
    };
    Board {
        name: BoardName::new(Vec::new(alloc)),
        deal,
    }
}

/// The boards of these layouts, in order; one without a layout has no deal.
pub fn boards(rt: &impl Abort, alloc: Global, layouts: &[Option<&str>]) -> Vec<Board> {
    let mut boards = Vec::new(alloc);
    for layout in layouts {
        let board = board(rt, alloc, *layout);
        boards.push(board).expect(rt, "memory for a board");
    }
    boards
}

/// The text of a graph for a side that needs nothing.
pub fn nothing(alloc: Global, trump: Trump, side: Side) -> Result<Vec<u8>, AllocError> {
    joined(
        alloc,
        &[
            b"DDC 1\ntrump ",
            trump.letters().as_bytes(),
            b"\nside ",
            side.letters().as_bytes(),
            b"\nnodes 0\n",
        ],
    )
}

/// The card of a seat in the trick of this holder's ace: the side plays its cards, and the opponents have one each.
fn card_of(seat: Seat, holder: Seat) -> &'static [u8] {
    if seat == holder {
        b"Sa"
    } else if seat.side() == holder.side() {
        b"Sx"
    } else {
        b"(Sx"
    }
}

/// The text of a graph that shows the trick of this holder's ace, where this seat leads.
fn ace(alloc: Global, trump: Trump, holder: Seat, leader: Seat) -> Result<Vec<u8>, AllocError> {
    let second = leader.next();
    let third = second.next();
    joined(
        alloc,
        &[
            b"DDC 1\ntrump ",
            trump.letters().as_bytes(),
            b"\nside ",
            holder.side().letters().as_bytes(),
            b"\nnodes 1\n",
            leader.letter().as_bytes(),
            b" 1 1.1.1.1/",
            holder.letter().as_bytes(),
            b" 0.0.0.0/ 0.0.0.0/ 0.0.0.0/ ",
            card_of(leader, holder),
            card_of(second, holder),
            card_of(third, holder),
            card_of(third.next(), holder),
            b"{}))\n",
        ],
    )
}

/// A number with the two texts that are to show it.
#[derive(Drop)]
pub struct Answer {
    pub k: u8,
    pub declarer: Vec<u8>,
    pub defenders: Vec<u8>,
}

impl Answer {
    /// What shows the value of a contract where this seat has the ace.
    pub fn of(
        alloc: Global,
        holder: Seat,
        declarer: Seat,
        trump: Trump,
    ) -> Result<Answer, AllocError> {
        let trick = ace(alloc, trump, holder, declarer.next())?;
        let none = nothing(alloc, trump, holder.side().other())?;
        Ok(if declarer.side() == holder.side() {
            Answer {
                k: 1,
                declarer: trick,
                defenders: none,
            }
        } else {
            Answer {
                k: 0,
                declarer: none,
                defenders: trick,
            }
        })
    }

    /// The request that hands it in.
    pub fn hand_in(self, lease: u64, entry: Entry) -> Request {
        let Answer {
            k,
            declarer,
            defenders,
        } = self;
        Request::HandIn {
            lease,
            entry,
            k,
            declarer: GraphText::new(declarer),
            defenders: GraphText::new(defenders),
        }
    }
}
