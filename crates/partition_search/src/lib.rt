//! The partition search: how many tricks North and South can win of a deal in one denomination, or after the first
//! cards of a trick.
//!
//! It searches the real cards and remembers patterns, each with what a side can win of it. Nothing that it finds is
//! trusted. It promises only that it returns, whatever the deal, the steps and the memory. `docs/SOLVER.md` tells the
//! algorithm. `partition_solver` stands on it, and writes certificates from what it remembers.
#![tactic(auto)]

mod begun;
mod deals;
mod first_cards;
mod followers;
mod hints;
mod last_hand;
mod lead_suits;
mod leads;
mod likely_leads;
mod moves;
mod order;
mod positions;
mod relevant_cards;
mod remembering;
mod search;
mod starts;
mod values;
mod weights;
mod words;

pub use begun::{Begun, may_be_played};
pub use deals::{CardsLeft, DealTables, lane_of};
pub use moves::HandRuns;
pub use positions::{Holdings, seat_to_left};
pub use relevant_cards::LOW;
pub use search::Search;
pub use starts::{Found, OURS, side_at, side_of};
pub use words::{
    CardSet, Lengths, MOST_CARDS, PACK, SUIT, TRICK_CARDS, below, below_lowest, highest, lowest,
    lowest_of_each, start_of, suit_of,
};
