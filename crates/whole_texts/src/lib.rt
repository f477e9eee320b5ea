//! A PBN text as it was read, with the tables of its boards in place of those that it had.
#![tactic(auto)]

mod games;
mod leaving;
mod lefts;
mod line_ends;
mod line_facts;
mod olds;
mod piece_facts;
mod whole;

pub use whole::write_whole;
