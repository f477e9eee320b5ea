//! One trick, played on a pattern.
//!
//! The cards of a pattern are its tops, each by its place in the list of owners, and low cards without a rank.
//! A trick of four of them stands for every trick that can be played so on a layout that matches: the crate says
//! which cards a seat may play, which seats may win, and what is left.
#![tactic(auto)]

mod laws;
mod legal_cards;
mod legality;
mod pat_cards;
mod seat_sets;
mod stand_ins;
mod trick_rests;
mod trick_winners;

pub use laws::{equal_pat_cards_are_one, equal_seat_sets_are_one, lines_are_alike};
pub use legal_cards::legal;
pub use legality::{are_legal, is_legal};
pub use pat_cards::PatCard;
pub use seat_sets::SeatSet;
pub use stand_ins::{pat_card_of, stands_for};
pub use trick_rests::rest;
pub use trick_winners::winners;
