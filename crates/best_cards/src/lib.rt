//! Cards that lead to the most tricks, each shown by certificates.
//!
//! A solver is asked, both graphs of its answer are checked in this thread, and only the cards that they show are
//! handed out. One number is enough for all cards of a position: one graph shows that the side to play reaches it with
//! a card, the other that this side is held to it whatever it plays. Nothing here starts a thread or takes a lock.
#![tactic(auto)]

mod cards_found;
mod faults;
mod judging;
mod searching;

pub use cards_found::BestCards;
pub use faults::BestFault;
pub use judging::judge_best;
pub use searching::{BestFound, certified_best};
