//! What a recorded play is worth after each of its cards, shown by certificates.
//!
//! A solver is asked, both graphs of its answer are checked once in this thread, and only the numbers that they show
//! are handed out. A begun node, or a node of a graph, may serve for several cards of a play. Nothing here starts a
//! thread or takes a lock.
#![tactic(auto)]

mod faults;
mod judging;
mod proofs;
mod searching;
mod values;

pub use faults::{PlayEntry, ValueFault};
pub use judging::judge_play;
pub use proofs::PlayProofs;
pub use searching::{PlayFound, certified_play, judge_play_bundle};
pub use values::PlayValues;
