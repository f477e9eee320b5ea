//! Patterns: what a set of layouts has in common.
//!
//! A pattern tells for each suit how many cards each seat has, and which seats own the suit's highest cards, in
//! falling order; the other cards are low cards without a rank. It stands for every layout that matches it (one
//! value for a set of positions, as in Ginsberg's Partition Search, AAAI 1996). A rest is what a trick leaves of
//! a pattern, and a pattern covers the rests of which it says no more than they do. Contracts see patterns and
//! rests alike as four suits, each of four lengths and a list of owners. Each suit is held in one word, of which
//! only `words`, `from_words` and `SuitWord` speak.
#![tactic(auto)]

mod faults;
mod holdings;
mod laws;
mod patterns;
mod rests;
mod shape_words;
mod suit_parts;
mod suit_words;

pub use faults::PatternFault;
pub use laws::{
    completed_rests_are_covered, completed_rests_match, equal_faults_are_one, equal_parts_are_one,
    equal_patterns_are_one, equal_rests_are_one,
};
pub use patterns::Pattern;
pub use rests::Rest;
pub use suit_parts::SuitPart;
pub use suit_words::SuitWord;
