//! The tricks that each card leads to which may be played, shown by certificates.
//!
//! A table has up to three cards of its first trick. For each card that may come next, a begun node shows that the side
//! of the seat to play takes its tricks after that card, and another that the other side takes the rest. What is
//! accepted is the double-dummy value after the card.
#![tactic(auto)]

mod after_claims;
mod claims;
mod faults;
mod judging;
mod texts;
mod tricks;
mod values;

pub use after_claims::{BegunClaim, check_after};
pub use claims::{CardGraphs, graph_in};
pub use faults::{AfterFault, CardFault, TrickFault};
pub use judging::{claim_for, judge_cards, with_card};
pub use texts::{write_groups, write_values};
pub use tricks::TrickInProgress;
pub use values::{CardValue, CardValues};
