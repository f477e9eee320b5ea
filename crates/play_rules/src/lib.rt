//! The play of the cards by the Laws of Duplicate Bridge 2017: the turn, the cards that may be played, and the winner
//! of a trick.
//!
//! The definitions speak of whole histories: a history is a list of cards, cut into fours from the front, and the
//! winner of each four leads the next. [`Table`] follows them card by card.
#![tactic(auto)]

mod faults;
mod holdings;
mod laws;
mod tables;
mod tricks;

pub use faults::PlayFault;
pub use holdings::holders;
pub use laws::{equal_faults_are_one, leaves_the_unplayed, wins_by_highest_card};
pub use tables::Table;
pub use tricks::winner;
