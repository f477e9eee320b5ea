//! The page of recorded plays: after each card of each game the tricks that declarer's side takes in all if both sides
//! play best from there, and what the card loses, shown by certificates.
//!
//! [`make_plays`] reads a PBN text, has a solver look for the numbers of each recorded play, on several threads, and
//! has a [`PlaysWriter`] write the page. [`write_page`] writes it as a text, with a block for each game. A number is on
//! the page only if the solver's answer shows it.
#![tactic(auto)]

mod cards_text;
mod counts;
mod faults;
mod finding;
mod lines;
mod making;
mod page_tables;
mod pages;
mod queries;
mod sections;
mod threads;
mod writers;

pub use cards_text::{is_mistake, known_loss, wide, write_known, write_stop};
pub use counts::total_of;
pub use faults::PlaysFault;
pub use lines::{CardLine, PlayLines};
pub use making::{PlaysMade, PlaysReport, PlaysSettings, make_plays};
pub use page_tables::PageTable;
pub use pages::write_page;
pub use queries::PlayQuery;
pub use writers::PlaysWriter;
