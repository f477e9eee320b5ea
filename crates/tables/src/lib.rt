//! The tables of boards as a PBN text.
//!
//! [`write_tables`] writes the boards of a [`Results`] with the results that are known of them, [`write_section`] the
//! par and the table of one board, [`write_deal`] its Deal tag. With the par that is known of a board, the first writes
//! the tags of dealer and vulnerability from which it was taken. They take no memory. After a fault of the sink a
//! beginning of the text has been written.
#![tactic(auto)]

mod all_tables;
mod conditions;
mod pars;
mod pieces;
mod results;
mod rows;
mod tables;

pub use all_tables::{write_deal, write_tables};
pub use conditions::sides_shown;
pub use pars::BoardPar;
pub use results::{Renews, Report, Results};
pub use tables::{DECLARERS, count_complete, count_results, write_section};
