//! Sheets of recorded plays: the diagram of each game, its play as a table of tricks, and the tricks that each seat
//! loses, as a page of HTML to print.
//!
//! The page has the games and the lines of the text page (`play_pages`), and the style of a sheet (`sheets`).
#![tactic(auto)]

mod cells;
mod games;
mod pages;
pub mod templates;
mod tricks;

pub use pages::write_sheet;
