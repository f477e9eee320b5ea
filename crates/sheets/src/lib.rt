//! Sheets: the hand records of a tournament as a page of HTML, with each board's diagram, its table and its par.
#![tactic(auto)]

mod boards;
mod cells;
mod facts;
mod hands;
mod headings;
mod names;
mod pages;
mod pars;
mod results;
pub mod templates;
mod values;

pub use boards::write_hands;
pub use hands::rank_shown;
pub use pages::write_page;
pub use values::{write_with, write_with_number, write_with_seat};
