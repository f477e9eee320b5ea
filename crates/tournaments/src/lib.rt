//! The page of a tournament: the double-dummy tables of the boards of a PBN text, and their pars.
//!
//! [`take_boards`] reads the boards, [`open_book`] makes a book over them, and [`put_page`] writes the page of any book
//! whose history is true. The laws of `page_laws` say how every such page is read.
#![tactic(auto)]

mod book_results;
mod faults;
mod pages;
mod pars;
mod putting;
mod texts;

pub use book_results::BookResults;
pub use faults::MakeFault;
pub use pages::{Page, PageForm, ParTags};
pub use putting::put_page;
pub use texts::{open_book, take_boards};
