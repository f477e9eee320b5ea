//! Who works on what, and which hand-in counts.
//!
//! A [`Book`] gives out leases of entries, and keeps the history of all that it was asked and what it replied. Each
//! reply is the one that the history before it names (`specs/Histories.antt`), and a published number is that of a
//! proof on the board's deal.
#![tactic(auto)]

mod boards;
mod book;
mod clocks;
mod entries;
mod events;
mod faults;
mod gates;
mod holders;
mod replies;
mod slots;
mod true_histories;

pub use boards::{deal_on, first_boards};
pub use book::Book;
pub use clocks::Clock;
pub use entries::{ENTRIES, Entry};
pub use events::{Asked, Event, Grant, HandedIn, Reply};
pub use faults::BookFault;
pub use gates::Gate;
pub use true_histories::is_true_history;
