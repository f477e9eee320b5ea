//! Runs without threads, which the program does not call.
//!
//! [`make_single`] reads the boards of a text, works on one entry after another and writes the tables. [`replay`] has a
//! book answer a whole list of requests, and [`replay_tables`] writes its tables. The solver, the clock and the
//! requests may be any: a number is written only if its certificates were accepted.
#![tactic(auto)]

mod book_tables;
mod replaying;
mod replays;
mod requests;
mod single;
mod working;

pub use book_tables::write_tables;
pub use replaying::replay_tables;
pub use replays::replay;
pub use requests::{GraphText, Request};
pub use single::make_single;
