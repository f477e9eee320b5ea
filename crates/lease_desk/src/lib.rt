//! One lease book for many threads.
//!
//! A [`Desk`] is opened with a book and with chairs. Any thread that has a [`Chair`] makes calls at the desk, each of
//! which is one event of one history, and keeps a [`Receipt`] for each. When the desk is closed the receipts are
//! compared with the book.
#![tactic(auto)]

mod announcing;
mod asking;
mod board_copies;
mod calls;
mod chairs;
mod closing;
mod desk;
mod ends;
mod entering;
mod messages;
mod opening;
mod receipts;
mod rule;
mod seating;
mod taking;
mod verdicts;
mod views;

pub use chairs::Chair;
pub use closing::Closed;
pub use desk::Desk;
pub use receipts::Receipt;
