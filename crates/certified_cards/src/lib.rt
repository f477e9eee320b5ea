//! The tricks of each card that may be played, each shown by certificates.
//!
//! A solver is asked, both graphs of its answer are checked in this thread, and only the values that they show are
//! handed out. Nothing here starts a thread or takes a lock, so a static library may call it.
#![tactic(auto)]

mod judging;
mod searching;

pub use judging::judge_bundle;
pub use searching::{CardsFound, certified_cards};
