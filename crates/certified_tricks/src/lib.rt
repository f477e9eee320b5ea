//! The tricks of the declarers of a denomination, each shown by certificates.
//!
//! A solver is asked, both graphs of its answer are checked in this thread, and only the numbers that they show are
//! handed out. Nothing here starts a thread or takes a lock, so a static library may call it.
#![tactic(auto)]

mod answers;
mod checking;

pub use answers::{FourTricks, TricksFound};
pub use checking::certified_tricks;
