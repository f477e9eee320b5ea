//! Threads that each work at a post: what became of the posts is known to who joins them.
//!
//! [`start_each`] starts a thread of a scope for each of a list of posts, and [`join_each`] hands the posts back, in
//! their order, each as the work has left it. [`end_each`] only waits.
#![tactic(auto)]

mod halts;
mod joining;
mod promises;
mod starting;
mod works;

pub use halts::Halt;
pub use joining::{end_each, join_each};
pub use promises::{Keeps, Thread};
pub use starting::start_each;
pub use works::{Ended, Work};
