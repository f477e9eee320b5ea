//! How far the threads of a farm have come, told while they work.
//!
//! [`Progress`] is a gate that writes a line on a sink, at most once in a moment of its clock, and one when all work
//! has ended.
#![tactic(auto)]

mod counts;
mod lines;
mod watching;

pub use watching::Progress;
