//! Rows of moments, in which the first that is due is found in few steps.
//!
//! A [`DueRow`] has a fixed number of places, each with a moment or none. It never grows: after [`DueRow::new`] no call
//! takes memory.
#![tactic(auto)]

mod nodes;
mod rows;

pub use rows::DueRow;
