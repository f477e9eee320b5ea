//! What several crates of tests use.
#![tactic(auto)]

pub mod claimed;
pub mod deals;
pub mod four_suits;
pub mod graphs;
pub mod idle;
pub mod texts;
