//! A channel between threads that loses nothing.
#![tactic(auto)]

mod closing;
mod ends;
mod items;
mod opening;
mod putters;
mod receiving;
mod relays;
mod rule;
mod sending;
mod takers;
mod tallies;

pub use putters::Putter;
pub use relays::Relay;
pub use takers::Taker;
