//! DDS's functions for a caller in C: double-dummy tables, the tricks of cards, pars, and evidence. The structs have
//! the shapes of DDS 2.9, and each contract speaks of their fields. A number of tricks that is answered with code 1 was
//! shown by the checker.
//!
//! The exports take any bytes and any numbers. They share nothing, so threads may call them at once. What only C can do
//! (null pointers, threads, texts of pars) is in `library/`.
#![tactic(auto)]

mod board_faults;
mod board_shapes;
mod boards;
mod codes;
mod denominations;
mod finding;
mod hands;
mod lines;
mod pars;
mod play_faults;
mod play_shapes;
mod plays;
mod rules;
mod seats;
mod sections;
mod tables;
mod telling;
mod texts;
mod touching;
mod trick_counts;
mod trick_layouts;
mod trick_reading;
