//! Tests of the libraries by what they hand out alone, on values that were worked out by hand from the rules.
//!
//! They stand together, over the libraries: a crate with tests of its own is proved twice.
#![tactic(auto)]

#[cfg(test)]
mod block_tests;
#[cfg(test)]
mod bundle_tests;
#[cfg(test)]
mod card_tests;
#[cfg(test)]
mod certificates;
#[cfg(test)]
mod checked;
#[cfg(test)]
mod checker_tests;
#[cfg(test)]
mod claim_tests;
#[cfg(test)]
mod expect;
#[cfg(test)]
mod extract_tests;
#[cfg(test)]
mod graph_tests;
#[cfg(test)]
mod pattern_tests;
#[cfg(test)]
mod pbn_tests;
#[cfg(test)]
mod play_tests;
#[cfg(test)]
mod record_tests;
#[cfg(test)]
mod small_layout_tests;
#[cfg(test)]
mod solver_tests;
#[cfg(test)]
mod store_tests;
#[cfg(test)]
mod stream_tests;
#[cfg(test)]
mod tree_tests;
#[cfg(test)]
mod trick_tests;
#[cfg(test)]
mod wide_tests;
