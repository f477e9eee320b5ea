//! A solver: how many tricks declarers of a denomination take, each card of a trick leads to, or both sides take after
//! each card of a play, with a certificate for each side that they share.
//!
//! A partition search over the real cards remembers patterns, each with what a side can win of it, and the certificates
//! are written from what it remembers. Nothing that it answers is trusted: the checker decides. It promises only that
//! it returns, whatever the layout, the budget and the memory. `partition_search` has the search. `docs/SOLVER.md` says
//! how it works.
#![tactic(auto)]

mod begun_nodes;
mod best_claims;
mod card_claims;
mod claims;
mod fresh;
mod graph_writing;
mod leaves;
mod memory;
mod pattern_tricks;
mod plans;
mod play_searches;
mod solving;

pub use fresh::{FreshBest, FreshPartition};
pub use solving::Partition;
