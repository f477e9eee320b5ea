//! Whether certificates are right.
//!
//! A graph is right if the step of each of its nodes holds: one trick on the node's pattern, with the side's choice at
//! its turns, all cards that the opponents may play at theirs, and nodes that go on from each end that still needs
//! tricks. One check of a graph serves all claims of its nodes. `CheckedPair` has both graphs of a bundle, each checked
//! once. `check_begun` checks a node beside a graph, some cards of whose trick have been played. Nothing here plays a
//! card of a deal or searches. Only `judge` and `CheckedPair` take memory.
#![tactic(auto)]

mod begun;
mod card_sets;
mod checked_graphs;
mod claims;
mod ends;
mod entries;
mod entry_faults;
mod faults;
mod graphs;
mod hand_faults;
mod judging;
mod laws;
mod pairs;
mod parts;
mod played;
mod soundness;
mod turns;
mod walks;
mod wide;
mod witnesses;

pub use begun::check_begun;
pub use checked_graphs::CheckedGraph;
pub use claims::{Claimed, Rooted};
pub use entries::{Proven, Shown, check_claim, check_entry};
pub use entry_faults::{EntryFault, PartFault};
pub use faults::{NodeFault, StepFault};
pub use graphs::check_graph;
pub use hand_faults::HandFault;
pub use judging::{Accepted, Texts, Verdict, judge, judge_graphs};
pub use laws::graphs_have_one_answer;
pub use pairs::CheckedPair;
pub use soundness::{begun_steps_show, entries_are_sound, graphs_are_sound, one_step_is_sound};
pub use wide::check_graph_wide;
