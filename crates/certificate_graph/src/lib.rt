//! Certificates as data and as text.
//!
//! A graph has a version, a side, a trump and nodes. A node claims that from every layout that matches its pattern,
//! with one seat to lead, the side can win so many tricks; its tree says how the first of them is played, and names the
//! nodes that go on after it. The crate says which nodes make a graph, writes the one text of a graph, and reads a text
//! as its graph or tells the first fault. Whether the claims are shown is not asked here. A tree is one row of tokens,
//! and the rows of a block of nodes share their memory; contracts see a tree by its cards and children, and it is
//! looked at place by place, without memory.
#![tactic(auto)]

mod answers;
mod bare_nodes;
mod bundle_answers;
mod bundles;
mod card_claims;
mod checks;
mod children;
mod cursors;
mod extracting;
mod faults;
mod forms;
mod graphs;
mod head_reading;
mod laws;
mod leaf_reading;
mod line_reading;
mod line_writing;
mod node_lines;
mod node_reading;
mod nodes;
mod pattern_reading;
mod places;
mod row_writing;
mod rows;
mod scanning;
mod solvers;
mod tree_reading;
mod trees;
mod versions;
mod writing;

pub use answers::Answer;
pub use bare_nodes::BareNode;
pub use bundles::{Bundle, Claim};
pub use card_claims::{CardBundle, CardClaim, CardSolver};
pub use children::Child;
pub use faults::{GraphFault, TextFault};
pub use graphs::Graph;
pub use head_reading::after_prefix;
pub use laws::equal_versions_are_one;
pub use nodes::Node;
pub use places::{Branches, Children, Place, PlaceView};
pub use rows::Token;
pub use solvers::Solver;
pub use trees::Tree;
pub use versions::Version;
