//! Patterns that were found, each with the seat that leads, a side and how many tricks the side can win.
//!
//! [`Records`] are what a search remembers: for each shape, leader and side those that name the fewest owners first,
//! of which what a new one serves is dropped. A [`Store`] holds for the lengths of each pattern, each lead and each
//! side the list of its adds, in their order, and answers for a layout with the first of them that serves.
#![tactic(auto)]

mod blocks;
mod keys;
mod laws;
mod record;
mod records;
mod runs;
mod shapes;
mod spans;
mod stores;
mod waiting;

pub use blocks::List;
pub use keys::{Added, Key};
pub use laws::{equal_keys_are_one, masks_name_owners};
pub use record::{NO_CARD, Owners, Record};
pub use records::{MOST_BLOCKS, Records};
pub use stores::Store;
