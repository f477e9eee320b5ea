//! A lease book that threads work through.
//!
//! [`run_farm`] works through a list of boards in rounds. In a round a desk is open. A lender leases entries from it,
//! and lends those of one board and denomination together. Solvers search for certificates of their results, checkers
//! check each graph once, and clerks hand in the claims, each in a thread of its own. When all have ended, the desk is
//! closed, and another round begins if an entry is open. The solver, the gate and the clock may answer anything.
#![tactic(auto)]

mod batches;
mod checking;
mod clerks;
mod crews;
mod draining;
mod duties;
mod faults;
mod groups;
mod lease_lock;
mod leftovers;
mod lending;
mod manning;
mod means;
mod opening;
mod posts;
mod relays;
mod requests;
mod rounds;
mod running;
mod settings;
mod solving;
mod started;
mod tasks;
mod telling;
mod unclaimed;

pub use faults::FarmFault;
pub use lease_book::Clock;
pub use means::Means;
pub use rounds::{resume_farm, run_farm};
pub use settings::{MOST_ENTRIES, MOST_THREADS, MOST_TRIES, Settings, SettingsFault};
pub use unclaimed::Unclaimed;
