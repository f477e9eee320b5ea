//! The opening leads of boards: the tricks that the defenders take after each lead of each contract, shown by
//! certificates.
//!
//! [`make_leads`] reads a PBN text, has a solver look for the leads of each board in each denomination, on several
//! threads, and writes a row for each contract whose leads the solver's answer shows.
#![tactic(auto)]

mod counts;
mod faults;
mod finding;
mod making;
mod rows;
mod threads;
mod writing;

pub use counts::LeadReport;
pub use faults::LeadFault;
pub use making::{LeadLimits, LeadMeans, make_leads};
