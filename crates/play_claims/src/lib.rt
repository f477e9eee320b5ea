//! What a solver answers of a recorded play, as data.
//!
//! Nothing is promised of it. `certified_plays` checks it.
#![tactic(auto)]

mod claims;
mod solvers;

pub use claims::{PlayBundle, PlayClaim, PlayNodes};
pub use solvers::PlaySolver;
