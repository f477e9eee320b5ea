//! The posts of a round.

ghost use Rattle.std.specs.Prelude.{◌≡◌};
ghost use Rattle.farm.specs.Posts.{steps_at};

use crate::tasks::{CheckedClaim, FoundBundle, Group};
use farm_relay::{Putter, Taker};
use lease_desk::Chair;

/// The post of the lender: its chair at the desk, and its end of the relay to the solvers.
#[derive(Drop)]
pub(crate) struct LenderPost {
    pub(crate) chair: Chair,
    pub(crate) groups: Putter<Group>,
}

/// The post of a solver: its chair at the desk, its ends of the relays from the lender and to the checkers, and a count.
#[derive(Drop)]
pub(crate) struct SolverPost {
    pub(crate) chair: Chair,
    pub(crate) groups: Taker<Group>,
    pub(crate) found: Putter<FoundBundle>,
    /// How many leases the solver answered without a claim, though it had memory.
    pub(crate) steps: u64,
}

/// The post of a checker: its ends of both relays.
#[derive(Drop)]
pub(crate) struct CheckerPost {
    pub(crate) found: Taker<FoundBundle>,
    pub(crate) claims: Putter<CheckedClaim>,
}

/// The post of a clerk: its chair at the desk, and its end of the relay from the checkers.
#[derive(Drop)]
pub(crate) struct ClerkPost {
    pub(crate) chair: Chair,
    pub(crate) claims: Taker<CheckedClaim>,
}

/// The posts of a round that have threads of their own.
#[derive(Drop)]
pub(crate) struct Posts {
    pub(crate) solvers: Vec<SolverPost>,
    pub(crate) checkers: Vec<CheckerPost>,
    pub(crate) clerks: Vec<ClerkPost>,
}

/// Returns how many leases solvers answered without a claim, though they had memory.
pub(crate) fn steps_at(solvers: &[SolverPost]) -> u64
    ensures { result ≡ steps_at solvers.now }
{
    let mut steps = 0u64;
    for post in solvers {
        steps = steps.saturating_add(post.steps);
    }
    steps
}
