//! Settings that several crates of tests run farms with.
#![tactic(auto)]

use farm::{Settings, SettingsFault};

/// Settings with so many solvers and checkers, by which each entry is leased once, with this budget, in batches of so
/// many.
pub fn once(
    solvers: usize,
    checkers: usize,
    budget: u64,
    batch: usize,
) -> Result<Settings, SettingsFault> {
    Settings::new()
        .with_solvers(solvers)?
        .with_checkers(checkers)?
        .with_tries(1)?
        .with_budget(budget)?
        .with_batch(batch)
}

/// Settings with a solver and a checker, by which an entry is leased so often, with this budget.
pub fn one_of_each(tries: u32, budget: u64) -> Result<Settings, SettingsFault> {
    Settings::new()
        .with_solvers(1)?
        .with_checkers(1)?
        .with_tries(tries)?
        .with_budget(budget)
}
