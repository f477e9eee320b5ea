//! The values of recorded plays, beside values worked out by hand and a slow search by the rules.
#![tactic(auto)]

#[cfg(test)]
mod draws;
#[cfg(test)]
mod expect;
#[cfg(test)]
mod random_tests;
#[cfg(test)]
mod recorded;
#[cfg(test)]
mod slow;
#[cfg(test)]
mod worked_tests;
