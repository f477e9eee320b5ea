//! Tests of the program by what its runs print and tell and how they end, over memory.
//!
//! They stand apart from the crates that they test: a crate with tests of its own is proved twice.
#![tactic(auto)]

#[cfg(test)]
mod audit_tests;
#[cfg(test)]
mod card_run_tests;
#[cfg(test)]
mod closing_tests;
#[cfg(test)]
mod damage_tests;
#[cfg(test)]
mod device_tests;
#[cfg(test)]
mod disks;
#[cfg(test)]
mod expect;
#[cfg(test)]
mod file_runs;
#[cfg(test)]
mod full_tests;
#[cfg(test)]
mod line_tests;
#[cfg(test)]
mod named_tests;
#[cfg(test)]
mod pages;
#[cfg(test)]
mod par_pages;
#[cfg(test)]
mod plain_tests;
#[cfg(test)]
mod play_run_tests;
#[cfg(test)]
mod progress_tests;
#[cfg(test)]
mod sections;
#[cfg(test)]
mod settings_tests;
#[cfg(test)]
mod solve_tests;
#[cfg(test)]
mod table_tests;
