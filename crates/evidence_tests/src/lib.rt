//! Tests of evidence: its sections, damage in it, how a file of it is kept, and what an audit shows by it.
#![tactic(auto)]

#[cfg(test)]
mod asking;
#[cfg(test)]
mod audit_damage_tests;
#[cfg(test)]
mod audit_order_tests;
#[cfg(test)]
mod audited;
#[cfg(test)]
mod disks;
#[cfg(test)]
mod expect;
#[cfg(test)]
mod finesse;
#[cfg(test)]
mod keeping_tests;
#[cfg(test)]
mod opening_tests;
#[cfg(test)]
mod piece_tests;
#[cfg(test)]
mod pieces;
#[cfg(test)]
mod section_tests;
#[cfg(test)]
mod showing_tests;
#[cfg(test)]
mod two_boards;
#[cfg(test)]
mod untrue_sections;
