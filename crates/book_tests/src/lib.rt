//! Tests of what stands on the lease book: the book, the desk, the text of tables, and tables made on one thread.
//!
//! They stand together, over the libraries: a crate with tests of its own is proved twice.
#![tactic(auto)]

#[cfg(test)]
mod desk_tests;
#[cfg(test)]
mod due_row_tests;
#[cfg(test)]
mod expect;
#[cfg(test)]
mod fixed_numbers;
#[cfg(test)]
mod foreign_tests;
#[cfg(test)]
mod lease_tests;
#[cfg(test)]
mod request_tests;
#[cfg(test)]
mod table_tests;
#[cfg(test)]
mod tournament_tests;
