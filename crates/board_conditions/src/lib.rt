//! What a PBN text says of each board beside its deal: the dealer and the vulnerability by its tags, or what Law 2 of
//! the Laws of Duplicate Bridge 2017 gives to its number, and where and when it was played.
#![tactic(auto)]

mod conditions;
mod game_texts;
mod numbers;
mod readers;
mod titles;
mod words;

pub use conditions::Conditions;
pub use readers::{first_conditions, first_titles, read_conditions, read_titles};
pub use titles::Titles;
