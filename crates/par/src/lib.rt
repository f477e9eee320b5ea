//! Bids (Law 18), the score of a contract (Law 77 of the Laws of Duplicate Bridge 2017), which sides of a board are
//! vulnerable (Law 2), and par: the score that both sides reach when they bid with all cards seen, and the contracts
//! that reach it.
//!
//! [`score_of`] is the score of declarer's side for any bid and any number of tricks, undoubled or doubled. Law 77's
//! column of redoubled contracts is left out: two sides that see all cards double only a contract that fails, and
//! nobody redoubles it.
//!
//! The bidding is a game of two sides ([`par_of`]). The sides call in turn, the dealer's side first. A side accepts the
//! last contract, or bids higher; before the first bid it may pass. The final score of a contract is that of Law 77
//! with the tricks of the side's better hand in the denomination, doubled if it fails. How the four hands of a real
//! auction get there is left open.
#![tactic(auto)]

mod bids;
mod boards;
mod contracts;
mod laws;
mod listing;
mod scores;
mod texts;
mod values;
mod vulnerable_sides;

pub use bids::{Bid, Level};
pub use boards::Tricks;
pub use contracts::{Contract, Declarers, ParContract};
pub use laws::{bids_are_in_order, made_contracts_gain};
pub use listing::par_contracts;
pub use scores::{ContractResult, Doubling, Vulnerability, outcome_of, score_of};
pub use texts::{write_contracts, write_score};
pub use values::par_of;
pub use vulnerable_sides::VulnerableSides;
