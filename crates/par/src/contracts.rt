//! Contracts of a side, and the par contracts.

use crate::bids::{Bid, Level};
use crate::scores::{ContractResult, Doubling};
use cards::{Seat, Side, Trump};

/// A contract: the last bid, and the side that made it.
#[derive(Clone, Copy, Debug, PartialEq, Eq)]
pub struct Contract {
    /// The side that plays it.
    pub side: Side,
    /// Its bid.
    pub bid: Bid,
}

/// Who declares a contract for its side.
#[derive(Clone, Copy, Debug, PartialEq, Eq)]
pub enum Declarers {
    /// Either hand of the side: both take equally many tricks.
    Either(Side),
    /// Only this hand: it takes more tricks than its partner.
    Only(Seat),
}

/// A contract as it is printed.
#[derive(Clone, Copy, Debug, PartialEq, Eq)]
pub struct ParContract {
    /// Who declares it.
    pub declarers: Declarers,
    /// Its bid.
    pub bid: Bid,
    /// Whether it is doubled: it is exactly if it fails.
    pub doubling: Doubling,
    /// By how many tricks it is made, or fails.
    pub outcome: ContractResult,
}

impl Default for ParContract {
    ghost use Rattle.std.specs.Prelude.{⊤};

    ghost is_default = { λ contract. ⊤ };

    /// Some contract, for the unused places of a list.
    fn default() -> ParContract {
        ParContract {
            declarers: Declarers::Either(Side::NorthSouth),
            bid: Bid {
                level: Level::One,
                denomination: Trump::Nt,
            },
            doubling: Doubling::Undoubled,
            outcome: ContractResult::Made(0),
        }
    }
}
