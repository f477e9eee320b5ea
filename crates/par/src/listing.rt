//! The list of the par contracts.

ghost use Rattle.std.specs.Prelude.{◌≡◌, ◌+◌, ◌-◌, ◌*◌, ◌<◌, Some, MatchBool};
ghost use Rattle.cards.specs.Seats.{side_number};
ghost use Rattle.par.specs.Bids.{bid_number};
ghost use Rattle.par.specs.Boards.{tricks_in};
ghost use Rattle.par.specs.FinalScores.{final_score, gain_of};
ghost use Rattle.par.specs.ParContracts.{IsUnbeaten, Stands, StandsLower, IsParContract, AreParContracts};
ghost use Rattle.par.specs.ParContracts.{declarers_of, as_printed};

use crate::bids::{Bid, Level};
use crate::boards::Tricks;
use crate::contracts::{Contract, Declarers, ParContract};
use crate::values::{final_doubling, final_outcome, final_score, hands};
use crate::vulnerable_sides::VulnerableSides;
use arrayvec::ArrayVec;
use cards::{Side, Trump};

/// The par contracts of a board with this par, the highest bid first. Of two contracts with one bid the contract of
/// North and South comes first. There are at most ten: one for each side and denomination.
pub fn par_contracts(
    tricks: &Tricks,
    vulnerable: VulnerableSides,
    par: i32,
) -> ArrayVec<ParContract, 10>
    ensures { AreParContracts (tricks_in tricks.now) vulnerable par result.items }
{
    let mut contracts = ArrayVec::new();
    for place in 0..2 * Bid::COUNT {
        let contract = contract_listed(place);
        if is_par_contract(tricks, vulnerable, par, contract) {
            contracts.push(as_printed(tricks, contract));
        }
    }
    contracts
}

/// The contract in this place of the list of all contracts.
fn contract_listed(place: usize) -> Contract
    requires { place < 70 }
    ensures { 2 * (34 - bid_number result.bid) + side_number result.side ≡ place }
{
    Contract {
        side: if place % 2 == 0 {
            Side::NorthSouth
        } else {
            Side::EastWest
        },
        bid: Bid::at(Bid::COUNT - 1 - place / 2),
    }
}

/// Whether the contract is a par contract.
fn is_par_contract(
    tricks: &Tricks,
    vulnerable: VulnerableSides,
    par: i32,
    contract: Contract,
) -> bool
    ensures { MatchBool result
        (IsParContract (final_score (tricks_in tricks.now) vulnerable) par contract)
        (IsParContract (final_score (tricks_in tricks.now) vulnerable) par contract → ⊥) }
{
    stands(tricks, vulnerable, par, contract) && !stands_lower(tricks, vulnerable, par, contract)
}

/// Whether the contract's final score is par, and the other side has no better one above it.
fn stands(tricks: &Tricks, vulnerable: VulnerableSides, par: i32, contract: Contract) -> bool
    ensures { MatchBool result
        (Stands (final_score (tricks_in tricks.now) vulnerable) par contract)
        (Stands (final_score (tricks_in tricks.now) vulnerable) par contract → ⊥) }
{
    gain_of(tricks, vulnerable, Side::NorthSouth, contract) == par
        && is_unbeaten(tricks, vulnerable, contract)
}

/// Whether no higher contract of the other side scores better for it.
fn is_unbeaten(tricks: &Tricks, vulnerable: VulnerableSides, contract: Contract) -> bool
    ensures { MatchBool result
        (IsUnbeaten (final_score (tricks_in tricks.now) vulnerable) contract)
        (IsUnbeaten (final_score (tricks_in tricks.now) vulnerable) contract → ⊥) }
{
    let side = contract.side.other();
    let gain = gain_of(tricks, vulnerable, side, contract);
    for number in contract.bid.number() + 1..Bid::COUNT {
        let bid = Bid::at(number);
        if final_score(tricks, vulnerable, Contract { side, bid }) > gain {
            return false;
        }
    }
    true
}

/// What the side gains if the contract is the last.
fn gain_of(tricks: &Tricks, vulnerable: VulnerableSides, side: Side, contract: Contract) -> i32
    ensures { result ≡ gain_of (final_score (tricks_in tricks.now) vulnerable) side (Some contract) }
{
    let score = final_score(tricks, vulnerable, contract);
    if side == contract.side { score } else { -score }
}

/// Whether a lower contract of the side in the denomination stands.
fn stands_lower(tricks: &Tricks, vulnerable: VulnerableSides, par: i32, contract: Contract) -> bool
    ensures { MatchBool result
        (StandsLower (final_score (tricks_in tricks.now) vulnerable) par contract)
        (StandsLower (final_score (tricks_in tricks.now) vulnerable) par contract → ⊥) }
{
    for number in 1..contract.bid.level.number() {
        let bid = Bid {
            level: Level::at(number),
            denomination: contract.bid.denomination,
        };
        let side = contract.side;
        if stands(tricks, vulnerable, par, Contract { side, bid }) {
            return true;
        }
    }
    false
}

/// Who declares for the side.
fn declarers_of(tricks: &Tricks, side: Side, denomination: Trump) -> Declarers
    ensures { result ≡ declarers_of (tricks_in tricks.now) side denomination }
{
    let (first, second) = hands(side);
    let one = tricks.taken(first, denomination);
    let other = tricks.taken(second, denomination);
    if other < one {
        Declarers::Only(first)
    } else if one < other {
        Declarers::Only(second)
    } else {
        Declarers::Either(side)
    }
}

/// The contract as it is printed.
fn as_printed(tricks: &Tricks, contract: Contract) -> ParContract
    ensures { result ≡ as_printed (tricks_in tricks.now) contract }
{
    let outcome = final_outcome(tricks, contract);
    ParContract {
        declarers: declarers_of(tricks, contract.side, contract.bid.denomination),
        bid: contract.bid,
        doubling: final_doubling(outcome),
        outcome,
    }
}
