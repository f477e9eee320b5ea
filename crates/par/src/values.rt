//! Par.

ghost use Rattle.std.specs.Prelude.{◌≡◌, ◌<◌, ◌^◌, unsigned_abs, neg_ℤ};
ghost use Rattle.std.specs.Int.{int_min, int_max};
ghost use Rattle.cards.specs.declared.seats.Side.TheVariants.{NorthSouth};
ghost use Rattle.par.specs.Boards.{tricks_in};
ghost use Rattle.par.specs.FinalScores.{first_hand, second_hand, most_tricks, final_doubling, final_outcome};
ghost use Rattle.par.specs.FinalScores.{final_score, gain_by};
ghost use Rattle.par.specs.Par.{IsPar};

use crate::bids::Bid;
use crate::boards::Tricks;
use crate::contracts::Contract;
use crate::scores::{ContractResult, Doubling, outcome_of, score_of};
use crate::vulnerable_sides::VulnerableSides;
use cards::{Seat, Side, Trump};

/// The two hands of a side.
pub(crate) fn hands(side: Side) -> (Seat, Seat)
    ensures first { result.0 ≡ first_hand side }
    ensures second { result.1 ≡ second_hand side }
{
    match side {
        Side::NorthSouth => (Seat::North, Seat::South),
        Side::EastWest => (Seat::East, Seat::West),
    }
}

/// The tricks of the side's better hand.
fn most_tricks(tricks: &Tricks, side: Side, denomination: Trump) -> u8
    ensures { result ≡ most_tricks (tricks_in tricks.now) side denomination }
{
    let (first, second) = hands(side);
    tricks
        .taken(first, denomination)
        .max(tricks.taken(second, denomination))
}

/// How the contract ends if the better hand declares it.
pub(crate) fn final_outcome(tricks: &Tricks, contract: Contract) -> ContractResult
    ensures { result ≡ final_outcome (tricks_in tricks.now) contract }
{
    outcome_of(
        contract.bid,
        most_tricks(tricks, contract.side, contract.bid.denomination),
    )
}

/// A contract that fails is doubled.
pub(crate) fn final_doubling(outcome: ContractResult) -> Doubling
    ensures { result ≡ final_doubling outcome }
{
    match outcome {
        ContractResult::Made(_) => Doubling::Undoubled,
        ContractResult::Down(_) => Doubling::Doubled,
    }
}

/// The final score of a contract, for its own side.
pub(crate) fn final_score(tricks: &Tricks, vulnerable: VulnerableSides, contract: Contract) -> i32
    ensures points { result ≡ final_score (tricks_in tricks.now) vulnerable contract }
    ensures small { unsigned_abs result < 2 ^ 16 }
{
    score_of(
        contract.bid,
        final_doubling(final_outcome(tricks, contract)),
        vulnerable.vulnerability(contract.side),
        most_tricks(tricks, contract.side, contract.bid.denomination),
    )
}

/// What a side gains at best if it may also make a bid with this final score. The other side accepts the bid, or makes
/// its own best higher bid, by which it gains `theirs`.
fn with_bid(best: i32, score: i32, theirs: i32) -> i32
    requires best { unsigned_abs best < 2 ^ 16 }
    requires score { unsigned_abs score < 2 ^ 16 }
    requires theirs { unsigned_abs theirs < 2 ^ 16 }
    ensures value { result ≡ int_max best (int_min score (neg_ℤ theirs)) }
    ensures small { unsigned_abs result < 2 ^ 16 }
{
    best.max(score.min(-theirs))
}

/// What North and South gain if the side gains this.
fn of_north_south(side: Side, gain: i32) -> i32
    requires { unsigned_abs gain < 2 ^ 16 }
    ensures value { result ≡ gain_by NorthSouth side gain }
    ensures small { unsigned_abs result < 2 ^ 16 }
{
    match side {
        Side::NorthSouth => gain,
        Side::EastWest => -gain,
    }
}

/// Par, as a score of North and South: what they reach if both sides bid with all cards seen.
///
/// The loop goes from 7 no-trump down. It keeps what each side gains at best if it has to bid, and has the bids seen so
/// far to choose from. At last the dealer's side may bid or pass. A pass leaves it 0, or what the others' bid leaves.
pub fn par_of(tricks: &Tricks, dealer: Seat, vulnerable: VulnerableSides) -> i32
    ensures par { IsPar (tricks_in tricks.now) dealer vulnerable result }
    ensures small { unsigned_abs result < 2 ^ 16 }
{
    let side = dealer.side();
    let other = side.other();
    let highest = Bid::at(Bid::COUNT - 1);
    let mut own = final_score(tricks, vulnerable, Contract { side, bid: highest });
    let mut others = final_score(
        tricks,
        vulnerable,
        Contract {
            side: other,
            bid: highest,
        },
    );
    for above in 1..Bid::COUNT {
        let bid = Bid::at(Bid::COUNT - 1 - above);
        let score = final_score(tricks, vulnerable, Contract { side, bid });
        let score_others = final_score(tricks, vulnerable, Contract { side: other, bid });
        let own_before = own;
        own = with_bid(own, score, others);
        others = with_bid(others, score_others, own_before);
    }
    of_north_south(side, with_bid(own, 0, others))
}
