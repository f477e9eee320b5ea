//! The texts of par and of the par contracts.

ghost use Rattle.std.specs.Prelude.{◌≡◌, ◌++◌};
ghost use Rattle.std.specs.Fmt.{decimal};
ghost use Rattle.std.specs.List.{flat_map};
ghost use Rattle.cards.specs.Devices.{Writes};
ghost use Rattle.par.specs.Texts.{gaining_side, score_text, declarers_text, bid_text, doubling_text, outcome_text};
ghost use Rattle.par.specs.Texts.{contract_text, next_text, contracts_text};

use crate::bids::Bid;
use crate::contracts::{Declarers, ParContract};
use crate::scores::{ContractResult, Doubling};
use cards::{DeviceFault, Side, Sink, write_all, write_number};

/// Writes the side that gains and what it gains, as `EW 110`; `NS 0` if par is 0. After a fault the sink has taken a
/// beginning of the text. Takes no memory.
pub fn write_score<S: Sink>(sink: &mut S, par: i32) -> Result<(), DeviceFault>
    ensures { Writes (S.state sink.old) (S.state sink.new) (score_text par) result }
{
    write_all(sink, gaining_side(par).letters().as_bytes())?;
    write_all(sink, b" ")?;
    write_number(sink, par.unsigned_abs() as u64)
}

/// The side that gains; North and South if nobody does.
fn gaining_side(par: i32) -> Side
    ensures { result ≡ gaining_side par }
{
    if par < 0 {
        Side::EastWest
    } else {
        Side::NorthSouth
    }
}

/// Writes the contracts with `, ` between two, as `E 5Hx-1, EW 5Cx-1`; `Pass` if there are none. After a fault the sink
/// has taken a beginning of the text. Takes no memory.
pub fn write_contracts<S: Sink>(sink: &mut S, contracts: &[ParContract]) -> Result<(), DeviceFault>
    ensures { Writes (S.state sink.old) (S.state sink.new) (contracts_text contracts.now) result }
{
    match contracts {
        [] => write_all(sink, b"Pass"),
        [first, others @ ..] => {
            write_contract(sink, first)?;
            write_others(sink, others)
        }
    }
}

/// Writes the contracts after the first one.
fn write_others<S: Sink>(sink: &mut S, contracts: &[ParContract]) -> Result<(), DeviceFault>
    ensures { Writes (S.state sink.old) (S.state sink.new) (flat_map next_text contracts.now) result }
{
    for contract in contracts {
        write_next(sink, contract)?;
    }
    Ok(())
}

/// Writes a contract after another one.
fn write_next<S: Sink>(sink: &mut S, contract: &ParContract) -> Result<(), DeviceFault>
    ensures { Writes (S.state sink.old) (S.state sink.new) (next_text contract.now) result }
{
    write_all(sink, b", ")?;
    write_contract(sink, contract)
}

/// Writes a contract.
fn write_contract<S: Sink>(sink: &mut S, contract: &ParContract) -> Result<(), DeviceFault>
    ensures { Writes (S.state sink.old) (S.state sink.new) (contract_text contract.now) result }
{
    write_declarers(sink, contract.declarers)?;
    write_all(sink, b" ")?;
    write_bid(sink, contract.bid)?;
    write_doubling(sink, contract.doubling)?;
    write_outcome(sink, contract.outcome)
}

/// Writes the side, or the seat.
fn write_declarers<S: Sink>(sink: &mut S, declarers: Declarers) -> Result<(), DeviceFault>
    ensures { Writes (S.state sink.old) (S.state sink.new) (declarers_text declarers) result }
{
    match declarers {
        Declarers::Either(side) => write_all(sink, side.letters().as_bytes()),
        Declarers::Only(seat) => write_all(sink, seat.letter().as_bytes()),
    }
}

/// Writes the number of odd tricks and the denomination.
fn write_bid<S: Sink>(sink: &mut S, bid: Bid) -> Result<(), DeviceFault>
    ensures { Writes (S.state sink.old) (S.state sink.new) (bid_text bid) result }
{
    write_number(sink, bid.level.number() as u64)?;
    write_all(sink, bid.denomination.letters().as_bytes())
}

/// Writes `x` if the contract is doubled.
fn write_doubling<S: Sink>(sink: &mut S, doubling: Doubling) -> Result<(), DeviceFault>
    ensures { Writes (S.state sink.old) (S.state sink.new) (doubling_text doubling) result }
{
    match doubling {
        Doubling::Undoubled => Ok(()),
        Doubling::Doubled => write_all(sink, b"x"),
    }
}

/// Writes the tricks over or under, if there are any.
fn write_outcome<S: Sink>(sink: &mut S, outcome: ContractResult) -> Result<(), DeviceFault>
    ensures { Writes (S.state sink.old) (S.state sink.new) (outcome_text outcome) result }
{
    match outcome {
        ContractResult::Made(0) => Ok(()),
        ContractResult::Made(over) => write_difference(sink, b"+", over),
        ContractResult::Down(under) => write_difference(sink, b"-", under),
    }
}

/// Writes a sign and a number.
fn write_difference<S: Sink>(sink: &mut S, sign: &[u8], tricks: u8) -> Result<(), DeviceFault>
    ensures { Writes (S.state sink.old) (S.state sink.new) (sign.now ++ decimal tricks) result }
{
    write_all(sink, sign)?;
    write_number(sink, tricks as u64)
}
