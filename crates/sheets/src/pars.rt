//! The par of a board.

ghost use Rattle.std.specs.Prelude.{◌≡◌, option_map, IfSome};
ghost use Rattle.cards.specs.Devices.{Writes};
ghost use Rattle.tables.specs.ParText.{IsSmallPar};
ghost use Rattle.sheets.specs.ParShown.{par_place, par_value, par_shown};

use crate::names::is_named;
use crate::templates::{PAR, PAR_UNKNOWN};
use crate::values::write_with;
use cards::{DeviceFault, Sink};
use html::{Values, write_filled};
use par::{ParContract, write_contracts, write_score};
use std::marker::Model;
use tables::BoardPar;

/// A place of par's template.
enum ParPlace {
    /// What the side that gains gains.
    Score,
    /// The par contracts.
    Contracts,
}

/// The place of this name.
fn par_place(name: &[u8]) -> Option<ParPlace>
    ensures { result ≡ par_place name.now }
{
    if is_named(name, b"score") {
        Some(ParPlace::Score)
    } else if is_named(name, b"contracts") {
        Some(ParPlace::Contracts)
    } else {
        None
    }
}

/// The values of par.
#[derive(Drop)]
struct ParValues<'a> {
    /// The score of North and South.
    score: i32,
    contracts: &'a [ParContract],
}

impl<'a> Model for ParValues<'a> {
    ghost use Rattle.sheets.specs.ParShown as shown;
    ghost use Rattle.sheets.specs.ParShown.{AreSmall};

    ghost Value = { shown.ParValues };

    ghost view = { λ par. record { score = par.score; contracts = par.contracts.now } };

    ghost invariant = { λ par. AreSmall par.score par.contracts.now };
}

impl Values for ParValues<'_> {
    ghost values = { λ par. par_value par.score par.contracts };

    fn write<S: Sink>(&self, sink: &mut S, name: &[u8]) -> Result<(), DeviceFault> {
        match par_place(name) {
            Some(ParPlace::Score) => write_score(sink, self.score),
            Some(ParPlace::Contracts) => write_contracts(sink, self.contracts),
            None => Ok(()),
        }
    }
}

/// Writes the par of a board, if it is printed.
pub(crate) fn write_par<S: Sink>(sink: &mut S, par: Option<&BoardPar>) -> Result<(), DeviceFault>
    requires { IfSome par (λ par. IsSmallPar par.now) }
    ensures { Writes (S.state sink.old) (S.state sink.new)
        (par_shown (option_map (λ par. par.now) par.entry)) result }
{
    let Some(par) = par else {
        return Ok(());
    };
    match par {
        BoardPar::Known {
            score,
            contracts,
            ..
        } => {
            let values = ParValues {
                score: *score,
                contracts: contracts.as_slice(),
            };
            write_filled(sink, PAR, &values)
        }
        BoardPar::NoDealer => write_with(sink, PAR_UNKNOWN, b"dealer"),
        BoardPar::NoVulnerability => write_with(sink, PAR_UNKNOWN, b"vulnerability"),
    }
}
