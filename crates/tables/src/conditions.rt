//! The tags of the conditions from which a board's par was taken.

ghost use Rattle.std.specs.Prelude.{◌≡◌, option_map};
ghost use Rattle.cards.specs.Devices.{Writes};
ghost use Rattle.tables.specs.ConditionTags.{sides_shown, conditions_text};

use crate::pars::BoardPar;
use crate::pieces::write_pieces;
use cards::{DeviceFault, Sink};
use par::VulnerableSides;

/// The vulnerable sides as PBN names them.
pub fn sides_shown(sides: VulnerableSides) -> &'static [u8]
    ensures { result.now ≡ sides_shown sides }
{
    match sides {
        VulnerableSides::Neither => b"None",
        VulnerableSides::NorthSouth => b"NS",
        VulnerableSides::EastWest => b"EW",
        VulnerableSides::Both => b"All",
    }
}

/// Writes the tags Dealer and Vulnerable of a board whose par is printed and known.
pub(crate) fn write_conditions<S: Sink>(
    sink: &mut S,
    par: Option<&BoardPar>,
) -> Result<(), DeviceFault>
    ensures { Writes (S.state sink.old) (S.state sink.new)
        (conditions_text (option_map (λ par. par.now) par.entry)) result }
{
    let Some(par) = par else {
        return Ok(());
    };
    match par {
        BoardPar::Known {
            dealer,
            vulnerable,
            ..
        } => write_pieces(
            sink,
            &[
                b"[Dealer \"",
                dealer.letter().as_bytes(),
                b"\"]\n[Vulnerable \"",
                sides_shown(*vulnerable),
                b"\"]\n",
            ],
        ),
        BoardPar::NoDealer => Ok(()),
        BoardPar::NoVulnerability => Ok(()),
    }
}
