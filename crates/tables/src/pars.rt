//! What is printed of a board's par.

ghost use Rattle.std.specs.Prelude.{codes, option_map, IfSome};
ghost use Rattle.cards.specs.Devices.{Writes};
ghost use Rattle.tables.specs.ParText.{IsSmallPar, par_text, tag_text, body_line};
ghost use Rattle.par.specs.Texts.{score_text, contracts_text};

use crate::pieces::write_line;
use arrayvec::ArrayVec;
use cards::{DeviceFault, Seat, Sink, write_all};
use par::{ParContract, VulnerableSides, write_contracts, write_score};

/// What is printed of a board's par.
#[derive(Drop)]
pub enum BoardPar {
    /// Par under these conditions, as a score of North and South, and the par contracts.
    Known {
        dealer: Seat,
        vulnerable: VulnerableSides,
        score: i32,
        contracts: ArrayVec<ParContract, 10>,
    },
    /// Par isn't known: nothing says who deals.
    NoDealer,
    /// Par isn't known: nothing says who is vulnerable.
    NoVulnerability,
}

/// Writes the tag pair with the score, in a line with this end.
fn write_score_line<S: Sink>(sink: &mut S, score: i32, end: &[u8]) -> Result<(), DeviceFault>
    ensures { Writes (S.state sink.old) (S.state sink.new)
        (body_line end.now (tag_text (codes "OptimumScore") (score_text score))) result }
{
    write_all(sink, b"[OptimumScore \"")?;
    write_score(sink, score)?;
    write_line(sink, &[b"\"]"], end)
}

/// Writes the tag pair with the par contracts, in a line with this end.
fn write_contracts_line<S: Sink>(
    sink: &mut S,
    contracts: &[ParContract],
    end: &[u8],
) -> Result<(), DeviceFault>
    ensures { Writes (S.state sink.old) (S.state sink.new)
        (body_line end.now (tag_text (codes "ParContract") (contracts_text contracts.now))) result }
{
    write_all(sink, b"[ParContract \"")?;
    write_contracts(sink, contracts)?;
    write_line(sink, &[b"\"]"], end)
}

/// Writes the lines of a board's par, if it is printed, each with this end.
pub(crate) fn write_par<S: Sink>(
    sink: &mut S,
    par: Option<&BoardPar>,
    end: &[u8],
) -> Result<(), DeviceFault>
    requires { IfSome par (λ par. IsSmallPar par.now) }
    ensures { Writes (S.state sink.old) (S.state sink.new)
        (par_text end.now (option_map (λ par. par.now) par.entry)) result }
{
    let Some(par) = par else {
        return Ok(());
    };
    match par {
        BoardPar::Known {
            score,
            contracts,
            ..
        } => {
            write_score_line(sink, *score, end)?;
            write_contracts_line(sink, contracts.as_slice(), end)
        }
        BoardPar::NoDealer => write_line(sink, &[b"; par unknown: no dealer"], end),
        BoardPar::NoVulnerability => write_line(sink, &[b"; par unknown: no vulnerability"], end),
    }
}
