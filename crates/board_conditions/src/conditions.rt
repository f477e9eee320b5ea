//! The conditions under which a board is played.

ghost use Rattle.std.specs.Prelude.{◌≡◌};
ghost use Rattle.std.specs.Option.{option_copied};
ghost use Rattle.board_conditions.specs.Numbers.{dealers, vulnerabilities, in_turn};
ghost use Rattle.board_conditions.specs.Words.{dealer_said, vulnerability_said};
ghost use Rattle.board_conditions.specs.Games.{settled};

use crate::numbers::{dealer_of, vulnerability_of};
use crate::words::{dealer_said, vulnerability_said};
use cards::Seat;
use par::VulnerableSides;

/// The conditions under which a board is played, as far as they are known.
#[derive(Clone, Copy, Debug, PartialEq, Eq)]
pub struct Conditions {
    /// Who deals.
    pub dealer: Option<Seat>,
    /// Which sides are vulnerable.
    pub vulnerable: Option<VulnerableSides>,
}

/// The dealer by the value of a Dealer tag that says something, if there is one, otherwise by the board's number.
pub(crate) fn settled_dealer(value: Option<&[u8]>, number: u16) -> Option<Seat>
    ensures { result ≡ settled dealer_said (option_copied value.entry) (in_turn dealers number) }
{
    match value {
        Some(value) => dealer_said(value),
        None => dealer_of(number),
    }
}

/// The vulnerability by the value of a Vulnerable tag that says something, if there is one, otherwise by the board's
/// number.
pub(crate) fn settled_vulnerability(value: Option<&[u8]>, number: u16) -> Option<VulnerableSides>
    ensures { result ≡ settled vulnerability_said (option_copied value.entry) (in_turn vulnerabilities number) }
{
    match value {
        Some(value) => vulnerability_said(value),
        None => vulnerability_of(number),
    }
}
