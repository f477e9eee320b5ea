//! The dealer and the vulnerability of a board by its number (Law 2).

ghost use Rattle.std.specs.Prelude.{◌≡◌, ◌≤◌};
ghost use Rattle.board_conditions.specs.Numbers.{number_of, in_cycle, in_turn, dealers, vulnerabilities};

use cards::Seat;
use par::VulnerableSides;

/// How many boards there are before dealer and vulnerability come again in the same order.
const CYCLE: u16 = 16;

/// The vulnerability of boards 1 to 16.
const VULNERABILITIES: [VulnerableSides; 16] = [
    VulnerableSides::Neither,
    VulnerableSides::NorthSouth,
    VulnerableSides::EastWest,
    VulnerableSides::Both,
    VulnerableSides::NorthSouth,
    VulnerableSides::EastWest,
    VulnerableSides::Both,
    VulnerableSides::Neither,
    VulnerableSides::EastWest,
    VulnerableSides::Both,
    VulnerableSides::Neither,
    VulnerableSides::NorthSouth,
    VulnerableSides::Both,
    VulnerableSides::Neither,
    VulnerableSides::NorthSouth,
    VulnerableSides::EastWest,
];

/// The board from 1 to 16 that is as the board with this number; 0 for 0.
fn in_cycle(number: u16) -> u16
    ensures cycle { result ≡ in_cycle number }
    ensures below { result ≤ 16 }
{
    if number == 0 {
        0
    } else {
        (number - 1) % CYCLE + 1
    }
}

/// The board from 1 to 16 that is as the board of this name; 0 if the name is no decimal number from 1 on.
pub(crate) fn number_of(name: &[u8]) -> u16
    ensures number { result ≡ in_cycle (number_of name.now) }
    ensures below { result ≤ 16 }
{
    let mut number = 0;
    for byte in name {
        if !byte.is_ascii_digit() {
            return 0;
        }
        number = in_cycle(10 * number + (*byte - b'0') as u16);
    }
    number
}

/// The dealer of the board with this number.
pub(crate) fn dealer_of(number: u16) -> Option<Seat>
    ensures { result ≡ in_turn dealers number }
{
    let places = number.checked_sub(1)?;
    Some(Seat::ALL[places as usize % 4])
}

/// The vulnerability of the board with this number.
pub(crate) fn vulnerability_of(number: u16) -> Option<VulnerableSides>
    ensures { result ≡ in_turn vulnerabilities number }
{
    let places = number.checked_sub(1)?;
    Some(VULNERABILITIES[places as usize % 16])
}
