//! What a line asks for, and the answer.

use crate::conditions::{answer_conditions, answer_first};
use crate::plays::answer_plays;
use cards::{Buffer, DeviceFault, Seat, Trump, write_all};
use par::{
    Bid, Doubling, Level, ParContract, Tricks, Vulnerability, VulnerableSides, par_contracts,
    par_of, score_of, write_contracts, write_score,
};
use std::alloc::{AllocError, Global};

/// Room for the texts of a board.
const ROOM: usize = 200;

/// Adds the answer to a case. The first word of a case is its kind.
pub fn answer_case(alloc: Global, case: &str, out: &mut String) -> Result<(), AllocError> {
    match word(case, 0) {
        "score" => {
            let score = score_of(
                bid(case),
                doubling(case),
                vulnerability(case),
                number(case, 5),
            );
            write!(out, "{score}")
        }
        "par" => answer_par(alloc, case, out),
        "conditions" => answer_conditions(alloc, case, out),
        "first" => answer_first(alloc, case, out),
        "plays" => answer_plays(alloc, case, out),
        _ => out.push_str("no such kind"),
    }
}

/// Adds par and the par contracts.
fn answer_par(alloc: Global, case: &str, out: &mut String) -> Result<(), AllocError> {
    let tricks = Tricks::of(|declarer, denomination| entry(case, declarer, denomination));
    let dealer = Seat::of_letter(word(case, 1)).unwrap_or(Seat::North);
    let vulnerable = vulnerable_sides(word(case, 2));
    let par = par_of(&tricks, dealer, vulnerable);
    let mut text = Buffer::new(alloc, ROOM, ROOM)?;
    let contracts = par_contracts(&tricks, vulnerable, par);
    let whole = write_par(&mut text, par, contracts.as_slice()).is_ok();
    out.push_str(if whole { "" } else { "cut off: " })?;
    out.push_str(str::from_utf8(text.bytes()).unwrap_or(""))
}

/// Writes par, a colon, and the par contracts.
fn write_par(text: &mut Buffer, par: i32, contracts: &[ParContract]) -> Result<(), DeviceFault> {
    write_score(text, par)?;
    write_all(text, b": ")?;
    write_contracts(text, contracts)
}

/// A word of a case, counted from 0; empty if there are fewer.
fn word(case: &str, place: usize) -> &str {
    case.split_whitespace().nth(place).unwrap_or("")
}

/// A number of a case; 0 if the word is none.
fn number(case: &str, place: usize) -> u8 {
    word(case, place).parse::<u8>().unwrap_or(0)
}

/// The tricks of an entry. A case has a row for each of North, South, East and West, with no-trump first.
fn entry(case: &str, declarer: Seat, denomination: Trump) -> u8 {
    let row = match declarer {
        Seat::North => 0,
        Seat::South => 1,
        Seat::East => 2,
        Seat::West => 3,
    };
    let column = match denomination {
        Trump::Nt => 0,
        Trump::Suit(suit) => 1 + suit.number(),
    };
    number(case, 3 + 5 * row + column)
}

/// The bid of a case about a score.
fn bid(case: &str) -> Bid {
    let level = match number(case, 1) {
        2 => Level::Two,
        3 => Level::Three,
        4 => Level::Four,
        5 => Level::Five,
        6 => Level::Six,
        7 => Level::Seven,
        _ => Level::One,
    };
    Bid {
        level,
        denomination: Trump::of_letters(word(case, 2)).unwrap_or(Trump::Nt),
    }
}

/// Whether the contract is doubled.
fn doubling(case: &str) -> Doubling {
    match word(case, 3) {
        "x" => Doubling::Doubled,
        _ => Doubling::Undoubled,
    }
}

/// Whether its side is vulnerable.
fn vulnerability(case: &str) -> Vulnerability {
    match word(case, 4) {
        "v" => Vulnerability::Vulnerable,
        _ => Vulnerability::NotVulnerable,
    }
}

/// The words for the sides that are vulnerable.
const SIDES: [(&str, VulnerableSides); 3] = [
    ("NS", VulnerableSides::NorthSouth),
    ("EW", VulnerableSides::EastWest),
    ("All", VulnerableSides::Both),
];

/// Which sides are vulnerable.
fn vulnerable_sides(word: &str) -> VulnerableSides {
    for (name, sides) in SIDES {
        if name == word {
            return sides;
        }
    }
    VulnerableSides::Neither
}
