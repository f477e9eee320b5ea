//! The score of a contract (Law 77).

ghost use Rattle.std.specs.Prelude.{◌≡◌, ◌*◌, ◌<◌, ◌≤◌, ◌^◌, unsigned_abs};
ghost use Rattle.par.specs.Scores.{outcome_of, trick_value, first_trick_more, trick_score};
ghost use Rattle.par.specs.Scores.{game_or_part_score, slam_premium, overtrick_value, penalty};
ghost use Rattle.par.specs.Scores.{made_score, score};

use crate::bids::{Bid, Level};
use cards::{Suit, Trump};

/// Whether a side is vulnerable on a board (Law 2).
#[derive(Clone, Copy, Debug, PartialEq, Eq)]
pub enum Vulnerability {
    /// It is not vulnerable.
    NotVulnerable,
    /// It is vulnerable.
    Vulnerable,
}

/// Whether the opponents have doubled a contract (Law 19A).
#[derive(Clone, Copy, Debug, PartialEq, Eq)]
pub enum Doubling {
    /// Nobody doubled it.
    Undoubled,
    /// The opponents doubled it.
    Doubled,
}

/// The result of a contract.
#[derive(Clone, Copy, Debug, PartialEq, Eq)]
pub enum ContractResult {
    /// It is made, with this many overtricks.
    Made(u8),
    /// It fails by this many undertricks.
    Down(u8),
}

/// How a contract of this bid ends if declarer takes so many tricks.
pub fn outcome_of(bid: Bid, tricks: u8) -> ContractResult
    ensures { result ≡ outcome_of bid tricks }
{
    let needed = 6 + bid.level.number();
    if tricks < needed {
        ContractResult::Down(needed - tricks)
    } else {
        ContractResult::Made(tricks - needed)
    }
}

/// The score of declarer's side (Law 77), negative if the opponents score. It is right for 0 to 13 tricks; for more,
/// each further trick counts as an overtrick.
pub fn score_of(bid: Bid, doubling: Doubling, vulnerability: Vulnerability, tricks: u8) -> i32
    ensures points { result ≡ score bid doubling vulnerability tricks }
    ensures small { unsigned_abs result < 2 ^ 16 }
{
    match outcome_of(bid, tricks) {
        ContractResult::Made(over) => made(bid, doubling, vulnerability, over) as i32,
        ContractResult::Down(under) => -(lost(doubling, vulnerability, under) as i32),
    }
}

/// The score for a contract that is made.
fn made(bid: Bid, doubling: Doubling, vulnerability: Vulnerability, over: u8) -> u32
    ensures points { result ≡ made_score bid doubling vulnerability over }
    ensures small { result < 2 ^ 16 }
{
    let points = tricks_made(bid, doubling);
    let overtrick = overtrick(bid.denomination, doubling, vulnerability);
    let game = if points < 100 {
        50
    } else {
        match vulnerability {
            Vulnerability::NotVulnerable => 300,
            Vulnerability::Vulnerable => 500,
        }
    };
    let insult = match doubling {
        Doubling::Undoubled => 0,
        Doubling::Doubled => 50,
    };
    points + over as u32 * overtrick + game + slam(bid.level, vulnerability) + insult
}

/// The trick score of a contract that is made.
fn tricks_made(bid: Bid, doubling: Doubling) -> u32
    ensures points { result ≡ trick_score bid doubling }
    ensures small { result ≤ 440 }
{
    let level = bid.level.number() as u32;
    let points = match bid.denomination {
        Trump::Nt => 30 * level + 10,
        Trump::Suit(_) => trick(bid.denomination) * level,
    };
    match doubling {
        Doubling::Undoubled => points,
        Doubling::Doubled => 2 * points,
    }
}

/// What an odd trick counts, without the extra points for the first in no-trump.
fn trick(denomination: Trump) -> u32
    ensures value { result ≡ trick_value denomination }
    ensures small { result ≤ 30 }
{
    match denomination {
        Trump::Suit(Suit::Clubs | Suit::Diamonds) => 20,
        Trump::Suit(Suit::Hearts | Suit::Spades) | Trump::Nt => 30,
    }
}

/// What an overtrick counts.
fn overtrick(denomination: Trump, doubling: Doubling, vulnerability: Vulnerability) -> u32
    ensures value { result ≡ overtrick_value denomination doubling vulnerability }
    ensures small { result ≤ 200 }
{
    match (doubling, vulnerability) {
        (Doubling::Undoubled, _) => trick(denomination),
        (Doubling::Doubled, Vulnerability::NotVulnerable) => 100,
        (Doubling::Doubled, Vulnerability::Vulnerable) => 200,
    }
}

/// The premium for a slam, and 0 for a lower level.
fn slam(level: Level, vulnerability: Vulnerability) -> u32
    ensures value { result ≡ slam_premium level vulnerability }
    ensures small { result ≤ 1500 }
{
    match (level, vulnerability) {
        (Level::Six, Vulnerability::NotVulnerable) => 500,
        (Level::Six, Vulnerability::Vulnerable) => 750,
        (Level::Seven, Vulnerability::NotVulnerable) => 1000,
        (Level::Seven, Vulnerability::Vulnerable) => 1500,
        _ => 0,
    }
}

/// What the opponents score for so many undertricks.
fn lost(doubling: Doubling, vulnerability: Vulnerability, under: u8) -> u32
    ensures points { result ≡ penalty doubling vulnerability under }
    ensures small { result ≤ 300 * under }
{
    let under = under as u32;
    match (doubling, vulnerability) {
        (Doubling::Undoubled, Vulnerability::NotVulnerable) => 50 * under,
        (Doubling::Undoubled, Vulnerability::Vulnerable) => 100 * under,
        (Doubling::Doubled, Vulnerability::NotVulnerable) if under <= 3 => (200
            * under).saturating_sub(100),
        (Doubling::Doubled, Vulnerability::NotVulnerable) => 300 * under - 400,
        (Doubling::Doubled, Vulnerability::Vulnerable) => (300 * under).saturating_sub(100),
    }
}
