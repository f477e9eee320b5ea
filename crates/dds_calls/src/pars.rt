//! Par and the par contracts of a table.

ghost use Rattle.std.specs.Prelude.{◌≡◌, ◌≢◌, ◌<◌, ◌≤◌, ◌⊎◌, pos, negsuc, length, MatchBool, MatchOption, slice_index};
ghost use Rattle.cards.specs.Orders.{trump_number};
ghost use Rattle.cards.specs.declared.seats.Seat.{Seat};
ghost use Rattle.cards.specs.declared.suits.Trump.{Trump};
ghost use Rattle.par.specs.Boards.{tricks_in};
ghost use Rattle.dds_calls.specs.Denominations.{strain_number};
ghost use Rattle.dds_calls.specs.Pars.{AreTricks, HasStrayNumber, IsNoVulnerability, IsTrickCount};
ghost use Rattle.dds_calls.specs.Pars.{HasParFault, IsParAnswer, IsBlank, IsParOf, contract_of, entry_in, in_places};
ghost use Rattle.dds_calls.specs.Pars.{over_tricks_of, seats_number, tricks_of, under_tricks_of};
ghost use Rattle.dds_calls.specs.Pars.{vulnerable_number};

use crate::codes::{NO_FAULT, UNKNOWN_FAULT};
use crate::seats::seat_of;
use cards::{Seat, Side, Suit, Trump};
use par::{ContractResult, Declarers, ParContract, Tricks, VulnerableSides, par_contracts, par_of};

/// A table of tricks. It has the shape of DDS's `ddTableResults`.
#[repr(C)]
#[derive(Drop)]
pub struct TableResults {
    /// A row for each strain (spades, hearts, diamonds, clubs, no-trump), with the tricks of each declarer, clockwise
    /// from North.
    pub tricks: [[i32; 4]; 5],
}

/// A par contract. It has the shape of DDS's `contractType`.
#[repr(C)]
#[derive(Clone, Copy)]
pub struct ContractType {
    /// The number of undertricks, 0 if it is made.
    pub under_tricks: i32,
    /// The number of overtricks, 0 if it fails.
    pub over_tricks: i32,
    /// The level, 1 to 7.
    pub level: i32,
    /// The denomination: no-trump 0, spades 1, hearts 2, diamonds 3, clubs 4.
    pub denom: i32,
    /// The declarer: North 0, East 1, South 2, West 3, North or South 4, East or West 5.
    pub seats: i32,
}

/// Par and the par contracts. It has the shape of DDS's `parResultsMaster`.
#[repr(C)]
#[derive(Drop)]
pub struct ParResults {
    /// Par, as a score of North and South.
    pub score: i32,
    /// The number of par contracts, 1 if par is 0.
    pub number: i32,
    /// The par contracts, the highest bid first, and zeros in the other places.
    pub contracts: [ContractType; 10],
}

/// The most tricks that a declarer takes.
const ALL_TRICKS: i32 = 13;

/// What a place without a contract has.
const NO_CONTRACT: ContractType = ContractType {
    under_tricks: 0,
    over_tricks: 0,
    level: 0,
    denom: 0,
    seats: 0,
};

/// How many contracts are counted if par is 0. There is none then, but DDS counts the pass.
const PASSED_OUT: i32 = 1;

/// Returns whether a number is a number of tricks.
fn is_trick_count(number: i32) -> bool
    ensures { MatchBool result (IsTrickCount number) (IsTrickCount number → ⊥) }
{
    0 <= number && number <= ALL_TRICKS
}

/// Returns whether each number of a row is a number of tricks.
fn is_row(hands: &[i32; 4]) -> bool
    ensures { MatchBool result
        ((declarer : Seat) → IsTrickCount (entry_in hands.now declarer))
        ((declarer : Seat) × (IsTrickCount (entry_in hands.now declarer) → ⊥)) }
{
    let [north, east, south, west] = *hands;
    is_trick_count(north) && is_trick_count(east) && is_trick_count(south) && is_trick_count(west)
}

/// Returns whether each number of the table is a number of tricks.
fn are_tricks(table: &TableResults) -> bool
    ensures { MatchBool result (AreTricks table.now) (HasStrayNumber table.now) }
{
    let [spades, hearts, diamonds, clubs, no_trump] = &table.tricks;
    is_row(spades) && is_row(hearts) && is_row(diamonds) && is_row(clubs) && is_row(no_trump)
}

/// Returns the row of a denomination in the table.
fn strain(denomination: Trump) -> usize
    ensures number { result ≡ strain_number denomination }
    ensures below { result < 5 }
{
    match denomination {
        Trump::Suit(suit) => suit.number(),
        Trump::Nt => 4,
    }
}

/// Returns how many tricks a declarer takes in a denomination.
fn taken(table: &TableResults, declarer: Seat, denomination: Trump) -> u8
    requires { AreTricks table.now }
    ensures { result ≡ tricks_of table.now declarer denomination }
{
    table.tricks[strain(denomination)][declarer.number()] as u8
}

/// Returns the tricks of a declarer in each denomination, no-trump first.
fn row_of(table: &TableResults, declarer: Seat) -> [u8; 5]
    requires { AreTricks table.now }
    ensures { (denomination : Trump) →
        slice_index result (trump_number denomination) ≡ tricks_of table.now declarer denomination }
{
    [
        taken(table, declarer, Trump::Nt),
        taken(table, declarer, Trump::Suit(Suit::Spades)),
        taken(table, declarer, Trump::Suit(Suit::Hearts)),
        taken(table, declarer, Trump::Suit(Suit::Diamonds)),
        taken(table, declarer, Trump::Suit(Suit::Clubs)),
    ]
}

/// Returns the table as `par` has it.
fn tricks_of(table: &TableResults) -> Tricks
    requires { AreTricks table.now }
    ensures { tricks_in result ≡ tricks_of table.now }
{
    Tricks {
        rows: [
            row_of(table, Seat::North),
            row_of(table, Seat::East),
            row_of(table, Seat::South),
            row_of(table, Seat::West),
        ],
    }
}

/// Returns the vulnerable sides with this number.
fn vulnerable_of(number: i32) -> Option<VulnerableSides>
    ensures { MatchOption result (IsNoVulnerability number) (λ sides. number ≡ pos (vulnerable_number sides)) }
{
    match number {
        0 => Some(VulnerableSides::Neither),
        1 => Some(VulnerableSides::Both),
        2 => Some(VulnerableSides::NorthSouth),
        3 => Some(VulnerableSides::EastWest),
        _ => None,
    }
}

/// Returns the number of undertricks.
fn under_tricks(outcome: ContractResult) -> i32
    ensures { result ≡ under_tricks_of outcome }
{
    match outcome {
        ContractResult::Made(_) => 0,
        ContractResult::Down(under) => i32::from(under),
    }
}

/// Returns the number of overtricks.
fn over_tricks(outcome: ContractResult) -> i32
    ensures { result ≡ over_tricks_of outcome }
{
    match outcome {
        ContractResult::Made(over) => i32::from(over),
        ContractResult::Down(_) => 0,
    }
}

/// Returns the number of a denomination.
fn denom(denomination: Trump) -> i32
    ensures { result ≡ pos (trump_number denomination) }
{
    match denomination {
        Trump::Nt => 0,
        Trump::Suit(Suit::Spades) => 1,
        Trump::Suit(Suit::Hearts) => 2,
        Trump::Suit(Suit::Diamonds) => 3,
        Trump::Suit(Suit::Clubs) => 4,
    }
}

/// Returns the number of a declarer.
fn seats(declarers: Declarers) -> i32
    ensures { result ≡ pos (seats_number declarers) }
{
    match declarers {
        Declarers::Only(Seat::North) => 0,
        Declarers::Only(Seat::East) => 1,
        Declarers::Only(Seat::South) => 2,
        Declarers::Only(Seat::West) => 3,
        Declarers::Either(Side::NorthSouth) => 4,
        Declarers::Either(Side::EastWest) => 5,
    }
}

/// Returns a par contract in DDS's fields.
fn contract_of(contract: &ParContract) -> ContractType
    ensures { result ≡ contract_of contract.now }
{
    ContractType {
        under_tricks: under_tricks(contract.outcome),
        over_tricks: over_tricks(contract.outcome),
        level: i32::from(contract.bid.level.number()),
        denom: denom(contract.bid.denomination),
        seats: seats(contract.declarers),
    }
}

/// Writes a list of contracts into ten places.
fn places_of(list: &[ParContract]) -> [ContractType; 10]
    requires { length list.now ≤ 10 }
    ensures { result ≡ in_places list.now }
{
    let mut places = [NO_CONTRACT; 10];
    for (place, contract) in list.iter().enumerate() {
        places[place] = contract_of(contract);
    }
    places
}

/// Returns the number of par contracts, or 1 if par is 0.
fn number_of(score: i32, list: &[ParContract]) -> i32
    requires { length list.now ≤ 10 }
    ensures counted { score ≢ pos 0 → result ≡ pos (length list.now) }
    ensures passed_out { score ≡ pos 0 → result ≡ pos 1 }
{
    if score == 0 {
        PASSED_OUT
    } else {
        list.len() as i32
    }
}

/// Returns par and the par contracts of a board.
fn results_of(tricks: &Tricks, dealer: Seat, vulnerable: VulnerableSides) -> ParResults
    ensures { IsParOf (tricks_in tricks.now) dealer vulnerable result }
{
    let score = par_of(tricks, dealer, vulnerable);
    let list = par_contracts(tricks, vulnerable, score);
    ParResults {
        score,
        number: number_of(score, list.as_slice()),
        contracts: places_of(list.as_slice()),
    }
}

/// Returns par and the par contracts of a table, or nothing if a number is out of range.
fn answer_of(table: &TableResults, dealer: i32, vulnerable: i32) -> Option<ParResults>
    ensures { MatchOption result
        (HasParFault table.now dealer vulnerable)
        (IsParAnswer table.now dealer vulnerable) }
{
    if !are_tricks(table) {
        return None;
    }
    let seat = seat_of(dealer)?;
    let sides = vulnerable_of(vulnerable)?;
    Some(results_of(&tricks_of(table), seat, sides))
}

/// Writes par and the par contracts of a table into `par`, and returns 1. The dealer is 0 to 3, clockwise from North.
/// The vulnerable sides are neither (0), both (1), North and South (2), or East and West (3). If a number is out of
/// range, the function fills `par` with zeros and returns -1.
#[unsafe(no_mangle)]
pub extern "C" fn ddfarm_par(
    table: &TableResults,
    dealer: i32,
    vulnerable: i32,
    par: &mut ParResults,
) -> i32
    ensures code { (result ≡ pos 1) ⊎ (result ≡ negsuc 0) }
    ensures answer { result ≡ pos 1 → IsParAnswer table.now dealer vulnerable par.new }
    ensures refusal { result ≡ negsuc 0 → HasParFault table.now dealer vulnerable × IsBlank par.new }
{
    match answer_of(table, dealer, vulnerable) {
        Some(results) => {
            *par = results;
            NO_FAULT
        }
        None => {
            *par = ParResults {
                score: 0,
                number: 0,
                contracts: [NO_CONTRACT; 10],
            };
            UNKNOWN_FAULT
        }
    }
}
