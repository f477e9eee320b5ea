//! The rows that are known.

ghost use Rattle.std.specs.Prelude.{◌≡◌, ◌<◌, ◌^◌};
ghost use Rattle.cards.specs.Orders.{trump_number};
ghost use Rattle.opening_leads.specs.Leads.{is_counted, with_values};
ghost use Rattle.opening_leads.specs.Tasks.{lacking_rows, row_in, leads_in};

use arrayvec::ArrayVec;
use card_values::CardValue;
use cards::{Seat, Trump};
use std::marker::Model;

/// Why the leads against a contract are not known.
#[derive(Clone, Copy)]
pub(crate) enum Lack {
    /// The board has no deal.
    Deal,
    /// The steps ran out: there is no answer, or it has no claim for one of the leads.
    Steps,
    /// Memory ran out in the search.
    Memory,
    /// The answer was refused: its certificates don't show what it claims for one of the leads.
    Refused,
}

/// Which rows are counted.
#[derive(Clone, Copy)]
pub(crate) enum Counted {
    /// Those that are known.
    Known,
    /// Those for which the steps ran out.
    Steps,
    /// Those for which memory ran out.
    Memory,
    /// Those whose answer was refused.
    Refused,
}

/// The leads against a contract, each with the tricks that the defenders take after it, or why they are not known.
pub(crate) type Row = Result<ArrayVec<CardValue, 13>, Lack>;

/// Whether a row is counted.
fn is_counted(counted: Counted, row: Result<&[CardValue], Lack>) -> bool
    ensures { result ≡ is_counted counted (with_values (λ values. values.now) row.entry) }
{
    match (counted, row) {
        (Counted::Known, Ok(_)) => true,
        (Counted::Steps, Err(Lack::Steps)) => true,
        (Counted::Memory, Err(Lack::Memory)) => true,
        (Counted::Refused, Err(Lack::Refused)) => true,
        _ => false,
    }
}

/// The rows of a board in one denomination, by declarer.
#[derive(Drop)]
pub(crate) struct DeclarerRows {
    pub(crate) north: Row,
    pub(crate) east: Row,
    pub(crate) south: Row,
    pub(crate) west: Row,
}

impl DeclarerRows {
    /// No row is known, for this reason.
    pub(crate) fn lacking(lack: Lack) -> DeclarerRows
        ensures { result ≡ lacking_rows lack }
    {
        DeclarerRows {
            north: Err(lack),
            east: Err(lack),
            south: Err(lack),
            west: Err(lack),
        }
    }

    /// The leads against a declarer, or why they are not known.
    pub(crate) fn row(&self, declarer: Seat) -> Result<&[CardValue], Lack>
        ensures { with_values (λ values. values.now) result ≡ row_in self.now declarer }
    {
        let row = match declarer {
            Seat::North => &self.north,
            Seat::East => &self.east,
            Seat::South => &self.south,
            Seat::West => &self.west,
        };
        match row {
            Ok(values) => Ok(values.as_slice()),
            Err(lack) => Err(*lack),
        }
    }
}

/// The place of a denomination in [`Trump::ALL`].
pub(crate) fn trump_number(trump: Trump) -> usize
    ensures place { result ≡ trump_number trump }
    ensures below { result < 5 }
{
    match trump {
        Trump::Nt => 0,
        Trump::Suit(suit) => 1 + suit.number(),
    }
}

/// The rows of all boards: those of a board in each denomination, in the order of [`Trump::ALL`]. Contracts see the
/// list of them.
#[derive(Drop)]
pub(crate) struct LeadTable {
    found: Vec<Option<DeclarerRows>>,
}

impl Model for LeadTable {
    ghost use Rattle.std.specs.Prelude.{List, Option};
    ghost use Rattle.opening_leads.specs.declared.rows.DeclarerRows.{DeclarerRows};

    ghost Value = { List (Option DeclarerRows) };

    ghost view = { λ table. table.found.items };
}

impl LeadTable {
    /// The table of these rows. Takes no memory.
    pub(crate) fn new(found: Vec<Option<DeclarerRows>>) -> LeadTable
        ensures { result ≡ found.items }
    {
        LeadTable { found }
    }

    /// The leads against a contract on a board, by its place from 0, or why they are not known.
    pub(crate) fn row(
        &self,
        board: usize,
        declarer: Seat,
        trump: Trump,
    ) -> Result<&[CardValue], Lack>
        requires { board < 2 ^ 32 }
        ensures { with_values (λ values. values.now) result ≡ leads_in self.now board declarer trump }
    {
        match self.found.get(5 * board + trump_number(trump)) {
            Some(Some(rows)) => rows.row(declarer),
            Some(None) | None => Err(Lack::Deal),
        }
    }

    /// Whether the row of a contract on a board, by its place from 0, is counted.
    pub(crate) fn counts(
        &self,
        board: usize,
        declarer: Seat,
        trump: Trump,
        counted: Counted,
    ) -> bool
        requires { board < 2 ^ 32 }
        ensures { result ≡ is_counted counted (leads_in self.now board declarer trump) }
    {
        is_counted(counted, self.row(board, declarer, trump))
    }
}
