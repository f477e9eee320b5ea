//! The pars of a tournament's boards.

ghost use Rattle.std.specs.Prelude.{◌≡◌, ◌≤◌, false, IfOk, IfErr, IfSome, MatchOption};
ghost use Rattle.cards.specs.declared.seats.Seat.{Seat};
ghost use Rattle.cards.specs.declared.suits.Trump.{Trump};
ghost use Rattle.tournaments.specs.BookResults.{book_results};
ghost use Rattle.par.specs.Boards.{tricks_in};
ghost use Rattle.tables.specs.ParText.{IsSmallPar};
ghost use Rattle.tables.specs.TablesText.{is_complete};
ghost use Rattle.tournaments.specs.declared.faults.MakeFault.TheVariants as faults;
ghost use Rattle.tournaments.specs.BoardTricks.{AreAtMost13, HasTricks, IsRow};
ghost use Rattle.tournaments.specs.Pars.{AreBoardPars, IsBoardPar, IsParUnder};

use crate::faults::MakeFault;
use board_conditions::{Conditions, read_conditions};
use cards::{Seat, Suit, Trump};
use lease_book::{Book, Entry};
use par::{Tricks, par_contracts, par_of};
use std::alloc::Global;
use tables::BoardPar;

/// The number that is published for a board, a declarer and a denomination.
fn result_of(book: &Book, board: usize, declarer: Seat, trump: Trump) -> Option<u8>
    ensures value { result ≡ book_results book.now.terms.boards book.now.events board declarer trump }
    ensures at_most_13 { IfSome result (λ tricks. tricks ≤ 13) }
{
    book.published(Entry {
        board,
        declarer,
        trump,
    })
}

/// The tricks of a declarer in the five denominations, if all of them are known.
fn row_of(book: &Book, board: usize, declarer: Seat) -> Option<[u8; 5]>
    ensures { MatchOption result (is_complete (book_results book.now.terms.boards book.now.events board) ≡ false)
        (IsRow (book_results book.now.terms.boards book.now.events board) declarer) }
{
    Some([
        result_of(book, board, declarer, Trump::Nt)?,
        result_of(book, board, declarer, Trump::Suit(Suit::Spades))?,
        result_of(book, board, declarer, Trump::Suit(Suit::Hearts))?,
        result_of(book, board, declarer, Trump::Suit(Suit::Diamonds))?,
        result_of(book, board, declarer, Trump::Suit(Suit::Clubs))?,
    ])
}

/// The tricks of a board's twenty entries, if all of them are known.
fn tricks_of(book: &Book, board: usize) -> Option<Tricks>
    ensures { MatchOption result (is_complete (book_results book.now.terms.boards book.now.events board) ≡ false)
        (λ tricks. HasTricks (book_results book.now.terms.boards book.now.events board) (tricks_in tricks)) }
{
    Some(Tricks {
        rows: [
            row_of(book, board, Seat::North)?,
            row_of(book, board, Seat::East)?,
            row_of(book, board, Seat::South)?,
            row_of(book, board, Seat::West)?,
        ],
    })
}

/// The par of a board with these tricks.
fn par_under(tricks: &Tricks, conditions: Conditions) -> BoardPar
    requires { AreAtMost13 (tricks_in tricks.now) }
    ensures under { IsParUnder (tricks_in tricks.now) conditions result }
    ensures small { IsSmallPar result }
{
    let Some(dealer) = conditions.dealer else {
        return BoardPar::NoDealer;
    };
    let Some(vulnerable) = conditions.vulnerable else {
        return BoardPar::NoVulnerability;
    };
    let score = par_of(tricks, dealer, vulnerable);
    BoardPar::Known {
        dealer,
        vulnerable,
        score,
        contracts: par_contracts(tricks, vulnerable, score),
    }
}

/// The par of a board of a book, by its place, if all of its results are known.
fn board_par(book: &Book, board: usize, conditions: Conditions) -> Option<BoardPar>
    ensures par { IsBoardPar (book_results book.now.terms.boards book.now.events board) conditions result }
    ensures small { IfSome result IsSmallPar }
{
    let tricks = tricks_of(book, board)?;
    Some(par_under(&tricks, conditions))
}

/// The pars of the boards of a book, of whose text they were read. Fails only if memory runs out.
pub(crate) fn board_pars(
    alloc: Global,
    text: &[u8],
    book: &Book,
) -> Result<Vec<Option<BoardPar>>, MakeFault>
    ensures pars { IfOk result (λ pars. AreBoardPars text.now
        (book_results book.now.terms.boards book.now.events) pars.items) }
    ensures fault { IfErr result (λ fault. fault ≡ faults.OutOfMemory) }
{
    let Ok(conditions) = read_conditions(alloc, text) else {
        return Err(MakeFault::OutOfMemory);
    };
    let mut pars = Vec::new(alloc);
    for place in 0..conditions.len() {
        let par = board_par(book, place, conditions[place]);
        if pars.push(par).is_err() {
            return Err(MakeFault::OutOfMemory);
        }
    }
    Ok(pars)
}
