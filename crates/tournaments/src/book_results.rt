//! The results of a book with the pars of its boards.

ghost use Rattle.std.specs.Prelude.{◌≡◌};
ghost use Rattle.tournaments.specs.BookResults.{book_results};
ghost use Rattle.tables.specs.TablesText.{printed_with};
ghost use Rattle.tournaments.specs.Pages.{AreSmallPars};

use cards::{Seat, Trump};
use lease_book::{Book, Entry};
use pbn_deals::Board;
use std::marker::Model;
use tables::{BoardPar, Renews, Results};

/// The results of a book with these pars, one for each board; without any, no par is printed.
#[derive(Drop)]
pub struct BookResults<'a> {
    book: &'a Book,
    renews: Renews,
    pars: &'a [Option<BoardPar>],
}

impl<'a> Model for BookResults<'a> {
    ghost use Rattle.tournaments.specs.BookWithPars as printed;
    ghost use Rattle.tournaments.specs.Pages.{AreSmallPars};

    ghost Value = { printed.BookResults };

    ghost view = { λ results. record { book = results.book.now; renews = results.renews; pars = results.pars.now } };

    ghost invariant = { λ results. AreSmallPars results.pars.now };
}

impl<'a> BookResults<'a> {
    /// The results of this book.
    pub fn new(book: &'a Book, renews: Renews, pars: &'a [Option<BoardPar>]) -> BookResults<'a>
        requires { AreSmallPars pars.now }
        ensures { result ≡ record { book = book.entry.now; renews = renews; pars = pars.entry.now } }
    {
        BookResults { book, renews, pars }
    }
}

impl Results for BookResults<'_> {
    ghost boards_of = { λ results. results.book.terms.boards };

    ghost renews_of = { λ results. results.renews };

    ghost printed_of = { λ results. printed_with results.pars
        (book_results results.book.terms.boards results.book.events) };

    fn renews(&self) -> Renews {
        self.renews
    }

    fn boards(&self) -> &[Board] {
        self.book.boards()
    }

    fn result(&self, board: usize, declarer: Seat, trump: Trump) -> Option<u8> {
        self.book.published(Entry {
            board,
            declarer,
            trump,
        })
    }

    fn par(&self, board: usize) -> Option<&BoardPar> {
        self.pars.get(board)?.as_ref()
    }
}
