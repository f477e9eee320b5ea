//! The opening of the desk.

ghost use Rattle.std.specs.Prelude.{◌≡◌, [], IfOk, IfErr};
ghost use Rattle.lease_book.specs.Books.{IsRefused};
ghost use Rattle.lease_desk.specs.Desks.{IsOpened};

use crate::board_copies::copies_of;
use crate::chairs::Chair;
use crate::desk::Desk;
use crate::ends::{DeskEnds, new_ends};
use crate::messages::Message;
use crate::rule::DeskToken;
use crate::seating::seat_all;
use crate::taking::begin;
use lease_book::{Book, BookFault};
use pbn_deals::Board;
use std::alloc::{AllocError, Global};
use std::snapshot::Snapshot;
use std::sync::Wait;

impl Desk {
    /// Opens a desk with this book, whatever its history, and makes so many chairs. Where memory runs out the book is
    /// dropped.
    pub fn over<R: Wait>(
        rt: &R,
        alloc: Global,
        book: Book,
        chairs: usize,
    ) -> Result<(Desk, Vec<Chair>), AllocError>
        ensures { IfOk result (λ made. IsOpened book.terms book.events chairs made.0 made.1.items) }
    {
        let (term, tries, start) = (book.term(), book.tries(), Snapshot::of(&book));
        let boards = copies_of(alloc, book.boards())?;
        let (ends, token) = new_ends(alloc)?;
        let mut idle = Vec::new(alloc);
        if chairs == 0 {
            idle.push(book)?;
            let desk = Desk {
                ends,
                boards,
                term,
                tries,
                start,
                chairs,
                idle,
            };
            return Ok((desk, Vec::new(alloc)));
        }
        let mut token = token;
        let message = Message {
            book,
            makers: Vec::new(alloc),
            chairs,
        };
        begin(rt, &ends.sender, &mut token, message);
        let seats = seat_all(alloc, &ends, token, chairs)?;
        let desk = Desk {
            ends,
            boards,
            term,
            tries,
            start,
            chairs,
            idle,
        };
        Ok((desk, seats))
    }

    /// Opens a desk with a new book over these boards, and makes so many chairs. The faults are those of [`Book::new`].
    pub fn open<R: Wait>(
        rt: &R,
        alloc: Global,
        boards: Vec<Board>,
        term: u64,
        tries: u32,
        chairs: usize,
    ) -> Result<(Desk, Vec<Chair>), BookFault>
        ensures ok { IfOk result (λ made. IsOpened
            (record { boards = boards.items; term = term; tries = tries }) [] chairs made.0 made.1.items) }
        ensures err { IfErr result (IsRefused (record { boards = boards.items; term = term; tries = tries })) }
    {
        let book = Book::new(alloc, boards, term, tries)?;
        let Ok(opened) = Desk::over(rt, alloc, book, chairs) else {
            return Err(BookFault::OutOfMemory);
        };
        Ok(opened)
    }
}
