//! The closing of the desk: each chair's receipts are compared with the last message.

ghost use Rattle.std.specs.Prelude.{◌≡◌, ◌<◌, ℕ, All, Option, Some, length, map, true};
ghost use Rattle.crossbeam_channel.specs.Claims.{view, IsSeatAt};
ghost use Rattle.crossbeam_channel.specs.Ends.{sends_on};
ghost use Rattle.lease_desk.specs.declared.views.SeenMessage.{SeenMessage};
ghost use Rattle.lease_desk.specs.declared.views.Custody.TheVariants.{Holds};
ghost use Rattle.lease_desk.specs.Desks.{IsChairAt, AreChairsOf, IsClosed, terms_of, start_of, shown_of};
ghost use Rattle.lease_desk.specs.Closing.{AreSeatedAt, IsCollected, IsSitting, IsCompared};

use crate::chairs::Chair;
use crate::desk::Desk;
use crate::ends::DeskEnds;
use crate::rule::{Compares, DeskToken, Hears, Spares, Tells};
use crate::taking::take_last;
use lease_book::Book;
use std::sync::Wait;

/// A closed desk.
#[derive(Drop)]
pub struct Closed {
    /// The book, with the history of all calls.
    pub book: Book,
    /// The chairs, with their receipts.
    pub chairs: Vec<Chair>,
}

/// Compares the receipts of one chair with the message in hand.
fn compare(ends: &DeskEnds, own: &mut DeskToken, chair: &mut Chair)
    requires seat { IsSeatAt (sends_on ends.now.sender) own.old }
    requires sits { IsSitting ends.now chair.old }
    requires holds { (last : SeenMessage) × ((view own.old).custody ≡ Holds true last) }
    ensures seat { IsSeatAt (sends_on ends.now.sender) own.new }
    ensures view { view own.new ≡ view own.old }
    ensures same { shown_of chair.new ≡ shown_of chair.old }
    ensures compared { (last : SeenMessage) → (view own.old).custody ≡ Holds true last → IsCompared last chair.new }
{
    let told = ends.sender.another::<Tells>(own);
    ends.sender.absorb::<Hears>(&mut chair.token, told);
    ends.sender.learn_as::<Compares>(&mut chair.token);
}

/// Compares the receipts of each chair with the message in hand.
fn settle(ends: &DeskEnds, own: DeskToken, chairs: &mut [Chair])
    requires seat { IsSeatAt (sends_on ends.now.sender) own }
    requires sit { All (IsSitting ends.now) chairs.old }
    requires holds { (last : SeenMessage) × ((view own).custody ≡ Holds true last) }
    ensures same { map shown_of chairs.new ≡ map shown_of chairs.old }
    ensures compared { (last : SeenMessage) → (view own).custody ≡ Holds true last → All (IsCompared last) chairs.new }
{
    let mut own = own;
    for chair in chairs.iter_mut() {
        compare(ends, &mut own, chair);
    }
}

/// Takes the message for good, and compares the receipts of each chair with it.
fn collect<R: Wait>(rt: &R, ends: &DeskEnds, chairs: &mut [Chair]) -> Book
    requires some { 0 < length chairs.old }
    requires seated { AreSeatedAt ends.now chairs.old }
    ensures { (opening : Option SeenMessage) → All (IsChairAt ends.now opening) chairs.old
        → IsCollected opening chairs.old chairs.new result }
{
    let mut own = ends.sender.another::<Spares>(&mut chairs[0].token);
    let message = take_last(rt, &ends.receiver, &mut own);
    settle(ends, own, chairs);
    message.book
}

impl Desk {
    /// Closes the desk with all its chairs, in any order, and hands the book out. Takes no memory.
    pub fn close<R: Wait>(self, rt: &R, chairs: Vec<Chair>) -> Closed
        requires { AreChairsOf self chairs.items }
        ensures { IsClosed (terms_of self) (start_of self) chairs.items result.book result.chairs.items }
    {
        let mut chairs = chairs;
        let Desk {
            ends,
            boards: _,
            term: _,
            tries: _,
            start: _,
            chairs: _,
            idle,
        } = self;
        let mut idle = idle;
        let book = match idle.pop() {
            Some(book) => book,
            None => collect(rt, &ends, chairs.as_mut_slice()),
        };
        let _legal = book.history();
        Closed { book, chairs }
    }
}
