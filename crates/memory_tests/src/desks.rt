//! The list of requests at a desk: a call whose memory runs out is made again.

ghost use Rattle.std.specs.Prelude.{◌≡◌, ◌<◌, IfOk, length};
ghost use Rattle.lease_desk.specs.Desks.{IsChairOf, AreChairsOf, number_of};

use crate::books::{NT, REPLIES, board};
use crate::claims::ace_claim;
use crate::outcomes::{Outcome, Told};
use crate::spending::Spending;
use cards::OutOfMemory;
use checker::Claimed;
use lease_book::BookFault;
use lease_desk::{Chair, Closed, Desk, Receipt};
use pbn_deals::Board;
use std::alloc::{AllocError, Global};
use std::sync::Wait;
use test_support::idle::LetsPass;

/// Makes the request in this place of the list.
fn ask<R: Wait>(
    rt: &R,
    desk: &Desk,
    chair: &mut Chair,
    place: usize,
    claimed: &Claimed,
) -> Result<Receipt, OutOfMemory>
    requires { IsChairOf desk.now chair.old }
    ensures chair { IsChairOf desk.now chair.new }
    ensures number { number_of chair.new ≡ number_of chair.old }
{
    match place {
        0 => desk.lease(rt, chair, 0),
        1 => desk.expire(rt, chair, 9),
        2 => desk.expire(rt, chair, 10),
        3 => desk.lease(rt, chair, 10),
        4 => desk.hand_in(rt, chair, 1, NT, claimed, &LetsPass),
        5 => desk.hand_in(rt, chair, 2, NT, claimed, &LetsPass),
        _ => desk.lease(rt, chair, 11),
    }
}

/// Whether the call in this place of the list is told so.
fn is_told(receipt: &Receipt, place: usize) -> bool {
    match REPLIES.get(place) {
        Some(reply) => receipt.place == place as u64 && receipt.event.reply == *reply,
        None => false,
    }
}

/// Makes the request in this place of the list, and once more where its memory ran out.
fn ask_again<R: Wait>(
    rt: &R,
    desk: &Desk,
    chair: &mut Chair,
    place: usize,
    claimed: &Claimed,
) -> Outcome
    requires { IsChairOf desk.now chair.old }
    ensures chair { IsChairOf desk.now chair.new }
    ensures number { number_of chair.new ≡ number_of chair.old }
{
    match ask(rt, desk, chair, place, claimed) {
        Ok(receipt) if is_told(&receipt, place) => return Outcome::Answer,
        Ok(_) => return Outcome::Wrong,
        Err(OutOfMemory) if chair.receipts().len() == place => {}
        Err(OutOfMemory) => return Outcome::Wrong,
    }
    match ask(rt, desk, chair, place, claimed) {
        Ok(receipt) if is_told(&receipt, place) => Outcome::AnswerAgain,
        _ => Outcome::Wrong,
    }
}

/// Makes all of them.
fn ask_all<R: Wait>(rt: &R, desk: &Desk, chair: &mut Chair, claimed: &Claimed) -> Outcome
    requires { IsChairOf desk.now chair.old }
    ensures chair { IsChairOf desk.now chair.new }
    ensures number { number_of chair.new ≡ number_of chair.old }
{
    let mut whole = Outcome::Answer;
    for place in 0..7 {
        whole = whole.and(ask_again(rt, desk, chair, place, claimed));
    }
    whole
}

/// Makes all of them from the only chair of a desk.
fn ask_from_first<R: Wait>(rt: &R, desk: &Desk, chairs: &mut [Chair], claimed: &Claimed) -> Outcome
    requires chairs { AreChairsOf desk.now chairs.old }
    requires some { 0 < length chairs.old }
    ensures { AreChairsOf desk.now chairs.new }
{
    ask_all(rt, desk, &mut chairs[0], claimed)
}

/// Whether the closed history is the list with its replies, and the receipts are its events.
fn is_closed(closed: &Closed) -> bool {
    let history = closed.book.history();
    let [chair] = closed.chairs.as_slice() else {
        return false;
    };
    let mut places = history
        .iter()
        .zip(chair.receipts())
        .zip(&REPLIES)
        .enumerate();
    history.len() == REPLIES.len()
        && chair.receipts().len() == REPLIES.len()
        && places.all(|(place, ((event, receipt), reply))| {
            event.reply == *reply && receipt.event == *event && receipt.place == place as u64
        })
}

/// A desk with a chair; where memory ran out it is opened once more.
fn opened<R: Wait>(
    rt: &R,
    alloc: Global,
    boards: Vec<Board>,
    again: Vec<Board>,
) -> (Result<(Desk, Vec<Chair>), BookFault>, Outcome)
    ensures chairs { IfOk result.0 (λ made. AreChairsOf made.0 made.1.items) }
    ensures some { IfOk result.0 (λ made. 0 < length made.1.items) }
{
    match Desk::open(rt, alloc, boards, 10, 2, 1) {
        Err(BookFault::OutOfMemory) => (
            Desk::open(rt, alloc, again, 10, 2, 1),
            Outcome::AnswerAgain,
        ),
        made => (made, Outcome::Answer),
    }
}

/// What comes of the list at a desk over these boards, each call of which is made again where its memory ran out.
fn outcome_at_desk<R: Wait>(
    rt: &R,
    alloc: Global,
    boards: Vec<Board>,
    again: Vec<Board>,
    claimed: &Claimed,
) -> Outcome {
    let (made, opening) = opened(rt, alloc, boards, again);
    let Ok((desk, mut chairs)) = made else {
        return Outcome::Wrong;
    };
    let asked = ask_from_first(rt, &desk, chairs.as_mut_slice(), claimed);
    outcome_of_closed(&desk.close(rt, chairs), opening.and(asked))
}

/// The outcome of the calls, where the closed history is right.
fn outcome_of_closed(closed: &Closed, asked: Outcome) -> Outcome {
    if is_closed(closed) {
        asked
    } else {
        Outcome::Wrong
    }
}

/// `Desk::open`, and its calls for the list, each of which is made again where its memory ran out.
pub fn desk<R: Wait>(rt: &R, alloc: Global, spending: Spending) -> Result<Told, AllocError> {
    let (boards, again) = (board(alloc)?, board(alloc)?);
    let claimed = ace_claim(alloc)?;
    spending.spend(alloc)?;
    let outcome = outcome_at_desk(rt, alloc, boards, again, &claimed);
    Ok(Told::Called(outcome, spending.left(alloc)))
}

/// `Desk::close`, after the list.
pub fn closed<R: Wait>(rt: &R, alloc: Global, spending: Spending) -> Result<Told, AllocError> {
    let boards = board(alloc)?;
    let claimed = ace_claim(alloc)?;
    let Ok((desk, mut chairs)) = Desk::open(rt, alloc, boards, 10, 2, 1) else {
        return Ok(Told::Before);
    };
    let asked = ask_from_first(rt, &desk, chairs.as_mut_slice(), &claimed);
    let is_spent = spending.spend(alloc).is_ok();
    let closed = desk.close(rt, chairs);
    let left = spending.left(alloc);
    Ok(if is_spent {
        Told::Called(outcome_of_closed(&closed, asked), left)
    } else {
        Told::Before
    })
}
