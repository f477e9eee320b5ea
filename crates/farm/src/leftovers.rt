//! Leases that a round left behind: nobody settled them, and nobody works on them any more.

ghost use Rattle.std.specs.Prelude.{◌≡◌, ◌<◌, ◌*◌, length, OnOk};
ghost use Rattle.lease_book.specs.Settling.{settles, is_settled};
ghost use Rattle.farm.specs.Rounds.{TakesBack};

use cards::OutOfMemory;
use lease_book::{Asked, Book, Event};

/// Returns whether an event gives the lease up, or hands something in under it.
fn settles(event: &Event, lease: u64) -> bool
    ensures { result ≡ settles lease event.now.asked }
{
    match event.asked {
        Asked::GiveUp { lease: other } => other == lease,
        Asked::HandIn { lease: other, .. } => other == lease,
        _ => false,
    }
}

/// Returns whether one of the events settles the lease.
fn is_settled(events: &[Event], lease: u64) -> bool
    ensures { result ≡ is_settled lease events.now }
{
    events.iter().any(|event| settles(event, lease))
}

/// Gives up the lease that is held for the entry in this place, unless it was settled.
fn take_back(book: &mut Book, place: usize) -> Result<(), OutOfMemory>
    requires { place < 20 * length book.old.terms.boards }
    ensures { OnOk result (TakesBack book.old book.new) }
{
    let Some(lease) = book.holder(place) else {
        return Ok(());
    };
    if is_settled(book.history(), lease) {
        return Ok(());
    }
    book.give_up(lease)?;
    Ok(())
}

/// Gives up each lease that is held and was not settled.
pub(crate) fn take_back_all(book: &mut Book) -> Result<(), OutOfMemory>
    ensures { OnOk result (TakesBack book.old book.new) }
{
    for place in 0..book.entries() {
        take_back(book, place)?;
    }
    Ok(())
}
