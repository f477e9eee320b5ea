//! What a call asks of the book.

ghost use Rattle.std.specs.Prelude.{◌≡◌, IfOk, OnErr};
ghost use Rattle.lease_book.specs.Books.{IsAnswered};
ghost use Rattle.lease_desk.specs.Askings.{asked_of};

use cards::OutOfMemory;
use checker::Verdict;
use lease_book::{Book, Entry, Reply};

/// What a call asks of the book.
#[derive(Drop)]
pub(crate) enum Asking {
    /// For a lease, at this moment.
    Lease {
        now: u64,
    },
    /// To free the leases whose deadline is at this moment or before it.
    Expire {
        now: u64,
    },
    /// To take a lease back.
    GiveUp {
        lease: u64,
    },
    /// To publish what the verdict has shown.
    HandIn {
        lease: u64,
        entry: Entry,
        verdict: Verdict,
    },
}

impl Asking {
    /// Asks the book.
    pub(crate) fn ask(self, book: &mut Book) -> Result<Reply, OutOfMemory>
        ensures ok { IfOk result (IsAnswered book.old book.new (asked_of self)) }
        ensures err { OnErr result (book.new ≡ book.old) }
    {
        match self {
            Asking::Lease { now } => book.lease(now),
            Asking::Expire { now } => book.expire(now),
            Asking::GiveUp { lease } => book.give_up(lease),
            Asking::HandIn {
                lease,
                entry,
                verdict,
            } => book.settle(lease, entry, verdict),
        }
    }
}
