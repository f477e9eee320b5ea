//! What a book is asked, and what it replies.

ghost use Rattle.std.specs.Prelude.{◌≡◌, ◌+◌, ◌<◌, ◌≤◌, ◌++◌, ◌∷◌, [], OnOk, vec_len, vec_capacity};

use crate::entries::Entry;
use cards::OutOfMemory;
use checker::{HandFault, Shown};

/// A lease that was given.
#[derive(Clone, Copy, Debug, PartialEq)]
pub struct Grant {
    /// Its number, from 1, in the order in which leases are given.
    pub lease: u64,
    /// The entry that it is for.
    pub entry: Entry,
    /// The moment from which on it can be expired, in the unit of the book's moments.
    pub deadline: u64,
}

/// What was handed in.
#[derive(Clone, Copy, Debug, PartialEq)]
pub enum HandedIn {
    /// It shows this: a layout, a declarer, a denomination and the tricks of declarer's side.
    Shows(Shown),
    /// It shows nothing, for this fault.
    Faulty(HandFault),
}

/// What a book is asked. Moments are numbers that the caller tells, in a unit of its own.
#[derive(Clone, Copy, Debug, PartialEq)]
pub enum Asked {
    /// For a lease, at this moment.
    Lease {
        /// In the unit of the book's moments.
        now: u64,
    },
    /// To free the leases whose deadline is at this moment or before it.
    Expire {
        /// In the unit of the book's moments.
        now: u64,
    },
    /// To take a lease back.
    GiveUp {
        /// The lease's number.
        lease: u64,
    },
    /// To publish what was shown.
    HandIn {
        /// The number of the lease under which it was worked out.
        lease: u64,
        /// The entry that it is meant for.
        entry: Entry,
        /// What was handed in.
        evidence: HandedIn,
    },
}

/// What a book replies. Every refusal but `BadCertificate` leaves leases and publications as they were.
#[derive(Clone, Copy, Debug, PartialEq)]
pub enum Reply {
    /// A lease was given.
    Given {
        /// Its number, from 1, in the order in which leases are given.
        lease: u64,
        /// The entry that it is for.
        entry: Entry,
        /// The moment from which on it can be expired.
        deadline: u64,
    },
    /// No entry is open.
    Nothing,
    /// So many leases were freed.
    Freed(u64),
    /// The lease was taken back.
    GaveUp,
    /// No lease of this number was given.
    UnknownLease,
    /// The lease was freed before.
    NotHeld,
    /// The lease is for another entry, or what was shown is of another layout, declarer or denomination.
    OtherEntry,
    /// The entry or a twin of it has a number already.
    AlreadyPublished,
    /// Nothing was shown. The lease is freed if it was held.
    BadCertificate(HandFault),
    /// The entry and its twins have this number of tricks from now on, 0 to 13.
    Published(u8),
}

/// A request with its reply. It is plain data.
#[derive(Clone, Copy, Debug, PartialEq)]
pub struct Event {
    /// What was asked.
    pub asked: Asked,
    /// What was replied.
    pub reply: Reply,
}

/// Makes room for an event.
pub(crate) fn make_room(events: &mut Vec<Event>) -> Result<(), OutOfMemory>
    ensures events { events.new.items ≡ events.old.items }
    ensures room { OnOk result (vec_len events.new < vec_capacity events.new) }
{
    if events.reserve(1).is_err() {
        return Err(OutOfMemory);
    }
    Ok(())
}

/// Adds an event, for which there is room, and gives its reply back.
pub(crate) fn add(events: &mut Vec<Event>, asked: Asked, reply: Reply) -> Reply
    requires { vec_len events.old < vec_capacity events.old }
    ensures events { events.new.items ≡ events.old.items ++ record { asked = asked; reply = reply } ∷ [] }
    ensures reply { result ≡ reply }
{
    let _added = events.extend_from_slice(&[Event { asked, reply }]);
    reply
}
