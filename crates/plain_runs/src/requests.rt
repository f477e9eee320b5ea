//! Requests whose hand-ins bring their texts.

ghost use Rattle.std.specs.Prelude.{◌≡◌};

use lease_book::Entry;
use std::marker::Model;

/// What is handed in as the text of a graph: any bytes. Contracts see it as the list of them.
#[derive(Drop, Debug)]
pub struct GraphText {
    bytes: Vec<u8>,
}

impl Model for GraphText {
    ghost use Rattle.std.specs.Prelude.{List, ℕ};

    ghost Value = { List ℕ };

    ghost view = { λ text. text.bytes.items };
}

impl GraphText {
    /// The text of these bytes. Takes no memory.
    pub fn new(bytes: Vec<u8>) -> GraphText
        ensures { result ≡ bytes.items }
    {
        GraphText { bytes }
    }

    /// The bytes of the text.
    pub fn as_bytes(&self) -> &[u8]
        ensures { result.now ≡ self.now }
    {
        self.bytes.as_slice()
    }

    /// The bytes of the text. Takes no memory.
    pub fn into_bytes(self) -> Vec<u8>
        ensures { result.items ≡ self }
    {
        let GraphText { bytes } = self;
        bytes
    }
}

/// A request to a book, in its moments. What is handed in is not judged yet.
#[derive(Drop, Debug)]
pub enum Request {
    /// For a lease, at this moment.
    Lease {
        /// In the unit of the book's moments.
        now: u64,
    },
    /// To free the leases whose deadline is at this moment or before it.
    Expire {
        /// In the unit of the book's moments.
        now: u64,
    },
    /// To take a lease back.
    GiveUp {
        /// The lease's number.
        lease: u64,
    },
    /// To publish a number, which two texts are to show.
    HandIn {
        /// The number of the lease under which it was worked out.
        lease: u64,
        /// The entry that it is meant for.
        entry: Entry,
        /// The tricks of declarer's side, of any size until they are judged.
        k: u8,
        /// The text of the graph for declarer's side.
        declarer: GraphText,
        /// The text of the graph for the defenders.
        defenders: GraphText,
    },
}
