//! A board of a PBN text.

ghost use Rattle.std.specs.Prelude.{◌≡◌};

use cards::Layout;
use std::marker::Model;

/// The name of a board: the bytes of a Board value as they were read. Contracts see it as the list of them.
#[derive(Drop, Debug)]
pub struct BoardName {
    bytes: Vec<u8>,
}

impl Model for BoardName {
    ghost use Rattle.std.specs.Prelude.{List, ℕ};

    ghost Value = { List ℕ };

    ghost view = { λ name. name.bytes.items };
}

impl BoardName {
    /// The name with these bytes. Takes no memory.
    pub fn new(bytes: Vec<u8>) -> BoardName
        ensures { result ≡ bytes.items }
    {
        BoardName { bytes }
    }

    /// The bytes of the name.
    pub fn as_bytes(&self) -> &[u8]
        ensures { result.now ≡ self.now }
    {
        self.bytes.as_slice()
    }

    /// The bytes of the name. Takes no memory.
    pub fn into_bytes(self) -> Vec<u8>
        ensures { result.items ≡ self }
    {
        let BoardName { bytes } = self;
        bytes
    }
}

/// A board of a PBN text: its name, and its layout where the text has the cards of all four hands.
#[derive(Drop, Debug)]
pub struct Board {
    /// The value of the game's first Board tag, or empty.
    pub name: BoardName,
    /// Who holds which card, 13 cards a hand.
    pub deal: Option<Layout>,
}
