//! One suit of a layout, as four words of bits.

ghost use Rattle.patterns.specs.Holdings.{TellHolders};

use cards::{Layout, Seat, Suit};

/// What North, East, South and West hold of the suit: bit r of a word is 1 where its seat holds the card with r
/// ranks below it.
pub(crate) fn holdings(layout: &Layout, suit: Suit) -> [u64; 4]
    ensures { TellHolders result layout.now suit }
{
    [
        u64::from(layout.holding(Seat::North, suit)),
        u64::from(layout.holding(Seat::East, suit)),
        u64::from(layout.holding(Seat::South, suit)),
        u64::from(layout.holding(Seat::West, suit)),
    ]
}
