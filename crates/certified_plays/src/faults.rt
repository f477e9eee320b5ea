//! The entries of a play's values, and why certificates don't show one.

use card_values::AfterFault;

/// Why claims don't show what a play is worth after some of its cards.
#[derive(Clone, Copy, Debug, PartialEq, Eq)]
pub enum ValueFault {
    /// Nothing is claimed.
    ClaimMissing,
    /// The claim has more tricks than a hand has cards.
    TricksTooLarge,
    /// North and South are not shown to win their tricks.
    NorthSouth(AfterFault),
    /// East and West are not shown to win the others.
    EastWest(AfterFault),
}

/// What a play is worth after some of its cards, or why it isn't shown.
#[derive(Clone, Copy, Debug, PartialEq, Eq)]
pub enum PlayEntry {
    /// The tricks that declarer's side takes in all.
    Known(u8),
    /// They aren't shown.
    Unknown(ValueFault),
}

impl Default for PlayEntry {
    fn default() -> PlayEntry {
        PlayEntry::Unknown(ValueFault::ClaimMissing)
    }
}
