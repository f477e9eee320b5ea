//! What holds of the rules alone.

ghost use Rattle.pbn_deals.specs.Printable.{BoardsArePrintable};

/// The boards of a text can stand in tags again: they are at most 4,096, each has no deal or one of 13 cards a hand,
/// and each name is one that a Board tag can hold (no line feed, no quote, no `#` at its beginning).
pub fn boards_are_printable()
    ensures { BoardsArePrintable }
{}
