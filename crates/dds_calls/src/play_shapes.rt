//! The structs of a call on a play.

/// Cards that were played from a board on, in order. It has the shape of DDS's `playTraceBin`.
#[repr(C)]
#[derive(Clone, Copy)]
pub struct PlayTrace {
    /// How many cards were played since the current trick began, those that the board gives among them.
    pub number: i32,
    /// The suits of the cards after those that the board gives, in order: 0 for spades.
    pub suit: [i32; 52],
    /// Their ranks, 2 to 14.
    pub rank: [i32; 52],
}

/// What a play is worth. It has the shape of DDS's `solvedPlay`.
#[repr(C)]
#[derive(Clone, Copy)]
pub struct SolvedPlay {
    /// How many numbers follow.
    pub number: i32,
    /// The tricks of declarer's side before the first card of the trace and after each that counts.
    pub tricks: [i32; 53],
}
