//! The structs of a call on a board.

/// A board in the middle of play. It has the shape of DDS's `deal`.
#[repr(C)]
#[derive(Clone, Copy)]
pub struct BoardDeal {
    /// The denomination: 0 to 3 for the suits, spades first, and 4 for no-trump.
    pub trump: i32,
    /// The seat that leads to the current trick, clockwise from North.
    pub first: i32,
    /// The suits of the cards played to the current trick, in order.
    pub current_trick_suit: [i32; 3],
    /// Their ranks, 2 to 14. 0 stands for no card.
    pub current_trick_rank: [i32; 3],
    /// The cards still in the hands, clockwise from North. Each has a word for spades, hearts, diamonds and clubs.
    pub remain_cards: [[u32; 4]; 4],
}

/// The cards that may be played next, with their tricks. It has the shape of DDS's `futureTricks`.
#[repr(C)]
#[derive(Clone, Copy)]
pub struct FutureTricks {
    /// Always 0. DDS counts nodes of its search here.
    pub nodes: i32,
    /// How many lines follow.
    pub cards: i32,
    /// By line, the suit of its card.
    pub suit: [i32; 13],
    /// By line, the rank of its card.
    pub rank: [i32; 13],
    /// By line, the lower cards of the group: bit 2 stands for the deuce.
    pub equals: [i32; 13],
    /// By line, the score.
    pub score: [i32; 13],
}

/// The question that a call asks of a board.
#[derive(Clone, Copy)]
pub struct Ask {
    /// The number of tricks that a card is to lead to, 0 for any, or -1 for the most.
    pub target: i32,
    /// 1 for one card, 2 for all that reach the target, 3 for all cards.
    pub solutions: i32,
    /// 0 to leave a forced card without its tricks. 1 and 2 are the same here.
    pub mode: i32,
}
