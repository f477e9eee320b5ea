//! The faults of a call on a board.

ghost use Rattle.std.specs.Prelude.{◌≡◌};
ghost use Rattle.dds_calls.specs.Boards.{board_code};

use crate::codes::{
    CARD_COUNT, DUPLICATE_CARDS, FIRST_WRONG, MODE_WRONG_HI, MODE_WRONG_LO, PLAYED_CARD,
    SOLNS_WRONG_HI, SOLNS_WRONG_LO, SUIT_OR_RANK, TARGET_TOO_HIGH, TARGET_WRONG_HI,
    TARGET_WRONG_LO, TOO_MANY_CARDS, TRUMP_WRONG, UNKNOWN_FAULT, ZERO_CARDS,
};

/// Why a call shows no number. The first that applies counts.
#[derive(Clone, Copy)]
pub enum BoardFault {
    /// The target is below -1.
    TargetTooLow,
    /// The target is over 13.
    TargetTooHigh,
    /// The number of solutions is below 1.
    SolutionsTooFew,
    /// The number of solutions is over 3.
    SolutionsTooMany,
    /// The mode is below 0.
    ModeTooLow,
    /// The mode is over 2.
    ModeTooHigh,
    /// The number stands for no denomination.
    NoDenomination,
    /// The number stands for no seat.
    NoSeat,
    /// The numbers of the trick or a word of a hand stand for no cards.
    StrayNumber,
    /// There is no card.
    NoCards,
    /// There are over 52 cards.
    TooManyCards,
    /// Fewer tricks are left than the target.
    TargetTooFar,
    /// The hands had different sizes when the trick began.
    Unequal,
    /// A card of the trick is still in a hand.
    PlayedAndHeld,
    /// A card is in two hands.
    CardTwice,
    /// A card of the trick is missing, or may not have been played.
    NoPosition,
    /// Steps or memory ran out.
    Unknown,
}

impl BoardFault {
    /// Returns DDS's code for it.
    pub(crate) fn code(self) -> i32
        ensures { result ≡ board_code self }
    {
        match self {
            BoardFault::TargetTooLow => TARGET_WRONG_LO,
            BoardFault::TargetTooHigh => TARGET_WRONG_HI,
            BoardFault::SolutionsTooFew => SOLNS_WRONG_LO,
            BoardFault::SolutionsTooMany => SOLNS_WRONG_HI,
            BoardFault::ModeTooLow => MODE_WRONG_LO,
            BoardFault::ModeTooHigh => MODE_WRONG_HI,
            BoardFault::NoDenomination => TRUMP_WRONG,
            BoardFault::NoSeat => FIRST_WRONG,
            BoardFault::StrayNumber => SUIT_OR_RANK,
            BoardFault::NoCards => ZERO_CARDS,
            BoardFault::TooManyCards => TOO_MANY_CARDS,
            BoardFault::TargetTooFar => TARGET_TOO_HIGH,
            BoardFault::Unequal => CARD_COUNT,
            BoardFault::PlayedAndHeld => PLAYED_CARD,
            BoardFault::CardTwice => DUPLICATE_CARDS,
            BoardFault::NoPosition => SUIT_OR_RANK,
            BoardFault::Unknown => UNKNOWN_FAULT,
        }
    }
}
