//! The codes by which DDS says how a call ended.

/// All numbers were shown.
pub(crate) const NO_FAULT: i32 = 1;
/// Steps or memory ran out.
pub(crate) const UNKNOWN_FAULT: i32 = -1;
/// There is no card.
pub(crate) const ZERO_CARDS: i32 = -2;
/// Fewer tricks are left than the target.
pub(crate) const TARGET_TOO_HIGH: i32 = -3;
/// A card is in two hands.
pub(crate) const DUPLICATE_CARDS: i32 = -4;
/// The target is below -1.
pub(crate) const TARGET_WRONG_LO: i32 = -5;
/// The target is over 13.
pub(crate) const TARGET_WRONG_HI: i32 = -7;
/// The number of solutions is below 1.
pub(crate) const SOLNS_WRONG_LO: i32 = -8;
/// The number of solutions is over 3.
pub(crate) const SOLNS_WRONG_HI: i32 = -9;
/// The hands have over 52 cards.
pub(crate) const TOO_MANY_CARDS: i32 = -10;
/// A word of a hand's suit stands for no cards.
pub(crate) const SUIT_OR_RANK: i32 = -12;
/// A card of the current trick is still in a hand.
pub(crate) const PLAYED_CARD: i32 = -13;
/// The hands are of different sizes.
pub(crate) const CARD_COUNT: i32 = -14;
/// The mode is below 0.
pub(crate) const MODE_WRONG_LO: i32 = -16;
/// The mode is over 2.
pub(crate) const MODE_WRONG_HI: i32 = -17;
/// The number stands for no denomination.
pub(crate) const TRUMP_WRONG: i32 = -18;
/// The number stands for no seat.
pub(crate) const FIRST_WRONG: i32 = -19;
/// The trace has a card that may not be played there.
pub(crate) const PLAY_FAULT: i32 = -98;
/// The text has another form.
pub(crate) const PBN_FAULT: i32 = -99;

/// The most steps of a search. A search of DDS has no bound.
pub(crate) const STEPS: u64 = 1_000_000_000;
