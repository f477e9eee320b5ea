//! Double-dummy values after some cards. Each law is a function that does nothing: its contract is the law.

ghost use Rattle.play_values.specs.Rests.{WinsTheRestAfter};
ghost use Rattle.value_laws.specs.ValuesAfter.{HasOneValueAfter, ValueIsValueAfter, ValueCountsTricksWon};
ghost use Rattle.value_laws.specs.ValuesAfter.{PlayValueIsValueAfter};

/// After a legal history there is at most one value.
pub fn value_after_is_unique()
    ensures { HasOneValueAfter }
{}

/// Before the first card the value of a contract and the value after no cards add up to the cards of a hand.
pub fn value_is_value_after()
    ensures { ValueIsValueAfter }
{}

/// After whole tricks and some more cards, a side can win k tricks exactly if it can win the tricks that it had not won
/// before these cards, in play of the layout that was left then.
pub fn wins_the_rest_after()
    ensures { WinsTheRestAfter }
{}

/// After whole tricks and some more cards, the value is the value after these cards in play of the layout that was
/// left, and the tricks that the side to play had won before.
pub fn value_counts_tricks_won()
    ensures { ValueCountsTricksWon }
{}

/// The value of a recorded play is the value after its cards if declarer's side is to play then, otherwise that is the
/// number of the other tricks.
pub fn play_value_is_value_after()
    ensures { PlayValueIsValueAfter }
{}
