//! Laws of the values of a play. Each is a function that does nothing: its contract is the law.

ghost use Rattle.play_values.specs.Laws.{CardCannotGain, HasOnePlayValue, FirstValueIsValue};

/// A card cannot gain. A card of declarer's side never raises declarer's number, and a card of the defenders never
/// lowers it.
pub fn a_card_cannot_gain()
    ensures { CardCannotGain }
{}

/// After a legal history a play has at most one value.
pub fn play_value_is_unique()
    ensures { HasOnePlayValue }
{}

/// Before the first card the value of a play is the double-dummy value of the contract.
pub fn first_value_is_value()
    ensures { FirstValueIsValue }
{}
