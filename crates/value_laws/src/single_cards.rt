//! Laws of the values of cards. Each is a function that does nothing: its contract is the law.

ghost use Rattle.value_laws.specs.CardLaws.{HasOneCardValue, BestCardIsValue, CardValueIsValueAfter};

/// A card that may be played has at most one value.
pub fn card_value_is_unique()
    ensures { HasOneCardValue }
{}

/// The value of the best card is the value after the cards played so far: the side to play takes as many tricks.
pub fn best_card_is_value()
    ensures { BestCardIsValue }
{}

/// The value of a card is the value after it if the same side is to play then, otherwise the number of other tricks.
pub fn card_value_is_value_after()
    ensures { CardValueIsValueAfter }
{}
