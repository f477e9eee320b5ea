//! The laws of patterns and of the deals that match them. Each is a function that does nothing: its contract is the
//! law.

ghost use Rattle.check_laws.specs.PatternLaws.{EachCardIsOne, EachPatCardIsSome, TopsRankAbove};
ghost use Rattle.check_laws.specs.PatternLaws.{WhatIsLeftMatches, StandsForItsSuit, LengthsAreHeld, HandsAreAsLarge};
ghost use Rattle.check_laws.specs.PatternLaws.{CoveredHandsAreAsLarge, OneIsLeft, EachHandHasOneLess};

/// Each card of a matching deal is exactly one pattern card, and the seat that holds it has that one.
pub fn each_card_is_one()
    ensures { EachCardIsOne }
{}

/// Each pattern card of a seat stands for at least one card that the seat holds, in every matching deal.
pub fn each_pat_card_is_some()
    ensures { EachPatCardIsSome }
{}

/// Among the cards of one suit a top ranks above every card of a greater place and above every low card.
pub fn tops_rank_above()
    ensures { TopsRankAbove }
{}

/// When each seat has played a card that it holds, the deal that is left matches every pattern that covers what is
/// left of the pattern cards that stood for them. The four cards are those that were played clockwise from the leader.
pub fn what_is_left_matches()
    ensures { WhatIsLeftMatches }
{}

/// What a pattern card stands for is of its suit.
pub fn stands_for_its_suit()
    ensures { StandsForItsSuit }
{}

/// In a matching deal a seat holds a card of a suit exactly where its length there is above 0.
pub fn lengths_are_held()
    ensures { LengthsAreHeld }
{}

/// A hand of a pattern has as many cards as it has in a matching deal.
pub fn hands_are_as_large()
    ensures { HandsAreAsLarge }
{}

/// A hand of a pattern has as many cards as it has in a rest that the pattern covers.
pub fn covered_hands_are_as_large()
    ensures { CoveredHandsAreAsLarge }
{}

/// Four cards leave no two rests.
pub fn one_is_left()
    ensures { OneIsLeft }
{}

/// Four cards that are legal in turn leave each hand of a pattern one card less.
pub fn each_hand_has_one_less()
    ensures { EachHandHasOneLess }
{}
