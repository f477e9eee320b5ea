//! The laws of "can win". Each is a function that does nothing: its contract is the law.

ghost use Rattle.strategies.specs.Laws.{WinsByOwnCard, WinsAgainstEachCard, WinsTheRest, WinsNothing};
ghost use Rattle.strategies.specs.Laws.{WinsWhatIsWon, WinsFewer, ShareTheTricks, WinNoMoreThanAll};

/// At its own turn a side can win k tricks exactly if it can after some legal card.
pub fn wins_by_own_card()
    ensures { WinsByOwnCard }
{}

/// At a turn of the opponents a side can win k tricks exactly if it can after each legal card.
pub fn wins_against_each_card()
    ensures { WinsAgainstEachCard }
{}

/// After whole tricks, with cards left, a side can win k tricks exactly if it can win the tricks that it lacks from the
/// layout that is left, with the last winner to lead.
pub fn wins_the_rest()
    ensures { WinsTheRest }
{}

/// From every layout each side can win 0 tricks: a lawful strategy always exists.
pub fn each_side_wins_nothing()
    ensures { WinsNothing }
{}

/// After every legal history a side can win the tricks that it has won already.
pub fn wins_what_is_won()
    ensures { WinsWhatIsWon }
{}

/// A side that can win k tricks can win fewer.
pub fn wins_fewer()
    ensures { WinsFewer }
{}

/// In a play the tricks of the two sides add up to the cards of a hand.
pub fn tricks_are_shared()
    ensures { ShareTheTricks }
{}

/// The two sides together can win no more tricks than there are.
pub fn sides_win_no_more_than_all()
    ensures { WinNoMoreThanAll }
{}
