//! Laws of the definitions. Each is a function that does nothing: its contract is the law.

ghost use Rattle.cards.specs.Orders.{SaysSame};
ghost use Rattle.play_rules.specs.Laws.{WinsByHighestCard, LeavesTheUnplayed};

use crate::faults::PlayFault;

/// The winner of a trick plays the highest card of the suit that decides it: trump if one was played, otherwise the
/// suit led.
pub fn wins_by_highest_card()
    ensures { WinsByHighestCard }
{}

/// When the cards of a history are taken out of a deal, nobody holds any of them, and each other card has its holder.
pub fn leaves_the_unplayed()
    ensures { LeavesTheUnplayed }
{}

/// `==` of two refusals says whether they are the same.
pub fn equal_faults_are_one()
    ensures { SaysSame ⟦<PlayFault as PartialEq>⟧.eq }
{}
