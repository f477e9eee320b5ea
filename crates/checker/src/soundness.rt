//! The worth of certificates in play. Each law is a function that does nothing: its contract is the law.

ghost use Rattle.checker.specs.Soundness.{OneStepIsSound, GraphsAreSound, EntriesAreSound};
ghost use Rattle.checker.specs.Begun.{BegunStepsShow};

/// One trick. Take a node whose step holds. If each node that its leaves name keeps its claim, this node keeps its
/// claim too: from every layout that matches its pattern, with its seat to lead, the side wins the tricks that it
/// needs.
pub fn one_step_is_sound()
    ensures { OneStepIsSound }
{}

/// All tricks. If the steps of a graph hold, as [`crate::check_graph`] says, each of its nodes keeps its claim. Each
/// trick leaves one card fewer in each hand, so a circle of nodes shows nothing.
pub fn graphs_are_sound()
    ensures { GraphsAreSound }
{}

/// Both sides. The tricks that two graphs show for a contract on a layout, as [`crate::check_entry`] says, are its
/// double-dummy value: declarer's side has a strategy that wins them against every defence, and the defenders have one
/// that wins the others against every play.
pub fn entries_are_sound()
    ensures { EntriesAreSound }
{}

/// The middle of a trick. Take a graph whose steps hold and a begun node that is right beside it, as
/// [`crate::check_begun`] says. In every layout that matches its pattern, after every legal history for whose cards its
/// cards stand, the side wins the tricks that the node needs.
pub fn begun_steps_show()
    ensures { BegunStepsShow }
{}
