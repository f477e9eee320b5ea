//! The laws of steps and faults. Each is a function that does nothing: its contract is the law.

ghost use Rattle.check_laws.specs.Laws.{HasNoFaultWhereStepsHold, HasOneFirstFault, HasOneGraphFault};
ghost use Rattle.check_laws.specs.Laws.{HasOneVerdict, PlacesAreOnLines, LinesLeadToPlaces};
ghost use Rattle.check_laws.specs.Laws.{ExtractsHold, HoldAsTwo};
ghost use Rattle.check_laws.specs.Begun.{HasNoFaultWhereRight, HasOneBegunFault};

/// A graph has no fault exactly if all its steps hold.
pub fn no_fault_where_steps_hold()
    ensures { HasNoFaultWhereStepsHold }
{}

/// A place of a tree has at most one first fault.
pub fn place_has_one_first_fault()
    ensures { HasOneFirstFault }
{}

/// A graph has at most one first fault.
pub fn graph_has_one_first_fault()
    ensures { HasOneGraphFault }
{}

/// Two texts have at most one verdict.
pub fn texts_have_one_verdict()
    ensures { HasOneVerdict }
{}

/// If a step holds, the cards that lead to a place of its tree are legal in turn: its places are the beginnings of
/// lines.
pub fn places_are_on_lines()
    ensures { PlacesAreOnLines }
{}

/// If a step holds, each beginning of a line in which the side plays the cards of the tree leads to a place of the
/// tree. In version 2 the line has to go through branches, since legal cards of the opponents may have none.
pub fn lines_lead_to_places()
    ensures { LinesLeadToPlaces }
{}

/// If the steps of a graph hold, so do the steps of the graph that
/// [`Graph::extract`](certificate_graph::Graph::extract) makes of it.
pub fn extracts_hold()
    ensures { ExtractsHold }
{}

/// If the steps of a graph of version 1 hold, so do the steps of the same graph in version 2.
pub fn steps_hold_as_version_two()
    ensures { HoldAsTwo }
{}

/// A begun node is right exactly if it has no fault.
pub fn no_fault_where_begun_is_right()
    ensures { HasNoFaultWhereRight }
{}

/// A begun node has at most one first fault.
pub fn begun_node_has_one_first_fault()
    ensures { HasOneBegunFault }
{}
