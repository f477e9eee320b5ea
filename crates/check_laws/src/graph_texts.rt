//! What holds of graphs and texts alone.

ghost use Rattle.check_laws.specs.TextLaws.{EachGraphHasOneText, NoTextHasTwoGraphs, GraphsAreReadBack};
ghost use Rattle.check_laws.specs.TextLaws.{EachTextHasOneAnswer};

/// Each graph has exactly one text.
pub fn one_text()
    ensures { EachGraphHasOneText }
{}

/// No text belongs to two graphs.
pub fn one_graph()
    ensures { NoTextHasTwoGraphs }
{}

/// What [`write`](certificate_graph::Graph::write) writes of a graph, [`read`](certificate_graph::Graph::read) reads as
/// that graph, unless memory runs out.
pub fn graphs_are_read_back()
    ensures { GraphsAreReadBack }
{}

/// Each text has exactly one answer: its graph, or its fault.
pub fn one_answer()
    ensures { EachTextHasOneAnswer }
{}
