//! The check of one graph against its claim for a layout.

ghost use Rattle.std.specs.Prelude.{◌≡◌, MatchResult};
ghost use Rattle.std.specs.Option.{option_copied};
ghost use Rattle.checker.specs.Claims.{IsRootOf, Shows};
ghost use Rattle.checker.specs.EntryFaults.{IsRootFault, IsPartFault};
ghost use Rattle.checker.specs.Roots.{node_at};
ghost use Rattle.checker.specs.Witnesses.{seen_as};

use crate::entry_faults::PartFault;
use crate::witnesses::Witness;
use cards::{Layout, Seat, Side, Trump};
use certificate_graph::Node;

/// The claim that a graph has to show: the side wins `need` tricks of the layout, with this seat to lead.
#[derive(Drop)]
pub(crate) struct RootClaim<'a> {
    pub(crate) layout: &'a Layout,
    pub(crate) leader: Seat,
    pub(crate) trump: Trump,
    pub(crate) side: Side,
    pub(crate) need: u8,
}

/// Checks that the node claims this.
fn check_root(root: &Node, claim: &RootClaim<'_>) -> Result<(), PartFault>
    ensures { MatchResult result
        (λ _. IsRootOf root.now claim.now.layout.now claim.now.leader claim.now.need)
        (IsRootFault root.now claim.now.layout.now claim.now.leader claim.now.need) }
{
    if root.lead != claim.leader {
        return Err(PartFault::RootLead);
    }
    if root.need != claim.need {
        return Err(PartFault::RootNeed);
    }
    if !root.pattern.matches(claim.layout) {
        return Err(PartFault::RootPattern);
    }
    Ok(())
}

/// Returns the node with this number, if there is one.
fn node_at(nodes: &[Node], number: Option<u32>) -> Option<&Node>
    ensures { option_copied result ≡ node_at nodes.now number }
{
    nodes.get(number? as usize)
}

/// Checks that the graph shows its claim, and otherwise returns its first fault.
pub(crate) fn check_part(witness: &Witness<'_>, claim: &RootClaim<'_>) -> Result<(), PartFault>
    ensures { MatchResult result
        (λ _. Shows (seen_as witness.now) claim.now.layout.now claim.now.leader claim.now.trump claim.now.side
        claim.now.need)
        (IsPartFault (seen_as witness.now) claim.now.layout.now claim.now.leader claim.now.trump claim.now.side
        claim.now.need) }
{
    let graph = witness.graph();
    let number = witness.root();
    let root = node_at(graph.nodes(), number);
    if claim.need > 0 && root.is_none() {
        return Err(PartFault::RootMissing);
    }
    if claim.need == 0 && number.is_some() {
        return Err(PartFault::RootNeedless);
    }
    if graph.trump() != claim.trump {
        return Err(PartFault::RootTrump);
    }
    if graph.side() != claim.side {
        return Err(PartFault::RootSide);
    }
    let Some(root) = root else {
        return Ok(());
    };
    check_root(root, claim)?;
    witness.verdict().map_err(PartFault::Node)
}
