//! The end of a trick: the seats that may have won it, and the nodes that go on.

ghost use Rattle.std.specs.Prelude.{◌≡◌, ◌<◌, ◌≤◌, ◌≢◌, ◌↔◌, ◌^◌, IsTrue, MatchResult, All, List, length, [], ◌∷◌};
ghost use Rattle.std.specs.Int.{bit_at};
ghost use Rattle.cards.specs.declared.seats.Seat.{Seat};
ghost use Rattle.cards.specs.Seats.{seat_number};
ghost use Rattle.patterns.specs.Shapes.{Covers};
ghost use Rattle.pattern_step.specs.SeatSets.{is_in};
ghost use Rattle.pattern_step.specs.declared.pat_cards.PatCard.{PatCard};
ghost use Rattle.pattern_step.specs.Tricks.{AreLegalInTurn, IsLeft};
ghost use Rattle.checker.specs.Steps.{need_after, IsListed, ListsWinners, rest_read, IsRightChild, IsRightLeaf};
ghost use Rattle.checker.specs.Steps.{BeginLine};
ghost use Rattle.checker.specs.Faults.{IsChildrenFault, IsLeafFault};

use crate::faults::StepFault;
use crate::played::Played;
use cards::{Seat, Side};
use certificate_graph::{Child, Children, Graph, Node, Version};
use pattern_step::{PatCard, SeatSet, rest, winners};
use patterns::{Pattern, Rest};

/// Returns how many tricks are still needed if this seat has won the trick.
fn need_after(side: Side, need: u8, winner: Seat) -> u8
    ensures { result ≡ need_after side need winner }
{
    if winner.side() == side {
        need.saturating_sub(1)
    } else {
        need
    }
}

/// Returns the seats that are listed, one bit each, North's the lowest.
fn seats_listed(children: &Children<'_>) -> u8
    ensures below { result < 2 ^ 4 }
    ensures bits { (seat : Seat) → (bit_at result (seat_number seat) ≡ 1) ↔ IsListed children.now seat }
{
    let mut seats = 0;
    let mut next = children.split_first();
    while let Some((child, rest)) = next {
        seats |= 1 << child.winner.number();
        next = rest.split_first();
    }
    seats
}

/// Returns whether the seat is one of the winners, and a trick is still needed if it has won.
fn goes_on(side: Side, need: u8, winners: SeatSet, seat: Seat) -> bool
    ensures { IsTrue result ↔ (IsTrue (is_in winners seat) × (0 < need_after side need seat)) }
{
    winners.contains(seat) && need_after(side, need, seat) > 0
}

/// Returns the winners for which a node has to go on, one bit each, North's the lowest.
fn seats_going_on(side: Side, need: u8, winners: SeatSet) -> u8
    ensures below { result < 2 ^ 4 }
    ensures bits { (seat : Seat) → (bit_at result (seat_number seat) ≡ 1)
        ↔ (IsTrue (is_in winners seat) × (0 < need_after side need seat)) }
{
    u8::from(goes_on(side, need, winners, Seat::North))
        + (u8::from(goes_on(side, need, winners, Seat::East)) << 1)
        + (u8::from(goes_on(side, need, winners, Seat::South)) << 2)
        + (u8::from(goes_on(side, need, winners, Seat::West)) << 3)
}

/// Returns whether the listed seats are those that may win and leave tricks needed.
fn lists_winners(graph: &Graph, node: &Node, trick: &[PatCard; 4], children: &Children<'_>) -> bool
    ensures { IsTrue result ↔ ListsWinners graph.now node.now trick.now children.now }
{
    let winners = winners(&node.pattern, graph.trump(), node.lead, trick);
    seats_listed(children) == seats_going_on(graph.side(), node.need, winners)
}

/// Returns whether the pattern covers the rest, as the version reads it. A pattern that covers a rest covers it
/// completed too, so the rest is completed only for the other patterns.
fn covers(version: Version, pattern: &Pattern, left: &Rest) -> bool
    ensures { IsTrue result ↔ Covers pattern.now (rest_read version left.now) }
{
    if pattern.covers(left) {
        return true;
    }
    match version {
        Version::One => false,
        Version::Two => pattern.covers(&left.completed()),
    }
}

/// Checks that the named node goes on from the rest that four cards leave.
fn check_child(graph: &Graph, node: &Node, left: &Rest, child: Child) -> Result<(), StepFault>
    requires named { child.number < length graph.now.nodes }
    ensures { (trick : List PatCard) → IsLeft node.now.pattern node.now.lead trick left.now → MatchResult result
        (λ _. IsRightChild graph.now node.now trick child)
        (IsChildrenFault graph.now node.now trick (child ∷ [])) }
{
    let next = &graph.nodes()[child.number as usize];
    if next.lead != child.winner {
        return Err(StepFault::ChildLead);
    }
    if next.need < need_after(graph.side(), node.need, child.winner) {
        return Err(StepFault::ChildNeed);
    }
    if !covers(graph.version(), &next.pattern, left) {
        return Err(StepFault::ChildPattern);
    }
    Ok(())
}

/// Checks the children, one after another.
fn check_children(
    graph: &Graph,
    node: &Node,
    trick: &[PatCard; 4],
    children: &Children<'_>,
) -> Result<(), StepFault>
    requires legal { AreLegalInTurn node.now.pattern node.now.lead trick.now }
    requires named { All (λ child. child.number < length graph.now.nodes) children.now }
    ensures { MatchResult result
        (λ _. All (IsRightChild graph.now node.now trick.now) children.now)
        (IsChildrenFault graph.now node.now trick.now children.now) }
{
    let left = rest(&node.pattern, node.lead, trick);
    let mut next = children.split_first();
    while let Some((child, others)) = next {
        check_child(graph, node, &left, child)?;
        next = others.split_first();
    }
    Ok(())
}

/// Checks that the trick ends here, and that the children are right.
pub(crate) fn check_leaf(
    graph: &Graph,
    node: &Node,
    played: &Played,
    children: &Children<'_>,
) -> Result<(), StepFault>
    requires begun { BeginLine node.now played.now }
    requires named { All (λ child. child.number < length graph.now.nodes) children.now }
    ensures { MatchResult result
        (λ _. IsRightLeaf graph.now node.now played.now children.now)
        (IsLeafFault graph.now node.now played.now children.now) }
{
    let Some(trick) = played.whole() else {
        return Err(StepFault::TreeShape);
    };
    if !lists_winners(graph, node, &trick, children) {
        return Err(StepFault::LeafWinners);
    }
    check_children(graph, node, &trick, children)
}
