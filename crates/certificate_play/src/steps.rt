//! A trick that is played by a node of a certificate, card by card.

ghost use Rattle.std.specs.Prelude.{◌≡◌, ◌<◌, ◌∷◌, [], ◌++◌, Contains, length};
ghost use Rattle.cards.specs.declared.pack.Card.{Card};
ghost use Rattle.cards.specs.Seats.{seat_in_place};
ghost use Rattle.play_rules.specs.Legal.{CanPlay};
ghost use Rattle.strategies.specs.Strategies.{IsTurnOf};
ghost use Rattle.certificate_play.specs.OwnCards.{IsLastWith};
ghost use Rattle.certificate_play.specs.Steps.{opening_of, IsByNode, IsWayOf, IsChosen, IsKeptIn, promise_of};

use crate::branches::below_answer;
use crate::stand_ins::last_stood_for;
use crate::trick_ends::next_trick;
use arrayvec::ArrayVec;
use cards::{Card, Seat};
use certificate_graph::{Graph, Node, Place, PlaceView};
use pattern_step::{PatCard, pat_card_of};

/// A trick that is played by a node: the place of its tree, and what was played.
#[derive(Drop)]
pub(crate) struct Step<'a> {
    pub(crate) graph: &'a Graph,
    pub(crate) node: &'a Node,
    pub(crate) place: Place<'a>,
    /// Who held each card when the trick began, by the card's number.
    pub(crate) start: [Option<Seat>; 52],
    /// The cards of the trick so far.
    pub(crate) trick: ArrayVec<Card, 3>,
    /// The cards of the tree that led to the place.
    pub(crate) line: ArrayVec<PatCard, 3>,
}

impl<'a> Step<'a> {
    /// A trick before its first card.
    pub(crate) fn first(graph: &'a Graph, node: &'a Node, start: [Option<Seat>; 52]) -> Step<'a>
        ensures graph { result.graph.now ≡ graph.now }
        ensures node { result.node.now ≡ node.now }
        ensures place { result.place ≡ node.now.tree }
        ensures start { result.start ≡ start }
        ensures trick { result.trick.items ≡ [] }
        ensures line { result.line.items ≡ [] }
    {
        Step {
            graph,
            node,
            place: node.tree.root(),
            start,
            trick: ArrayVec::new(),
            line: ArrayVec::new(),
        }
    }
}

/// The seat whose turn it is.
fn player(step: &Step<'_>) -> Seat
    requires { length step.now.trick.items < 4 }
    ensures { result ≡ seat_in_place step.now.node.now.lead (length step.now.trick.items) }
{
    let lead = step.node.lead;
    match step.trick.len() {
        0 => lead,
        1 => lead.next(),
        2 => lead.next().next(),
        _ => lead.next().next().next(),
    }
}

/// The card that the side plays at its turn: the last legal card for which the tree's card stands.
pub(crate) fn own_card(step: &Step<'_>, legal: &[Card]) -> Card
    requires by_node { IsByNode step.now }
    requires turn { IsTurnOf (opening_of step.now) step.now.graph.now.side step.now.trick.items }
    requires all { (card : Card) → CanPlay (opening_of step.now) step.now.trick.items card → Contains legal.now card }
    ensures { IsLastWith (IsChosen step.now) legal.now result }
{
    let PlaceView::Own(pat_card, _) = step.place.view() else {
        unreachable!();
    };
    let Some(card) = last_stood_for(&step.start, &step.node.pattern, pat_card, legal) else {
        unreachable!();
    };
    card
}

/// These cards and one more.
fn with_card(cards: &ArrayVec<Card, 3>, card: Card) -> ArrayVec<Card, 3>
    requires { length cards.now.items < 3 }
    ensures { result.items ≡ cards.now.items ++ card ∷ [] }
{
    let mut more = cards.clone().unwrap();
    more.push(card);
    more
}

/// This line and one card more.
fn with_pat_card(line: &ArrayVec<PatCard, 3>, card: PatCard) -> ArrayVec<PatCard, 3>
    requires { length line.now.items < 3 }
    ensures { result.items ≡ line.now.items ++ card ∷ [] }
{
    let mut more = line.clone().unwrap();
    more.push(card);
    more
}

/// After a card that leads to this place by a card of the tree: the trick goes on there, or it is over and the next
/// one begins, if more is promised.
fn after<'a>(step: &Step<'a>, card: Card, taken: PatCard, place: Place<'a>) -> Option<Step<'a>>
    requires by_node { IsByNode step.now }
    requires way { IsWayOf step.now (step.now.trick.items ++ card ∷ []) (step.now.line.items ++ taken ∷ []) place }
    ensures { IsKeptIn (promise_of step.now (step.now.trick.items ++ card ∷ [])) result }
{
    if step.trick.len() == 3 {
        return next_trick(step, card, &place);
    }
    Some(Step {
        graph: step.graph,
        node: step.node,
        place,
        start: step.start,
        trick: with_card(&step.trick, card),
        line: with_pat_card(&step.line, taken),
    })
}

/// After the side's card.
pub(crate) fn after_own<'a>(step: &Step<'a>, card: Card) -> Option<Step<'a>>
    requires by_node { IsByNode step.now }
    requires can { CanPlay (opening_of step.now) step.now.trick.items card }
    requires chosen { IsChosen step.now card }
    ensures { IsKeptIn (promise_of step.now (step.now.trick.items ++ card ∷ [])) result }
{
    let PlaceView::Own(pat_card, below) = step.place.view() else {
        unreachable!();
    };
    after(step, card, pat_card, below)
}

/// After a card of the opponents.
pub(crate) fn after_reply<'a>(step: &Step<'a>, card: Card) -> Option<Step<'a>>
    requires by_node { IsByNode step.now }
    requires can { CanPlay (opening_of step.now) step.now.trick.items card }
    requires turn { IsTurnOf (opening_of step.now) step.now.graph.now.side step.now.trick.items → ⊥ }
    ensures { IsKeptIn (promise_of step.now (step.now.trick.items ++ card ∷ [])) result }
{
    let PlaceView::Reply(branches) = step.place.view() else {
        unreachable!();
    };
    let pattern = &step.node.pattern;
    let pat_card = pat_card_of(&step.start, pattern, card);
    let Some((taken, below)) = below_answer(pattern, player(step), &branches, pat_card) else {
        unreachable!();
    };
    after(step, card, taken, below)
}
