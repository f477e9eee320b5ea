//! A side that plays by its certificate.

ghost use Rattle.std.specs.Prelude.{◌≡◌, [], OnErr, OnOk, MatchBool, Contains};
ghost use Rattle.cards.specs.Deal.{holder_of};
ghost use Rattle.play_rules.specs.History.{trick_of};
ghost use Rattle.play_rules.specs.Left.{left_of};
ghost use Rattle.play_rules.specs.Legal.{CanPlay};
ghost use Rattle.play_rules.specs.Position.{AreLegalCards, IsReached, turn_of};
ghost use Rattle.play_rules.specs.Plays.{PlaysOrRefuses};
ghost use Rattle.checker.specs.Claims.{Shows};
ghost use Rattle.checker.specs.Roots.{from_first};
ghost use Rattle.certificate_play.specs.Promises.{after_card, won_by, IsKept, IsSidesTurn, GoesOn};
ghost use Rattle.certificate_play.specs.OwnCards.{IsOwnCard, IsAnswer};
ghost use Rattle.certificate_play.specs.Steps.{IsKeptIn};

use crate::copies::copy;
use crate::stand_ins::last_card;
use crate::steps::{Step, after_own, after_reply, own_card};
use arrayvec::ArrayVec;
use cards::{Card, Layout, Seat, Side};
use certificate_graph::Graph;
use play_rules::{PlayFault, Table, holders};
use std::alloc::AllocError;
use std::marker::Model;

/// The play of a layout in which one side follows its certificate, whatever the other plays. To contracts it is what
/// was played so far, and what the side has promised: the tricks that its certificate shows. The history is always
/// legal, and when it is whole the promise is kept ([`Playing::invariant`]).
#[derive(Drop)]
pub struct Playing<'a> {
    layout: Layout,
    table: Table,
    side: Side,
    promised: u8,
    /// What was played, as the table has it.
    history: ArrayVec<Card, 52>,
    /// The trick, and the node by which it is played. None when the side has won what it promised: it plays then as it
    /// likes.
    step: Option<Step<'a>>,
}

impl<'a> Model for Playing<'a> {
    ghost use Rattle.certificate_play.specs.Promises.{Promise};
    ghost use Rattle.certificate_play.specs.Steps.{IsOnCourse};

    ghost Value = { Promise };

    ghost view = { λ p. record { position = p.table; side = p.side; tricks = p.promised } };

    ghost invariant = { λ p. IsOnCourse
        (record { position = p.table; side = p.side; tricks = p.promised }) p.layout p.history.items p.step };
}

impl<'a> Playing<'a> {
    /// Before the opening lead, where the graph shows from its node 0 that its side wins so many tricks of the layout,
    /// as [`checker::check_entry`] says of both graphs.
    pub fn begin(graph: &'a Graph, layout: Layout, leader: Seat, promised: u8) -> Playing<'a>
        requires { Shows (from_first graph.now) layout leader graph.now.trump graph.now.side promised }
        ensures opening { result.position.opening
            ≡ record { deal = layout; leader = leader; trump = graph.now.trump } }
        ensures history { result.position.history ≡ [] }
        ensures side { result.side ≡ graph.now.side }
        ensures tricks { result.tricks ≡ promised }
    {
        let root = if graph.nodes().is_empty() {
            None
        } else {
            Some(0)
        };
        Playing::begin_at(graph, root, layout, leader, promised)
    }

    /// The same from the node of this number, as [`checker::check_claim`] says of the roots of both graphs.
    pub fn begin_at(
        graph: &'a Graph,
        root: Option<u32>,
        layout: Layout,
        leader: Seat,
        promised: u8,
    ) -> Playing<'a>
        requires { Shows (record { graph = graph.now; root = root }) layout leader graph.now.trump graph.now.side
            promised }
        ensures opening { result.position.opening
            ≡ record { deal = layout; leader = leader; trump = graph.now.trump } }
        ensures history { result.position.history ≡ [] }
        ensures side { result.side ≡ graph.now.side }
        ensures tricks { result.tricks ≡ promised }
    {
        graph.invariant();
        layout.invariant();
        let step = match root {
            None => None,
            Some(number) => {
                let node = &graph.nodes()[number as usize];
                Some(Step::first(graph, node, holders(&layout)))
            }
        };
        Playing {
            layout,
            table: Table::new(layout, leader, graph.trump()),
            side: graph.side(),
            promised,
            history: ArrayVec::new(),
            step,
        }
    }

    /// What holds of every play: it is legal, and when all cards are played the side has what it promised.
    pub fn invariant(&self)
        ensures reached { IsReached self.now.position }
        ensures kept { IsKept self.now }
    {
        let _ = &self.table;
    }

    /// The side that plays by its certificate.
    pub fn side(&self) -> Side
        ensures { result ≡ self.now.side }
    {
        self.side
    }

    /// How many tricks it promised.
    pub fn promised(&self) -> u8
        ensures { result ≡ self.now.tricks }
    {
        self.promised
    }

    /// How many tricks it has won so far: what it promised, at least, when all cards are played.
    pub fn won(&self) -> u8
        ensures won { result ≡ won_by self.now }
        ensures kept { IsKept self.now }
    {
        self.table.tricks(self.side)
    }

    /// The cards that were played so far.
    pub fn history(&self) -> &[Card]
        ensures { result.now ≡ self.now.position.history }
    {
        self.history.as_slice()
    }

    /// The cards of the trick in progress, of which there are at most three.
    pub fn trick(&self) -> &[Card]
        ensures { result.now ≡ trick_of self.now.position.history }
    {
        let history = self.history.as_slice();
        &history[history.len() - history.len() % 4..]
    }

    /// Who still holds the card, if anybody does.
    pub fn holder(&self, card: Card) -> Option<Seat>
        ensures { result ≡ holder_of (left_of self.now.position.opening.deal self.now.position.history) card }
    {
        if was_played(self.history.as_slice(), card) {
            None
        } else {
            self.layout.owner(card)
        }
    }

    /// The seat whose turn it is, or `None` where all the cards were played.
    pub fn turn(&self) -> Option<Seat>
        ensures turn { result ≡ turn_of self.now.position }
        ensures reached { IsReached self.now.position }
    {
        self.table.turn()
    }

    /// The cards that the seat to play may play, by suit and ranks falling.
    pub fn legal(&self) -> ArrayVec<Card, 13>
        ensures { AreLegalCards self.now.position result.items }
    {
        self.table.legal()
    }

    /// The side's card at its turn: the last legal card that a certificate names by which the promise is kept. Once the
    /// promised tricks are won it may be the last of all legal cards. It is the card that [`Playing::answer`] plays,
    /// but only tests show that.
    #[tactic(auto, unfolding(crate::specs::OwnCards::IsAnswer))]
    pub fn next_card(&self) -> Card
        requires goes_on { GoesOn self.now }
        requires turn { IsSidesTurn self.now }
        ensures legal { CanPlay self.now.position.opening self.now.position.history result }
        ensures own { IsAnswer self.now result }
    {
        let (card, _) = choose(&self.table, self.side, self.promised, &self.step);
        card
    }

    /// Plays the side's card at its turn, and returns it. It is chosen as in [`Playing::next_card`].
    #[tactic(auto, unfolding(crate::specs::OwnCards::IsAnswer))]
    pub fn answer(&mut self) -> Card
        requires goes_on { GoesOn self.old }
        requires turn { IsSidesTurn self.old }
        ensures legal { CanPlay self.old.position.opening self.old.position.history result }
        ensures own { IsAnswer self.old result }
        ensures played { self.new ≡ after_card self.old result }
    {
        let (card, step) = choose(&self.table, self.side, self.promised, &self.step);
        self.table = self.table.after(card);
        self.history.push(card);
        self.step = step;
        card
    }

    /// The same play after the same cards.
    fn copy(&self) -> Playing<'a>
        ensures { result ≡ self.now }
    {
        let step = match &self.step {
            Some(step) => Some(copy(step)),
            None => None,
        };
        Playing {
            layout: self.layout,
            table: same_table(&self.table),
            side: self.side,
            promised: self.promised,
            history: same_history(&self.history),
            step,
        }
    }

    /// Takes a card of the opponents at their turn, or refuses it as [`Table::play`] does: `Over` where all is played,
    /// else `NotHeld`, else `MustFollow`. After a refusal all is as before.
    pub fn take(&mut self, card: Card) -> Result<(), PlayFault>
        requires { IsSidesTurn self.old → ⊥ }
        ensures cases { PlaysOrRefuses self.old.position card result }
        ensures ok { OnOk result (self.new ≡ after_card self.old card) }
        ensures err { OnErr result (self.new ≡ self.old) }
    {
        self.table.play(card)?;
        let step = match &self.step {
            Some(step) => after_reply(step, card),
            None => None,
        };
        self.history.push(card);
        self.step = step;
        Ok(())
    }
}

impl<'a> Clone for Playing<'a> {
    ghost is_clone = { λ playing copy. copy ≡ playing };

    ghost is_infallible = { λ _. Unit {0} };

    /// The same play after the same cards. It takes no memory, and so cannot fail.
    fn clone(&self) -> Result<Playing<'a>, AllocError> {
        Ok(self.copy())
    }
}

/// A table in the same position.
fn same_table(table: &Table) -> Table
    ensures { result ≡ table.now }
{
    table.clone().unwrap()
}

/// The same cards.
fn same_history(history: &ArrayVec<Card, 52>) -> ArrayVec<Card, 52>
    ensures { result.items ≡ history.now.items }
{
    history.clone().unwrap()
}

/// Whether the card is among those.
fn was_played(history: &[Card], card: Card) -> bool
    ensures { MatchBool result (Contains history.now card) (Contains history.now card → ⊥) }
{
    for played in history {
        if *played == card {
            return true;
        }
    }
    false
}

/// The card that the side plays at its turn, and the step after it. Without a step the card is the last legal one.
fn choose<'a>(
    table: &Table,
    side: Side,
    promised: u8,
    step: &Option<Step<'a>>,
) -> (Card, Option<Step<'a>>)
    requires reached { IsReached table.now }
    requires kept { IsKeptIn (record { position = table.now; side = side; tricks = promised }) step.now }
    requires goes_on { GoesOn (record { position = table.now; side = side; tricks = promised }) }
    requires turn { IsSidesTurn (record { position = table.now; side = side; tricks = promised }) }
    ensures legal { CanPlay table.now.opening table.now.history result.0 }
    ensures own { IsOwnCard table.now step.now result.0 }
    ensures kept { IsKeptIn (after_card (record { position = table.now; side = side; tricks = promised }) result.0)
        result.1 }
{
    let legal = table.legal();
    match step {
        Some(step) => {
            let card = own_card(step, legal.as_slice());
            (card, after_own(step, card))
        }
        None => {
            let card = last_card(legal.as_slice());
            (card, None)
        }
    }
}
