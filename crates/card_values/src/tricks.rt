//! A trick in progress: the cards played so far, and those that may come next.

ghost use Rattle.std.specs.Prelude.{◌≡◌, ◌≤◌, [], length, OnErr, OnOk};
ghost use Rattle.play_rules.specs.Legal.{seat_to_play};
ghost use Rattle.play_rules.specs.Position.{AreLegalCards, with_card};
ghost use Rattle.card_values.specs.Tricks.{IsInProgress, TakesOrRefuses};

use crate::faults::TrickFault;
use arrayvec::ArrayVec;
use cards::{Card, Layout, Seat, Trump};
use play_rules::Table;
use std::marker::Model;

/// A layout with its first trick in progress: up to three cards of it were played.
#[derive(Drop)]
pub struct TrickInProgress {
    layout: Layout,
    leader: Seat,
    trump: Trump,
    played: ArrayVec<Card, 3>,
    table: Table,
}

impl Model for TrickInProgress {
    ghost use Rattle.play_rules.specs.Position.{Position};
    ghost use Rattle.card_values.specs.Tricks.{IsKept};

    ghost Value = { Position };

    ghost view = { λ t. t.table };

    ghost invariant = { λ t. IsKept t.table t.layout t.leader t.trump t.played.items };
}

impl TrickInProgress {
    /// Before the lead, which the leader makes.
    pub fn new(layout: Layout, leader: Seat, trump: Trump) -> TrickInProgress
        ensures opening { result.opening ≡ record { deal = layout; leader = leader; trump = trump } }
        ensures history { result.history ≡ [] }
    {
        TrickInProgress {
            layout,
            leader,
            trump,
            played: ArrayVec::new(),
            table: Table::new(layout, leader, trump),
        }
    }

    /// Plays the card for the seat whose turn it is, or refuses it: with `Whole` if it would be the trick's fourth,
    /// otherwise as [`Table::play`] does. After a refusal the trick is as before.
    pub fn play(&mut self, card: Card) -> Result<(), TrickFault>
        ensures cases { TakesOrRefuses self.old card result }
        ensures ok { OnOk result (self.new ≡ with_card self.old card) }
        ensures err { OnErr result (self.new ≡ self.old) }
    {
        let count = self.played.len();
        if count >= 3 {
            return Err(TrickFault::Whole);
        }
        match self.table.play(card) {
            Ok(()) => {
                self.played.push(card);
                Ok(())
            }
            Err(fault) => Err(TrickFault::Play(fault)),
        }
    }

    /// The layout when the trick began.
    pub fn layout(&self) -> &Layout
        ensures { result.now ≡ self.now.opening.deal }
    {
        &self.layout
    }

    /// The seat that leads.
    pub fn leader(&self) -> Seat
        ensures { result ≡ self.now.opening.leader }
    {
        self.leader
    }

    /// The trump suit, or none.
    pub fn trump(&self) -> Trump
        ensures { result ≡ self.now.opening.trump }
    {
        self.trump
    }

    /// The cards played so far.
    pub fn played(&self) -> &[Card]
        ensures played { result.now ≡ self.now.history }
        ensures few { length result.now ≤ 3 }
    {
        self.played.as_slice()
    }

    /// The seat whose turn it is.
    pub fn turn(&self) -> Seat
        ensures { result ≡ seat_to_play self.now.opening self.now.history }
    {
        match self.table.turn() {
            Some(seat) => seat,
            None => self.leader,
        }
    }

    /// The cards that may come next, by suit in the order of [`cards::Suit::ALL`] and with ranks falling.
    pub fn legal(&self) -> ArrayVec<Card, 13>
        ensures { AreLegalCards self.now result.items }
    {
        self.table.legal()
    }

    /// What every trick in progress keeps.
    pub fn invariant(&self)
        ensures { IsInProgress self.now }
    {
        let _ = &self.table;
    }
}
