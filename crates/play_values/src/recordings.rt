//! The recording of a play.

ghost use Rattle.std.specs.Prelude.{◌≡◌, ◌≤◌, ◌<◌, [], length, OnErr, OnOk};
ghost use Rattle.play_rules.specs.Legal.{seat_to_play};
ghost use Rattle.play_rules.specs.Position.{IsReached, with_card};
ghost use Rattle.play_rules.specs.Plays.{PlaysOrRefuses};
ghost use Rattle.play_values.specs.PlayValues.{first_cards};

use arrayvec::ArrayVec;
use cards::{Card, Layout, Seat, Side, Trump};
use play_rules::{PlayFault, Table};
use std::marker::Model;

/// A layout, the cards played from it in their order, and declarer's side.
#[derive(Drop)]
pub struct RecordedPlay {
    layout: Layout,
    leader: Seat,
    trump: Trump,
    declarers: Side,
    cards: ArrayVec<Card, 52>,
    table: Table,
}

impl Model for RecordedPlay {
    ghost use Rattle.play_values.specs.PlayValues.{Recorded};
    ghost use Rattle.play_values.specs.Recordings.{IsKept};

    ghost Value = { Recorded };

    ghost view = { λ play. record { position = play.table; declarers = play.declarers } };

    ghost invariant = { λ play. IsKept play.table play.layout play.leader play.trump play.cards.items };
}

impl RecordedPlay {
    /// Before the lead, which the leader makes.
    pub fn new(layout: Layout, leader: Seat, trump: Trump, declarers: Side) -> RecordedPlay
        ensures opening { result.position.opening ≡ record { deal = layout; leader = leader; trump = trump } }
        ensures history { result.position.history ≡ [] }
        ensures declarers { result.declarers ≡ declarers }
    {
        RecordedPlay {
            layout,
            leader,
            trump,
            declarers,
            cards: ArrayVec::new(),
            table: Table::new(layout, leader, trump),
        }
    }

    /// Records a card of the seat whose turn it is, or refuses it as [`Table::play`] does. After a refusal the play is
    /// as before.
    pub fn play(&mut self, card: Card) -> Result<(), PlayFault>
        ensures cases { PlaysOrRefuses self.old.position card result }
        ensures ok { OnOk result (self.new ≡ record self.old { position = with_card self.old.position card }) }
        ensures err { OnErr result (self.new ≡ self.old) }
    {
        match self.table.play(card) {
            Ok(()) => {
                self.cards.push(card);
                Ok(())
            }
            Err(fault) => Err(fault),
        }
    }

    /// The layout before the first card.
    pub fn layout(&self) -> &Layout
        ensures { result.now ≡ self.now.position.opening.deal }
    {
        &self.layout
    }

    /// The seat that leads to the first trick.
    pub fn leader(&self) -> Seat
        ensures { result ≡ self.now.position.opening.leader }
    {
        self.leader
    }

    /// The trump suit, or none.
    pub fn trump(&self) -> Trump
        ensures { result ≡ self.now.position.opening.trump }
    {
        self.trump
    }

    /// Declarer's side.
    pub fn declarers(&self) -> Side
        ensures { result ≡ self.now.declarers }
    {
        self.declarers
    }

    /// The cards in the order in which they were played.
    pub fn cards(&self) -> &[Card]
        ensures { result.now ≡ self.now.position.history }
    {
        self.cards.as_slice()
    }

    /// The table after all cards of the play. It knows the turn, the legal cards and the tricks won.
    pub fn table(&self) -> &Table
        ensures { result.now ≡ self.now.position }
    {
        &self.table
    }

    /// The table after the first `count` cards of the play.
    pub fn table_after(&self, count: usize) -> Table
        requires { count ≤ length self.now.position.history }
        ensures { result ≡ record self.now.position { history = first_cards self.now count } }
    {
        self.invariant();
        let cards = self.cards();
        let mut table = Table::new(self.layout, self.leader, self.trump);
        for place in 0..count {
            table = table.after(cards[place]);
        }
        table
    }

    /// The seat that played the card in this place, counted from 0.
    pub fn player(&self, place: usize) -> Seat
        requires { place < length self.now.position.history }
        ensures { result ≡ seat_to_play self.now.position.opening (first_cards self.now place) }
    {
        self.invariant();
        match self.table_after(place).turn() {
            Some(seat) => seat,
            None => unreachable!(),
        }
    }

    /// What every recording keeps: its cards are a legal history of its layout.
    pub fn invariant(&self)
        ensures { IsReached self.now.position }
    {
        let _ = &self.table;
    }
}
