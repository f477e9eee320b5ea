//! A table at which a layout is played.

ghost use Rattle.std.specs.Prelude.{◌≡◌, ◌<◌, [], length, OnErr, OnOk, MatchBool};
ghost use Rattle.play_rules.specs.History.{tricks_of};
ghost use Rattle.play_rules.specs.Legal.{CanPlay, IsUnfinished, cards_in_play};
ghost use Rattle.play_rules.specs.Position.{AreLegalCards, IsReached, turn_of, with_card};
ghost use Rattle.play_rules.specs.Plays.{PlaysOrRefuses};

use crate::faults::PlayFault;
use crate::holdings::{holders, is_held, legal_cards, revokes};
use crate::tricks::winner;
use arrayvec::ArrayVec;
use cards::{Card, Layout, Seat, Side, Trump};
use std::alloc::AllocError;
use std::marker::Model;

/// A layout in play: the opening, and the cards played since.
///
/// The history is always legal. The cards left, the trick in progress, the turn and the tricks won follow from it. They
/// are kept beside it, so that no call goes through it again.
#[derive(Debug, Drop)]
pub struct Table {
    layout: Layout,
    leader: Seat,
    trump: Trump,
    history: ArrayVec<Card, 52>,
    left: [Option<Seat>; 52],
    trick: ArrayVec<Card, 3>,
    trick_leader: Seat,
    player: Seat,
    north_south: u8,
    east_west: u8,
}

impl Model for Table {
    ghost use Rattle.play_rules.specs.Position.{Position};
    ghost use Rattle.play_rules.specs.Tables.{Summarizes};

    ghost Value = { Position };

    ghost view = { λ t. record {
      opening = record { deal = t.layout; leader = t.leader; trump = t.trump };
      history = t.history.items;
    } };

    ghost invariant = { λ t. Summarizes
        (record { opening = record { deal = t.layout; leader = t.leader; trump = t.trump }; history = t.history.items })
        (record {
          left = t.left;
          trick = t.trick.items;
          trick_leader = t.trick_leader;
          player = t.player;
          north_south = t.north_south;
          east_west = t.east_west;
        }) };
}

impl Table {
    /// Makes a table before the opening lead, which the leader makes (Law 41A: the seat at declarer's left).
    pub fn new(layout: Layout, leader: Seat, trump: Trump) -> Table
        ensures opening { result.opening ≡ record { deal = layout; leader = leader; trump = trump } }
        ensures history { result.history ≡ [] }
        ensures reached { IsReached result }
    {
        layout.invariant();
        Table {
            layout,
            leader,
            trump,
            history: ArrayVec::new(),
            left: holders(&layout),
            trick: ArrayVec::new(),
            trick_leader: leader,
            player: leader,
            north_south: 0,
            east_west: 0,
        }
    }

    /// Returns the seat whose turn it is, or `None` if all the cards were played (Law 44B and 44G).
    pub fn turn(&self) -> Option<Seat>
        ensures turn { result ≡ turn_of self.now }
        ensures reached { IsReached self.now }
    {
        if self.is_over() {
            None
        } else {
            Some(self.player)
        }
    }

    /// Returns the cards that the seat to play may play (Law 44A, 44C and 44D), by suit in the order of [`Suit::ALL`]
    /// and with ranks falling. The list is empty if all the cards were played.
    pub fn legal(&self) -> ArrayVec<Card, 13>
        ensures legal { AreLegalCards self.now result.items }
    {
        legal_cards(&self.left, self.player, self.trick.as_slice())
    }

    /// Returns how many tricks the side has won so far.
    pub fn tricks(&self, side: Side) -> u8
        ensures { result ≡ tricks_of side self.now.opening.trump self.now.opening.leader self.now.history }
    {
        match side {
            Side::NorthSouth => self.north_south,
            Side::EastWest => self.east_west,
        }
    }

    /// Plays the card for the seat whose turn it is, or refuses it: with `Over` if all is played, otherwise with
    /// `NotHeld` (Law 44A) or with `MustFollow` (Law 44C). After a refusal the table is as before.
    pub fn play(&mut self, card: Card) -> Result<(), PlayFault>
        ensures cases { PlaysOrRefuses self.old card result }
        ensures ok { OnOk result (self.new ≡ with_card self.old card) }
        ensures err { OnErr result (self.new ≡ self.old) }
    {
        if self.is_over() {
            return Err(PlayFault::Over);
        }
        if !is_held(&self.left, self.player, card) {
            return Err(PlayFault::NotHeld);
        }
        if revokes(&self.left, self.player, self.trick.as_slice(), card) {
            return Err(PlayFault::MustFollow);
        }
        self.push(card);
        Ok(())
    }

    /// Returns the table after a card that may be played.
    pub fn after(&self, card: Card) -> Table
        requires unfinished { IsUnfinished self.now.opening self.now.history }
        requires legal { CanPlay self.now.opening self.now.history card }
        ensures { result ≡ with_card self.now card }
    {
        let mut table = self.copy();
        table.push(card);
        table
    }

    /// Returns a table in the same position.
    fn copy(&self) -> Table
        ensures { result ≡ self.now }
    {
        Table {
            layout: self.layout,
            leader: self.leader,
            trump: self.trump,
            history: self.history.clone().unwrap(),
            left: self.left,
            trick: self.trick.clone().unwrap(),
            trick_leader: self.trick_leader,
            player: self.player,
            north_south: self.north_south,
            east_west: self.east_west,
        }
    }

    /// Returns whether all the cards were played.
    fn is_over(&self) -> bool
        ensures { MatchBool result
            (length self.now.history ≡ cards_in_play self.now.opening)
            (IsUnfinished self.now.opening self.now.history) }
    {
        self.history.len() == 4 * self.layout.len()
    }

    /// Puts a legal card down, and counts the trick if the card ends one.
    fn push(&mut self, card: Card)
        requires unfinished { IsUnfinished self.old.opening self.old.history }
        requires legal { CanPlay self.old.opening self.old.history card }
        ensures { self.new ≡ with_card self.old card }
    {
        self.layout.invariant();
        self.left[card.number()] = None;
        self.history.push(card);
        if self.trick.len() < 3 {
            self.trick.push(card);
            self.player = self.player.next();
            return;
        }
        let winner = winner(
            self.trump,
            self.trick_leader,
            self.trick[0],
            self.trick[1],
            self.trick[2],
            card,
        );
        self.trick.clear();
        self.trick_leader = winner;
        self.player = winner;
        match winner.side() {
            Side::NorthSouth => self.north_south += 1,
            Side::EastWest => self.east_west += 1,
        }
    }
}

impl Clone for Table {
    ghost is_clone = { λ table copy. copy ≡ table };

    ghost is_infallible = { λ _. Unit {0} };

    /// Returns a table in the same position. It takes no memory, so it cannot fail.
    fn clone(&self) -> Result<Table, AllocError> {
        Ok(self.copy())
    }
}
