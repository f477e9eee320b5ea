//! A contract with the graphs that show its value, and what its sides win against the lines of their opponents.

ghost use Rattle.certificate_play.specs.Promises.{GoesOn, IsSidesTurn};

use crate::draws::draw_below;
use crate::expect::{expect, got, some};
use arrayvec::ArrayVec;
use cards::{Card, Layout, Seat, Side, Trump};
use certificate_graph::Graph;
use certificate_play::{Playing, begin_both, line};
use play_rules::winner;
use rand_pcg::Pcg32;
use std::process::Abort;

/// A contract on a layout, and the graphs that show its value.
#[derive(Drop)]
pub struct Contract<'a> {
    pub layout: Layout,
    pub declarer: Seat,
    pub trump: Trump,
    pub k: u8,
    pub declarers: &'a Graph,
    pub defenders: &'a Graph,
}

/// What came of several lines: the fewest and the most tricks of the side.
#[derive(Clone, Copy, Debug, PartialEq)]
pub struct Outcome {
    pub lines: u32,
    pub fewest: u8,
    pub most: u8,
}

impl Outcome {
    /// No lines.
    fn none() -> Outcome {
        Outcome {
            lines: 0,
            fewest: 13,
            most: 0,
        }
    }

    /// One line more, in which the side wins so many tricks.
    fn add(&mut self, won: u8) {
        self.lines = self.lines.wrapping_add(1);
        self.fewest = won.min(self.fewest);
        self.most = won.max(self.most);
    }
}

impl Contract<'_> {
    /// What the side is to win.
    pub fn promised(&self, side: Side) -> u8 {
        if side == self.declarer.side() {
            self.k
        } else {
            (self.layout.len() as u8).saturating_sub(self.k)
        }
    }

    /// The side before the opening lead.
    pub fn begin(&self, rt: &impl Abort, side: Side) -> Playing<'_> {
        let (declarers, defenders) = (self.declarers, self.defenders);
        let sides = begin_both(
            &self.layout,
            self.declarer,
            self.trump,
            self.k,
            declarers,
            defenders,
        );
        let sides = got(rt, sides);
        if side == self.declarer.side() {
            sides.declarers
        } else {
            sides.defenders
        }
    }

    /// The tricks of the side in these cards, counted from the rules of a trick.
    fn count(&self, cards: &[Card], side: Side) -> u8 {
        let mut lead = self.declarer.next();
        let mut won = 0u8;
        for trick in cards.chunks_exact(4) {
            let [a, b, c, d] = trick else {
                return won;
            };
            lead = winner(self.trump, lead, *a, *b, *c, *d);
            if lead.side() == side {
                won = won.wrapping_add(1);
            }
        }
        won
    }

    /// What the side has won when all cards are played: no fewer tricks than it promised.
    fn won(&self, rt: &impl Abort, playing: &Playing<'_>) -> u8 {
        let history = playing.history();
        expect(rt, history.len() == self.layout.len().wrapping_mul(4));
        let won = self.count(history, playing.side());
        expect(rt, won == playing.won());
        expect(rt, won >= self.promised(playing.side()));
        won
    }

    /// Plays on with each card that the opponents may play, where so many cards are left, until there are so many
    /// lines.
    fn play_on(
        &self,
        rt: &impl Abort,
        playing: &Playing<'_>,
        left: usize,
        outcome: &mut Outcome,
        most: u32,
    ) {
        let Some(seat) = playing.turn() else {
            outcome.add(self.won(rt, playing));
            return;
        };
        if left == 0 || outcome.lines >= most {
            return;
        }
        if seat.side() == playing.side() {
            let after = answered(rt, playing);
            return self.play_on(rt, &after, left - 1, outcome, most);
        }
        for card in playing.legal().as_slice() {
            let after = taken(rt, playing, *card);
            self.play_on(rt, &after, left - 1, outcome, most);
        }
    }

    /// Plays all lines of the opponents, or so many of them.
    pub fn play_all(&self, rt: &impl Abort, side: Side, most: u32) -> Outcome {
        let mut outcome = Outcome::none();
        let start = self.begin(rt, side);
        self.play_on(rt, &start, Card::COUNT, &mut outcome, most);
        outcome
    }

    /// Plays a line in which the opponents choose at random.
    fn play_one(&self, rt: &impl Abort, start: &Playing<'_>, words: &mut Pcg32) {
        let mut playing = start.clone().unwrap();
        for _card in 0..Card::COUNT {
            let Some(seat) = playing.turn() else {
                break;
            };
            if seat.side() == playing.side() {
                playing.answer();
            } else {
                let card = drawn(rt, &playing.legal(), words);
                got(rt, playing.take(card));
            }
        }
        self.won(rt, &playing);
    }

    /// Plays so many lines in which the opponents choose at random.
    pub fn play_some(&self, rt: &impl Abort, side: Side, lines: u32) {
        let start = self.begin(rt, side);
        let mut words = Pcg32::new(u64::from(lines), 0);
        for _line in 0..lines {
            self.play_one(rt, &start, &mut words);
        }
    }

    /// The line of both certificates has just k tricks of declarer's side.
    pub fn expect_line(&self, rt: &impl Abort) {
        let (declarers, defenders) = (self.declarers, self.defenders);
        let begun = begin_both(
            &self.layout,
            self.declarer,
            self.trump,
            self.k,
            declarers,
            defenders,
        );
        let Ok(sides) = begun else {
            panic!(rt; "no sides");
        };
        let cards = line(sides.declarers, sides.defenders);
        let won = self.count(cards.as_slice(), self.declarer.side());
        expect(rt, won == self.k);
    }
}

/// The play after the card of the side, which is the next card.
fn answered<'a>(rt: &impl Abort, playing: &Playing<'a>) -> Playing<'a>
    requires goes_on { GoesOn playing.now }
    requires turn { IsSidesTurn playing.now }
{
    let mut after = playing.clone().unwrap();
    let card = after.answer();
    expect(rt, card == playing.next_card());
    after
}

/// The play after this card of the opponents.
pub fn taken<'a>(rt: &impl Abort, playing: &Playing<'a>, card: Card) -> Playing<'a>
    requires { IsSidesTurn playing.now → ⊥ }
{
    let mut after = playing.clone().unwrap();
    got(rt, after.take(card));
    after
}

/// One of the cards, drawn at random.
pub fn drawn(rt: &impl Abort, cards: &ArrayVec<Card, 13>, words: &mut Pcg32) -> Card {
    let place = draw_below(words, cards.len().max(1));
    *some(rt, cards.get(place))
}
