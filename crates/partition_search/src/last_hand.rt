//! What is known before the last hand plays.

use crate::moves::{HandRuns, card_at};
use crate::positions::{Trick, one_of, seat_to_left};
use crate::relevant_cards::{needs_fewer, relevant_after};
use crate::search::Search;
use crate::starts::{Found, Start, side_of};
use crate::words::{CardSet, Lengths, MOST_CARDS, suit_of};
use pattern_store::List;

/// What is remembered of the rest for the side of the last hand, after a card of it.
#[derive(Clone, Copy)]
struct KnownRest {
    /// How many tricks the side needs of it.
    need: u32,
    /// The records, if there are any.
    list: Option<List>,
}

/// What is remembered of the rest after a card of this suit: where it wins the trick, and where it does not.
#[derive(Clone, Copy)]
struct KnownRests {
    suit: CardSet,
    won: KnownRest,
    lost: KnownRest,
}

impl KnownRest {
    /// Whether nothing is known, whatever the cards.
    fn is_unknown(&self) -> bool {
        self.need != 0 && self.list.is_none()
    }
}

impl Search {
    /// The number of this shape, if it has one: this number where there is one.
    pub(crate) fn shape_near(&self, shape: Option<u32>, lengths: Lengths) -> Option<u32> {
        match shape {
            Some(_) => shape,
            None => self.records.shape(lengths),
        }
    }

    /// The number of the shape of what is left after a last hand that follows suit. It is the same for each card.
    pub(crate) fn shape_in_suit(&self, own: CardSet, trick: &Trick, seat: usize) -> Option<u32> {
        if own & trick.led == 0 {
            return None;
        }
        let lengths = self.held.lengths.wrapping_sub(one_of(trick.led, seat));
        self.records.shape(lengths)
    }

    /// What is remembered for a side where this seat wins the trick, and the shape of what is left has this number.
    fn known_rest(
        &self,
        rest: u32,
        start: &Start,
        side: u32,
        winner: usize,
        shape: Option<u32>,
    ) -> KnownRest {
        let next = start.next(winner, 0, shape);
        let need = next.wanted_by(side, rest);
        let list = if need == 0 {
            None
        } else {
            self.list(&next, side)
        };
        KnownRest { need, list }
    }

    /// What is remembered after a card of this suit. The number is that of the shape, if it is known.
    #[inline(always)]
    fn known_rests(
        &self,
        rest: u32,
        start: &Start,
        trick: &Trick,
        suit: CardSet,
        shape: Option<u32>,
    ) -> KnownRests {
        let seat = seat_to_left(start.leader, 3);
        let side = side_of(seat);
        let lengths = self.held.lengths.wrapping_sub(one_of(suit, seat));
        let shape = self.shape_near(shape, lengths);
        KnownRests {
            suit,
            won: self.known_rest(rest, start, side, seat, shape),
            lost: self.known_rest(rest, start, side, trick.winner as usize, shape),
        }
    }

    /// A card of the last hand that is known to succeed, and what is known of the rest.
    pub(crate) fn ask(
        &self,
        rest: u32,
        start: &Start,
        trick: &Trick,
        runs: HandRuns,
        shape: Option<u32>,
    ) -> Option<(CardSet, Found)> {
        let follows = runs.own & trick.led != 0;
        let suit = if follows {
            trick.led
        } else {
            suit_of(runs.own)
        };
        let known_rests = self.known_rests(rest, start, trick, suit, shape);
        if follows && known_rests.won.is_unknown() && known_rests.lost.is_unknown() {
            return None;
        }
        self.best_known(rest, start, trick, runs, known_rests)
    }

    /// Of the cards that are known to succeed the one that needs the fewest owners. What is remembered after cards of
    /// the first suit is given.
    fn best_known(
        &self,
        rest: u32,
        start: &Start,
        trick: &Trick,
        mut runs: HandRuns,
        mut known_rests: KnownRests,
    ) -> Option<(CardSet, Found)> {
        let trumps = self.deal.trumps;
        let seat = seat_to_left(start.leader, 3);
        let all = self.held.all();
        let mut best = None;
        let mut needs = 0;
        for _ in 0..runs.count() {
            let run = runs.next();
            let wins = trick.beats(run.highest(), trumps);
            let card = card_at(run.choice(wins));
            if card & known_rests.suit == 0 {
                known_rests = self.known_rests(rest, start, trick, suit_of(card), None);
            }
            let after = if wins {
                known_rests.won
            } else {
                known_rests.lost
            };
            if let Some(found) = self.known_from(
                after.list,
                all & !card,
                after.need,
                side_of(seat),
            ) {
                let relevant = relevant_after(&trick.after(seat, card, trumps), found.relevant);
                if best.is_none() || needs_fewer(start.left, relevant, needs) {
                    needs = relevant;
                    best = Some((card, found));
                }
            }
        }
        best
    }
}
