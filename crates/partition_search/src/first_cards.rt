//! Which card of a turn is tried first.

use crate::hints::{FEW_TRICKS, follow_key, lead_key};
use crate::moves::{HandRuns, Move, Moves};
use crate::positions::{Trick, Turn, Wants, seat_to_left};
use crate::search::Search;
use crate::starts::{Found, Start, side_of};
use crate::words::CardSet;

impl Search {
    /// The turn of the hand so many places to the left of the leader.
    fn turn(&self, tricks: u32, start: &Start, places: usize) -> Turn<'_> {
        let seat = seat_to_left(start.leader, places);
        let wants = Wants {
            wanted: start.wanted_by(side_of(seat), tricks),
            tricks,
        };
        Turn::of(&self.deal, &self.held, start.left, seat, wants)
    }

    /// The first lead, where no weights tell it: the only one, or the one that succeeded before at such a place.
    pub(crate) fn sure_lead(&self, tricks: u32, start: &Start, runs: HandRuns) -> Option<Move> {
        if runs.is_single() {
            return Some(runs.only(true));
        }
        runs.of_top(self.hinted_lead(tricks, start))
    }

    /// The lead that succeeded before at such a place, or no card.
    fn hinted_lead(&self, tricks: u32, start: &Start) -> CardSet {
        if tricks <= FEW_TRICKS {
            return 0;
        }
        self.leads.card(lead_key(&self.held.hands, start))
    }

    /// The key of a card of the second or third hand, where it has a choice and many tricks are left.
    pub(crate) fn hint_key(
        &self,
        tricks: u32,
        start: &Start,
        seat: usize,
        runs: HandRuns,
        trick: &Trick,
    ) -> Option<usize> {
        if tricks <= FEW_TRICKS || runs.is_single() {
            return None;
        }
        Some(follow_key(&self.held.hands, start, seat, runs.own, trick))
    }

    /// The first card of a second or third hand, where no weights tell it: the only one, or the one that succeeded
    /// before where the key was this.
    #[inline(always)]
    pub(crate) fn sure_follow(
        &self,
        key: Option<usize>,
        runs: HandRuns,
        trick: &Trick,
    ) -> Option<Move> {
        let trumps = self.deal.trumps;
        if runs.is_single() {
            return Some(runs.only(trick.beats(runs.own, trumps)));
        }
        runs.of_choice(self.follows.card(key?), trick, trumps)
    }

    /// Remembers what was found of a lead that succeeded, and learns from the lead.
    pub(crate) fn lead_succeeded(
        &mut self,
        tricks: u32,
        start: &Start,
        card: CardSet,
        found: Found,
    ) -> Found {
        self.lead_suits.learn(tricks, start.leader, card, true);
        if tricks > FEW_TRICKS {
            self.leads.keep(lead_key(&self.held.hands, start), card);
        }
        self.remember(start, found, card)
    }

    /// What was found of a card that succeeded, which is remembered under its key.
    pub(crate) fn succeeded(&mut self, key: Option<usize>, card: CardSet, found: Found) -> Found {
        if let Some(key) = key {
            self.follows.keep(key, card);
        }
        found
    }

    /// The next lead, by the weights.
    #[inline(always)]
    pub(crate) fn next_lead(
        &self,
        tricks: u32,
        start: &Start,
        runs: HandRuns,
        moves: &mut Moves,
    ) -> Option<Move> {
        self.sort_leads(tricks, start, runs, moves);
        moves.next()
    }

    /// Puts the leads into their order by the weights, unless they are.
    #[inline(always)]
    pub(crate) fn sort_leads(&self, tricks: u32, start: &Start, runs: HandRuns, moves: &mut Moves) {
        if moves.are_unsorted() {
            let suits = self.lead_suits.of(tricks, start.leader);
            moves.add_leads(runs, &self.turn(tricks, start, 0), suits);
        }
    }

    /// The next card of a second hand, by the weights.
    #[inline(always)]
    pub(crate) fn next_second(
        &self,
        tricks: u32,
        start: &Start,
        trick: &Trick,
        runs: HandRuns,
        moves: &mut Moves,
    ) -> Option<Move> {
        if moves.are_unsorted() {
            moves.add_second(runs, &self.turn(tricks, start, 1), trick);
        }
        moves.next()
    }

    /// The next card of a third hand, by the weights.
    #[inline(always)]
    pub(crate) fn next_third(
        &self,
        tricks: u32,
        start: &Start,
        trick: &Trick,
        runs: HandRuns,
        moves: &mut Moves,
    ) -> Option<Move> {
        if moves.are_unsorted() {
            moves.add_third(runs, &self.turn(tricks, start, 2), trick);
        }
        moves.next()
    }

    /// The first card of a last hand.
    #[inline(always)]
    pub(crate) fn first_last(
        &self,
        tricks: u32,
        start: &Start,
        trick: &Trick,
        runs: HandRuns,
        moves: &mut Moves,
    ) -> Option<Move> {
        if runs.is_single() {
            return Some(runs.only(trick.beats(runs.own, self.deal.trumps)));
        }
        moves.add_last(runs, &self.turn(tricks, start, 3), trick);
        moves.next()
    }
}
