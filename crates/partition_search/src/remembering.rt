//! What a search knows of the start of a trick, and what it remembers of it.

use crate::deals::CardsLeft;
use crate::relevant_cards::{depths_of, named_card, without_lone};
use crate::search::Search;
use crate::starts::{Found, Start, other_side, side_at};
use crate::words::CardSet;
use pattern_store::{List, Record};

impl Search {
    /// What is remembered of the start of a trick for a side, if anything is.
    pub(crate) fn list(&self, start: &Start, side: u32) -> Option<List> {
        self.records.list(start.shape, start.leader, side_at(side))
    }

    /// The same, unless the side's records were looked through in vain.
    fn unasked(&self, start: &Start, side: u32) -> Option<List> {
        if start.asked == Some(side) {
            None
        } else {
            self.list(start, side)
        }
    }

    /// What is known of the start of a trick that is not settled. The records of the side that wants fewer tricks are
    /// looked through first: mostly it gets them.
    #[inline(always)]
    pub(crate) fn known(&self, tricks: u32, start: &Start) -> Option<Found> {
        let side = start.wants_fewer(tricks);
        let other = other_side(side);
        let first = self.unasked(start, side);
        let second = self.unasked(start, other);
        if first.is_none() && second.is_none() {
            return None;
        }
        let left = self.deal.cards_left(start.left);
        match self.found_in(first, &left, start.wanted_by(side, tricks), side) {
            Some(found) => Some(found),
            None => self.found_in(second, &left, start.wanted_by(other, tricks), other),
        }
    }

    /// What is known of the start of a trick, if anything is.
    pub(crate) fn looked_up(&self, tricks: u32, start: &Start) -> Option<Found> {
        match start.settled(tricks) {
            Some(found) => Some(found),
            None => self.known(tricks, start),
        }
    }

    /// What is known of these cards left, where this side gets what it needs, by these records.
    pub(crate) fn known_from(
        &self,
        list: Option<List>,
        left: CardSet,
        need: u32,
        side: u32,
    ) -> Option<Found> {
        if need == 0 {
            Some(Found::nothing_needed(side))
        } else if list.is_none() {
            None
        } else {
            self.found_in(list, &self.deal.cards_left(left), need, side)
        }
    }

    /// What these records say, where this side gets what it needs.
    fn found_in(
        &self,
        list: Option<List>,
        left: &CardsLeft,
        need: u32,
        side: u32,
    ) -> Option<Found> {
        let need = (need & 15) as u8;
        let number = self.records.find(list?, left.near, || left.deep(), need)?;
        let record = self.records.record(number);
        Some(Found {
            relevant: self.deal.cards_at(left.cards, record.depths),
            bound: u32::from(record.need),
            side,
        })
    }

    /// Remembers what was found at the start of a trick, and of the card that showed it, if any, the name. Answers it
    /// with the cards that have to be named for it.
    pub(crate) fn remember(&mut self, start: &Start, found: Found, card: CardSet) -> Found {
        let relevant = without_lone(&self.held.hands, start.left, found.relevant);
        let depths = depths_of(start.left, relevant);
        let named = named_card(start.left, depths, card);
        let left = self.deal.cards_left(start.left);
        let need = (found.bound & 15) as u8;
        let record = Record::new(left.near, || left.deep(), depths, need, named);
        let lengths = self.held.lengths;
        self.adds = self.adds.wrapping_add(1);
        let added = self.records.add(
            start.shape,
            lengths,
            start.leader,
            side_at(found.side),
            record,
        );
        if added.is_err() {
            self.run_out();
        }
        Found { relevant, ..found }
    }
}
