//! A trick in progress, and the search of what follows it.

use crate::deals::DealTables;
use crate::moves::{HandRuns, Move, Moves};
use crate::positions::{Trick, seat_to_left};
use crate::relevant_cards::relevant_after;
use crate::search::Search;
use crate::starts::{Found, Start, other_side, side_of, trick_for};
use crate::words::{CardSet, MOST_CARDS, TRICK_CARDS};
use arrayvec::ArrayVec;
use cards::{Card, Layout, Seat};

/// The cards played to a trick, in their order. With none it is about to begin.
#[derive(Drop)]
pub struct Begun {
    /// The seat that leads.
    pub leader: usize,
    pub cards: ArrayVec<CardSet, 4>,
}

/// Whether the cards may be played in turn to the first trick of a layout, and leave one of its cards to be played.
pub fn may_be_played(layout: &Layout, leader: Seat, played: &[Card]) -> bool {
    if played.len() >= TRICK_CARDS as usize {
        return false;
    }
    let Some(lead) = played.first() else {
        return true;
    };
    let mut seat = leader;
    for card in played {
        let follows = card.suit == lead.suit || layout.holding(seat, lead.suit) == 0;
        if !follows || !layout.holds(seat, *card) {
            return false;
        }
        seat = seat.next();
    }
    true
}

impl Begun {
    /// A trick that this seat is about to lead to.
    pub fn at(leader: usize) -> Begun {
        Begun {
            leader,
            cards: ArrayVec::new(),
        }
    }

    /// A trick to which these cards were played.
    pub fn of(deal: &DealTables, leader: Seat, played: &[Card]) -> Begun {
        let mut begun = Begun::at(leader.number());
        for card in played {
            let _ = begun.cards.try_push(deal.set_of(*card));
        }
        begun
    }

    /// The trick after one more card.
    pub fn with(&self, card: CardSet) -> Begun {
        let mut begun = Begun::at(self.leader);
        for before in self.cards.as_slice() {
            let _ = begun.cards.try_push(*before);
        }
        let _ = begun.cards.try_push(card);
        begun
    }

    /// The seat to play.
    pub fn seat(&self) -> usize {
        seat_to_left(self.leader, self.cards.len())
    }

    /// The cards that the seat to play may play.
    pub fn legal(&self, deal: &DealTables) -> CardSet {
        let hand = deal.hands[self.seat() & 3];
        match self.cards.as_slice().first() {
            None => hand,
            Some(lead) => Trick::led(self.leader, *lead).legal(hand),
        }
    }

    /// How many cards are still to be played to the trick.
    pub fn others(&self) -> u32 {
        TRICK_CARDS.saturating_sub((self.cards.len() & 7) as u32)
    }
}

impl Search {
    /// Plays the cards of a trick in progress. Answers the trick, none if no card was played.
    pub(crate) fn play_begun(&mut self, begun: &Begun) -> Option<Trick> {
        let trumps = self.deal.trumps;
        let mut trick: Option<Trick> = None;
        let mut seat = begun.leader;
        for card in begun.cards.as_slice() {
            trick = Some(match trick {
                None => Trick::led(seat, *card),
                Some(before) => before.after(seat, *card, trumps),
            });
            self.held.play(seat, *card);
            seat = seat_to_left(seat, 1);
        }
        trick
    }

    /// The turn of a hand of a trick in progress, to which `others` cards are still to be played, its own among them.
    /// Unlike the turns of `search`, this one serves every hand, and is called only for the first trick.
    pub(crate) fn begun_turn(
        &mut self,
        tricks: u32,
        start: &Start,
        trick: &Trick,
        others: u32,
    ) -> Found {
        if others == 0 {
            return self.after_begun(tricks, start, trick);
        }
        let seat = seat_to_left(start.leader, TRICK_CARDS.wrapping_sub(others) as usize);
        let mover = side_of(seat);
        let before = self.held.before(seat);
        let runs = HandRuns::of(trick.legal(before.hand), start.left);
        let mut moves = Moves::of(&runs);
        let mut answer = Found::unless_one_succeeds(other_side(mover));
        for _ in 0..MOST_CARDS {
            let next = match others {
                1 => self.next_last(tricks, start, trick, runs, &mut moves),
                2 => self.next_third(tricks, start, trick, runs, &mut moves),
                _ => self.next_second(tricks, start, trick, runs, &mut moves),
            };
            let Some(tried) = next else {
                break;
            };
            self.spend();
            let after = trick.after(seat, tried.card, self.deal.trumps);
            self.held.play(seat, tried.card);
            let found = self.begun_turn(tricks, start, &after, others - 1);
            self.held.put_back(seat, before);
            if self.stopped || found.side == mover {
                return found;
            }
            answer = answer.with_failed(tried, found);
            moves.skip(tried, found.relevant);
        }
        answer
    }

    /// The next card of a last hand.
    fn next_last(
        &self,
        tricks: u32,
        start: &Start,
        trick: &Trick,
        runs: HandRuns,
        moves: &mut Moves,
    ) -> Option<Move> {
        if moves.are_unsorted() {
            return self.first_last(tricks, start, trick, runs, moves);
        }
        moves.next()
    }

    /// Goes on after the four cards of a trick in progress.
    fn after_begun(&mut self, tricks: u32, start: &Start, trick: &Trick) -> Found {
        let shape = self.records.shape(self.held.lengths);
        let next = start.next(trick.winner as usize, self.held.all(), shape);
        let mut found = self.search(tricks.saturating_sub(1), &next);
        found.relevant = relevant_after(trick, found.relevant);
        found.bound = found.bound.wrapping_add(trick_for(next.leader, found.side));
        found
    }
}
