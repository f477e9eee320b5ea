//! The search: whether North and South can win so many of the tricks left. Each hand's turn is a function; what is held
//! is changed before a call, and put back after it.

use crate::deals::DealTables;
use crate::hints::Hints;
use crate::lead_suits::LeadSuits;
use crate::moves::{HandRuns, Moves};
use crate::positions::{Holdings, Trick, seat_to_left};
use crate::relevant_cards::{needs_fewer, relevant_after};
use crate::starts::{Found, Start, other_side, side_of, trick_for};
use crate::words::{MOST_CARDS, below};
use cards::{Layout, Trump};
use pattern_store::Records;
use std::alloc::{AllocError, Global};

/// With how many tricks left other possible winners are searched.
const SEARCHED: u32 = 7;

/// A search of one deal in one denomination, with all that it remembers.
#[derive(Drop)]
pub struct Search {
    pub alloc: Global,
    pub deal: DealTables,
    pub records: Records,
    /// How many cards may still be tried. A trick that has begun is played to its end.
    pub steps: u64,
    /// Whether memory ran out. Then no steps are left, and the search is of no more use.
    pub memory_ran_out: bool,
    /// What the seats hold now.
    pub(crate) held: Holdings,
    /// Whether a card was to be tried and no step was left, or memory ran out: then an answer says nothing.
    pub stopped: bool,
    /// How often something was remembered.
    pub(crate) adds: u32,
    /// The leads that succeeded last.
    pub(crate) leads: Hints,
    /// The cards of second and third hands that did.
    pub(crate) follows: Hints,
    /// How leads have fared by suit.
    pub(crate) lead_suits: LeadSuits,
}

/// The turn of the second or of the third hand: the hand's number clockwise from the leader, the function that names
/// the next card to try, and the function of the hand after it. Both are written out, so that no call has to ask which
/// hand plays.
macro_rules! middle_turn {
    ($search:ident, $tricks:ident, $start:ident, $trick:ident, $hand:literal, $next:ident, $then:ident) => {{
        let seat = seat_to_left($start.leader, $hand);
        let mover = side_of(seat);
        let before = $search.held.before(seat);
        let runs = HandRuns::of($trick.legal(before.hand), $start.left);
        let mut moves = Moves::of(&runs);
        let key = $search.hint_key($tricks, $start, seat, runs, $trick);
        let mut first = $search.sure_follow(key, runs, $trick);
        let mut answer = Found::unless_one_succeeds(other_side(mover));
        for _ in 0..MOST_CARDS {
            let next = match first {
                Some(_) => first,
                None => $search.$next($tricks, $start, $trick, runs, &mut moves),
            };
            let Some(tried) = next else {
                break;
            };
            first = None;
            $search.spend();
            let after = $trick.after(seat, tried.card, $search.deal.trumps);
            $search.held.play(seat, tried.card);
            let found = $search.$then($tricks, $start, &after);
            $search.held.put_back(seat, before);
            if $search.stopped || found.side == mover {
                return $search.succeeded(key, tried.card, found);
            }
            answer = answer.with_failed(tried, found);
            moves.skip(tried, found.relevant);
        }
        answer
    }};
}

impl Search {
    /// A search that has found nothing yet, and has no steps.
    pub fn new(alloc: Global, layout: &Layout, trump: Trump) -> Result<Search, AllocError> {
        let deal = DealTables::new(alloc, layout, trump)?;
        Ok(Search {
            alloc,
            held: Holdings::of(deal.hands),
            deal,
            records: Records::new(alloc)?,
            steps: 0,
            memory_ran_out: false,
            stopped: false,
            adds: 0,
            leads: Hints::new(alloc)?,
            follows: Hints::new(alloc)?,
            lead_suits: LeadSuits::new(),
        })
    }

    /// Notes that memory ran out, and ends the search.
    pub fn run_out(&mut self) {
        self.memory_ran_out = true;
        self.stopped = true;
        self.steps = 0;
    }

    /// Spends a step of a trick that has begun: none where none is left.
    pub(crate) fn spend(&mut self) {
        self.steps = self.steps.saturating_sub(1);
    }

    /// Spends the step of a lead. False where none is left.
    fn spend_lead(&mut self) -> bool {
        if self.steps == 0 {
            self.stopped = true;
            return false;
        }
        self.steps -= 1;
        true
    }

    /// Whether North and South win what they want of so many tricks left, else that East and West win more than the
    /// rest.
    #[cycle(searching)]
    pub(crate) fn search(&mut self, tricks: u32, start: &Start) -> Found {
        if let Some(found) = start.settled(tricks) {
            return found;
        }
        if let Some(found) = self.known(tricks, start) {
            return found;
        }
        self.lead(tricks, start)
    }

    /// The leader's turn. What is found is remembered.
    #[cycle(searching)]
    fn lead(&mut self, tricks: u32, start: &Start) -> Found {
        let seat = start.leader;
        let mover = side_of(seat);
        let before = self.held.before(seat);
        let runs = HandRuns::of(before.hand, start.left);
        let mut moves = Moves::of(&runs);
        let mut first = match self.sure_lead(tricks, start, runs) {
            None => self.likely_lead(tricks, start, runs, &mut moves),
            sure => sure,
        };
        let mut answer = Found::unless_one_succeeds(other_side(mover));
        for _ in 0..MOST_CARDS {
            let next = match first {
                Some(_) => first,
                None => self.next_lead(tricks, start, runs, &mut moves),
            };
            let Some(tried) = next else {
                break;
            };
            first = None;
            if !self.spend_lead() {
                return answer;
            }
            self.held.play(seat, tried.card);
            let found = self.second(tricks, start, &Trick::led(seat, tried.card));
            self.held.put_back(seat, before);
            if self.stopped {
                return answer;
            }
            if found.side == mover {
                return self.lead_succeeded(tricks, start, tried.card, found);
            }
            self.lead_suits.learn(tricks, seat, tried.card, false);
            answer = answer.with_failed(tried, found);
            moves.skip(tried, found.relevant);
        }
        self.remember(start, answer, 0)
    }

    /// The second hand's turn.
    #[cycle(searching)]
    fn second(&mut self, tricks: u32, start: &Start, trick: &Trick) -> Found {
        middle_turn!(self, tricks, start, trick, 1, next_second, third)
    }

    /// The third hand's turn.
    #[cycle(searching)]
    fn third(&mut self, tricks: u32, start: &Start, trick: &Trick) -> Found {
        middle_turn!(self, tricks, start, trick, 2, next_third, last)
    }

    /// The last hand's turn: a card that is known to succeed, else all are tried.
    #[cycle(searching)]
    fn last(&mut self, tricks: u32, start: &Start, trick: &Trick) -> Found {
        let seat = seat_to_left(start.leader, 3);
        if tricks == 0 {
            return Found::unless_one_succeeds(other_side(side_of(seat)));
        }
        let rest = tricks - 1;
        let before = self.held.before(seat);
        let own = trick.legal(before.hand);
        let runs = HandRuns::of(own, start.left);
        let shape = self.shape_in_suit(own, trick, seat);
        if !runs.is_single() {
            if let Some((card, found)) = self.ask(rest, start, trick, runs, shape) {
                let after = trick.after(seat, card, self.deal.trumps);
                self.held.play(seat, card);
                let shape = self.shape_near(shape, self.held.lengths);
                let next = start.next(after.winner as usize, self.held.all(), shape);
                let whole = self.ended(rest, start, &after, &next, found);
                self.held.put_back(seat, before);
                return whole;
            }
        }
        self.try_last(rest, start, trick, runs, shape)
    }

    /// Tries the cards of the last hand, of which none is known to succeed, or there is one run only.
    #[cycle(searching)]
    fn try_last(
        &mut self,
        rest: u32,
        start: &Start,
        trick: &Trick,
        runs: HandRuns,
        shape: Option<u32>,
    ) -> Found {
        let seat = seat_to_left(start.leader, 3);
        let mover = side_of(seat);
        let before = self.held.before(seat);
        let mut moves = Moves::of(&runs);
        let mut next = self.first_last(rest.wrapping_add(1), start, trick, runs, &mut moves);
        let adds = self.adds;
        let mut answer = Found::unless_one_succeeds(other_side(mover));
        for _ in 0..MOST_CARDS {
            let Some(tried) = next else {
                break;
            };
            self.spend();
            let after = trick.after(seat, tried.card, self.deal.trumps);
            let is_asked = !runs.is_single() && self.adds == adds;
            self.held.play(seat, tried.card);
            let found = self.rest(rest, start, &after, shape, is_asked);
            self.held.put_back(seat, before);
            if self.stopped || found.side == mover {
                return found;
            }
            answer = answer.with_failed(tried, found);
            moves.skip(tried, found.relevant);
            next = moves.next();
        }
        answer
    }

    /// Goes on after a trick. The shape of what is left may have this number, and the records of the last hand's side
    /// may have been asked.
    #[cycle(searching)]
    fn rest(
        &mut self,
        rest: u32,
        start: &Start,
        trick: &Trick,
        shape: Option<u32>,
        is_asked: bool,
    ) -> Found {
        let shape = self.shape_near(shape, self.held.lengths);
        let mut next = start.next(trick.winner as usize, self.held.all(), shape);
        if is_asked {
            next.asked = Some(other_side(side_of(start.leader)));
        }
        let found = self.search(rest, &next);
        if self.stopped {
            return found;
        }
        self.ended(rest, start, trick, &next, found)
    }

    /// What was found of a trick that has ended: the winner's rank matters where others played to its suit, unless what
    /// is left goes the same way whoever of them wins.
    #[cycle(searching)]
    #[inline(always)]
    fn ended(
        &mut self,
        rest: u32,
        start: &Start,
        trick: &Trick,
        next: &Start,
        found: Found,
    ) -> Found {
        let mut whole = found;
        whole.bound = found.bound.wrapping_add(trick_for(next.leader, found.side));
        let relevant = relevant_after(trick, found.relevant);
        if relevant == found.relevant {
            return whole;
        }
        if let Some(other) = self.whoever(rest, start, trick, next, whole) {
            return other;
        }
        whole.relevant = relevant;
        whole
    }

    /// The same answer whoever of those who played to the winner's suit wins, where that is known, or searched since
    /// few tricks are left, and names fewer owners.
    #[cycle(searching)]
    #[inline(always)]
    fn whoever(
        &mut self,
        rest: u32,
        start: &Start,
        trick: &Trick,
        next: &Start,
        found: Found,
    ) -> Option<Found> {
        let low = below(trick.best) | trick.best;
        let partners = if next.leader & 1 == 0 { 5 } else { 10 };
        if found.relevant & trick.deciding & low != 0
            || side_of(next.leader) == found.side && trick.contenders & !partners != 0
        {
            return None;
        }
        let mut answer = found;
        for seat in 0..4usize {
            if seat == next.leader || trick.contenders.wrapping_shr(seat as u32) & 1 == 0 {
                continue;
            }
            let then = next.led_by(seat);
            let other = if rest > SEARCHED {
                self.looked_up(rest, &then)?
            } else {
                self.search(rest, &then)
            };
            if self.stopped || other.side != found.side {
                return None;
            }
            let bound = other.bound.wrapping_add(trick_for(seat, found.side));
            answer.bound = answer.bound.min(bound);
            answer.relevant |= other.relevant;
        }
        if needs_fewer(start.left, answer.relevant, found.relevant | trick.best) {
            Some(answer)
        } else {
            None
        }
    }
}
