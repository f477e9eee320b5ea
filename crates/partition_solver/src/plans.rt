//! The tree of a node: one trick on a remembered pattern, worked out anew from what the search remembers.

use crate::pattern_tricks::{PatternStart, PatternTrick};
use cards::{Side, Suit};
use certificate_graph::Token;
use partition_search::{
    CardSet, Lengths, SUIT, Search, TRICK_CARDS, highest, lane_of, side_at, side_of,
};
use pattern_step::PatCard;
use std::alloc::{AllocError, Global};

/// Where fewer steps than these are left for each block of records, the first card that shows a tree is taken.
const STEPS_A_BLOCK: u64 = 40;

/// The start of a trick, as a node has it: a record that serves a position, and the seat that leads. In a child that
/// seat has won the trick before.
#[derive(Clone, Copy, Default)]
pub(crate) struct TrickStart {
    /// The cards in all hands.
    pub left: CardSet,
    /// The lengths, as the search has them.
    pub lengths: Lengths,
    /// The number of the record.
    pub record: u32,
    pub leader: usize,
}

/// A child of the tree in work: the place of its token, and where it starts.
#[derive(Clone, Copy)]
pub(crate) struct PlannedChild {
    pub place: usize,
    pub start: TrickStart,
}

/// What of a side is proved so far: the tree in work, and the numbers of the nodes.
#[derive(Drop)]
pub(crate) struct Plan {
    /// The children have no numbers yet.
    pub tokens: Vec<Token>,
    /// The children in it, in their order.
    pub children: Vec<PlannedChild>,
    /// By the number of a record that of its node, from 1.
    pub numbers: Vec<u32>,
    /// The side for which it is.
    pub side: Side,
    /// Whether the first card that shows a tree is taken, since steps are short.
    is_thrifty: bool,
    /// The suits as they lie in a word, from the lowest.
    suits: [Suit; 4],
    /// Where the suits lie in a word, spades first.
    pub lanes: [usize; 4],
    /// The lengths that were looked up last, and the number of their shape.
    pub shape: (Lengths, Option<u32>),
    /// The pattern of the node in work.
    pub held: PatternStart,
    /// How many tricks it has to show.
    pub need: i32,
    /// The seats after whose trick the side still needs some, as `seat_bit` has them.
    pub unsettled: u32,
}

impl Plan {
    /// Nothing is proved yet.
    pub(crate) fn new(alloc: Global, search: &Search, side: Side) -> Result<Plan, AllocError> {
        let suits = search.deal.suits;
        let short = STEPS_A_BLOCK.saturating_mul(search.records.blocks() as u64);
        Ok(Plan {
            tokens: Vec::new(alloc),
            children: Vec::new(alloc),
            numbers: vec![in alloc; 0; search.records.blocks().saturating_mul(4)]?,
            side,
            is_thrifty: search.steps < short,
            suits,
            lanes: [
                lane_of(suits, Suit::Spades),
                lane_of(suits, Suit::Hearts),
                lane_of(suits, Suit::Diamonds),
                lane_of(suits, Suit::Clubs),
            ],
            shape: (u64::MAX, None),
            held: PatternStart::default(),
            need: 0,
            unsettled: 0,
        })
    }

    /// Adds the tree of a node, which shows so many tricks of this pattern. None where what is remembered does not show
    /// them, no steps are left or memory runs out.
    pub(crate) fn show(
        &mut self,
        search: &mut Search,
        held: PatternStart,
        leader: usize,
        need: i32,
    ) -> Option<u32> {
        self.begin(held, need);
        let trick = PatternTrick::start(&held, leader);
        self.add_tree(search, TRICK_CARDS, &trick, u32::MAX)
    }

    /// Begins the tree of a node, which is to show so many tricks of this pattern.
    pub(crate) fn begin(&mut self, held: PatternStart, need: i32) {
        self.tokens.truncate(0);
        self.children.truncate(0);
        self.unsettled = self.unsettled_after(need);
        self.held = held;
        self.need = need;
    }

    /// The seats after whose trick the side still needs some, where it needed so many before.
    fn unsettled_after(&self, need: i32) -> u32 {
        if need > 1 {
            0x1111
        } else if need <= 0 {
            0
        } else {
            match self.side {
                Side::NorthSouth => 0x1010,
                Side::EastWest => 0x0101,
            }
        }
    }

    /// The number of a record's node, from 1; 0 where it has none.
    pub(crate) fn number(&self, record: u32) -> u32 {
        self.numbers.get(record as usize).copied().unwrap_or(0)
    }

    /// Whether the seat is of the plan's side.
    pub(crate) fn owns(&self, seat: usize) -> bool {
        side_at(side_of(seat)) == self.side
    }

    /// A card as the graph names it.
    pub(crate) fn named(&self, card: CardSet) -> PatCard {
        let suit = self.suits[(card.trailing_zeros() >> 4 & 3) as usize];
        match self.held.place_of(card) {
            Some(place) => PatCard::Top(suit, place),
            None => PatCard::Low(suit),
        }
    }

    /// Adds a token. None where memory runs out.
    pub(crate) fn push(&mut self, search: &mut Search, token: Token) -> Option<()> {
        if self.tokens.push(token).is_err() {
            search.run_out();
            return None;
        }
        Some(())
    }

    /// Spends a step. None where none is left.
    fn spend(search: &mut Search) -> Option<()> {
        if search.steps == 0 {
            return None;
        }
        search.steps -= 1;
        Some(())
    }

    /// Adds the tree of what follows, with so many cards to be played, and answers what its new nodes cost. None where
    /// what is remembered does not show it for less than the limit, no steps are left or memory runs out; what was
    /// added is then of no use.
    #[cycle(planning)]
    pub(crate) fn add_tree(
        &mut self,
        search: &mut Search,
        cards: u32,
        trick: &PatternTrick,
        limit: u32,
    ) -> Option<u32> {
        if cards == 0 {
            return None;
        }
        if !self.owns(trick.seat()) {
            return self.add_reply(search, cards - 1, trick, limit);
        }
        if cards == 1 {
            return self.add_last(search, trick, limit);
        }
        self.add_own(search, cards - 1, trick, limit)
    }

    /// Adds the card of the side whose tree's new nodes cost least, before so many others.
    #[cycle(planning)]
    fn add_own(
        &mut self,
        search: &mut Search,
        others: u32,
        trick: &PatternTrick,
        limit: u32,
    ) -> Option<u32> {
        let begin = self.size();
        let mut least = limit;
        let mut found = None;
        let mut waiting = self.held.legal_cards(trick);
        let first = self.first_card(trick);
        for _ in 0..u64::BITS {
            if waiting == 0 || least == 0 || self.is_thrifty && found.is_some() {
                break;
            }
            let card = if waiting & first != 0 {
                waiting & first
            } else {
                self.held.choose(trick, waiting, others)
            };
            waiting &= !card;
            let from = self.size();
            Plan::spend(search)?;
            let after = trick.after(&self.held, card, search.deal.trumps);
            self.push(search, Token::Own(self.named(card)))?;
            let cost = self.add_tree(search, others, &after, least);
            if let Some(new) = cost {
                self.drop_between(begin, from);
                least = new;
                found = cost;
            } else {
                self.tokens.truncate(from.0);
                self.children.truncate(from.1);
            }
        }
        found
    }

    /// The card that showed the node's record, where it is the turn to lead.
    fn first_card(&self, trick: &PatternTrick) -> CardSet {
        if trick.led == 0 {
            self.held.first_card
        } else {
            0
        }
    }

    /// How many tokens and children there are.
    fn size(&self) -> (usize, usize) {
        (self.tokens.len(), self.children.len())
    }

    /// Drops the tokens and children from the first size up to the second.
    fn drop_between(&mut self, begin: (usize, usize), from: (usize, usize)) {
        if begin.0 == from.0 {
            return;
        }
        let mut to = begin.0;
        for place in from.0..self.tokens.len() {
            let Some(token) = self.tokens.get(place).copied() else {
                break;
            };
            if let Some(old) = self.tokens.get_mut(to) {
                *old = token;
            }
            to = to.wrapping_add(1);
        }
        self.tokens.truncate(to);
        self.drop_children(begin.1, from.1, from.0.wrapping_sub(begin.0));
    }

    /// Drops the children from the first place up to the second. The tokens of those after them now stand so much
    /// before.
    fn drop_children(&mut self, begin: usize, from: usize, gone: usize) {
        let mut to = begin;
        for place in from..self.children.len() {
            let Some(mut child) = self.children.get(place).copied() else {
                break;
            };
            child.place = child.place.wrapping_sub(gone);
            if let Some(old) = self.children.get_mut(to) {
                *old = child;
            }
            to = to.wrapping_add(1);
        }
        self.children.truncate(to);
    }

    /// Adds cards of the opponents, each before so many others: of each run the highest, which serves for the others,
    /// and the low ones.
    #[cycle(planning)]
    fn add_reply(
        &mut self,
        search: &mut Search,
        others: u32,
        trick: &PatternTrick,
        limit: u32,
    ) -> Option<u32> {
        self.push(search, Token::Reply)?;
        let mut sum = 0u32;
        let mut waiting = self.held.legal_cards(trick);
        for _ in 0..u64::BITS {
            if waiting == 0 {
                break;
            }
            let card = self.first_of(waiting, trick);
            waiting &= !card;
            let begin = self.tokens.len();
            let named = self.named(card);
            Plan::spend(search)?;
            let after = trick.after(&self.held, card, search.deal.trumps);
            self.push(search, Token::Branch(named, 0))?;
            let rest = limit.saturating_sub(sum);
            let cost = if others == 0 {
                let leaf = self.leaf(search, &after, rest)?;
                self.add_leaf(search, &leaf)?
            } else {
                self.add_tree(search, others, &after, rest)?
            };
            self.end_branch(begin, named);
            sum = sum.saturating_add(cost);
        }
        Some(sum)
    }

    /// Says in the token of a branch, which stands in this place, of how many tokens what follows it is.
    pub(crate) fn end_branch(&mut self, begin: usize, card: PatCard) {
        let count = self.tokens.len().wrapping_sub(begin).wrapping_sub(1);
        if let Some(token) = self.tokens.get_mut(begin) {
            *token = Token::Branch(card, (count & 0xffff_ffff) as u32);
        }
    }

    /// The first of these cards: spades first, and of a suit the highest first. They follow suit, or none does.
    fn first_of(&self, cards: CardSet, trick: &PatternTrick) -> CardSet {
        if cards & cards.wrapping_sub(1) == 0 {
            return cards;
        }
        if cards & trick.led != 0 {
            return highest(cards);
        }
        for number in 0..4usize {
            let suit = cards & SUIT.wrapping_shl((self.lanes[number] & 3) as u32 * 16);
            if suit != 0 {
                return highest(suit);
            }
        }
        0
    }

    /// Adds the last card of a trick, where it is the side's: the one whose new children cost least.
    fn add_last(&mut self, search: &mut Search, trick: &PatternTrick, limit: u32) -> Option<u32> {
        let (card, leaf) = self.best_last(search, trick, limit)?;
        Plan::spend(search)?;
        self.push(search, Token::Own(self.named(card)))?;
        self.add_leaf(search, &leaf)
    }
}
