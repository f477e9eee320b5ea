//! The leaves of a tree in work: the records that go on after its trick.

use crate::pattern_tricks::PatternTrick;
use crate::plans::{Plan, PlannedChild, TrickStart};
use cards::Seat;
use certificate_graph::Token;
use partition_search::{CardSet, Lengths, Search};

/// The records that go on after a trick, by the seat that won it, 0 where none is needed, and what the new nodes cost:
/// one each, and one for each owner that they name.
#[derive(Clone, Copy)]
pub(crate) struct Leaf {
    /// The cards that are left.
    left: CardSet,
    lengths: Lengths,
    records: [u32; 4],
    cost: u32,
}

impl Plan {
    /// The last card of a trick whose new children cost least, and the children.
    pub(crate) fn best_last(
        &mut self,
        search: &Search,
        trick: &PatternTrick,
        limit: u32,
    ) -> Option<(CardSet, Leaf)> {
        let mut waiting = self.held.legal_cards(trick);
        let mut least = limit;
        let mut best = None;
        for _ in 0..u64::BITS {
            if waiting == 0 || least == 0 {
                break;
            }
            let card = self.held.choose(trick, waiting, 0);
            waiting &= !card;
            let after = trick.after(&self.held, card, search.deal.trumps);
            if let Some(leaf) = self.leaf(search, &after, least) {
                least = leaf.cost;
                best = Some((card, leaf));
            }
        }
        best
    }

    /// Adds the tokens of a leaf, and answers its cost. None where memory runs out.
    pub(crate) fn add_leaf(&mut self, search: &mut Search, leaf: &Leaf) -> Option<u32> {
        for leader in 0..4usize {
            if leaf.records[leader] != 0 {
                let start = TrickStart {
                    left: leaf.left,
                    lengths: leaf.lengths,
                    record: leaf.records[leader],
                    leader,
                };
                self.add_child(search, start)?;
            }
        }
        Some(leaf.cost)
    }

    /// Adds a child. None where memory runs out.
    fn add_child(&mut self, search: &mut Search, start: TrickStart) -> Option<()> {
        let place = self.tokens.len();
        if self.children.push(PlannedChild { place, start }).is_err() {
            search.run_out();
            return None;
        }
        self.push(search, Token::Child(Seat::ALL[start.leader & 3], 0))
    }

    /// The children after a trick. None where what is remembered does not show them for less than the limit.
    #[inline(always)]
    pub(crate) fn leaf(
        &mut self,
        search: &Search,
        trick: &PatternTrick,
        limit: u32,
    ) -> Option<Leaf> {
        let mut leaf = Leaf {
            left: self.held.cards_left(trick),
            lengths: trick.lengths,
            records: [0; 4],
            cost: 0,
        };
        let unsettled = trick.winners & self.unsettled;
        if unsettled != 0 {
            self.add_children(search, trick, unsettled, &mut leaf)?;
        }
        if leaf.cost < limit { Some(leaf) } else { None }
    }

    /// Puts in a child for each of these seats, of which one wins the trick: a record that has a node already, else the
    /// one that names the fewest owners.
    fn add_children(
        &mut self,
        search: &Search,
        trick: &PatternTrick,
        winners: u32,
        leaf: &mut Leaf,
    ) -> Option<()> {
        let shape = self.shape(search, trick.lengths);
        let mut waiting = winners;
        let mut seat = (waiting.trailing_zeros() >> 2 & 3) as usize;
        let mut list = search.records.list(shape, seat, self.side)?;
        let remains = self.held.remains(&search.deal, trick);
        for _ in 0..4 {
            let won = if self.owns(seat) { 1 } else { 0 };
            let record = search.records.find_known(
                list,
                remains.owners,
                remains.known,
                (self.need.wrapping_sub(won) & 15) as u8,
                |record| self.number(record) != 0,
            )?;
            leaf.cost = leaf.cost.wrapping_add(self.cost_of(search, record));
            leaf.records[seat & 3] = record;
            waiting &= waiting.wrapping_sub(1);
            if waiting == 0 {
                break;
            }
            seat = (waiting.trailing_zeros() >> 2 & 3) as usize;
            list = search.records.list(shape, seat, self.side)?;
        }
        Some(())
    }

    /// The number of the shape with these lengths, if it has one. Leaves of a trick are mostly of one shape.
    fn shape(&mut self, search: &Search, lengths: Lengths) -> Option<u32> {
        if self.shape.0 != lengths {
            self.shape = (lengths, search.records.shape(lengths));
        }
        self.shape.1
    }

    /// What a child of this record costs: nothing where it has a node already.
    fn cost_of(&self, search: &Search, record: u32) -> u32 {
        if self.number(record) != 0 {
            return 0;
        }
        u32::from(search.records.record(record).owners_named()) + 1
    }
}
