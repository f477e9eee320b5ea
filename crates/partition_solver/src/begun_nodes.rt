//! The begun nodes: each shows what a side wins after some cards of the first trick, which are the path in its tree.
//! Its pattern names the owners of all cards.

use crate::graph_writing::Writing;
use crate::pattern_tricks::{PatternStart, PatternTrick, depths_in};
use crate::plans::Plan;
use certificate_graph::{Node, Token};
use partition_search::{Begun, CardSet, Holdings, Search};
use pattern_store::{NO_CARD, Record};

impl Plan {
    /// Adds the tree of a begun node from the next cards of its path on. Answers what its new nodes cost. None where
    /// what is remembered does not show it, no steps are left or memory runs out.
    fn add_path(
        &mut self,
        search: &mut Search,
        path: &[CardSet],
        trick: &PatternTrick,
        others: u32,
    ) -> Option<u32> {
        let Some((card, rest)) = path.split_first() else {
            return self.add_rest(search, trick, others);
        };
        let named = self.named(*card);
        let after = trick.after(&self.held, *card, search.deal.trumps);
        if self.owns(trick.seat()) {
            self.push(search, Token::Own(named))?;
            return self.add_path(search, rest, &after, others);
        }
        self.push(search, Token::Reply)?;
        let begin = self.tokens.len();
        self.push(search, Token::Branch(named, 0))?;
        let cost = self.add_path(search, rest, &after, others)?;
        self.end_branch(begin, named);
        Some(cost)
    }

    /// Adds the tree of what follows the path, with so many cards to be played to the trick.
    fn add_rest(&mut self, search: &mut Search, trick: &PatternTrick, others: u32) -> Option<u32> {
        if others > 0 {
            return self.add_tree(search, others, trick, u32::MAX);
        }
        let leaf = self.leaf(search, trick, u32::MAX)?;
        self.add_leaf(search, &leaf)
    }
}

impl Writing {
    /// The begun node that shows that the side wins so many tricks after these cards. The nodes that it names are put
    /// down. None where what is remembered does not show it, no steps are left or memory runs out.
    pub(crate) fn begun_node(
        &mut self,
        search: &mut Search,
        begun: &Begun,
        need: i32,
    ) -> Option<Node> {
        let lengths = Holdings::of(search.deal.hands).lengths;
        let left = search.all_cards();
        let cards = left.cards;
        let need_bits = (need & 15) as u8;
        let record = Record::new(
            left.near,
            || left.deep(),
            depths_in(cards),
            need_bits,
            NO_CARD,
        );
        let held = PatternStart::of(&search.deal, &record, cards, lengths);
        self.plan.begin(held, need);
        let trick = PatternTrick::start(&held, begun.leader);
        let path = begun.cards.as_slice();
        self.plan.add_path(search, path, &trick, begun.others())?;
        self.node_of(search, &record, lengths, begun.leader)
    }
}
