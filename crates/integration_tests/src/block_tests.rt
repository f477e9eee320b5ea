//! Nodes that are put together block by block.

use crate::expect::{expect_eq, got, some};
use cards::{Seat, Suit};
use certificate_graph::{BareNode, Node, Token};
use pattern_step::PatCard;
use patterns::Pattern;
use std::alloc::Global;
use std::process::Abort;

/// The word of a suit: one card of spades each, North's the ace.
const ONE_EACH: u64 = 0x11111;

const LOW: PatCard = PatCard::Low(Suit::Spades);

const TOP: PatCard = PatCard::Top(Suit::Spades, 12);

/// The rows of two trees with three tokens each.
const ROW: [Token; 6] = [
    Token::Own(TOP),
    Token::Own(LOW),
    Token::Child(Seat::South, 1),
    Token::Reply,
    Token::Branch(LOW, 1),
    Token::Child(Seat::East, 0),
];

/// Numbers of tokens, and whether trees with so many are those of the row.
const COUNTS: [(&[usize], bool); 11] = [
    (&[3, 3], true),
    (&[3, 3, 0], true),
    (&[0, 3, 3], true),
    (&[1, 2, 3], true),
    (&[2, 1, 3], true),
    (&[], false),
    (&[6], false),
    (&[3, 2], false),
    (&[3, 4], false),
    (&[3, 2, 1], false),
    (&[4, 2], false),
];

/// Nodes without their trees, which have so many tokens.
fn bare_nodes(rt: &impl Abort, alloc: Global, counts: &[usize]) -> Vec<BareNode> {
    let pattern = got(rt, Pattern::from_words([ONE_EACH, 0, 0, 0]));
    let mut bares = Vec::new(alloc);
    for count in counts {
        let bare = BareNode {
            pattern,
            lead: Seat::West,
            need: 1,
            count: *count,
        };
        got(rt, bares.push(bare));
    }
    bares
}

/// Checks that these nodes have these numbers of tokens, which are together those of the row.
fn expect_trees(rt: &impl Abort, alloc: Global, nodes: &[Node], counts: &[usize]) {
    let mut row = Vec::new(alloc);
    for (node, count) in nodes.iter().zip(counts) {
        expect_eq(rt, &node.tree.tokens().len(), count);
        expect_eq(rt, &node.lead, &Seat::West);
        expect_eq(rt, &node.need, &1);
        got(rt, row.extend_from_slice(node.tree.tokens()));
    }
    expect_eq(rt, &(row.as_slice() == ROW.as_slice()), &true);
}

/// A list with one node.
fn one_node(rt: &impl Abort, alloc: Global) -> Vec<Node> {
    let mut nodes = Vec::new(alloc);
    let first = bare_nodes(rt, alloc, &[0]);
    let done = Node::push_all(alloc, first.as_slice(), &[], &mut nodes);
    expect_eq(rt, &got(rt, done), &true);
    nodes
}

/// A list gets the nodes of a block behind those that it has, or stays as it is.
#[test]
fn blocks_of_nodes(rt: HostRuntime) {
    for (counts, are_theirs) in COUNTS {
        let mut nodes = one_node(&rt, rt.alloc());
        let bares = bare_nodes(&rt, rt.alloc(), counts);
        let done = Node::push_all(rt.alloc(), bares.as_slice(), &ROW, &mut nodes);
        expect_eq(&rt, &got(&rt, done), &are_theirs);
        let added = if are_theirs { counts.len() } else { 0 };
        expect_eq(&rt, &nodes.len(), &added.saturating_add(1));
        if are_theirs {
            let theirs = some(&rt, nodes.as_slice().get(1..));
            expect_trees(&rt, rt.alloc(), theirs, counts);
        }
    }
}
