//! Graphs of nodes and their texts. Texts that are refused are among the worked cases (`worked_cases`).

use crate::certificates::{ACE, FINESSE, NOTHING, SECOND_ACE};
use crate::expect::{expect_bytes, expect_eq, got, some};
use cards::{Buffer, DeviceFault, Seat, Side, Suit, Trump};
use certificate_graph::{Child, Graph, GraphFault, Node, TextFault, Token, Tree, Version};
use pattern_step::PatCard;
use patterns::Pattern;
use std::alloc::Global;
use std::process::Abort;

/// The graph is written as this text, in pieces of `piece` bytes.
fn expect_written(rt: &impl Abort, alloc: Global, graph: &Graph, piece: usize, text: &[u8]) {
    let mut sink = got(rt, Buffer::new(alloc, 200, piece));
    expect_eq(rt, &graph.write(&mut sink), &Ok(()));
    expect_bytes(rt, sink.bytes(), text);
}

/// What is read is written as it was, in pieces of any size.
#[test]
fn written_as_read(rt: HostRuntime) {
    for text in [FINESSE, ACE, SECOND_ACE, NOTHING] {
        let graph = got(&rt, Graph::read(rt.alloc(), text));
        for piece in [1, 7, 200] {
            expect_written(&rt, rt.alloc(), &graph, piece, text);
        }
    }
}

/// What is built is written as what is read.
#[test]
fn written_as_built(rt: HostRuntime) {
    for (version, text) in [(Version::One, ACE), (Version::Two, SECOND_ACE)] {
        let nodes = ace(&rt, rt.alloc(), TOP_OF_NORTH, 1, &[]);
        let built = Graph::new(version, Trump::Nt, Side::NorthSouth, nodes);
        let built = got(&rt, built);
        expect_eq(&rt, &built.version(), &version);
        expect_written(&rt, rt.alloc(), &built, 200, text);
    }
}

/// A sink with too little room gets the beginning of the text, and a fault.
#[test]
fn written_in_part(rt: HostRuntime) {
    let graph = got(&rt, Graph::read(rt.alloc(), FINESSE));
    for room in 0..FINESSE.len() {
        let mut sink = got(&rt, Buffer::new(rt.alloc(), room, 3));
        expect_eq(&rt, &graph.write(&mut sink), &Err(DeviceFault));
        expect_bytes(&rt, sink.bytes(), &FINESSE[..room]);
    }
}

/// The fault of the first so many bytes of the finesse.
fn fault_of_beginning(count: usize) -> TextFault {
    match count {
        0..6 => TextFault::Head { line: 1 },
        6..15 => TextFault::Head { line: 2 },
        15..23 => TextFault::Head { line: 3 },
        23..31 => TextFault::Head { line: 4 },
        31 => TextFault::Count { line: 5 },
        32..103 => TextFault::NodeForm { line: 5 },
        103 => TextFault::Count { line: 6 },
        _ => TextFault::NodeForm { line: 6 },
    }
}

#[test]
fn beginnings(rt: HostRuntime) {
    expect_eq(&rt, &FINESSE.len(), &159);
    for count in 0..FINESSE.len() {
        let fault = Graph::read(rt.alloc(), &FINESSE[..count]).err();
        expect_eq(&rt, &fault, &Some(fault_of_beginning(count)));
    }
}

/// The word of a suit: one card of spades each, North's the ace.
const ONE_EACH: u64 = 0x11111;

const LOW: PatCard = PatCard::Low(Suit::Spades);

/// How the ace is played, with this card for it and these children at the end.
fn tree_of_ace(rt: &impl Abort, alloc: Global, card: PatCard, children: &[Child]) -> Tree {
    // The table below has two at most.
    let count = (children.len() & 3) as u32;
    let cards = [
        Token::Reply,
        Token::Branch(LOW, count + 4),
        Token::Own(LOW),
        Token::Reply,
        Token::Branch(LOW, count + 1),
        Token::Own(card),
    ];
    let mut tokens = got(rt, Vec::from_slice(alloc, &cards));
    for child in children {
        got(rt, tokens.push(Token::Child(child.winner, child.number)));
    }
    some(rt, got(rt, Tree::from_tokens(alloc, tokens)))
}

/// The nodes of the ace, with this card for it, this need, and these children at the end.
fn ace(rt: &impl Abort, alloc: Global, card: PatCard, need: u8, children: &[Child]) -> Vec<Node> {
    let node = Node {
        pattern: got(rt, Pattern::from_words([ONE_EACH, 0, 0, 0])),
        lead: Seat::East,
        need,
        tree: tree_of_ace(rt, alloc, card, children),
    };
    got(rt, Vec::from_array(alloc, [node]))
}

/// North's ace, where the highest card of each suit is North's.
const TOP_OF_NORTH: PatCard = PatCard::Top(Suit::Spades, 0);

const TOP: PatCard = PatCard::Top(Suit::Spades, 12);

const PAST: PatCard = PatCard::Top(Suit::Spades, 13);

const OF_NORTH: Child = Child {
    winner: Seat::North,
    number: 0,
};

const OF_EAST: Child = Child {
    winner: Seat::East,
    number: 0,
};

const ABSENT: Child = Child {
    winner: Seat::South,
    number: 1,
};

/// The card, the need and the children of the ace, with the fault; none where they make a graph.
const NODES: [(PatCard, u8, &[Child], Option<GraphFault>); 6] = [
    (TOP, 13, &[OF_NORTH, OF_EAST], None),
    (PAST, 0, &[ABSENT], Some(GraphFault::Need)),
    (TOP, 14, &[], Some(GraphFault::Need)),
    (PAST, 1, &[ABSENT], Some(GraphFault::TreeForm)),
    (TOP, 1, &[OF_EAST, OF_NORTH], Some(GraphFault::TreeForm)),
    (TOP, 1, &[ABSENT], Some(GraphFault::ChildNumber)),
];

#[test]
fn nodes_of_no_graph(rt: HostRuntime) {
    for (card, need, children, fault) in NODES {
        let nodes = ace(&rt, rt.alloc(), card, need, children);
        let built = Graph::new(Version::One, Trump::Nt, Side::NorthSouth, nodes);
        expect_eq(&rt, &built.err(), &fault);
    }
}

const NORTH_TOKEN: Token = Token::Child(Seat::North, 0);

const EAST_TOKEN: Token = Token::Child(Seat::East, 0);

const ABSENT_TOKEN: Token = Token::Child(Seat::South, 1);

/// Tokens, and whether they are those of a tree.
const TOKENS: [(&[Token], bool); 12] = [
    (&[], true),
    (&[EAST_TOKEN, NORTH_TOKEN], true),
    (&[Token::Own(TOP), Token::Own(PAST), ABSENT_TOKEN], true),
    (&[Token::Reply], true),
    (
        &[Token::Reply, Token::Branch(LOW, 0), Token::Branch(LOW, 0)],
        true,
    ),
    (&[Token::Reply, Token::Branch(LOW, 1), EAST_TOKEN], true),
    (&[Token::Reply, Token::Branch(LOW, 2), EAST_TOKEN], false),
    (&[Token::Reply, Token::Branch(LOW, 0), EAST_TOKEN], false),
    (&[Token::Reply, Token::Own(LOW)], false),
    (&[Token::Reply, Token::Reply], false),
    (&[Token::Branch(LOW, 0)], false),
    (&[EAST_TOKEN, Token::Own(LOW)], false),
];

#[test]
fn tokens_of_trees(rt: HostRuntime) {
    for (tokens, is_tree) in TOKENS {
        let row = got(&rt, Vec::from_slice(rt.alloc(), tokens));
        let tree = got(&rt, Tree::from_tokens(rt.alloc(), row));
        expect_eq(&rt, &tree.is_some(), &is_tree);
        if let Some(tree) = tree {
            expect_eq(&rt, &(tree.tokens() == tokens), &true);
        }
    }
}
