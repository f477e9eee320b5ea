//! Trees that are built by hand, and the texts of their graphs.

use crate::certificates::{ACE, FINESSE};
use crate::expect::{expect_bytes, expect_eq, got};
use cards::{Buffer, Seat, Side, Suit, Trump};
use certificate_graph::{Child, Graph, Node, Tree, Version};
use pattern_step::PatCard;
use patterns::Pattern;
use std::alloc::Global;
use std::process::Abort;

const FIRST: PatCard = PatCard::Top(Suit::Spades, 0);

const SECOND: PatCard = PatCard::Top(Suit::Spades, 1);

const THIRD: PatCard = PatCard::Top(Suit::Spades, 2);

const LOW: PatCard = PatCard::Low(Suit::Spades);

/// The second node goes on after North won.
const TO_SECOND: Child = Child {
    winner: Seat::North,
    number: 1,
};

/// The word of a suit: one card each, North's the ace.
const ONE_EACH: u64 = 0x11111;

/// The word of a suit: two cards each, of which the highest three are North's, West's and North's.
const TWO_EACH: u64 = 0xC3_2222;

/// This card of the side, and then this tree.
fn own(rt: &impl Abort, alloc: Global, card: PatCard, below: &Tree) -> Tree {
    got(rt, Tree::own(alloc, card, below))
}

/// The opponents play a low card.
fn after_low(rt: &impl Abort, alloc: Global, below: Tree) -> Tree {
    got(rt, Tree::reply(alloc, &[(LOW, below)]))
}

/// This card of North, a low one of East, and the second node.
fn north_wins(rt: &impl Abort, alloc: Global, card: PatCard) -> Tree {
    let leaf = got(rt, Tree::leaf(alloc, &[TO_SECOND]));
    own(rt, alloc, card, &after_low(rt, alloc, leaf))
}

/// South leads a low card. North covers West's second-highest card, and else plays the third-highest.
fn finesse(rt: &impl Abort, alloc: Global) -> Tree {
    let branches = [
        (SECOND, north_wins(rt, alloc, FIRST)),
        (LOW, north_wins(rt, alloc, THIRD)),
    ];
    own(rt, alloc, LOW, &got(rt, Tree::reply(alloc, &branches)))
}

/// North leads the highest card, and all others play low.
fn highest_led(rt: &impl Abort, alloc: Global) -> Tree {
    let leaf = got(rt, Tree::leaf(alloc, &[]));
    let low = own(rt, alloc, LOW, &after_low(rt, alloc, leaf));
    own(rt, alloc, FIRST, &after_low(rt, alloc, low))
}

/// East leads, and North takes the trick with the highest card.
fn highest_last(rt: &impl Abort, alloc: Global) -> Tree {
    let leaf = got(rt, Tree::leaf(alloc, &[]));
    let highest = own(rt, alloc, FIRST, &leaf);
    let low = own(rt, alloc, LOW, &after_low(rt, alloc, highest));
    after_low(rt, alloc, low)
}

/// A node with cards of spades alone, by the word of that suit.
fn node(rt: &impl Abort, word: u64, lead: Seat, need: u8, tree: Tree) -> Node {
    Node {
        pattern: got(rt, Pattern::from_words([word, 0, 0, 0])),
        lead,
        need,
        tree,
    }
}

/// The graph of these nodes has this text.
fn expect_text(rt: &impl Abort, alloc: Global, nodes: Vec<Node>, text: &[u8]) {
    let graph = Graph::new(Version::One, Trump::Nt, Side::NorthSouth, nodes);
    let mut sink = got(rt, Buffer::new(alloc, 200, 200));
    expect_eq(rt, &got(rt, graph).write(&mut sink), &Ok(()));
    expect_bytes(rt, sink.bytes(), text);
}

#[test]
fn ace(rt: HostRuntime) {
    let tree = highest_last(&rt, rt.alloc());
    let east = node(&rt, ONE_EACH, Seat::East, 1, tree);
    let nodes = got(&rt, Vec::from_array(rt.alloc(), [east]));
    expect_text(&rt, rt.alloc(), nodes, ACE);
}

#[test]
fn finesse_and_ace(rt: HostRuntime) {
    let tree = finesse(&rt, rt.alloc());
    let south = node(&rt, TWO_EACH, Seat::South, 2, tree);
    let tree = highest_led(&rt, rt.alloc());
    let north = node(&rt, ONE_EACH, Seat::North, 1, tree);
    let nodes = got(&rt, Vec::from_array(rt.alloc(), [south, north]));
    expect_text(&rt, rt.alloc(), nodes, FINESSE);
}
