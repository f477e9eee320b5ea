//! A side's strategy told card by card, as a certificate of the first version: a node for each position in which a
//! trick can begin, whose pattern names every card.

use crate::contracts::taken;
use crate::expect::{got, some};
use cards::{Card, Rank, Seat, Suit, Trump};
use certificate_graph::Graph;
use certificate_play::Playing;
use std::alloc::Global;
use std::process::Abort;

/// The letters of the highest cards of a suit, by their places.
const PLACES: [&str; 13] = [
    "a", "b", "c", "d", "e", "f", "g", "h", "i", "j", "k", "l", "m",
];

/// A position in which a trick begins: which cards were played, a bit each, who leads, and what the side still needs.
type Begun = (u64, Seat, u8);

/// The lines of the nodes that are told, and of each node, also of one still to be told, its position, and a play that
/// leads there.
#[derive(Drop)]
struct Told<'a> {
    text: String,
    begun: Vec<Begun>,
    plays: Vec<Playing<'a>>,
}

/// The certificate of what the side does from here on, which is before the opening lead.
pub fn told_card_by_card(
    rt: &impl Abort,
    alloc: Global,
    start: &Playing<'_>,
    trump: Trump,
) -> Graph {
    let mut told = Told {
        text: String::new(alloc),
        begun: Vec::new(alloc),
        plays: Vec::new(alloc),
    };
    if needs(start) > 0 {
        let lead = some(rt, start.turn());
        number_of(rt, &mut told, start, lead);
    }
    for place in 0..u64::MAX {
        let Some(play) = told.plays.get(place as usize) else {
            break;
        };
        let play = play.clone().unwrap();
        tell_node(rt, alloc, &mut told, &play);
    }
    let (side, count, nodes) = (start.side(), told.plays.len(), told.text.as_str());
    let text = format!(in alloc; "DDC 1\ntrump {trump}\nside {side}\nnodes {count}\n{nodes}");
    got(rt, Graph::read(alloc, got(rt, text).as_bytes()))
}

/// Tells this.
fn tell(rt: &impl Abort, text: &mut String, told: &str) {
    got(rt, text.push_str(told));
}

/// How many tricks of those that it promised the side still needs.
fn needs(play: &Playing<'_>) -> u8 {
    play.promised().saturating_sub(play.won())
}

/// Which cards were played so far, a bit each.
fn played(play: &Playing<'_>) -> u64 {
    let mut cards = 0u64;
    for card in play.history() {
        cards |= 1u64.wrapping_shl(card.number() as u32);
    }
    cards
}

/// The number of the node of the trick to which this seat leads here: a new one where the position has none yet.
fn number_of<'a>(rt: &impl Abort, told: &mut Told<'a>, play: &Playing<'a>, lead: Seat) -> usize {
    let begun = (played(play), lead, needs(play));
    if let Some(number) = told.begun.iter().position(|other| *other == begun) {
        return number;
    }
    let number = told.begun.len();
    got(rt, told.begun.push(begun));
    got(rt, told.plays.push(play.clone().unwrap()));
    number
}

/// Tells the node of the trick that begins here.
fn tell_node<'a>(rt: &impl Abort, alloc: Global, told: &mut Told<'a>, play: &Playing<'a>) {
    let lead = some(rt, play.turn());
    let needs = needs(play);
    let begun = got(rt, format!(in alloc; "{lead} {needs}"));
    tell(rt, &mut told.text, begun.as_str());
    for suit in Suit::ALL {
        tell_suit(rt, alloc, &mut told.text, play, suit);
    }
    tell(rt, &mut told.text, " ");
    tell_tree(rt, alloc, told, play, play, 4);
    tell(rt, &mut told.text, "\n");
}

/// Tells how many cards of the suit each seat has, and who owns them, the highest first.
fn tell_suit(rt: &impl Abort, alloc: Global, text: &mut String, play: &Playing<'_>, suit: Suit) {
    let mut counts = [0u8; 4];
    let mut owners = String::new(alloc);
    for rank in Rank::FALLING {
        if let Some(seat) = play.holder(Card { suit, rank }) {
            counts[seat.number()] = counts[seat.number()].wrapping_add(1);
            tell(rt, &mut owners, seat.letter());
        }
    }
    let [north, east, south, west] = counts;
    let owners = owners.as_str();
    let told = got(
        rt,
        format!(in alloc; " {north}.{east}.{south}.{west}/{owners}"),
    );
    tell(rt, text, told.as_str());
}

/// Tells the card by the place that it had when the trick began.
fn tell_card(rt: &impl Abort, text: &mut String, start: &Playing<'_>, card: Card) {
    let mut place = 0usize;
    for rank in Rank::FALLING {
        let other = Card {
            suit: card.suit,
            rank,
        };
        if rank > card.rank && start.holder(other).is_some() {
            place = place.wrapping_add(1);
        }
    }
    tell(rt, text, card.suit.letter());
    tell(rt, text, *some(rt, PLACES.get(place)));
}

/// Tells what is done from here on in the trick that began there, to which so many cards are still to be played.
fn tell_tree<'a>(
    rt: &impl Abort,
    alloc: Global,
    told: &mut Told<'a>,
    start: &Playing<'a>,
    play: &Playing<'a>,
    left: u8,
) {
    let Some(seat) = play.turn() else {
        tell(rt, &mut told.text, "{}");
        return;
    };
    if left == 0 {
        return tell_leaf(rt, alloc, told, play, seat);
    }
    if seat.side() == play.side() {
        let mut after = play.clone().unwrap();
        tell_card(rt, &mut told.text, start, after.answer());
        return tell_tree(rt, alloc, told, start, &after, left - 1);
    }
    tell(rt, &mut told.text, "(");
    for card in play.legal().as_slice() {
        let after = taken(rt, play, *card);
        tell_card(rt, &mut told.text, start, *card);
        tell_tree(rt, alloc, told, start, &after, left - 1);
    }
    tell(rt, &mut told.text, ")");
}

/// Tells who has won the trick, and the node that goes on, if more is needed.
fn tell_leaf<'a>(
    rt: &impl Abort,
    alloc: Global,
    told: &mut Told<'a>,
    play: &Playing<'a>,
    winner: Seat,
) {
    if needs(play) == 0 {
        tell(rt, &mut told.text, "{}");
        return;
    }
    let number = number_of(rt, told, play, winner);
    let leaf = got(rt, format!(in alloc; "{{{winner}{number}}}"));
    tell(rt, &mut told.text, leaf.as_str());
}
