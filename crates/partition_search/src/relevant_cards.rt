//! Which cards were relevant: those whose rank an answer needed. The lowest of a suit tells how deep it has to be
//! known.

use crate::moves::Move;
use crate::positions::Trick;
use crate::words::{
    CardSet, PACK, SUIT, below, below_lowest, lowest, lowest_of_each, lowest_run, start_of,
    suit_of, suits_of_cards,
};
use pattern_store::NO_CARD;

/// The place of a low card, where a record names one.
pub const LOW: u32 = 15;

/// The bit above those of the lowest suit.
const ABOVE_SUIT: u64 = SUIT + 1;

/// How deep the lowest relevant card of the suit that starts here lies: 0 where there is none, without a jump for that.
fn depth_of(left: CardSet, relevant: CardSet, start: u32) -> u16 {
    let named = relevant.wrapping_shr(start) & SUIT | ABOVE_SUIT;
    let above = (left.wrapping_shr(start) & SUIT).wrapping_shr(named.trailing_zeros());
    (above.count_ones() & 15) as u16
}

/// The depths that the relevant cards need, four bits a suit.
pub fn depths_of(left: CardSet, relevant: CardSet) -> u16 {
    depth_of(left, relevant, 0)
        | depth_of(left, relevant, 16).wrapping_shl(4)
        | depth_of(left, relevant, 32).wrapping_shl(8)
        | depth_of(left, relevant, 48).wrapping_shl(12)
}

/// How many owners have to be known for these cards: of each suit those down to its lowest card.
fn owners_named(left: CardSet, relevant: CardSet) -> u32 {
    (left & !below_lowest(relevant)).count_ones()
}

/// Whether fewer owners have to be known for the first cards than for the second.
pub fn needs_fewer(left: CardSet, first: CardSet, second: CardSet) -> bool {
    owners_named(left, first) < owners_named(left, second)
}

/// The card as a pattern of these depths names it: its suit times sixteen, and its place, or `LOW` for a low card.
pub fn named_card(left: CardSet, depths: u16, card: CardSet) -> u8 {
    if card == 0 {
        return NO_CARD;
    }
    let start = start_of(card);
    let above = (left & suit_of(card) & !below(card) & !card).count_ones();
    let depth = u32::from(depths.wrapping_shr(start >> 2) & 15);
    let place = if above < depth { above } else { LOW };
    ((start | place) & 63) as u8
}

/// The cards of each hand below which no other hand has a card of their suit.
fn lone_cards(hands: &[CardSet; 4], left: CardSet) -> CardSet {
    let gone = PACK & !left;
    hands[0] & lowest_run(hands[0] | gone)
        | hands[1] & lowest_run(hands[1] | gone)
        | hands[2] & lowest_run(hands[2] | gone)
        | hands[3] & lowest_run(hands[3] | gone)
}

/// The cards that have to be named for these. Where one hand alone has the lowest cards of a suit, the lengths tell who
/// owns them: it is enough to name those above.
pub fn without_lone(hands: &[CardSet; 4], left: CardSet, relevant: CardSet) -> CardSet {
    let lone = lone_cards(hands, left);
    let told = relevant & lone;
    if told == 0 {
        return relevant;
    }
    let above = lowest_of_each(left & !lone);
    relevant & !told | above & suits_of_cards(told)
}

/// The cards whose rank matters after a trick: those of the rest, and that of the winner where others played to its
/// suit.
pub fn relevant_after(trick: &Trick, rest: CardSet) -> CardSet {
    if trick.is_contended() {
        rest | trick.best
    } else {
        rest
    }
}

/// The cards that were relevant to a card of the other side: those that its answer needs, and its whole run where its
/// lowest relevant card would cut it.
pub fn whole_runs(tried: Move, relevant: CardSet) -> CardSet {
    let cut = lowest(relevant & suit_of(tried.bottom));
    if cut > tried.bottom && cut <= tried.top {
        relevant | tried.bottom
    } else {
        relevant
    }
}
