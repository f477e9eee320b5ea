//! Whether a tree is of the form, and which nodes it names.

ghost use Rattle.std.specs.Prelude.{◌≡◌, ◌↔◌, ◌<◌, IsTrue, All};
ghost use Rattle.std.specs.List.{AllByRecursion};
ghost use Rattle.certificate_graph.specs.Graphs.{card_place, IsCard, SeatsRise, HasForm, HaveForm, NamesBelow};
ghost use Rattle.certificate_graph.specs.Graphs.{NameBelow};
ghost use Rattle.certificate_graph.specs.RowNames.{NamesLess};

use crate::places::{Branches, Children, Place, PlaceView};
use crate::rows::Token;
use pattern_step::PatCard;

/// The cards of a trick: so many stand one below another in a tree at most.
pub(crate) const TRICK_CARDS: u8 = 4;

/// The tops of a suit, whose places are 0 to 12.
const TOPS: u8 = 13;

/// The places of a suit in the order of cards: its tops, and then the low card.
const SUIT_PLACES: u16 = 14;

/// The place of a card in the order by suit, and in a suit the tops by their places and then the low card.
pub(crate) fn card_place(card: PatCard) -> u16
    ensures { result ≡ card_place card }
{
    match card {
        PatCard::Top(suit, place) => SUIT_PLACES * suit.number() as u16 + u16::from(place),
        PatCard::Low(suit) => SUIT_PLACES * suit.number() as u16 + u16::from(TOPS),
    }
}

/// Whether a top is one of thirteen.
fn is_card(card: PatCard) -> bool
    ensures { IsTrue result ↔ IsCard card }
{
    match card {
        PatCard::Top(_, place) => place < TOPS,
        PatCard::Low(_) => true,
    }
}

/// Whether the seats rise, from this number on.
fn seats_rise(children: &Children<'_>, least: usize) -> bool
    ensures { IsTrue result ↔ SeatsRise least children.now }
{
    match children.split_first() {
        None => true,
        Some((child, rest)) => {
            least <= child.winner.number() && seats_rise(&rest, child.winner.number() + 1)
        }
    }
}

/// Whether the place and all below it are of the form, with room for so many cards one below another.
#[cycle(form)]
pub(crate) fn has_form(place: &Place<'_>, room: u8) -> bool
    ensures { IsTrue result ↔ HasForm room place.now }
{
    match place.view() {
        PlaceView::Own(card, below) => room > 0 && is_card(card) && has_form(&below, room - 1),
        PlaceView::Reply(branches) => room > 0 && have_form(&branches, room - 1, 0),
        PlaceView::Leaf(children) => seats_rise(&children, 0),
    }
}

/// Whether the branches are of the form, and their cards rise from this place on.
#[cycle(form)]
fn have_form(branches: &Branches<'_>, room: u8, least: u16) -> bool
    ensures { IsTrue result ↔ HaveForm room least branches.now }
{
    match branches.split_first() {
        None => true,
        Some((card, below, rest)) => {
            let place = card_place(card);
            is_card(card)
                && least <= place
                && has_form(&below, room)
                && have_form(&rest, room, place + 1)
        }
    }
}

/// Whether the children's seats rise, from this number on, and their numbers are below the count.
fn children_fit(children: Children<'_>, least: usize, count: u32) -> bool
    ensures { IsTrue result ↔ (SeatsRise least children.entry ×
        AllByRecursion (λ child. child.number < count) children.entry) }
{
    match children.split_first() {
        None => true,
        Some((child, rest)) => {
            let seat = child.winner.number();
            least <= seat && child.number < count && children_fit(rest, seat + 1, count)
        }
    }
}

/// Whether the place and all below it are of the form, with room for so many cards one below another, and the leaves
/// name nodes below the count: both in one pass.
#[cycle(fit)]
pub(crate) fn tree_fits(place: Place<'_>, room: u8, count: u32) -> bool
    ensures { IsTrue result ↔ (HasForm room place.entry × NamesBelow count place.entry) }
{
    match place.view() {
        PlaceView::Own(card, below) => room > 0
            && is_card(card)
            && tree_fits(below, room - 1, count),
        PlaceView::Reply(branches) => room > 0 && branches_fit(branches, room - 1, 0, count),
        PlaceView::Leaf(children) => children_fit(children, 0, count),
    }
}

/// Whether the branches are of the form, their cards rise from this place on, and their leaves name nodes below the
/// count.
#[cycle(fit)]
fn branches_fit(branches: Branches<'_>, room: u8, least: u16, count: u32) -> bool
    ensures { IsTrue result ↔ (HaveForm room least branches.entry × NameBelow count branches.entry) }
{
    match branches.split_first() {
        None => true,
        Some((card, below, rest)) => {
            let place = card_place(card);
            is_card(card)
                && least <= place
                && tree_fits(below, room, count)
                && branches_fit(rest, room, place + 1, count)
        }
    }
}

/// Whether the token names a node below this number, or none.
fn names_less(token: &Token, count: u32) -> bool
    ensures { IsTrue result ↔ NamesLess count token.now }
{
    match token {
        Token::Child(_, number) => *number < count,
        _ => true,
    }
}

/// Whether the tokens name nodes below this number alone.
pub(crate) fn all_name_less(row: &[Token], count: u32) -> bool
    ensures { IsTrue result ↔ All (NamesLess count) row.now }
{
    for token in row {
        if !names_less(token, count) {
            return false;
        }
    }
    true
}
