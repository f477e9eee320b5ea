//! How the text of a graph is written.

ghost use Rattle.std.specs.Prelude.{◌≡◌, ◌∷◌, ◌++◌, ◌+◌, ◌%◌, [], ℕ, drop};
ghost use Rattle.std.specs.Fmt.{decimal};
ghost use Rattle.cards.specs.Devices.{Writes};
ghost use Rattle.cards.specs.Seats.{seat_letter};
ghost use Rattle.cards.specs.Pack.{suit_letter};
ghost use Rattle.patterns.specs.Shapes.{suit_of};
ghost use Rattle.certificate_graph.specs.Graphs.{IsCard, IsTree, AreBranches};
ghost use Rattle.certificate_graph.specs.Texts.{card_text, child_text, more_children_text, children_text, tree_text};
ghost use Rattle.certificate_graph.specs.Texts.{branches_text, owners_text, suit_text, pattern_text};

use crate::children::Child;
use crate::places::{Branches, Children, Place, PlaceView};
use cards::{DeviceFault, Seat, Sink, Suit, write_all, write_number};
use pattern_step::PatCard;
use patterns::{Pattern, SuitWord};

/// The letter of a seat.
pub(crate) fn seat_byte(seat: Seat) -> u8
    ensures { seat_letter seat ≡ result ∷ [] }
{
    match seat {
        Seat::North => b'N',
        Seat::East => b'E',
        Seat::South => b'S',
        Seat::West => b'W',
    }
}

/// The letter of a suit.
pub(crate) fn suit_byte(suit: Suit) -> u8
    ensures { suit_letter suit ≡ result ∷ [] }
{
    match suit {
        Suit::Spades => b'S',
        Suit::Hearts => b'H',
        Suit::Diamonds => b'D',
        Suit::Clubs => b'C',
    }
}

/// The two bytes of a card.
fn card_bytes(card: PatCard) -> [u8; 2]
    requires { IsCard card }
    ensures { result ≡ card_text card [] }
{
    match card {
        PatCard::Top(suit, place) => [suit_byte(suit), b'a' + place],
        PatCard::Low(suit) => [suit_byte(suit), b'x'],
    }
}

/// The last digit of a number.
fn last_digit(number: u32) -> u8
    ensures { result ≡ 48 + number % 10 }
{
    b'0' + (number % 10) as u8
}

/// Writes a byte, and a child after it: in one piece where its number has four digits at most, as most have.
fn write_child<S: Sink>(sink: &mut S, before: u8, child: Child) -> Result<(), DeviceFault>
    ensures { Writes (S.state sink.old) (S.state sink.new) (before ∷ child_text child []) result }
{
    let seat = seat_byte(child.winner);
    let units = child.number;
    let tens = units / 10;
    let hundreds = tens / 10;
    let thousands = hundreds / 10;
    let last = last_digit(units);
    if tens == 0 {
        return write_all(sink, &[before, seat, last]);
    }
    let third = last_digit(tens);
    if hundreds == 0 {
        return write_all(sink, &[before, seat, third, last]);
    }
    let second = last_digit(hundreds);
    if thousands == 0 {
        return write_all(sink, &[before, seat, second, third, last]);
    }
    if thousands < 10 {
        let first = last_digit(thousands);
        return write_all(sink, &[before, seat, first, second, third, last]);
    }
    write_all(sink, &[before, seat])?;
    write_number(sink, u64::from(units))
}

/// Writes children that follow another one, and the closing brace.
fn write_more_children<S: Sink>(sink: &mut S, children: Children<'_>) -> Result<(), DeviceFault>
    ensures { Writes (S.state sink.old) (S.state sink.new) (more_children_text children.entry []) result }
{
    match children.split_first() {
        None => write_all(sink, b"}"),
        Some((child, more)) => {
            write_child(sink, b' ', child)?;
            write_more_children(sink, more)
        }
    }
}

/// Writes children in braces.
fn write_children<S: Sink>(sink: &mut S, children: Children<'_>) -> Result<(), DeviceFault>
    ensures { Writes (S.state sink.old) (S.state sink.new) (123 ∷ children_text children.entry []) result }
{
    match children.split_first() {
        None => write_all(sink, b"{}"),
        Some((child, more)) => {
            write_child(sink, b'{', child)?;
            write_more_children(sink, more)
        }
    }
}

/// Writes a place of a tree, and all below it.
#[cycle(write)]
pub(crate) fn write_tree<S: Sink>(sink: &mut S, place: Place<'_>) -> Result<(), DeviceFault>
    requires { IsTree place }
    ensures { Writes (S.state sink.old) (S.state sink.new) (tree_text place.entry []) result }
{
    match place.view() {
        PlaceView::Own(card, below) => {
            write_all(sink, &card_bytes(card))?;
            write_tree(sink, below)
        }
        PlaceView::Reply(branches) => {
            write_all(sink, b"(")?;
            write_branches(sink, branches)
        }
        PlaceView::Leaf(children) => write_children(sink, children),
    }
}

/// Writes branches and the closing parenthesis.
#[cycle(write)]
fn write_branches<S: Sink>(sink: &mut S, branches: Branches<'_>) -> Result<(), DeviceFault>
    requires { AreBranches branches }
    ensures { Writes (S.state sink.old) (S.state sink.new) (branches_text branches.entry []) result }
{
    match branches.split_first() {
        None => write_all(sink, b")"),
        Some((card, below, more)) => {
            write_all(sink, &card_bytes(card))?;
            write_tree(sink, below)?;
            write_branches(sink, more)
        }
    }
}

/// Writes the owners from this place on.
fn write_owners<S: Sink>(sink: &mut S, suit: &SuitWord, place: usize) -> Result<(), DeviceFault>
    ensures { Writes (S.state sink.old) (S.state sink.new) (owners_text (drop place suit.now.owners) []) result }
{
    match suit.owner(place) {
        None => Ok(()),
        Some(owner) => {
            // at most 13, so the next place is a number too
            let _count = suit.owner_count();
            write_all(sink, &[seat_byte(owner)])?;
            write_owners(sink, suit, place + 1)
        }
    }
}

/// Writes a length and the byte after it.
pub(crate) fn write_len<S: Sink>(sink: &mut S, len: u8, after: u8) -> Result<(), DeviceFault>
    ensures { Writes (S.state sink.old) (S.state sink.new) (decimal len ++ (after ∷ [])) result }
{
    write_number(sink, u64::from(len))?;
    write_all(sink, &[after])
}

/// Writes four lengths, with the byte after each: in one piece where each has one digit, as most have.
fn write_lens<S: Sink>(
    sink: &mut S,
    north: u8,
    east: u8,
    south: u8,
    west: u8,
) -> Result<(), DeviceFault>
    ensures { Writes (S.state sink.old) (S.state sink.new)
        (suit_text (record { lens = north ∷ east ∷ south ∷ west ∷ []; owners = [] }) []) result }
{
    if north < 10 && east < 10 && south < 10 && west < 10 {
        return write_all(
            sink,
            &[
                b'0' + north,
                b'.',
                b'0' + east,
                b'.',
                b'0' + south,
                b'.',
                b'0' + west,
                b'/',
            ],
        );
    }
    write_len(sink, north, b'.')?;
    write_len(sink, east, b'.')?;
    write_len(sink, south, b'.')?;
    write_len(sink, west, b'/')
}

/// Writes a suit of a pattern.
fn write_suit<S: Sink>(sink: &mut S, pattern: &Pattern, suit: Suit) -> Result<(), DeviceFault>
    ensures { Writes (S.state sink.old) (S.state sink.new) (suit_text (suit_of pattern.now suit) []) result }
{
    let word = pattern.suit(suit);
    write_lens(
        sink,
        word.len(Seat::North),
        word.len(Seat::East),
        word.len(Seat::South),
        word.len(Seat::West),
    )?;
    write_owners(sink, &word, 0)
}

/// Writes a suit of a pattern, and a blank.
fn write_suit_and_blank<S: Sink>(
    sink: &mut S,
    pattern: &Pattern,
    suit: Suit,
) -> Result<(), DeviceFault>
    ensures { Writes (S.state sink.old) (S.state sink.new) (suit_text (suit_of pattern.now suit) (32 ∷ [])) result }
{
    write_suit(sink, pattern, suit)?;
    write_all(sink, b" ")
}

/// Writes the four suits of a pattern.
pub(crate) fn write_pattern<S: Sink>(sink: &mut S, pattern: &Pattern) -> Result<(), DeviceFault>
    ensures { Writes (S.state sink.old) (S.state sink.new) (pattern_text pattern.now []) result }
{
    write_suit_and_blank(sink, pattern, Suit::Spades)?;
    write_suit_and_blank(sink, pattern, Suit::Hearts)?;
    write_suit_and_blank(sink, pattern, Suit::Diamonds)?;
    write_suit(sink, pattern, Suit::Clubs)
}
