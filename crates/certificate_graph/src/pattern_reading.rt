//! The four suits of a pattern, as they are read: each in the word that a pattern is made of.

ghost use Rattle.std.specs.Prelude.{◌≡◌, ◌++◌, [], ◌∷◌, ℕ, List, ◌+◌, ◌-◌, ◌≤◌, length, MatchOption, MatchBool};
ghost use Rattle.std.specs.Char.{digit_value};
ghost use Rattle.cards.specs.declared.seats.Seat.{Seat};
ghost use Rattle.patterns.specs.Words.{IsSuitWord, AreWords, owner_count, suit_in};
ghost use Rattle.certificate_graph.specs.Texts.{owners_text};
ghost use Rattle.certificate_graph.specs.Suits.{IsWordOf, HasOwners, words_read, shape_read};
ghost use Rattle.certificate_graph.specs.Readings.{LacksOwners, BeginsTwo, LacksTwo, BeginsLens, LacksLens};
ghost use Rattle.certificate_graph.specs.Readings.{BeginsSuit, LacksSuit, BeginsTwoSuits, LacksTwoSuits};
ghost use Rattle.certificate_graph.specs.Readings.{BeginsPattern, LacksPattern, IsLen};

use crate::cursors::Cursor;
use crate::scanning::{after_byte, has_digit, read_len, read_seat};

/// The four suits of a node, each in its word.
#[derive(Clone, Copy)]
pub(crate) struct Suits {
    pub(crate) spades: u64,
    pub(crate) hearts: u64,
    pub(crate) diamonds: u64,
    pub(crate) clubs: u64,
}

/// The bytes of four lengths of a digit each.
const SHORT_LENS: usize = 8;

/// Where the number of owners stands in a word.
const COUNT: u64 = 16;

/// Where the owners begin, two bits each.
const OWNERS: u64 = 20;

/// The most owners of a suit: its cards.
const MOST_OWNERS: u64 = 13;

/// Reads owners and the blank that ends them, and adds them to a word that has so many, 13 at most with them.
fn read_owners(cursor: &mut Cursor<'_>, word: &mut u64, count: u64) -> bool
    requires suit { IsSuitWord word.old }
    requires count { count ≡ owner_count word.old }
    ensures { MatchBool result
        ((more : List Seat) × (length more ≤ 13 - count)
        × (cursor.old.rest.now ≡ owners_text more (32 ∷ cursor.new.rest.now)) × HasOwners word.old more word.new)
        (LacksOwners (13 - count) cursor.old.rest.now) }
{
    let text = cursor.rest;
    if let Some(rest) = after_byte(text, b' ') {
        cursor.rest = rest;
        return true;
    }
    if count == MOST_OWNERS {
        return false;
    }
    let Some((owner, rest)) = read_seat(text) else {
        return false;
    };
    let last = (owner.number() as u64) << (OWNERS + 2 * count);
    *word = *word + (1 << COUNT) + last;
    cursor.rest = rest;
    read_owners(cursor, word, count + 1)
}

/// The word of four lengths without owners.
fn word_of_lens(north: u8, east: u8, south: u8, west: u8) -> u64
    requires north { IsLen north }
    requires east { IsLen east }
    requires south { IsLen south }
    requires west { IsLen west }
    ensures { IsWordOf result (north ∷ east ∷ south ∷ west ∷ []) [] }
{
    u64::from(north) + (u64::from(east) << 4) + (u64::from(south) << 8) + (u64::from(west) << 12)
}

/// Two lengths before these bytes.
fn read_two(text: &[u8], first: u8, second: u8) -> Option<(u8, u8, &[u8])>
    requires first { 10 ≤ digit_value first }
    requires second { 10 ≤ digit_value second }
    ensures { MatchOption result (LacksTwo first second text.now)
        (λ p. BeginsTwo first second text.now p.0 p.1 p.2.now) }
{
    let Some((one, rest)) = read_len(text, first) else {
        return None;
    };
    let Some((other, rest)) = read_len(rest, second) else {
        return None;
    };
    Some((one, other, rest))
}

/// Four lengths of however many digits in a word, and the text after the slash that ends them.
#[cold]
#[inline(never)]
fn read_long_lens(text: &[u8]) -> Option<(u64, &[u8])>
    ensures { MatchOption result (LacksLens text.now)
        (λ p. (lens : List ℕ) × BeginsLens text.now lens p.1.now × IsWordOf p.0 lens []) }
{
    let Some((north, east, rest)) = read_two(text, b'.', b'.') else {
        return None;
    };
    let Some((south, west, rest)) = read_two(rest, b'.', b'/') else {
        return None;
    };
    Some((word_of_lens(north, east, south, west), rest))
}

/// Four lengths in a word, and the text after the slash that ends them. Most have a digit each.
fn read_lens(text: &[u8]) -> Option<(u64, &[u8])>
    ensures { MatchOption result (LacksLens text.now)
        (λ p. (lens : List ℕ) × BeginsLens text.now lens p.1.now × IsWordOf p.0 lens []) }
{
    if text.len() >= SHORT_LENS
        && has_digit(text, 0, b'.')
        && has_digit(text, 2, b'.')
        && has_digit(text, 4, b'.')
        && has_digit(text, 6, b'/')
    {
        let word = word_of_lens(
            text[0] - b'0',
            text[2] - b'0',
            text[4] - b'0',
            text[6] - b'0',
        );
        return Some((word, &text[SHORT_LENS..]));
    }
    read_long_lens(text)
}

/// A suit in its word, and the text after the blank that ends it.
fn read_suit(text: &[u8]) -> Option<(u64, &[u8])>
    ensures { MatchOption result (LacksSuit text.now)
        (λ p. IsSuitWord p.0 × BeginsSuit text.now (suit_in p.0) p.1.now) }
{
    let Some((lens, rest)) = read_lens(text) else {
        return None;
    };
    let mut cursor = Cursor { rest };
    let mut word = lens;
    if !read_owners(&mut cursor, &mut word, 0) {
        return None;
    }
    Some((word, cursor.rest))
}

/// Two suits in their words, and the text after the blank that ends them.
fn read_two_suits(text: &[u8]) -> Option<(u64, u64, &[u8])>
    ensures { MatchOption result (LacksTwoSuits text.now)
        (λ p. IsSuitWord p.0 × IsSuitWord p.1
        × BeginsTwoSuits text.now (suit_in p.0) (suit_in p.1) p.2.now) }
{
    let Some((first, rest)) = read_suit(text) else {
        return None;
    };
    let Some((second, rest)) = read_suit(rest) else {
        return None;
    };
    Some((first, second, rest))
}

/// Four suits, and the text after the blank that ends them.
pub(crate) fn read_suits(text: &[u8]) -> Option<(Suits, &[u8])>
    ensures { MatchOption result (LacksPattern text.now)
        (λ p. AreWords (words_read p.0) × BeginsPattern text.now (shape_read p.0) p.1.now) }
{
    let Some((spades, hearts, rest)) = read_two_suits(text) else {
        return None;
    };
    let Some((diamonds, clubs, rest)) = read_two_suits(rest) else {
        return None;
    };
    let suits = Suits {
        spades,
        hearts,
        diamonds,
        clubs,
    };
    Some((suits, rest))
}
