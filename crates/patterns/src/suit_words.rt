//! One suit in a word.

ghost use Rattle.std.specs.Prelude.{◌≡◌, ◌≢◌, ◌↔◌, ◌≤◌, ◌<◌, ◌+◌, ◌-◌, ◌*◌, ◌/◌, ◌%◌};
ghost use Rattle.std.specs.Prelude.{◌^◌, IsTrue, MatchBool, length, min, slice_get};
ghost use Rattle.patterns.specs.Shapes.{len_of, tops_of, suit_size, BeginsWith, CoversSuit};
ghost use Rattle.std.specs.Prelude.{◌++◌, MatchOption, count_ones, replicate, slice_index, slice_index_or};
ghost use Rattle.cards.specs.declared.seats.Seat.TheVariants.{North};
ghost use Rattle.cards.specs.declared.seats.Seat.{Seat};
ghost use Rattle.cards.specs.Seats.{seat_number};
ghost use Rattle.patterns.specs.Holders.{holders_of, MatchesSuit, suit_of_layout};
ghost use Rattle.patterns.specs.Holdings.{holders_in};
ghost use Rattle.patterns.specs.Parts.{suit_shape, HasItsOwners, HasExcessOwner};
ghost use Rattle.patterns.specs.Words.{suit_in, seat_at, owner_count, places_of, HasWord, IsSuitWord, IsWrongWord};
ghost use Rattle.patterns.specs.Removals.{owners_but};
ghost use Rattle.patterns.specs.Completions.{lows_of, completed_suit};

use crate::holdings::holdings;
use crate::suit_parts::SuitPart;
use arrayvec::ArrayVec;
use cards::{Layout, Seat, Suit, holder_by_words};
use std::marker::Model;

/// One suit in a word. From the lowest bit on: four bits each for the lengths of North, East, South and West, four
/// for the number of owners, and two for each owner. The other bits are 0.
#[derive(Clone, Copy, Debug)]
pub struct SuitWord {
    word: u64,
}

impl Model for SuitWord {
    ghost use Rattle.std.specs.Prelude.{ℕ};
    ghost use Rattle.std.proofs.Common.{ap};
    ghost use Rattle.patterns.specs.Shapes.{SuitShape};
    ghost use Rattle.patterns.specs.Words.{suit_in, word_of, IsSuitWord};
    ghost use Rattle.patterns.specs.WordLaws.{word_of-suit_in};

    ghost Value = { SuitShape };

    ghost view = { λ held. suit_in held.word };

    ghost invariant = { λ held. IsSuitWord held.word };

    ghost inverse = { λ suit. record { word = word_of suit } };

    ghost inverse_ok = { λ held h. ap (λ (n : ℕ). record { word = n }) (word_of-suit_in held.word h) };
}

/// Where the number of owners stands in a word.
const COUNT: u32 = 16;

/// Where the owners begin.
const OWNERS: u32 = 20;

/// The lower of the two bits of each of thirteen places.
const EACH_PLACE: u64 = 0x1555555;

/// A bit for each of thirteen places.
const ALL_PLACES: u64 = 0x1fff;

/// The four lengths in a word.
const LENS: u64 = 0xffff;

/// The bit above each of the four lengths.
const ABOVE_LENS: u64 = 0x11110;

impl SuitWord {
    /// The suit that a word tells.
    pub(crate) fn of_word(word: u64) -> SuitWord
        requires { IsSuitWord word }
        ensures { result ≡ suit_in word }
    {
        SuitWord { word }
    }

    /// The word of the suit.
    pub(crate) fn word(&self) -> u64
        ensures tells { suit_in result ≡ self.now }
        ensures word { IsSuitWord result }
    {
        self.word
    }

    /// The suit that the part tells.
    pub(crate) fn of_part(part: &SuitPart) -> SuitWord
        requires { HasWord (suit_shape part.now) }
        ensures { result ≡ suit_shape part.now }
    {
        let mut bits = 0;
        for (place, owner) in part.owners.as_slice().iter().enumerate() {
            bits += (owner.number() as u64) << (2 * place);
        }
        SuitWord {
            word: u64::from(part.lens[0])
                + (u64::from(part.lens[1]) << 4)
                + (u64::from(part.lens[2]) << 8)
                + (u64::from(part.lens[3]) << 12)
                + ((part.owners.len() as u64) << COUNT)
                + (bits << OWNERS),
        }
    }

    /// The part that tells the suit.
    pub(crate) fn part(&self) -> SuitPart
        ensures { suit_shape result ≡ self.now }
    {
        let mut owners = ArrayVec::new();
        for place in 0..self.owner_count() {
            owners.push(self.owner_in(place));
        }
        SuitPart {
            lens: [
                self.len(Seat::North),
                self.len(Seat::East),
                self.len(Seat::South),
                self.len(Seat::West),
            ],
            owners,
        }
    }

    /// How many cards of the suit the seat has.
    pub fn len(&self, seat: Seat) -> u8
        ensures len { result ≡ len_of self.now seat }
        ensures four { length self.now.lens ≡ 4 }
    {
        nibble(self.word, 4 * seat.number() as u32) as u8
    }

    /// How many owners there are.
    pub fn owner_count(&self) -> usize
        ensures count { result ≡ length self.now.owners }
        ensures within { result ≤ 13 }
    {
        nibble(self.word, COUNT) as usize
    }

    /// The owner in this place, if there are so many.
    pub fn owner(&self, place: usize) -> Option<Seat>
        ensures { result ≡ slice_get self.now.owners place }
    {
        if place < self.owner_count() {
            Some(owner_at(self.word >> OWNERS, place))
        } else {
            None
        }
    }

    /// The owner in this place.
    fn owner_in(&self, place: usize) -> Seat
        requires { place < length self.now.owners }
        ensures { result ≡ slice_index_or self.now.owners place North }
    {
        // at most 13, so the word has bits for the place
        let _count = self.owner_count();
        owner_at(self.word >> OWNERS, place)
    }

    /// The suit with all lengths less these, which stand as in a word; a seat that has fewer keeps none. The owners
    /// stay.
    pub fn less(self, lens: u64) -> SuitWord
        ensures four { length result.lens ≡ 4 }
        ensures lens { (seat : Seat) → len_of result seat ≡ len_of self seat - len_of (suit_in lens) seat }
        ensures owners { result.owners ≡ self.owners }
    {
        SuitWord {
            word: self.word - lesser_lens(self.word, lens),
        }
    }

    /// The suit without the owners in these places, which have a bit each, that of place 0 lowest. They are taken out
    /// one by one, the lowest first, and the places after it move down by one each time.
    pub fn without(self, places: u64) -> SuitWord
        ensures lens { result.lens ≡ self.lens }
        ensures owners { result.owners ≡ owners_but places self.owners }
    {
        if places & ALL_PLACES == 0 {
            return self;
        }
        let mut word = self.word;
        let count = nibble(word, COUNT);
        let mut taken = places & ((1 << count) - 1);
        while taken != 0 {
            word = without_place(word, taken.trailing_zeros());
            taken = (taken & (taken - 1)) >> 1;
        }
        SuitWord { word }
    }

    /// How many cards of the suit the four seats have.
    pub(crate) fn size(&self) -> u16
        ensures size { result ≡ suit_size self.now }
        ensures four { length self.now.lens ≡ 4 }
    {
        u16::from(self.len(Seat::North))
            + u16::from(self.len(Seat::East))
            + u16::from(self.len(Seat::South))
            + u16::from(self.len(Seat::West))
    }

    /// The places in which the seat is the owner. Place i has bit 2 i, and all other bits are 0.
    pub fn places_of(&self, seat: Seat) -> u64
        ensures { result ≡ places_of seat self.now.owners }
    {
        let places = EACH_PLACE & ((1 << (2 * nibble(self.word, COUNT))) - 1);
        let apart = (self.word >> OWNERS) ^ (EACH_PLACE * seat.number() as u64);
        places - ((apart | apart >> 1) & places)
    }

    /// How often the seat is an owner.
    pub fn tops(&self, seat: Seat) -> u8
        ensures { result ≡ tops_of self.now seat }
    {
        self.places_of(seat).count_ones() as u8
    }

    /// Whether no seat is an owner more often than it has cards. Half of the suits that are read have no owner.
    pub(crate) fn has_its_owners(&self) -> bool
        ensures { MatchBool result (HasItsOwners self.now) (HasExcessOwner self.now) }
    {
        if self.owner_count() == 0 {
            return true;
        }
        self.tops_fit()
    }

    /// Whether no seat is an owner more often than it has cards, counted for each seat.
    fn tops_fit(&self) -> bool
        ensures { MatchBool result (HasItsOwners self.now) (HasExcessOwner self.now) }
    {
        self.tops(Seat::North) <= self.len(Seat::North)
            && self.tops(Seat::East) <= self.len(Seat::East)
            && self.tops(Seat::South) <= self.len(Seat::South)
            && self.tops(Seat::West) <= self.len(Seat::West)
    }

    /// The suit with its owners lengthened, where one seat alone has low cards, by that seat, once for each of them.
    pub(crate) fn completed(self) -> SuitWord
        requires owned { HasItsOwners self }
        requires fits { suit_size self ≤ 13 }
        ensures { result ≡ completed_suit self }
    {
        let lows = u64::from(self.size()) - self.owner_count() as u64;
        if lows == 0 {
            return self;
        }
        match self.lone_holder(lows) {
            Some(seat) => self.with_owners(seat, lows),
            None => self,
        }
    }

    /// The seat that has so many low cards, if one has. These are all low cards of the suit.
    fn lone_holder(&self, lows: u64) -> Option<Seat>
        requires owned { HasItsOwners self.now }
        requires some { 0 < lows }
        ensures { MatchOption result ((seat : Seat) → lows ≢ lows_of self.now seat)
            (λ seat. lows ≡ lows_of self.now seat) }
    {
        if self.has_lows(Seat::North, lows) {
            Some(Seat::North)
        } else if self.has_lows(Seat::East, lows) {
            Some(Seat::East)
        } else if self.has_lows(Seat::South, lows) {
            Some(Seat::South)
        } else if self.has_lows(Seat::West, lows) {
            Some(Seat::West)
        } else {
            None
        }
    }

    /// Whether the seat has so many low cards. It hasn't where it has fewer cards, so its owners are seldom counted.
    fn has_lows(&self, seat: Seat, lows: u64) -> bool
        requires owned { HasItsOwners self.now }
        requires some { 0 < lows }
        ensures { IsTrue result ↔ (lows ≡ lows_of self.now seat) }
    {
        let len = u64::from(self.len(seat));
        len >= lows && len - u64::from(self.tops(seat)) == lows
    }

    /// The suit with so many owners more, all this seat.
    fn with_owners(self, seat: Seat, count: u64) -> SuitWord
        requires { length self.owners + count ≤ 13 }
        ensures lens { result.lens ≡ self.lens }
        ensures owners { result.owners ≡ self.owners ++ replicate count seat }
    {
        let each = EACH_PLACE & ((1 << (2 * count)) - 1);
        let from = OWNERS as u64 + 2 * nibble(self.word, COUNT);
        SuitWord {
            word: self.word + (count << COUNT) + ((each * seat.number() as u64) << from),
        }
    }

    /// Whether the lengths are those of the rest, and these owners are a beginning of its.
    #[inline(always)]
    pub(crate) fn covers(&self, rest: &SuitWord) -> bool
        ensures { IsTrue result ↔ CoversSuit self.now rest.now }
    {
        let count = nibble(self.word, COUNT);
        let owners = (1 << (2 * count)) - 1;
        // the words are alike in the lengths and in the places of these owners
        (self.word ^ rest.word) & (LENS | owners << OWNERS) == 0
            && count <= nibble(rest.word, COUNT)
    }

    /// The suit as it is in the layout, with as many owners as there are, up to the depth.
    pub(crate) fn of_layout(layout: &Layout, suit: Suit, depth: u8) -> SuitWord
        ensures { result ≡ suit_of_layout layout.now suit depth }
    {
        let words = holdings(layout, suit);
        let mut owners = ArrayVec::new();
        for above in 0..13 {
            if owners.len() < depth as usize {
                if let Some(seat) = holder_by_words(&words, 12 - above) {
                    owners.push(seat);
                }
            }
        }
        SuitWord::of_part(&SuitPart {
            lens: [
                words[0].count_ones() as u8,
                words[1].count_ones() as u8,
                words[2].count_ones() as u8,
                words[3].count_ones() as u8,
            ],
            owners,
        })
    }

    /// Whether the suit of the layout matches this one.
    pub(crate) fn matches(&self, layout: &Layout, suit: Suit) -> bool
        ensures { IsTrue result ↔ MatchesSuit self.now (holders_of layout.now suit) }
    {
        let words = holdings(layout, suit);
        self.has_lens(&words) && self.has_owners(&words)
    }

    /// Whether the words have as many cards as the lengths say.
    fn has_lens(&self, words: &[u64; 4]) -> bool
        ensures { IsTrue result ↔ ((seat : Seat)
            → len_of self.now seat ≡ count_ones (slice_index words.now (seat_number seat))) }
    {
        words[0].count_ones() == u32::from(self.len(Seat::North))
            && words[1].count_ones() == u32::from(self.len(Seat::East))
            && words[2].count_ones() == u32::from(self.len(Seat::South))
            && words[3].count_ones() == u32::from(self.len(Seat::West))
    }

    /// Whether the owners hold the highest cards of the words, in their order.
    fn has_owners(&self, words: &[u64; 4]) -> bool
        ensures { IsTrue result ↔ BeginsWith (holders_in words.now) self.now.owners }
    {
        let count = self.owner_count();
        let mut seen = 0;
        for above in 0..13 {
            if seen == count {
                return true;
            }
            if let Some(seat) = holder_by_words(words, 12 - above) {
                if seat != self.owner_in(seen) {
                    return false;
                }
                seen += 1;
            }
        }
        seen == count
    }
}

/// Four bits of the word.
fn nibble(word: u64, from: u32) -> u64
    requires { from < 64 }
    ensures value { result ≡ word / 2 ^ from % 2 ^ 4 }
    ensures below { result < 16 }
{
    word >> from & 0xf
}

/// Of the lengths in two words the lesser of each seat.
fn lesser_lens(one: u64, other: u64) -> u64
    ensures below { result < 2 ^ 16 }
    ensures lesser { (seat : Seat) → len_of (suit_in result) seat ≡ min (len_of (suit_in one) seat)
        (len_of (suit_in other) seat) }
{
    let lens = other & LENS;
    // a length that is taken from a lesser one borrows from the bit above its four
    if (one ^ lens ^ one.wrapping_sub(lens)) & ABOVE_LENS == 0 {
        return lens;
    }
    nibble(one, 0).min(nibble(other, 0))
        + (nibble(one, 4).min(nibble(other, 4)) << 4)
        + (nibble(one, 8).min(nibble(other, 8)) << 8)
        + (nibble(one, 12).min(nibble(other, 12)) << 12)
}

/// The word of a suit without the owner in this place.
fn without_place(word: u64, place: u32) -> u64
    requires { place < owner_count word }
    ensures lens { result % 2 ^ 16 ≡ word % 2 ^ 16 }
    ensures count { owner_count result ≡ owner_count word - 1 }
    ensures owners { result / 2 ^ 20 ≡ word / 2 ^ 20 % 2 ^ (2 * place) + word / 2 ^ 20 / 2 ^ (2 * place + 2) * 2 ^
        (2 * place) }
{
    let below = (1 << (OWNERS + 2 * place)) - 1;
    (word & below) + (word >> 2 & !below) - (1 << COUNT)
}

/// The seat whose number stands in the two bits of this place.
fn owner_at(bits: u64, place: usize) -> Seat
    requires { place < 32 }
    ensures { result ≡ seat_at (bits / 2 ^ (2 * place) % 4) }
{
    match bits >> (2 * place) & 3 {
        0 => Seat::North,
        1 => Seat::East,
        2 => Seat::South,
        _ => Seat::West,
    }
}

/// Whether the word tells a suit: it has at most 13 owners, and no bit after the last of them.
pub(crate) fn tells_suit(word: u64) -> bool
    ensures { MatchBool result (IsSuitWord word) (IsWrongWord word) }
{
    let count = nibble(word, COUNT);
    count <= 13 && word >> OWNERS >> (2 * count) == 0
}
