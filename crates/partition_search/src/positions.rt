//! A position of the search: the cards held, and the trick in progress. Seats are numbers from North's 0.

ghost use Rattle.std.specs.Prelude.{◌≡◌, ◌+◌, ◌*◌, ◌/◌, ◌%◌, ◌^◌, ◌↔◌, ℕ, IsTrue};
ghost use Rattle.partition_search.specs.declared.positions.Holdings.{Holdings};
ghost use Rattle.partition_search.specs.Seats.{before_of, put_back_to, Plays};
ghost use Rattle.partition_search.specs.Tricks.{AreLegal, IsLed, IsAfter, LiesAbove, Takes};

use crate::deals::DealTables;
use crate::weights::{ALL, EAGER, MODEST, ONE, Weights};
use crate::words::{CardSet, Lengths, start_of, suit_of};

/// The cards that the seats hold. A search plays them one by one, and puts them back.
#[derive(Clone, Copy)]
pub struct Holdings {
    /// The cards of each seat.
    pub hands: [CardSet; 4],
    /// How many cards each seat holds in each suit, four bits each, by suit and seat.
    pub lengths: Lengths,
}

/// What a seat held before it played, with the lengths of all.
#[derive(Clone, Copy)]
pub struct Before {
    pub hand: CardSet,
    pub lengths: Lengths,
}

/// The cards of a trick so far, after the lead.
#[derive(Clone, Copy)]
pub struct Trick {
    /// All bits of the suit led.
    pub led: CardSet,
    /// All bits of the suit of the card that wins so far.
    pub deciding: CardSet,
    /// The card that wins so far.
    pub best: CardSet,
    /// The seat that holds it.
    pub winner: u32,
    /// A bit for each seat that played to its suit.
    pub contenders: u32,
}

/// What the side to play wants of the tricks that are left.
#[derive(Clone, Copy)]
pub struct Wants {
    pub wanted: u32,
    pub tricks: u32,
}

/// A seat's turn, before it plays.
#[derive(Clone, Copy)]
pub struct Turn<'a> {
    pub deal: &'a DealTables,
    pub held: &'a Holdings,
    /// The cards in all hands at the trick's start.
    pub left: CardSet,
    /// The seat to play.
    pub seat: usize,
    pub(crate) weights: &'static Weights,
}

/// The seat so many places to the left of this one.
pub fn seat_to_left(seat: usize, places: usize) -> usize
    ensures { result ≡ (seat + places) % 4 }
{
    seat.wrapping_add(places) & 3
}

/// One card of a suit and a seat, in the word of the lengths.
pub fn one_of(card: CardSet, seat: usize) -> Lengths
    ensures { (bit : ℕ) → card ≡ 2 ^ bit → result ≡ 2 ^ (16 * (bit / 16) + 4 * (seat % 4)) }
{
    1u64.wrapping_shl(start_of(card).wrapping_add((seat & 3) as u32 * 4))
}

/// The lengths of four hands.
fn lengths_of(hands: [CardSet; 4]) -> Lengths {
    let mut lengths = 0u64;
    for suit in 0..4u32 {
        for seat in 0..4u32 {
            let cards = hands[(seat & 3) as usize].wrapping_shr(suit.wrapping_mul(16)) & 0xffff;
            let place = suit.wrapping_mul(16).wrapping_add(seat.wrapping_mul(4));
            lengths |= u64::from(cards.count_ones()).wrapping_shl(place);
        }
    }
    lengths
}

impl Holdings {
    /// These hands.
    pub fn of(hands: [CardSet; 4]) -> Holdings {
        Holdings {
            hands,
            lengths: lengths_of(hands),
        }
    }

    /// The cards in all hands.
    pub fn all(&self) -> CardSet {
        self.hands[0] | self.hands[1] | self.hands[2] | self.hands[3]
    }

    /// What the seat holds, to be put back later.
    pub fn before(&self, seat: usize) -> Before
        ensures { result ≡ before_of self.now seat }
    {
        Before {
            hand: self.hands[seat & 3],
            lengths: self.lengths,
        }
    }

    /// The seat plays a card.
    pub fn play(&mut self, seat: usize, card: CardSet)
        ensures { Plays self.old self.new seat card }
    {
        self.hands[seat & 3] &= !card;
        self.lengths = self.lengths.wrapping_sub(one_of(card, seat));
    }

    /// The seat has again what it held.
    pub fn put_back(&mut self, seat: usize, before: Before)
        ensures now { self.new ≡ put_back_to self.old seat before }
        ensures restores { (held : Holdings) (card : ℕ) → Plays held self.old seat card
            → before ≡ before_of held seat → self.new ≡ held }
    {
        self.hands[seat & 3] = before.hand;
        self.lengths = before.lengths;
    }
}

impl Trick {
    /// A trick to which the seat has led the card.
    pub fn led(seat: usize, card: CardSet) -> Trick
        ensures { IsLed result seat card }
    {
        let suit = suit_of(card);
        Trick {
            led: suit,
            deciding: suit,
            best: card,
            winner: (seat & 3) as u32,
            contenders: 1u32.wrapping_shl((seat & 3) as u32),
        }
    }

    /// Whether the card wins against those on the table.
    pub fn beats(&self, card: CardSet, trumps: CardSet) -> bool
        ensures { (bit : ℕ) → card ≡ 2 ^ bit → LiesAbove self.now trumps card
            → (IsTrue result ↔ Takes self.now trumps card) }
    {
        card & (self.deciding | trumps) > self.best
    }

    /// What a card of the suit led has to beat: no card does where a ruff stands.
    pub(crate) fn best_in_suit(&self) -> CardSet {
        if self.deciding == self.led {
            self.best
        } else {
            u64::MAX
        }
    }

    /// The trick after the seat has played the card.
    pub fn after(&self, seat: usize, card: CardSet, trumps: CardSet) -> Trick
        ensures { IsAfter self.now result seat card trumps }
    {
        let mut next = *self;
        let seat = (seat & 3) as u32;
        let bit = 1u32.wrapping_shl(seat);
        if card & self.deciding != 0 {
            next.contenders = self.contenders | bit;
            if card > self.best {
                next.best = card;
                next.winner = seat;
            }
        } else if card & trumps != 0 {
            next.deciding = trumps;
            next.best = card;
            next.winner = seat;
            next.contenders = bit;
        }
        next
    }

    /// The cards of a hand that may be played.
    pub fn legal(&self, hand: CardSet) -> CardSet
        ensures { AreLegal self.now.led hand result }
    {
        let follows = hand & self.led;
        if follows != 0 { follows } else { hand }
    }

    /// Whether a card of the suit that decides was played by more than one seat.
    pub fn is_contended(&self) -> bool {
        self.contenders & self.contenders.wrapping_sub(1) != 0
    }
}

impl Wants {
    /// The weights of the cards of a side that wants so much.
    fn weights(self) -> &'static Weights {
        if self.wanted == self.tricks {
            &ALL
        } else if self.wanted == 1 {
            &ONE
        } else if self.wanted.wrapping_mul(2) > self.tricks {
            &EAGER
        } else {
            &MODEST
        }
    }
}

impl<'a> Turn<'a> {
    /// A seat's turn, where these cards were left at the trick's start, and its side wants so much.
    pub fn of(
        deal: &'a DealTables,
        held: &'a Holdings,
        left: CardSet,
        seat: usize,
        wants: Wants,
    ) -> Turn<'a> {
        Turn {
            deal,
            held,
            left,
            seat: seat & 3,
            weights: wants.weights(),
        }
    }

    /// The hand of the seat so many places to the left of the one to play.
    pub(crate) fn hand(&self, places: usize) -> CardSet {
        self.held.hands[seat_to_left(self.seat, places)]
    }

    /// How many cards of the suit that starts here the seats have, from the one to play on, four bits each.
    pub(crate) fn lengths(&self, start: u32) -> u32 {
        let lengths = (self.held.lengths.wrapping_shr(start) & 0xffff) as u32;
        (lengths | lengths << 16).wrapping_shr((self.seat & 3) as u32 * 4) & 0xffff
    }
}
