//! The turns of the opponents by sets of cards. Each set is one word.
//!
//! Each card has a bit. A suit has sixteen, the spades the lowest. In a suit the top in place 0 has the lowest bit, the
//! other tops follow, and the low cards have the highest. So a seat's legal cards are one word, the cards of the
//! branches another, and one operation asks for all cards what a step asks for each. If the second word has a bit that
//! the first lacks, a branch has a card that is not legal. In version 2 a legal card without a branch is excused if its
//! bit follows the bit of another legal top. That top has a branch or follows a legal top itself, and the first of
//! them, which follows none, has a branch. Each place between them is the seat's, so they are a run.
//!
//! The sets can only say yes. If they don't, the cards are tried one by one ([`crate::turns`]).

ghost use Rattle.std.specs.Prelude.{◌≡◌, ◌↔◌, ◌^◌, ℕ};
ghost use Rattle.std.specs.Bool.{OnTrue};
ghost use Rattle.std.specs.Int.{bit_at};
ghost use Rattle.patterns.specs.Shapes.{suit_of};
ghost use Rattle.pattern_step.specs.declared.pat_cards.PatCard.{PatCard};
ghost use Rattle.pattern_step.specs.PatCards.{HasCard, IsLegal};
ghost use Rattle.checker.specs.Places.{HasBranchOf};
ghost use Rattle.checker.specs.Steps.{IsAnswered};
ghost use Rattle.checker.specs.CardSets.{place_in_set, HasBranchIn, SuitSetOf};

use cards::{Seat, Suit};
use certificate_graph::{Branches, Version};
use pattern_step::PatCard;
use patterns::{Pattern, SuitWord};

/// The number of bits of a suit.
const SUIT_BITS: usize = 16;

/// The bit of the low cards in a suit.
const LOW: usize = 15;

/// The last place of a top with a bit, above all tops that a pattern has. Tops of later places share its bit.
const LAST_PLACE: u8 = 14;

/// The bits of the tops of all suits.
const TOPS: u64 = 0x1fff_1fff_1fff_1fff;

/// Returns the number with the bit of a card alone.
fn bit_of(card: PatCard) -> u64
    ensures { result ≡ 2 ^ place_in_set card }
{
    match card {
        PatCard::Top(suit, place) => {
            1 << (SUIT_BITS * suit.number() + place.min(LAST_PLACE) as usize)
        }
        PatCard::Low(suit) => 1 << (SUIT_BITS * suit.number() + LOW),
    }
}

/// Returns the set of the cards of the branches.
fn branch_set(branches: &Branches<'_>) -> u64
    ensures { (bit : ℕ) → (bit_at result bit ≡ 1) ↔ HasBranchIn branches.now bit }
{
    let mut set = 0;
    let mut next = branches.split_first();
    while let Some((card, _, rest)) = next {
        set |= bit_of(card);
        next = rest.split_first();
    }
    set
}

/// Returns the seat's cards of a suit, in its sixteen bits.
fn suit_set(held: SuitWord, seat: Seat) -> u16
    ensures { SuitSetOf held seat result }
{
    // There are at most 13 owners, so no place has the bit of the low cards.
    let _count = held.owner_count();
    let mut places = held.places_of(seat);
    let mut set = 0;
    while places != 0 {
        set |= 1 << (places.trailing_zeros() / 2);
        places &= places - 1;
    }
    if held.tops(seat) < held.len(seat) {
        set |= 1 << LOW;
    }
    set
}

/// Returns the seat's cards of a suit of the pattern. If it has none, no place is looked at.
fn suit_held(pattern: &Pattern, suit: Suit, seat: Seat) -> u16
    ensures { SuitSetOf (suit_of pattern.now suit) seat result }
{
    pattern.invariant();
    let held = pattern.suit(suit);
    if held.len(seat) == 0 {
        return 0;
    }
    suit_set(held, seat)
}

/// Returns the set of all cards of the seat.
fn held_set(pattern: &Pattern, seat: Seat) -> u64
    ensures { (card : PatCard) → (bit_at result (place_in_set card) ≡ 1) ↔ HasCard pattern.now seat card }
{
    pattern.invariant();
    u64::from(suit_held(pattern, Suit::Spades, seat))
        + (u64::from(suit_held(pattern, Suit::Hearts, seat)) << SUIT_BITS)
        + (u64::from(suit_held(pattern, Suit::Diamonds, seat)) << (2 * SUIT_BITS))
        + (u64::from(suit_held(pattern, Suit::Clubs, seat)) << (3 * SUIT_BITS))
}

/// Returns the set of the seat's legal cards: the cards of the suit led if it has any, otherwise all.
fn legal_set(pattern: &Pattern, seat: Seat, led: Option<Suit>) -> u64
    ensures { (card : PatCard) → (bit_at result (place_in_set card) ≡ 1) ↔ IsLegal pattern.now seat led card }
{
    pattern.invariant();
    let Some(suit) = led else {
        return held_set(pattern, seat);
    };
    if pattern.len(suit, seat) == 0 {
        return held_set(pattern, seat);
    }
    u64::from(suit_set(pattern.suit(suit), seat)) << (SUIT_BITS * suit.number())
}

/// Returns whether the sets show that the branches answer the seat's legal cards, and have no others.
pub(crate) fn answer_by_sets(
    version: Version,
    pattern: &Pattern,
    seat: Seat,
    led: Option<Suit>,
    branches: &Branches<'_>,
) -> bool
    ensures each { OnTrue result ((card : PatCard) → IsLegal pattern.now seat led card
        → IsAnswered version pattern.now seat branches.now card) }
    ensures legal { OnTrue result ((card : PatCard) → HasBranchOf branches.now card
        → IsLegal pattern.now seat led card) }
{
    pattern.invariant();
    let legal = legal_set(pattern, seat, led);
    let branches = branch_set(branches);
    let missing = match version {
        Version::One => legal & !branches,
        Version::Two => legal & !branches & !((legal & TOPS) << 1),
    };
    missing == 0 && branches & !legal == 0
}
