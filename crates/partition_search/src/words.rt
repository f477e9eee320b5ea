//! Sets of cards as words: sixteen bits a suit, the deuce lowest. The trump suit, where there is one, lies highest.

ghost use Rattle.std.specs.Prelude.{◌≡◌, ◌-◌, ◌*◌, ◌/◌, ◌^◌, ◌<◌, ℕ};
ghost use Rattle.partition_search.specs.Cards.{LowestIs, HighestIs, IsLowestOf, IsHighestOf, LacksLowest, AreBelow};
ghost use Rattle.partition_search.specs.Cards.{AreOfSuit};

/// A set of cards, by these bits. A card is the set of it alone.
pub type CardSet = u64;

/// How many cards each seat holds in each suit, four bits each, by suit and seat.
pub type Lengths = u64;

/// All cards of the pack.
pub const PACK: CardSet = 0x1fff_1fff_1fff_1fff;
/// The deuces.
const DEUCES: CardSet = 0x0001_0001_0001_0001;
/// The bits of the lowest suit.
pub const SUIT: CardSet = 0xffff;
/// The bit above the ace of the lowest suit.
const ABOVE: u64 = 0x2000;
/// How many cards a hand has at most: so many tricks there are, and so many cards a seat can choose from.
pub const MOST_CARDS: u32 = 13;
/// How many cards a trick has.
pub const TRICK_CARDS: u32 = 4;
/// 2^64 over the golden ratio: a number times it has its bits mixed, the highest best.
pub const MIXER: u64 = 0x9e37_79b9_7f4a_7c15;

/// The lowest card of a set.
pub fn lowest(cards: CardSet) -> CardSet
    ensures { IsLowestOf cards result }
{
    cards & 0u64.wrapping_sub(cards)
}

/// The set without its lowest card.
pub(crate) fn without_lowest(cards: CardSet) -> CardSet
    ensures { LacksLowest cards result }
{
    cards & cards.wrapping_sub(1)
}

/// The number of the lowest card's bit.
pub(crate) fn lowest_bit(cards: CardSet) -> u32
    ensures some { 0 < cards → LowestIs cards result }
    ensures none { cards ≡ 0 → result ≡ 0 }
{
    cards.trailing_zeros() & 63
}

/// The number of the highest card's bit, 0 where there is none.
pub(crate) fn highest_bit(cards: CardSet) -> u32
    ensures some { 0 < cards → HighestIs cards result }
    ensures none { cards ≡ 0 → result ≡ 0 }
{
    63u32.wrapping_sub((cards | 1).leading_zeros()) & 63
}

/// The highest card of a set.
pub fn highest(cards: CardSet) -> CardSet
    ensures { IsHighestOf cards result }
{
    cards & 1u64.wrapping_shl(highest_bit(cards))
}

/// Where the suit of the card begins: 0, 16, 32 or 48.
pub fn start_of(card: CardSet) -> u32
    ensures { (bit : ℕ) → card ≡ 2 ^ bit → result ≡ 16 * (bit / 16) }
{
    card.trailing_zeros() & 48
}

/// All bits of the suit of the card.
pub fn suit_of(card: CardSet) -> CardSet
    ensures { (bit : ℕ) → card ≡ 2 ^ bit → AreOfSuit (bit / 16) result }
{
    SUIT.wrapping_shl(start_of(card))
}

/// The cards below this one, in its suit and the suits below.
pub fn below(card: CardSet) -> CardSet
    ensures card { (bit : ℕ) → card ≡ 2 ^ bit → AreBelow bit result }
    ensures none { card ≡ 0 → result ≡ 2 ^ 64 - 1 }
{
    card.wrapping_sub(1)
}

/// All cards of each suit in which the set has one.
pub(crate) fn suits_of_cards(cards: CardSet) -> CardSet {
    let found = cards.wrapping_add(PACK) & DEUCES.wrapping_mul(ABOVE);
    found.wrapping_sub(found >> 13)
}

/// The cards of each suit below the lowest of the set, and all cards of a suit in which it has none.
pub fn below_lowest(cards: CardSet) -> CardSet {
    (cards | DEUCES.wrapping_mul(ABOVE)).wrapping_sub(DEUCES) & !cards & PACK
}

/// Of each suit the ranks of the set from the lowest rank on up to the first that the set lacks.
pub(crate) fn lowest_run(cards: CardSet) -> CardSet {
    cards & !cards.wrapping_add(DEUCES)
}

/// The lowest card of the set in each suit.
pub fn lowest_of_each(cards: CardSet) -> CardSet {
    cards & (!cards & PACK).wrapping_add(DEUCES)
}

/// The lowest card of each run of touching cards of a hand: those between which no card is left with others.
pub(crate) fn bottoms(own: CardSet, left: CardSet) -> CardSet {
    own & !own.wrapping_shl(1).wrapping_add(PACK & !left)
}
