//! What is remembered of a position: who owns the highest cards of each suit, and what a side then wins.

ghost use Rattle.std.specs.Prelude.{◌≡◌, ◌↔◌, ◌<◌, ◌^◌, ◌⊎◌, ℕ, IsTrue, bit_and};
ghost use Rattle.pattern_store.specs.Record.{MarksSuit, Marks, KeepsOwners, DeepKept, IsMasked, NamesNoDeep};
ghost use Rattle.pattern_store.specs.Record.{NamesNoMore, Serves, named_in};

/// The first card of a record that names none.
pub const NO_CARD: u8 = 0xff;

/// Owners of cards, two bits each, in every suit the highest card first: `near` has the first eight of each suit,
/// `deep` the others.
#[derive(Clone, Copy, Default)]
pub struct Owners {
    pub near: u64,
    pub deep: u64,
}

/// What is remembered of a shape, a leader and a side: who owns the highest cards, and what the side then wins.
#[derive(Clone, Copy, Default)]
pub struct Record {
    /// The owners that are named, of the first eight of each suit.
    pub near: u64,
    /// The bits of `near` that are named.
    pub mask: u64,
    /// The owners that are named after the eighth of each suit.
    pub deep: u64,
    /// How many owners are named, four bits a suit.
    pub depths: u16,
    /// How many tricks the side can win. Nothing is remembered where it is 0.
    pub need: u8,
    /// The card that showed it, as the pattern names it: its suit times sixteen, and its place, or 15 for a low card.
    pub first_card: u8,
}

/// What a free place has. It names owners of all cards that no deal has.
pub(crate) const FREE: Record = Record {
    near: u64::MAX,
    mask: u64::MAX,
    deep: 0,
    depths: 0,
    need: 0,
    first_card: NO_CARD,
};

/// The bits of the first owners of a suit, up to eight, down to this depth.
fn near_bits(depth: u16) -> u64
    ensures marks { MarksSuit 0 depth result }
    ensures small { result < 2 ^ 16 }
{
    (1 << (2 * depth.min(8))) - 1
}

/// The bits of the first owners, up to eight a suit, down to these depths.
fn near_mask(depths: u16) -> u64
    ensures { Marks 0 depths result }
{
    near_bits(depths % 16)
        + near_bits(depths / 16 % 16) * (1 << 16)
        + near_bits(depths / 256 % 16) * (1 << 32)
        + near_bits(depths / 4096) * (1 << 48)
}

/// The bits of a suit's owners after the eighth, down to this depth.
fn deep_bits(depth: u16) -> u64
    requires { depth < 16 }
    ensures marks { MarksSuit 8 depth result }
    ensures small { result < 2 ^ 16 }
{
    (1 << (2 * depth.saturating_sub(8))) - 1
}

/// The bits of the owners after the eighth, down to these depths.
pub(crate) fn deep_mask(depths: u16) -> u64
    ensures { Marks 8 depths result }
{
    if is_shallow(depths) {
        return 0;
    }
    deep_bits(depths % 16)
        + deep_bits(depths / 16 % 16) * (1 << 16)
        + deep_bits(depths / 256 % 16) * (1 << 32)
        + deep_bits(depths / 4096) * (1 << 48)
}

/// Whether depths name fewer than eight owners of each suit, and so none of those after the eighth.
pub(crate) fn is_shallow(depths: u16) -> bool
    ensures { IsTrue result → NamesNoDeep depths }
{
    depths & 0x8888 == 0
}

/// How many owners depths name, four bits a suit.
pub(crate) fn owners_in(depths: u16) -> u16
    ensures { result ≡ named_in depths }
{
    let pairs = (depths & 0x0f0f).wrapping_add(depths >> 4 & 0x0f0f);
    pairs.wrapping_add(pairs >> 8) & 0xff
}

/// The owners of this mask. They are not asked for where it is empty.
fn kept<F: Fn() -> u64>(mask: u64, deep: F) -> u64
    requires { F.IsAlwaysCallable deep }
    ensures { ((mask ≡ 0) × (result ≡ 0)) ⊎ ((owners : ℕ) × F.post deep owners × (result ≡ bit_and owners mask)) }
{
    if mask == 0 { 0 } else { deep() & mask }
}

impl Record {
    /// A record with the owners that are named down to these depths, four bits a suit. Those after the eighth of a suit
    /// are asked for where some are named.
    pub fn new<F: Fn() -> u64>(near: u64, deep: F, depths: u16, need: u8, first_card: u8) -> Record
        requires { F.IsAlwaysCallable deep }
        ensures facts { (result.depths ≡ depths) × (result.need ≡ need) × (result.first_card ≡ first_card) }
        ensures mask { IsMasked result }
        ensures near { KeepsOwners 0 depths near result.near }
        ensures deep { DeepKept result (F.post deep) }
    {
        let mask = near_mask(depths);
        Record {
            near: near & mask,
            mask,
            deep: kept(deep_mask(depths), deep),
            depths,
            need,
            first_card,
        }
    }

    /// How many owners it names. The fewer, the more positions it serves.
    pub fn owners_named(&self) -> u16
        ensures { result ≡ named_in self.now.depths }
    {
        owners_in(self.depths)
    }

    /// Whether the record says at least what the other says.
    pub(crate) fn serves(&self, other: &Record) -> bool
        ensures { IsMasked self.now → IsMasked other.now → (IsTrue result ↔ Serves self.now other.now) }
    {
        self.need >= other.need
            && self.mask & !other.mask == 0
            && (self.near ^ other.near) & self.mask == 0
            && self.serves_deep(other)
    }

    /// Whether it says no more of the owners after the eighth than the other.
    fn serves_deep(&self, other: &Record) -> bool
        ensures { IsTrue result ↔ NamesNoMore 8 16 self.now other.now }
    {
        let deep = deep_mask(self.depths);
        deep & !deep_mask(other.depths) == 0 && (self.deep ^ other.deep) & deep == 0
    }
}
