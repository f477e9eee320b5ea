//! How records are kept: four in a block.

ghost use Rattle.std.specs.Prelude.{◌≡◌, ◌↔◌, ◌<◌, ◌≤◌, ℕ, IsTrue, IsFalse};
ghost use Rattle.pattern_store.specs.Blocks.{record_at, AtSomePlace, IsBlockOf, SetsPlace};
ghost use Rattle.pattern_store.specs.Record.{AgreesNear, AgreesDeep, Differs, DiffersDeep, IsKnown};
ghost use Rattle.pattern_store.specs.Record.{NamesNoMoreNear, NamesOver};

use crate::record::{FREE, Owners, Record, deep_mask, is_shallow, owners_in};

/// How many records a block has.
pub(crate) const PLACES: usize = 4;

/// What else a look-up reads of a record.
#[derive(Clone, Copy)]
pub struct Facts {
    depths: u16,
    need: u8,
    first_card: u8,
}

/// Which list records are in: that of a shape by its number, and of a leader and a side.
#[derive(Clone, Copy)]
pub struct List {
    pub(crate) shape: u32,
    pub(crate) number: u32,
}

/// Records of a list, those that name the fewest owners first. A need of 0 is a free place.
#[derive(Clone, Copy)]
pub struct Block {
    /// The owners of the first eight cards of each suit, and the bits of those that are named: a look-up reads these
    /// of each.
    near: [u64; 4],
    masks: [u64; 4],
    list: List,
    facts: [Facts; 4],
    deep: [u64; 4],
}

const NO_FACTS: Facts = Facts {
    depths: 0,
    need: 0,
    first_card: 0,
};

impl List {
    /// Whether both are the same list.
    fn is(&self, other: List) -> bool
        ensures { IsTrue result ↔ self.now ≡ other }
    {
        self.shape == other.shape && self.number == other.number
    }
}

impl Block {
    /// A block of a list, with this record in its first place.
    pub(crate) fn new(list: List, first: Record) -> Block
        ensures { IsBlockOf result list first }
    {
        let mut block = Block {
            near: [FREE.near; 4],
            masks: [FREE.mask; 4],
            list,
            facts: [NO_FACTS; 4],
            deep: [0; 4],
        };
        block.set(0, first);
        block
    }

    /// Whether it is of this list.
    pub(crate) fn is_of(&self, list: List) -> bool
        ensures { IsTrue result ↔ self.now.list ≡ list }
    {
        self.list.is(list)
    }

    /// The shape of its list.
    pub(crate) fn shape(&self) -> u32
        ensures { result ≡ self.now.list.shape }
    {
        self.list.shape
    }

    /// The record in a place.
    pub(crate) fn record(&self, place: usize) -> Record
        requires { place < 4 }
        ensures { result ≡ record_at self.now place }
    {
        Record {
            near: self.near[place],
            mask: self.masks[place],
            deep: self.deep[place],
            depths: self.facts[place].depths,
            need: self.facts[place].need,
            first_card: self.facts[place].first_card,
        }
    }

    /// How many tricks the side can win by the record in a place.
    pub(crate) fn need(&self, place: usize) -> u8
        requires { place < 4 }
        ensures { result ≡ (record_at self.now place).need }
    {
        self.facts[place].need
    }

    /// Puts a record into a place.
    pub(crate) fn set(&mut self, place: usize, told: Record)
        requires { place < 4 }
        ensures { SetsPlace self.old self.new place told }
    {
        self.near[place] = told.near;
        self.masks[place] = told.mask;
        self.facts[place] = Facts {
            depths: told.depths,
            need: told.need,
            first_card: told.first_card,
        };
        self.deep[place] = told.deep;
    }

    /// Whether the owners of the first eight cards of each suit may be those that some record names. All are looked at,
    /// without a jump for each.
    pub(crate) fn may_agree(&self, near: u64) -> bool
        ensures { IsTrue result ↔ AtSomePlace self.now (λ r. AgreesNear r near) }
    {
        let mut agrees = false;
        for place in 0..PLACES {
            agrees |= (self.near[place] ^ near) & self.masks[place] == 0;
        }
        agrees
    }

    /// Whether a new record may serve one of these: whether some record names all that the new one names, of the first
    /// eight cards of each suit, and alike.
    pub(crate) fn may_be_served(&self, new: &Record) -> bool
        ensures { IsTrue result ↔ AtSomePlace self.now (NamesNoMoreNear new.now) }
    {
        let mut served = false;
        for place in 0..PLACES {
            served |= ((self.near[place] ^ new.near) | !self.masks[place]) & new.mask == 0;
        }
        served
    }

    /// Whether some record names more owners than these.
    pub(crate) fn names_more(&self, named: u16) -> bool
        ensures { IsTrue result ↔ AtSomePlace self.now (NamesOver named) }
    {
        let mut more = false;
        for place in 0..PLACES {
            more |= owners_in(self.facts[place].depths) > named;
        }
        more
    }

    /// Whether these are the owners that the record in a place names. Those after the eighth of a suit are asked for
    /// where it names some.
    pub(crate) fn agrees<F: Fn() -> u64>(&self, place: usize, near: u64, deep: &F) -> bool
        requires is_place { place < 4 }
        requires asks { F.IsAlwaysCallable deep.now }
        ensures agrees { IsTrue result → AgreesNear (record_at self.now place) near
            × AgreesDeep (record_at self.now place) (F.post deep.now) }
        ensures differs { IsFalse result → Differs (record_at self.now place) near (F.post deep.now) }
    {
        if (self.near[place] ^ near) & self.masks[place] != 0 {
            return false;
        }
        is_shallow(self.facts[place].depths) || self.agrees_deep(place, deep)
    }

    /// Whether these are the owners after the eighth of a suit that the record in a place names. Few records name some,
    /// so this stands apart from what each look-up does.
    #[inline(never)]
    fn agrees_deep<F: Fn() -> u64>(&self, place: usize, deep: &F) -> bool
        requires is_place { place < 4 }
        requires asks { F.IsAlwaysCallable deep.now }
        ensures agrees { IsTrue result → AgreesDeep (record_at self.now place) (F.post deep.now) }
        ensures differs { IsFalse result → DiffersDeep (record_at self.now place) (F.post deep.now) }
    {
        let mask = deep_mask(self.facts[place].depths);
        mask == 0 || (self.deep[place] ^ deep()) & mask == 0
    }

    /// Whether the record in a place names only owners that are known, and those as they are.
    pub(crate) fn is_known(&self, place: usize, owners: Owners, known: Owners) -> bool
        requires { place < 4 }
        ensures { IsTrue result ↔ IsKnown (record_at self.now place) owners known }
    {
        let named = self.masks[place];
        if (self.near[place] ^ owners.near) & named != 0 || named & known.near != named {
            return false;
        }
        let mask = deep_mask(self.facts[place].depths);
        mask == 0 || (self.deep[place] ^ owners.deep) & mask == 0 && mask & known.deep == mask
    }
}
