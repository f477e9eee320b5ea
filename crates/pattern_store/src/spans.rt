//! Where the blocks of a list lie.

ghost use Rattle.std.specs.Prelude.{◌≡◌, ◌↔◌, ◌<◌, ◌≤◌, ◌+◌, ◌-◌, ◌*◌, ◌^◌, IsTrue, MatchOption, max, min};
ghost use Rattle.pattern_store.specs.Shapes.{room_in};

/// The blocks of a list lie side by side in a run, which has room for a power of two of them.
#[derive(Clone, Copy)]
pub struct Span {
    /// The number of the first one.
    first: u32,
    /// How many there are. A list without any has no run.
    used: u16,
    /// The run has 2 to this power.
    doublings: u16,
}

/// The span of a list that is empty.
pub(crate) const EMPTY: Span = Span {
    first: 0,
    used: 0,
    doublings: 0,
};

/// So many lengths a run may have.
pub(crate) const LENGTHS: usize = 16;

impl Span {
    /// A run of this length, with as many blocks as another.
    pub(crate) fn moved_to(&self, first: u32, doublings: u16) -> Span
        ensures { result ≡ record self.now { first = first; doublings = doublings } }
    {
        Span {
            first,
            used: self.used,
            doublings,
        }
    }

    /// The same, with a block more.
    pub(crate) fn with_one_more(&self) -> Span
        ensures { result ≡ record self.now { used = min (self.now.used + 1) (2 ^ 16 - 1) } }
    {
        Span {
            first: self.first,
            used: self.used.saturating_add(1),
            doublings: self.doublings,
        }
    }

    /// Whether the list has no block.
    pub(crate) fn is_empty(&self) -> bool
        ensures { IsTrue result ↔ self.now.used ≡ 0 }
    {
        self.used == 0
    }

    /// The number of the first block.
    pub(crate) fn first(&self) -> u32
        ensures { result ≡ self.now.first }
    {
        self.first
    }

    /// How many blocks there are.
    pub(crate) fn blocks(&self) -> u32
        ensures { result ≡ self.now.used }
    {
        u32::from(self.used)
    }

    /// The length of the run is 2 to this power.
    pub(crate) fn doublings(&self) -> u16
        ensures { result ≡ self.now.doublings }
    {
        self.doublings
    }

    /// The number after that of the last block.
    pub(crate) fn end(&self) -> u32
        ensures { result ≡ min (self.now.first + self.now.used) (2 ^ 32 - 1) }
    {
        self.first.saturating_add(u32::from(self.used))
    }

    /// Whether the run has no block left.
    pub(crate) fn is_full(&self) -> bool
        ensures { self.now.doublings < 32 → (IsTrue result ↔ room_in self.now ≤ self.now.used) }
    {
        self.used == 0 || u32::from(self.used) >= 1u32.wrapping_shl(u32::from(self.doublings))
    }

    /// The length of the run that the list moves to where its own is full. None where it is as long as one may be.
    pub(crate) fn next_doublings(&self) -> Option<u16>
        ensures { let room = max 1 (2 * room_in self.now) in
            MatchOption result (2 ^ 15 < room) (λ next. 2 ^ next ≡ room) }
    {
        if self.used == 0 {
            Some(0)
        } else if (self.doublings as usize) + 1 < LENGTHS {
            Some(self.doublings + 1)
        } else {
            None
        }
    }
}
