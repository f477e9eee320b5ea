//! Moments that a clock told.

ghost use Rattle.std.specs.Prelude.{◌≡◌};

use lease_book::Clock;

/// A moment that a clock told, in seconds. Only [`Moment::read`] makes one.
#[derive(Clone, Copy)]
pub(crate) struct Moment {
    seconds: u64,
}

impl Moment {
    /// Reads the clock.
    pub(crate) fn read<C: Clock>(clock: &C) -> Moment
        ensures { C.may_tell clock.now result.seconds }
    {
        Moment {
            seconds: clock.now(),
        }
    }

    /// The seconds.
    pub(crate) fn seconds(self) -> u64
        ensures { result ≡ self.seconds }
    {
        self.seconds
    }
}
