//! How a thread goes on after its work has failed.

ghost use Rattle.std.specs.Prelude.{◌≡◌, ◌+◌};
ghost use Rattle.farm_relay.specs.Relays.{TakesAtSame, marks_of};

use farm_relay::Taker;
use std::sync::Wait;

/// Takes messages until an end mark comes, and drops them, so that nobody waits for room.
pub(crate) fn take_rest<T: Drop, R: Wait>(rt: &R, taker: &mut Taker<T>)
    ensures same { TakesAtSame taker.old taker.new }
    ensures ended { marks_of taker.new ≡ marks_of taker.old + 1 }
{
    for _ in rt.forever() {
        if taker.take(rt).is_none() {
            return;
        }
    }
}
