//! The ends of a relay's channel.

ghost use Rattle.std.specs.Prelude.{◌≡◌, ◌<◌, IfOk};
ghost use Rattle.crossbeam_channel.specs.Claims.{view, IsSeatAt};
ghost use Rattle.crossbeam_channel.specs.Ends.{sends_on, receives_on, ruled_capacity};
ghost use Rattle.farm_relay.specs.Tallies.{opening};

use crate::items::Item;
use crate::rule::{NothingLost, RelayPass, RelayReceiver, RelaySender};
use crate::tallies::Tally;
use crossbeam_channel::bounded_with;
use std::alloc::{AllocError, Global};

/// Both ends of a relay's channel.
#[derive(Drop)]
pub struct Ends<T: Drop> {
    pub(crate) sender: RelaySender<T>,
    pub(crate) receiver: RelayReceiver<T>,
    pub(crate) ghost one_channel: { receives_on receiver ≡ sends_on sender },
}

/// A new channel of so many places, with its first pass.
pub(crate) fn new_ends<T: Drop>(
    alloc: Global,
    places: usize,
) -> Result<(Ends<T>, RelayPass<T>), AllocError>
    requires { 0 < places }
    ensures places { IfOk result (λ made. ruled_capacity (sends_on made.0.sender) ≡ places) }
    ensures seat { IfOk result (λ made. IsSeatAt (sends_on made.0.sender) made.1) }
    ensures view { IfOk result (λ made. view made.1 ≡ opening) }
{
    let (sender, receiver, pass) = bounded_with::<Item<T>, Tally<T>, NothingLost, Global>(
        alloc, places,
    )?;
    Ok((Ends { sender, receiver }, pass))
}
