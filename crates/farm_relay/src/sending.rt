//! Putting items into a relay's channel.

ghost use Rattle.std.specs.Prelude.{◌≡◌, ◌<◌, IfErr, OnOk};
ghost use Rattle.crossbeam_channel.specs.Claims.{view, IsSeatAt};
ghost use Rattle.crossbeam_channel.specs.Ends.{sends_on};
ghost use Rattle.farm_relay.specs.declared.items.Item.TheVariants.{Message};
ghost use Rattle.farm_relay.specs.Tallies.{with_put};
ghost use Rattle.farm_relay.specs.Steps.{PutMarks};

use crate::items::Item;
use crate::rule::{Puts, RelayPass, RelaySender};
use std::sync::Wait;

/// Puts a message, or hands it back where nobody is left to take it. Waits where there is no place.
pub(crate) fn send<T: Drop, R: Wait>(
    rt: &R,
    sender: &RelaySender<T>,
    pass: &mut RelayPass<T>,
    message: T,
) -> Result<(), T>
    requires seat { IsSeatAt (sends_on sender.now) pass.old }
    requires share { 0 < (view pass.old).shares }
    ensures seat { IsSeatAt (sends_on sender.now) pass.new }
    ensures ok { OnOk result (view pass.new ≡ with_put (view pass.old) (Message message)) }
    ensures err { IfErr result (λ back. (back ≡ message) × (view pass.new ≡ view pass.old)) }
{
    match sender.send_as::<Puts, R>(rt, pass, Item::Message(message)) {
        Ok(()) => Ok(()),
        Err(refused) => match refused.into_inner() {
            Item::Message(back) => Err(back),
            Item::EndMark => unreachable!(),
        },
    }
}

/// Puts so many end marks, as long as anybody is left to take them. Waits where there is no place.
pub(crate) fn send_marks<T: Drop, R: Wait>(
    rt: &R,
    sender: &RelaySender<T>,
    pass: &mut RelayPass<T>,
    count: usize,
)
    requires seat { IsSeatAt (sends_on sender.now) pass.old }
    requires share { 0 < (view pass.old).shares }
    ensures seat { IsSeatAt (sends_on sender.now) pass.new }
    ensures marks { PutMarks count (view pass.old) (view pass.new) }
{
    for _mark in 0..count {
        let Ok(()) = sender.send_as::<Puts, R>(rt, pass, Item::EndMark) else {
            return;
        };
    }
}
