//! Taking items out of a relay's channel.

ghost use Rattle.std.specs.Prelude.{◌≡◌, ◌<◌, IfSome, IfNone};
ghost use Rattle.crossbeam_channel.specs.Claims.{view, IsSeatAt};
ghost use Rattle.crossbeam_channel.specs.Ends.{receives_on};
ghost use Rattle.farm_relay.specs.declared.items.Item.TheVariants.{Message, EndMark};
ghost use Rattle.farm_relay.specs.Tallies.{with_taken};

use crate::items::Item;
use crate::rule::{RelayPass, RelayReceiver, Takes};
use std::sync::Wait;
use std::thread;

/// Takes what is at the front: None for an end mark. Waits while there is nothing.
pub(crate) fn receive<T: Drop, R: Wait>(
    rt: &R,
    receiver: &RelayReceiver<T>,
    pass: &mut RelayPass<T>,
) -> Option<T>
    requires seat { IsSeatAt (receives_on receiver.now) pass.old }
    requires share { 0 < (view pass.old).shares }
    ensures seat { IsSeatAt (receives_on receiver.now) pass.new }
    ensures some { IfSome result (λ message. view pass.new ≡ with_taken (view pass.old) (Message message)) }
    ensures none { IfNone result (view pass.new ≡ with_taken (view pass.old) EndMark) }
{
    for _ in rt.forever() {
        match receiver.recv_as::<Takes, R>(rt, pass) {
            Ok(Item::Message(message)) => return Some(message),
            Ok(Item::EndMark) => return None,
            Err(_) => thread::yield_now(),
        }
    }
    unreachable!()
}
