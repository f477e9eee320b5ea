//! The rule of a relay's channel, and the steps under it.

use crate::items::Item;
use crate::tallies::Tally;
use crossbeam_channel::protocol::{Join, Lesson, Outcome, Protocol, Split};
use crossbeam_channel::{Pass, RuledReceiver, RuledSender};

/// The rule of the channel.
pub struct NothingLost;

impl<T> Protocol<Item<T>, Tally<T>> for NothingLost {
    ghost use Rattle.farm_relay.specs.Rule.{IsBalanced};
    ghost use Rattle.farm_relay.specs.Tallies.{opening};

    ghost holds = { IsBalanced };

    ghost first = { opening };
}

/// The end of a relay's channel that sends.
pub type RelaySender<T> = RuledSender<Item<T>, Tally<T>, NothingLost>;

/// The end of a relay's channel that receives.
pub type RelayReceiver<T> = RuledReceiver<Item<T>, Tally<T>, NothingLost>;

/// A pass of a relay's channel.
pub type RelayPass<T> = Pass<Item<T>, Tally<T>>;

/// A message or an end mark is put.
pub struct Puts;

impl<T> Outcome<Item<T>, Tally<T>> for Puts {
    ghost use Rattle.farm_relay.specs.Steps.{Put};

    ghost then = { Put };
}

impl<T> Lesson<Item<T>, Tally<T>> for Puts {
    ghost use Rattle.farm_relay.specs.Steps.{Silent};

    ghost fact = { Silent };
}

/// A message or an end mark is taken. Where there is none, the channel is seen to be empty.
pub struct Takes;

impl<T> Outcome<Item<T>, Tally<T>> for Takes {
    ghost use Rattle.farm_relay.specs.Steps.{Took};

    ghost then = { Took };
}

impl<T> Lesson<Item<T>, Tally<T>> for Takes {
    ghost use Rattle.farm_relay.specs.Rule.{IsAt};

    ghost fact = { IsAt };
}

/// One share is given to a new pass.
pub struct Shares;

impl<T> Split<Tally<T>> for Shares {
    ghost use Rattle.farm_relay.specs.Tallies.{sharing, fresh};

    ghost left = { sharing };

    ghost right = { λ tally. fresh };
}

impl<T> Join<Tally<T>> for Shares {
    ghost use Rattle.farm_relay.specs.Tallies.{joined, spent};

    ghost both = { joined };

    ghost spent = { spent };
}
