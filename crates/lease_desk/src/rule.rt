//! The rule of the desk's channel, and the steps under it.

use crate::messages::Message;
use crate::views::View;
use crossbeam_channel::protocol::{Join, Lesson, Outcome, Protocol, Split};
use crossbeam_channel::{Pass, RuledReceiver, RuledSender};

/// The rule of the channel.
pub struct OneHistory;

impl Protocol<Message, View> for OneHistory {
    ghost use Rattle.lease_desk.specs.Rule.{IsKept};
    ghost use Rattle.lease_desk.specs.Views.{unopened};

    ghost holds = { IsKept };

    ghost first = { unopened };
}

/// The end of the desk's channel that sends.
pub type DeskSender = RuledSender<Message, View, OneHistory>;

/// The end of the desk's channel that receives.
pub type DeskReceiver = RuledReceiver<Message, View, OneHistory>;

/// A token of the desk's channel.
pub type DeskToken = Pass<Message, View>;

/// The first message is sent.
pub struct Opens;

impl Outcome<Message, View> for Opens {
    ghost use Rattle.lease_desk.specs.Steps.{Opens};

    ghost then = { Opens };
}

impl Lesson<Message, View> for Opens {
    ghost use Rattle.lease_desk.specs.Steps.{Silent};

    ghost fact = { Silent };
}

/// The message is taken for one call.
pub struct Borrows;

impl Outcome<Message, View> for Borrows {
    ghost use Rattle.std.specs.Prelude.{false};
    ghost use Rattle.lease_desk.specs.Steps.{Took};

    ghost then = { Took false };
}

impl Lesson<Message, View> for Borrows {
    ghost use Rattle.lease_desk.specs.Steps.{Silent};

    ghost fact = { Silent };
}

/// The message is given back after a call.
pub struct Gives;

impl Outcome<Message, View> for Gives {
    ghost use Rattle.lease_desk.specs.Steps.{Gave};

    ghost then = { Gave };
}

impl Lesson<Message, View> for Gives {
    ghost use Rattle.lease_desk.specs.Steps.{Silent};

    ghost fact = { Silent };
}

/// The message is taken for good.
pub struct Keeps;

impl Outcome<Message, View> for Keeps {
    ghost use Rattle.std.specs.Prelude.{true};
    ghost use Rattle.lease_desk.specs.Steps.{Took};

    ghost then = { Took true };
}

impl Lesson<Message, View> for Keeps {
    ghost use Rattle.lease_desk.specs.Steps.{Silent};

    ghost fact = { Silent };
}

/// A chair is made.
pub struct MakesChair;

impl Split<View> for MakesChair {
    ghost use Rattle.lease_desk.specs.Steps.{ushering, seated};

    ghost left = { ushering };

    ghost right = { seated };
}

/// A token is made with which the desk is closed.
pub struct Spares;

impl Split<View> for Spares {
    ghost use Rattle.lease_desk.specs.Steps.{spared};

    ghost left = { λ v. v };

    ghost right = { spared };
}

/// A token is made that tells the last message.
pub struct Tells;

impl Split<View> for Tells {
    ghost use Rattle.lease_desk.specs.Steps.{told_of};

    ghost left = { λ v. v };

    ghost right = { told_of };
}

/// A token is told what another tells.
pub struct Hears;

impl Join<View> for Hears {
    ghost use Rattle.lease_desk.specs.Views.{blank};
    ghost use Rattle.lease_desk.specs.Steps.{heard};

    ghost both = { heard };

    ghost spent = { blank };
}

/// A chair's receipts are compared with the last message.
pub struct Compares;

impl Lesson<Message, View> for Compares {
    ghost use Rattle.lease_desk.specs.Steps.{Compared};

    ghost fact = { Compared };
}
