//! The ends of the desk's channel.

ghost use Rattle.std.specs.Prelude.{◌≡◌, IfOk};
ghost use Rattle.crossbeam_channel.specs.Claims.{view, IsSeatAt};
ghost use Rattle.crossbeam_channel.specs.Ends.{sends_on, receives_on};
ghost use Rattle.lease_desk.specs.Views.{unopened};

use crate::messages::Message;
use crate::rule::{DeskReceiver, DeskSender, DeskToken, OneHistory};
use crate::views::View;
use crossbeam_channel::bounded_with;
use std::alloc::{AllocError, Global};

/// Both ends of the desk's channel.
#[derive(Drop)]
pub struct DeskEnds {
    pub(crate) sender: DeskSender,
    pub(crate) receiver: DeskReceiver,
    pub(crate) ghost one_channel: { receives_on receiver ≡ sends_on sender },
}

/// A new channel of one place, with its first token.
pub(crate) fn new_ends(alloc: Global) -> Result<(DeskEnds, DeskToken), AllocError>
    ensures seat { IfOk result (λ made. IsSeatAt (sends_on made.0.sender) made.1) }
    ensures view { IfOk result (λ made. view made.1 ≡ unopened) }
{
    let (sender, receiver, token) = bounded_with::<Message, View, OneHistory, Global>(alloc, 1)?;
    Ok((DeskEnds { sender, receiver }, token))
}
