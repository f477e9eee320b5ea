//! Taking the message out of the desk's channel and giving it back. Each is tried until it is done.

ghost use Rattle.std.specs.Prelude.{◌≡◌, ◌≢◌, [], Some, false, true};
ghost use Rattle.crossbeam_channel.specs.Claims.{view, IsSeatAt};
ghost use Rattle.crossbeam_channel.specs.Ends.{sends_on, receives_on};
ghost use Rattle.lease_desk.specs.declared.views.Custody.TheVariants.{Before};
ghost use Rattle.lease_desk.specs.Views.{page_of, unopened, usher};
ghost use Rattle.lease_desk.specs.Steps.{Took, MayGive, gave};

use crate::messages::Message;
use crate::rule::{Borrows, DeskReceiver, DeskSender, DeskToken, Gives, Keeps, Opens};
use std::sync::Wait;
use std::thread;

/// Sends the first message.
pub(crate) fn begin<R: Wait>(rt: &R, sender: &DeskSender, token: &mut DeskToken, message: Message)
    requires seat { IsSeatAt (sends_on sender.now) token.old }
    requires view { view token.old ≡ unopened }
    requires makers { message.makers.items ≡ [] }
    ensures seat { IsSeatAt (sends_on sender.now) token.new }
    ensures view { view token.new ≡ usher (Some (page_of message)) 0 }
{
    let mut message = message;
    for _ in rt.forever() {
        match sender.send_as::<Opens, R>(rt, token, message) {
            Ok(()) => return,
            Err(error) => message = error.into_inner(),
        }
        thread::yield_now();
    }
}

/// Takes the message for a call.
pub(crate) fn take<R: Wait>(rt: &R, receiver: &DeskReceiver, token: &mut DeskToken) -> Message
    requires seat { IsSeatAt (receives_on receiver.now) token.old }
    requires knows { (view token.old).custody ≢ Before }
    ensures seat { IsSeatAt (receives_on receiver.now) token.new }
    ensures took { Took false (view token.old) result (view token.new) }
{
    for _ in rt.forever() {
        if let Ok(message) = receiver.recv_as::<Borrows, R>(rt, token) {
            return message;
        }
        thread::yield_now();
    }
    unreachable!()
}

/// Gives the message back after a call.
pub(crate) fn give<R: Wait>(rt: &R, sender: &DeskSender, token: &mut DeskToken, message: Message)
    requires seat { IsSeatAt (sends_on sender.now) token.old }
    requires may { MayGive (view token.old) (page_of message) }
    ensures seat { IsSeatAt (sends_on sender.now) token.new }
    ensures gave { view token.new ≡ gave (view token.old) (page_of message) }
{
    let mut message = message;
    for _ in rt.forever() {
        match sender.send_as::<Gives, R>(rt, token, message) {
            Ok(()) => return,
            Err(error) => message = error.into_inner(),
        }
        thread::yield_now();
    }
}

/// Takes the message for good.
pub(crate) fn take_last<R: Wait>(rt: &R, receiver: &DeskReceiver, token: &mut DeskToken) -> Message
    requires seat { IsSeatAt (receives_on receiver.now) token.old }
    requires knows { (view token.old).custody ≢ Before }
    ensures seat { IsSeatAt (receives_on receiver.now) token.new }
    ensures took { Took true (view token.old) result (view token.new) }
{
    for _ in rt.forever() {
        if let Ok(message) = receiver.recv_as::<Keeps, R>(rt, token) {
            return message;
        }
        thread::yield_now();
    }
    unreachable!()
}
