//! One call between the taking of the message and its giving back.

ghost use Rattle.std.specs.Prelude.{◌≡◌, ◌≢◌, IfOk, OnErr, Some, None};
ghost use Rattle.crossbeam_channel.specs.Claims.{view, IsSeatAt};
ghost use Rattle.crossbeam_channel.specs.Ends.{sends_on};
ghost use Rattle.lease_desk.specs.declared.views.Custody.TheVariants.{Empty};
ghost use Rattle.lease_desk.specs.Askings.{asked_of};
ghost use Rattle.lease_desk.specs.Views.{page_of};
ghost use Rattle.lease_desk.specs.Entries.{IsEntered, IsAttended};

use crate::asking::Asking;
use crate::ends::DeskEnds;
use crate::messages::Message;
use crate::receipts::Receipt;
use crate::rule::DeskToken;
use crate::taking::{give, take};
use cards::OutOfMemory;
use std::sync::Wait;

/// Asks the book, and notes whose request it was.
fn enter(message: &mut Message, number: usize, asking: Asking) -> Result<Receipt, OutOfMemory>
    ensures ok { IfOk result (IsEntered (page_of message.old) (page_of message.new) number (asked_of asking)) }
    ensures err { OnErr result (page_of message.new ≡ page_of message.old) }
{
    if message.makers.reserve(1).is_err() {
        return Err(OutOfMemory);
    }
    let place = message.book.history().len();
    let _reply = asking.ask(&mut message.book)?;
    message.makers.push_reserved(number);
    Ok(Receipt {
        place: place as u64,
        event: message.book.history()[place],
    })
}

/// Takes the message, enters a request and gives the message back.
pub(crate) fn attend<R: Wait>(
    rt: &R,
    ends: &DeskEnds,
    token: &mut DeskToken,
    number: usize,
    asking: Asking,
) -> Result<Receipt, OutOfMemory>
    requires seat { IsSeatAt (sends_on ends.now.sender) token.old }
    requires number { (view token.old).number ≡ Some number }
    requires custody { (view token.old).custody ≡ Empty }
    requires no_usher { (view token.old).made ≡ None }
    ensures seat { IsSeatAt (sends_on ends.now.sender) token.new }
    ensures ok { IfOk result (IsAttended (view token.old) (view token.new) (asked_of asking)) }
    ensures err { OnErr result (view token.new ≡ view token.old) }
{
    let mut message = take(rt, &ends.receiver, token);
    match enter(&mut message, number, asking) {
        Ok(told) => {
            give(rt, &ends.sender, token, message);
            Ok(told)
        }
        Err(OutOfMemory) => {
            give(rt, &ends.sender, token, message);
            Err(OutOfMemory)
        }
    }
}
