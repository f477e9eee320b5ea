//! The chairs of a new desk.

ghost use Rattle.std.specs.Prelude.{◌≡◌, ◌<◌, ◌≤◌, ℕ, [], All, IfOk, map, count_by, nat_eq, length};
ghost use Rattle.crossbeam_channel.specs.Claims.{view, IsSeatAt};
ghost use Rattle.crossbeam_channel.specs.Ends.{sends_on};
ghost use Rattle.lease_desk.specs.Views.{usher};
ghost use Rattle.lease_desk.specs.Steps.{HasChairs};
ghost use Rattle.lease_desk.specs.Desks.{IsChairAt, number_of, receipts_in, AreAll};

use crate::chairs::Chair;
use crate::ends::DeskEnds;
use crate::rule::{DeskToken, MakesChair};
use std::alloc::{AllocError, Global};

/// So many chairs, whose passes are split off this one.
pub(crate) fn seat_all(
    alloc: Global,
    ends: &DeskEnds,
    token: DeskToken,
    count: usize,
) -> Result<Vec<Chair>, AllocError>
    requires seat { IsSeatAt (sends_on ends.now.sender) token }
    requires view { view token ≡ usher (view token).opening 0 }
    requires count { HasChairs (view token).opening count }
    ensures each { IfOk result (λ chairs. All (IsChairAt ends.now (view token).opening) chairs.items) }
    ensures all { IfOk result (λ chairs. AreAll count (map number_of chairs.items)) }
    ensures none_yet { IfOk result (λ chairs. All (λ chair. receipts_in chair ≡ []) chairs.items) }
{
    let mut token = token;
    let mut chairs = Vec::new(alloc);
    for number in 0..count {
        let seat = ends.sender.another::<MakesChair>(&mut token);
        let chair = Chair {
            number,
            receipts: Vec::new(alloc),
            token: seat,
        };
        chairs.push(chair)?;
    }
    Ok(chairs)
}
