//! The requests of the lender and of solvers at the desk.

ghost use Rattle.std.specs.Prelude.{ℕ, IfOk, OnOk};
ghost use Rattle.lease_desk.specs.Desks.{receipts_in};
ghost use Rattle.farm.specs.Working.{IsOnDuty, StaysOnDuty};
ghost use Rattle.farm.specs.Requests.{IsNextTask, FreesLeases, GivesUp};
ghost use Rattle.farm.specs.Flows.{GaveUp, of_tasks};

use crate::crews::Crew;
use crate::lease_lock::LeaseGuard;
use crate::tasks::{Task, Tasks};
use cards::OutOfMemory;
use lease_book::{Clock, Reply};
use lease_desk::Chair;
use std::sync::Wait;

/// Asks for a lease at the clock's moment. There is none if no entry is open.
pub(crate) fn next_task<S, G, C: Clock, R: Wait>(
    rt: &R,
    crew: &Crew<'_, S, G, C>,
    chair: &mut Chair,
    _guard: &LeaseGuard<'_>,
) -> Result<Option<Task>, OutOfMemory>
    requires { IsOnDuty C.may_tell crew.now chair.old }
    ensures stays { StaysOnDuty C.may_tell crew.now chair.old chair.new }
    ensures told { IfOk result (IsNextTask (receipts_in chair.old) (receipts_in chair.new)) }
{
    let told = crew.desk.lease(rt, chair, crew.means.clock.now())?;
    match told.event.reply {
        Reply::Given { lease, entry, .. } => Ok(Some(Task { lease, entry })),
        _ => Ok(None),
    }
}

/// Frees the leases that have run out at the clock's moment, and returns whether there was one.
pub(crate) fn frees_a_lease<S, G, C: Clock, R: Wait>(
    rt: &R,
    crew: &Crew<'_, S, G, C>,
    chair: &mut Chair,
) -> Result<bool, OutOfMemory>
    requires { IsOnDuty C.may_tell crew.now chair.old }
    ensures stays { StaysOnDuty C.may_tell crew.now chair.old chair.new }
    ensures told { IfOk result (FreesLeases (receipts_in chair.old) (receipts_in chair.new)) }
{
    let told = crew.desk.expire(rt, chair, crew.means.clock.now())?;
    match told.event.reply {
        Reply::Freed(0) => Ok(false),
        _ => Ok(true),
    }
}

/// Gives a lease up.
fn give_up<S, G, C: Clock, R: Wait>(
    rt: &R,
    crew: &Crew<'_, S, G, C>,
    chair: &mut Chair,
    lease: u64,
    _guard: &LeaseGuard<'_>,
) -> Result<(), OutOfMemory>
    requires { IsOnDuty C.may_tell crew.now chair.old }
    ensures stays { StaysOnDuty C.may_tell crew.now chair.old chair.new }
    ensures told { OnOk result (GivesUp lease (receipts_in chair.old) (receipts_in chair.new)) }
{
    let _told = crew.desk.give_up(rt, chair, lease)?;
    Ok(())
}

/// Gives leases up, under the lock.
pub(crate) fn give_up_all<S, G, C: Clock, R: Wait>(
    rt: &R,
    crew: &Crew<'_, S, G, C>,
    chair: &mut Chair,
    tasks: &Tasks,
) -> Result<(), OutOfMemory>
    requires { IsOnDuty C.may_tell crew.now chair.old }
    ensures stays { StaysOnDuty C.may_tell crew.now chair.old chair.new }
    ensures leases { OnOk result ((weight : ℕ → ℕ) →
        GaveUp weight (receipts_in chair.old) (receipts_in chair.new) (of_tasks weight tasks.now.items)) }
{
    let guard = crew.lease_lock.lock(rt);
    let tasks = tasks.as_slice();
    for task in tasks.iter() {
        give_up(rt, crew, chair, task.lease, &guard)?;
    }
    Ok(())
}
