//! The batch of entries that the lender leases at a time.

ghost use Rattle.std.specs.Prelude.{ℕ, ◌≤◌, IfOk, OnOk, length};
ghost use Rattle.lease_desk.specs.Desks.{receipts_in};
ghost use Rattle.farm.specs.Working.{IsOnDuty, StaysOnDuty};
ghost use Rattle.farm.specs.Requests.{WasGiven, AreGiven, Continues};
ghost use Rattle.farm.specs.Flows.{Moves, of_task, of_tasks};

use crate::crews::Crew;
use crate::lease_lock::LeaseGuard;
use crate::requests::next_task;
use crate::tasks::{Task, Tasks};
use cards::OutOfMemory;
use lease_book::Clock;
use lease_desk::Chair;
use std::sync::Wait;

/// Leases more entries after the first, until the batch is full or no entry is open. Then the lock is let go.
pub(crate) fn lease_batch<S, G, C: Clock, R: Wait>(
    rt: &R,
    crew: &Crew<'_, S, G, C>,
    chair: &mut Chair,
    first: Task,
    guard: LeaseGuard<'_>,
) -> Result<Tasks, OutOfMemory>
    requires duty { IsOnDuty C.may_tell crew.now chair.old }
    requires given { WasGiven (receipts_in chair.old) first }
    ensures stays { StaysOnDuty C.may_tell crew.now chair.old chair.new }
    ensures count { IfOk result (λ batch. length batch.items ≤ crew.now.settings.batch) }
    ensures leases { IfOk result (λ batch. (weight : ℕ → ℕ) →
        Moves weight (receipts_in chair.old) (receipts_in chair.new) (of_task weight first)
        (of_tasks weight batch.items)) }
    ensures given { IfOk result (λ batch. AreGiven (receipts_in chair.new) batch.items) }
    ensures receipts { OnOk result (Continues (receipts_in chair.old) (receipts_in chair.new)) }
{
    let mut batch = Tasks::new();
    batch.push(first);
    for _more in 1..crew.settings.batch {
        let Some(task) = next_task(rt, crew, chair, &guard)? else {
            return Ok(batch);
        };
        batch.push(task);
    }
    Ok(batch)
}
