//! The leases of a run for which no claim was handed in.

ghost use Rattle.std.specs.Prelude.{◌≡◌, ◌-◌, ◌^◌, ◌≤◌};
ghost use Rattle.lease_book.specs.Settling.{given_in};
ghost use Rattle.farm.specs.Leases.{all_handed_in, is_given, is_handed_in, one_each};

use lease_book::{Asked, Event, Reply};

/// How many leases of a run got no claim, by the reason. An entry that is leased again counts again.
#[derive(Clone, Copy, Debug, PartialEq, Eq)]
pub struct Unclaimed {
    /// The solver answered, and had no claim for the entry: the search ran out of steps.
    pub steps: u64,
    /// The solver had no memory, or the lease was lost, since a thread had none.
    pub memory: u64,
}

/// Returns whether an event gives a lease.
fn is_given(event: &Event) -> bool
    ensures { result ≡ is_given event.now }
{
    match event.asked {
        Asked::Lease { .. } => match event.reply {
            Reply::Given { .. } => true,
            _ => false,
        },
        _ => false,
    }
}

/// Returns whether an event hands something in.
fn is_handed_in(event: &Event) -> bool
    ensures { result ≡ is_handed_in event.now }
{
    match event.asked {
        Asked::HandIn { .. } => true,
        _ => false,
    }
}

/// Returns how many leases events give.
fn count_given(events: &[Event]) -> u64
    ensures { result ≡ given_in one_each events.now }
{
    let mut count = 0;
    for event in events {
        count += u64::from(is_given(event));
    }
    count
}

/// Returns under how many leases events hand something in.
fn count_handed_in(events: &[Event]) -> u64
    ensures { result ≡ all_handed_in one_each events.now }
{
    let mut count = 0;
    for event in events {
        count += u64::from(is_handed_in(event));
    }
    count
}

impl Unclaimed {
    ghost use Rattle.farm.specs.Leases.{unclaimed_with};

    /// The leases of these events for which no claim was handed in, of which so many ran out of steps.
    pub(crate) fn of(events: &[Event], steps: u64) -> Unclaimed
        ensures is { result ≡ unclaimed_with steps events.now }
        ensures bound { given_in one_each events.now ≤ 2 ^ 64 - 1 }
    {
        let given = count_given(events);
        let unclaimed = given.saturating_sub(count_handed_in(events));
        Unclaimed {
            steps,
            memory: unclaimed.saturating_sub(steps),
        }
    }
}
