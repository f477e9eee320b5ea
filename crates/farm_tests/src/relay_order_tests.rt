//! A relay in one thread: what is taken and what is left are what was put, in its order.

use crate::expect::expect_eq;
use crate::relay_runs::{expect_left, expect_put, expect_taken};
use farm_relay::Relay;
use std::test::Fail;

#[test]
fn ten_of_twenty(rt: HostRuntime) -> Result<(), Fail> {
    let (relay, mut putters, mut takers) = Relay::<u64>::open(rt.alloc(), 64, 1, 1)?;
    expect_put(&rt, &mut putters[0], 1, 21);
    expect_taken(&rt, &mut takers[0], 1, 11);
    expect_left(&rt, relay, putters, takers, 11, 21);
    Ok(())
}

/// No take ends before a putter does, however many come.
#[test]
fn two_thousand_in_turn(rt: HostRuntime) -> Result<(), Fail> {
    let (_relay, mut putters, mut takers) = Relay::<u64>::open(rt.alloc(), 2, 1, 1)?;
    let (Some(mut putter), Some(mut taker)) = (putters.pop(), takers.pop()) else {
        unreachable!()
    };
    for number in 0..2000u64 {
        expect_eq(&rt, &putter.put(&rt, number), &Ok(()));
        expect_eq(&rt, &taker.take(&rt), &Some(number));
    }
    Ok(())
}
