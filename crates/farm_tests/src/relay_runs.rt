//! Numbers that are put into a relay, and taken.

ghost use Rattle.std.specs.Prelude.{IfOk};
ghost use Rattle.farm_relay.specs.Relays.{AreAllOf, PutsAtSame, TakesAtSame};

use crate::expect::expect_eq;
use cards::OutOfMemory;
use farm_relay::{Putter, Relay, Taker};
use std::alloc::Global;
use std::process::Abort;
use std::sync::Wait;

/// These are the numbers from one up to another, without it.
pub fn expect_numbers(rt: &impl Abort, got: &[u64], first: u64, end: u64) {
    expect_eq(rt, &(got.len() as u64), &end.wrapping_sub(first));
    for (place, number) in got.iter().enumerate() {
        expect_eq(rt, number, &first.wrapping_add(place as u64));
    }
}

/// Puts these numbers, and says how many were handed back.
pub fn put_range<R: Wait>(rt: &R, putter: &mut Putter<u64>, first: u64, end: u64) -> u64
    ensures { PutsAtSame putter.old putter.new }
{
    let mut back = 0u64;
    for number in first..end {
        if putter.put(rt, number).is_err() {
            back = back.wrapping_add(1);
        }
    }
    back
}

/// Puts these numbers, of which none is handed back.
pub fn expect_put<R: Wait + Abort>(rt: &R, putter: &mut Putter<u64>, first: u64, end: u64)
    ensures { PutsAtSame putter.old putter.new }
{
    expect_eq(rt, &put_range(rt, putter, first, end), &0);
}

/// Takes these numbers, one by one.
pub fn expect_taken<R: Wait + Abort>(rt: &R, taker: &mut Taker<u64>, first: u64, end: u64)
    ensures { TakesAtSame taker.old taker.new }
{
    for number in first..end {
        expect_eq(rt, &taker.take(rt), &Some(number));
    }
}

/// Closes the relay, in which these numbers are left.
pub fn expect_left<R: Wait + Abort>(
    rt: &R,
    relay: Relay<u64>,
    putters: Vec<Putter<u64>>,
    takers: Vec<Taker<u64>>,
    first: u64,
    end: u64,
)
    requires { AreAllOf relay putters.items takers.items }
{
    let left = relay
        .close(rt, putters, takers)
        .expect(rt, "memory for what is left");
    expect_numbers(rt, left.as_slice(), first, end);
}

/// Takes until nothing comes, and gives what came.
pub fn take_all<R: Wait>(
    rt: &R,
    alloc: Global,
    taker: &mut Taker<u64>,
) -> Result<Vec<u64>, OutOfMemory>
    ensures { TakesAtSame taker.old taker.new }
{
    let mut taken = Vec::new(alloc);
    for _ in rt.forever() {
        let Some(number) = taker.take(rt) else {
            return Ok(taken);
        };
        taken.push(number)?;
    }
    unreachable!()
}
