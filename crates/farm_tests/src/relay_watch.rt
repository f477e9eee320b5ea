//! Calls of a relay that must end by themselves.

use crate::expect::expect_eq;
use farm_relay::{Putter, Relay, Taker};
use std::process::Abort;
use std::sync::Wait;
use std::sync::atomic::AtomicBool;
use std::sync::atomic::Ordering::SeqCst;
use std::thread;
use std::thread::Threads;
use std::time::{Clock, Duration};

/// For how many milliseconds a call is looked at.
const LIMIT: u64 = 20_000;

/// Waits until it is set. The test fails if that takes too long.
fn look_at<R: Abort + Clock>(rt: &R, done: &AtomicBool) {
    for _turn in 0..LIMIT {
        if done.load(SeqCst) {
            return;
        }
        thread::sleep(rt, Duration::from_millis(1));
    }
    panic!(rt; "a call does not end");
}

/// Runs a call that ends by itself. The test fails if the call takes too long.
pub fn soon<X: Send, F: FnOnce() -> X + Send, R: Threads + Abort + Clock + Sync>(
    rt: &R,
    call: F,
) -> X
    requires { F.pre call }
{
    let flag = AtomicBool::new(false);
    let done = &flag;
    let (got, ()) = thread::join(
        rt,
        move || {
            let got = call();
            done.store(true, SeqCst);
            got
        },
        move || look_at(rt, done),
    );
    got
}

/// Takes the message or the end mark at the front. The test fails if none is there.
pub fn take_soon<R: Threads + Wait + Abort + Clock + Sync>(
    rt: &R,
    taker: &mut Taker<u64>,
) -> Option<u64> {
    soon(rt, || taker.take(rt))
}

/// Takes an end mark. The test fails if none is at the front.
pub fn take_end_soon<R: Threads + Wait + Abort + Clock + Sync>(rt: &R, taker: &mut Taker<u64>) {
    expect_eq(rt, &take_soon(rt, taker), &None);
}

/// Ends the putter. The test fails if that takes too long.
pub fn finish_soon<R: Threads + Wait + Abort + Clock + Sync>(rt: &R, putter: &mut Putter<u64>) {
    soon(rt, || putter.finish(rt));
}

/// Ends the relay. The test fails if that takes too long.
pub fn end_soon<R: Threads + Wait + Abort + Clock + Sync>(rt: &R, relay: &mut Relay<u64>) {
    soon(rt, || relay.end(rt));
}
