//! What tests expect. A call of these costs the prover next to nothing, an `assert_eq!` or a `?` a second or more.

use std::fmt::Debug;
use std::process::Abort;

/// The value of a call, which has to succeed.
pub fn got<T, E: Debug>(rt: &impl Abort, value: Result<T, E>) -> T {
    value.expect(rt, "an error")
}

/// The value, which has to be there.
pub fn some<T>(rt: &impl Abort, value: Option<T>) -> T {
    value.expect(rt, "no value")
}

/// The value is the one that is wanted.
pub fn expect_eq<T: PartialEq + Debug>(rt: &impl Abort, got: &T, wanted: &T) {
    assert_eq!(rt; *got, *wanted);
}

/// It holds.
pub fn expect(rt: &impl Abort, holds: bool) {
    assert!(rt; holds);
}

/// The bytes are those that are wanted.
pub fn expect_bytes(rt: &impl Abort, got: &[u8], wanted: &[u8]) {
    assert_eq!(rt; got, wanted);
}
