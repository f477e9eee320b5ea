//! What tests expect. A call of these costs the prover next to nothing, an `assert_eq!` or a `?` a second or more.

use std::alloc::Global;
use std::fmt::{Debug, Display};
use std::process::Abort;

/// The value of a call, which has to succeed.
pub fn got<T, E: Debug>(rt: &impl Abort, value: Result<T, E>) -> T {
    value.expect(rt, "an error")
}

/// The value, which has to be there.
pub fn some<T>(rt: &impl Abort, value: Option<T>) -> T {
    value.expect(rt, "no value")
}

/// The value is the one that is wanted.
pub fn expect_eq<T: PartialEq + Debug>(rt: &impl Abort, got: &T, wanted: &T) {
    assert_eq!(rt; *got, *wanted);
}

/// The values are unlike.
pub fn expect_ne<T: PartialEq>(rt: &impl Abort, one: &T, other: &T) {
    assert!(rt; *one != *other);
}

/// It holds.
pub fn expect(rt: &impl Abort, holds: bool) {
    assert!(rt; holds);
}

/// The bytes are those that are wanted.
pub fn expect_bytes(rt: &impl Abort, got: &[u8], wanted: &[u8]) {
    assert_eq!(rt; got, wanted);
}

/// The items are printed so, in their order.
pub fn expect_printed<T: Display>(rt: &impl Abort, alloc: Global, items: &[T], wanted: &[&str]) {
    expect_eq(rt, &items.len(), &wanted.len());
    for (item, wanted) in items.iter().zip(wanted) {
        let text = got(rt, format!(in alloc; "{item}"));
        expect_bytes(rt, text.as_bytes(), wanted.as_bytes());
    }
}
