//! Calls the gate for a check before its verdict is taken.

use lease_book::Gate;

/// A check that was announced to a gate. Only [`announce`] makes one, and each verdict takes one, so a verdict comes
/// after a call of the gate.
#[derive(Drop)]
pub(crate) struct Announced(());

/// Tells the gate that a claim under this lease is about to be checked.
pub(crate) fn announce<G: Gate>(gate: &G, lease: u64) -> Announced {
    gate.before_check(lease);
    Announced(())
}
