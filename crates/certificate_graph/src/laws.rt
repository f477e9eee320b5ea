//! A law of versions. It does nothing: its contract is the law.

ghost use Rattle.cards.specs.Orders.{SaysSame};

use crate::versions::Version;

/// `==` of two versions says whether they are the same.
pub fn equal_versions_are_one()
    ensures { SaysSame ⟦<Version as PartialEq>⟧.eq }
{}
