//! Laws: functions that do nothing, whose contracts are the laws.

ghost use Rattle.cards.specs.Orders.{SaysSame};
ghost use Rattle.pattern_store.specs.Record.{AgreesByOwners};

use crate::keys::Key;

/// `==` of two keys says whether they are the same, so no list is shared by two keys.
pub fn equal_keys_are_one()
    ensures { SaysSame ⟦<Key as PartialEq>⟧.eq }
{}

/// A record whose mask has what its depths name names the owners in all of those places, as `find` finds it.
pub fn masks_name_owners()
    ensures { AgreesByOwners }
{}
