//! Laws of the value of a layout. Each is a function that does nothing: its contract is the law.

ghost use Rattle.value_laws.specs.LayoutLaws.{HasOneValue, HasOnePlainValue, PlainValueIsValue};

/// A contract on a deal has one double-dummy value.
pub fn value_is_unique()
    ensures { HasOneValue }
{}

/// An ending has one value for North and South, the number that [`strategies::plain_value`] answers.
pub fn plain_value_is_unique()
    ensures { HasOnePlainValue }
{}

/// The plain value of a contract's deal is its double-dummy value if North or South declares. Otherwise it is the
/// number of the other tricks.
pub fn plain_value_is_value()
    ensures { PlainValueIsValue }
{}
