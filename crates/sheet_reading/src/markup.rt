//! Laws about sheets. Each is a function that does nothing: its contract is the law.

ghost use Rattle.sheet_reading.specs.Markup.{MarkupIsOurs, EndsInText};

/// The elements and attributes of a sheet depend on its shape alone, so that no value is read as markup. A sheet ends
/// outside of its tags.
pub fn markup_is_ours()
    ensures same { MarkupIsOurs }
    ensures ends { EndsInText }
{}
