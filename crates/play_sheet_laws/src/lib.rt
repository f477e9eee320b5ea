//! Laws about sheets of plays. Each is a function that does nothing: its contract is the law.
#![tactic(auto)]

ghost use Rattle.play_sheet_laws.specs.Markup.{MarkupIsOurs, EndsInText};

/// The elements and attributes of a sheet of plays depend on the plays and their lines, and on no name of a board and
/// no contract, so that no text of yours is read as markup. A sheet ends outside of its tags.
pub fn plays_markup_is_ours()
    ensures same { MarkupIsOurs }
    ensures ends { EndsInText }
{}
