//! What the cards of a recorded play lose. The law is a function that does nothing: its contract is the law.

ghost use Rattle.value_laws.specs.LossLaws.{LinesSayLosses};

/// If the numbers of a page of plays are true, each line says how many tricks its card loses for the side that plays
/// it: declarer's number falls by them at a card of declarer's side, and rises by them at a card of the defenders.
pub fn lines_say_losses()
    ensures { LinesSayLosses }
{}
