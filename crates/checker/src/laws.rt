//! The laws of steps and faults. Each is a function that does nothing: its contract is the law.

ghost use Rattle.checker.specs.Laws.{HasOneEntryAnswer};

/// Two graphs have at most one answer for a contract on a layout.
pub fn graphs_have_one_answer()
    ensures { HasOneEntryAnswer }
{}
