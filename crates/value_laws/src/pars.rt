//! Laws about par. Each is a function that does nothing: its contract is the law.

ghost use Rattle.par.specs.Laws.{NoneAtZero};
ghost use Rattle.value_laws.specs.ParLaws.{HasOnePar, HasParContract};

/// A board has one par.
pub fn par_is_unique()
    ensures { HasOnePar }
{}

/// There is a par contract exactly if par isn't 0.
pub fn par_has_contracts()
    ensures some { HasParContract }
    ensures none { NoneAtZero }
{}
