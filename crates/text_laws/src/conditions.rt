//! Laws about the conditions of boards. Each is a function that does nothing: its contract is the law.

ghost use Rattle.text_laws.specs.ConditionLaws.{BoardsHaveConditions, BoardsHaveTitles, TextsHaveOneList};
ghost use Rattle.text_laws.specs.ConditionLaws.{TextsHaveOneTitles, PagesKeepConditions};

/// A text has one list of conditions.
pub fn conditions_are_unique()
    ensures { TextsHaveOneList }
{}

/// A text has one list of titles, and one head.
pub fn titles_are_unique()
    ensures { TextsHaveOneTitles }
{}

/// The conditions of a text are those of its boards, one for each, in their order.
pub fn boards_have_conditions()
    ensures { BoardsHaveConditions }
{}

/// The titles of a text are those of its boards, one for each, in their order.
pub fn boards_have_titles()
    ensures { BoardsHaveTitles }
{}

/// The text of the tables, read again, has for each board whose par is printed and known the dealer and the
/// vulnerability from which it was taken: so its par is the same.
pub fn pages_keep_conditions()
    ensures { PagesKeepConditions }
{}
