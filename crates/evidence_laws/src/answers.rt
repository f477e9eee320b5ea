//! Laws of the text of an answer. Each is a function that does nothing: its contract is the law.

ghost use Rattle.evidence_laws.specs.Answers.{HasOneAnswer};
ghost use Rattle.evidence_laws.specs.Solves.{AnswersAreReadBack};

/// A text is one answer at most, and none where `read_answer` has none.
pub fn text_is_one_answer()
    ensures { HasOneAnswer }
{}

/// [`read_answer`](deal_subcommands::read_answer) cuts what `solve` writes into the same number and the same texts.
pub fn answers_are_read_back()
    ensures { AnswersAreReadBack }
{}
