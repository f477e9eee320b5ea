//! The laws of words. Each is a function that does nothing: its contract is the law.

ghost use Rattle.std.specs.Prelude.{◌≡◌, ◌↔◌, Result, Ok};
ghost use Rattle.patterns.specs.Shapes.{Shape, IsPattern, IsRest};
ghost use Rattle.patterns.specs.Words.{words_of, MeetsWords};
ghost use Rattle.patterns.specs.declared.faults.PatternFault.{PatternFault};

/// Two patterns are the same exactly where their words are, so their words may stand for them as a key.
pub fn equal_words_are_one_pattern()
    ensures { (one other : Shape) → IsPattern one → IsPattern other → (words_of one ≡ words_of other) ↔ (one ≡ other) }
{}

/// Two rests are the same exactly where their words are.
pub fn equal_words_are_one_rest()
    ensures { (one other : Shape) → IsRest one → IsRest other → (words_of one ≡ words_of other) ↔ (one ≡ other) }
{}

/// What `from_words` may answer for the words of a pattern is that pattern alone.
pub fn words_make_their_pattern()
    ensures { (shape : Shape) (answer : Result Shape PatternFault) → IsPattern shape
        → MeetsWords 1 13 (words_of shape) answer → answer ≡ Ok shape }
{}

/// What `from_words` may answer for the words of a rest is that rest alone.
pub fn words_make_their_rest()
    ensures { (shape : Shape) (answer : Result Shape PatternFault) → IsRest shape
        → MeetsWords 0 12 (words_of shape) answer → answer ≡ Ok shape }
{}
