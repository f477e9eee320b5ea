//! The laws of `==` and of completed rests. Each is a function that does nothing: its contract is the law.

ghost use Rattle.std.specs.Prelude.{◌≡◌, ◌↔◌};
ghost use Rattle.std.specs.Bool.{Decides};
ghost use Rattle.cards.specs.Orders.{SaysSame};
ghost use Rattle.cards.specs.Deal.{Deal};
ghost use Rattle.patterns.specs.Shapes.{Shape, IsPattern, IsRest, Covers};
ghost use Rattle.patterns.specs.Holders.{Matches};
ghost use Rattle.patterns.specs.Completions.{completed};
ghost use Rattle.patterns.specs.Parts.{suit_shape};
ghost use Rattle.patterns.specs.declared.faults.PatternFault.{PatternFault};
ghost use Rattle.patterns.specs.declared.suit_parts.SuitPart.{SuitPart};

use crate::faults::PatternFault;
use crate::patterns::Pattern;
use crate::rests::Rest;
use crate::suit_parts::SuitPart;

/// `==` of two patterns says whether they are the same.
pub fn equal_patterns_are_one()
    ensures { (one other : Shape) → IsPattern one → IsPattern other → Decides (⟦<Pattern as PartialEq>⟧.eq one other)
        (one ≡ other) }
{}

/// `==` of two rests says whether they are the same.
pub fn equal_rests_are_one()
    ensures { (one other : Shape) → IsRest one → IsRest other
        → Decides (⟦<Rest as PartialEq>⟧.eq one other) (one ≡ other) }
{}

/// `==` of two parts says whether they tell the same suit.
pub fn equal_parts_are_one()
    ensures { (one other : SuitPart) → Decides (⟦<SuitPart as PartialEq>⟧.eq one other)
        (suit_shape one ≡ suit_shape other) }
{}

/// `==` of two faults says whether they are the same.
pub fn equal_faults_are_one()
    ensures { SaysSame ⟦<PatternFault as PartialEq>⟧.eq }
{}

/// A layout that matches a rest matches the rest completed.
pub fn completed_rests_match()
    ensures { (rest : Shape) (deal : Deal) → Matches rest deal → Matches (completed rest) deal }
{}

/// A pattern that covers a rest covers the rest completed.
pub fn completed_rests_are_covered()
    ensures { (pattern rest : Shape) → Covers pattern rest → Covers pattern (completed rest) }
{}
