//! The rule by which a call is answered.

ghost use Rattle.std.specs.Prelude.{◌≡◌, ◌≤◌, ◌<◌, ◌≤ℤ◌, pos, negsuc, length, Contains, MatchBool};
ghost use Rattle.card_values.specs.declared.values.CardValue.{CardValue};
ghost use Rattle.dds_calls.specs.Rules.{IsBest, IsChoosy, IsRule, IsScore, empty_score, least_of};

use crate::board_shapes::Ask;
use card_values::CardValue;

/// The rule by which a call is answered. The first that applies counts.
#[derive(Clone, Copy)]
pub enum Rule {
    /// It is the last trick: all cards come with their tricks, or with 0 if only cards are asked for.
    LastTrick,
    /// The mode is 0, and there is one group: it comes without its tricks.
    OneGroup,
    /// All cards are asked for.
    AllCards,
    /// Cards are asked for without their tricks.
    CardsAlone,
    /// Cards are asked for that lead to this many tricks.
    Target(u8),
    /// The cards are asked for that lead to the most tricks, which are this many.
    Best(u8),
}

/// Returns the most tricks to which a card leads.
fn best_of(values: &[CardValue]) -> u8
    requires { 0 < length values.now }
    ensures { IsBest values.now result }
{
    let mut best = values[0].tricks;
    for value in values {
        if best < value.tricks {
            best = value.tricks;
        }
    }
    best
}

/// Returns the rule, with this many cards left in the hands and this many groups.
pub(crate) fn rule_of(ask: Ask, left: u32, groups: usize, values: &[CardValue]) -> Rule
    requires low { negsuc 0 ≤ℤ ask.target }
    requires high { ask.target ≤ℤ pos 13 }
    requires some { 0 < length values.now }
    requires within { (value : CardValue) → Contains values.now value → value.tricks ≤ 13 }
    ensures rule { IsRule ask left groups values.now result }
    ensures within { least_of result ≤ 13 }
{
    if left <= 4 {
        return Rule::LastTrick;
    }
    if ask.mode == 0 && groups == 1 {
        return Rule::OneGroup;
    }
    if ask.solutions == 3 {
        return Rule::AllCards;
    }
    if ask.target == 0 {
        return Rule::CardsAlone;
    }
    if ask.target < 0 {
        return Rule::Best(best_of(values));
    }
    Rule::Target(ask.target as u8)
}

impl Rule {
    /// Returns the fewest tricks of the lines that are given.
    pub(crate) fn least(self) -> u8
        ensures { result ≡ least_of self }
    {
        match self {
            Rule::Target(least) | Rule::Best(least) => least,
            _ => 0,
        }
    }

    /// Returns the score of a line.
    pub(crate) fn score(self, ask: Ask, tricks: u8) -> i32
        ensures { IsScore ask self tricks result }
    {
        match self {
            Rule::LastTrick => {
                if ask.target == 0 && ask.solutions < 3 {
                    return 0;
                }
                i32::from(tricks)
            }
            Rule::OneGroup => -2,
            Rule::AllCards => i32::from(tricks),
            Rule::CardsAlone => 0,
            Rule::Target(least) => i32::from(least),
            Rule::Best(least) => i32::from(least),
        }
    }

    /// Returns the first score if there is no line.
    pub(crate) fn empty_score(self) -> i32
        ensures { result ≡ empty_score self }
    {
        match self {
            Rule::Target(least) => {
                if 1 < least {
                    return -1;
                }
                0
            }
            _ => 0,
        }
    }

    /// Returns whether one line is given if one solution is asked for.
    pub(crate) fn is_choosy(self) -> bool
        ensures { MatchBool result (IsChoosy self) (IsChoosy self → ⊥) }
    {
        match self {
            Rule::LastTrick | Rule::OneGroup | Rule::AllCards => false,
            Rule::CardsAlone | Rule::Target(_) | Rule::Best(_) => true,
        }
    }
}
