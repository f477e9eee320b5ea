//! The lines of a call, written as DDS has them.

ghost use Rattle.std.specs.Prelude.{◌≡◌, ◌≤◌, ◌<◌, length};
ghost use Rattle.dds_calls.specs.Telling.{AreShown, IsWritten, Tells, blank_with};

use crate::board_shapes::{Ask, FutureTricks};
use crate::lines::Line;
use crate::rules::Rule;

/// Returns an answer without lines, with this first score.
pub(crate) fn blank(score: i32) -> FutureTricks
    ensures { result ≡ blank_with score }
{
    FutureTricks {
        nodes: 0,
        cards: 0,
        suit: [0; 13],
        rank: [0; 13],
        equals: [0; 13],
        score: [score, 0, 0, 0, 0, 0, 0, 0, 0, 0, 0, 0, 0],
    }
}

/// Returns the lines that are given.
fn shown<'a>(ask: Ask, rule: Rule, lines: &'a [Line]) -> &'a [Line]
    ensures { AreShown ask rule lines.entry.now result.now }
{
    if ask.solutions == 1 {
        if rule.is_choosy() {
            if lines.len() > 1 {
                return &lines[..1];
            }
        }
    }
    lines
}

/// Writes lines with their scores.
fn filled(ask: Ask, rule: Rule, lines: &[Line]) -> FutureTricks
    requires some { 0 < length lines.now }
    requires few { length lines.now ≤ 13 }
    ensures { Tells ask rule lines.now result }
{
    let mut suit = [0i32; 13];
    let mut rank = [0i32; 13];
    let mut equals = [0i32; 13];
    let mut score = [0i32; 13];
    for (place, line) in lines.iter().enumerate() {
        suit[place] = line.card.suit.number() as i32;
        rank[place] = line.card.rank.number() as i32 + 2;
        equals[place] = i32::from(line.equals);
        score[place] = rule.score(ask, line.tricks);
    }
    FutureTricks {
        nodes: 0,
        cards: lines.len() as i32,
        suit,
        rank,
        equals,
        score,
    }
}

/// Writes the lines that are given of these.
pub(crate) fn written(ask: Ask, rule: Rule, lines: &[Line]) -> FutureTricks
    requires { length lines.now ≤ 13 }
    ensures { IsWritten ask rule lines.now result }
{
    let given = shown(ask, rule, lines);
    if given.is_empty() {
        blank(rule.empty_score())
    } else {
        filled(ask, rule, given)
    }
}
