//! The text of an answer, and where it is cut.

ghost use Rattle.std.specs.Prelude.{◌≢◌, ◌++◌, ◌≡◌, ◌<◌, ◌≤◌, ◌⊎◌, ◌↔◌, ℕ, List, length, IsTrue, MatchOption};
ghost use Rattle.deal_subcommands.specs.Answers.{IsEmptyLine, HasNoEmptyLine, IsCut, IsUncut, IsAnswer, LacksResult};
ghost use Rattle.deal_subcommands.specs.Answers.{result_text, number_line};

use certificate_graph::after_prefix;

/// Cuts the text of an answer: the number of tricks, the text for declarer's side and that for the defenders. None
/// where the first line is not `result k` with k at most 13. Takes no memory.
pub fn read_answer(text: &[u8]) -> Option<(u8, &[u8], &[u8])>
    ensures { MatchOption result (LacksResult text.now)
        (λ answer. IsAnswer text.now answer.0 answer.1.now answer.2.now) }
{
    let Some((tricks, body)) = read_result(text) else {
        return None;
    };
    let (declarers, defenders) = cut_body(body);
    Some((tricks, declarers, defenders))
}

/// The number of tricks, and what stands after its line.
fn read_result(text: &[u8]) -> Option<(u8, &[u8])>
    ensures { MatchOption result (LacksResult text.now)
        (λ found. (found.0 ≤ 13) × (text.now ≡ result_text found.0 found.1.now)) }
{
    let Some(number) = after_prefix(text, b"result ") else {
        return None;
    };
    for tricks in 0..=13u8 {
        if let Some(body) = after_number(number, tricks) {
            return Some((tricks, body));
        }
    }
    None
}

/// What stands after this number and its line feed, if the text begins with them.
fn after_number(text: &[u8], number: u8) -> Option<&[u8]>
    requires { number ≤ 13 }
    ensures { MatchOption result ((rest : List ℕ) → text.now ≢ number_line number rest)
        (λ rest. text.now ≡ number_line number rest.now) }
{
    if number < 10 {
        return after_prefix(text, &[b'0' + number, b'\n']);
    }
    after_prefix(text, &[b'1', b'0' + (number - 10), b'\n'])
}

/// What stands before the first empty line, and what stands after it; all, and nothing, where no line is empty.
fn cut_body(body: &[u8]) -> (&[u8], &[u8])
    ensures { IsCut body.now result.0.now result.1.now ⊎ IsUncut body.now result.0.now result.1.now }
{
    match empty_line(body) {
        Some(place) => (&body[..place], &body[place + 1..]),
        None => (body, &[]),
    }
}

/// The first place where a line without bytes stands.
fn empty_line(text: &[u8]) -> Option<usize>
    ensures { MatchOption result (HasNoEmptyLine text.now) (λ place.
        IsEmptyLine text.now place × (place < length text.now)
        × ((before : ℕ) → before < place → IsEmptyLine text.now before → ⊥)) }
{
    for place in 0..text.len() {
        if is_empty_line(text, place) {
            return Some(place);
        }
    }
    None
}

/// Whether a line without bytes stands in this place.
fn is_empty_line(text: &[u8], place: usize) -> bool
    requires { place < length text.now }
    ensures { IsTrue result ↔ IsEmptyLine text.now place }
{
    text[place] == b'\n' && (place == 0 || text[place - 1] == b'\n')
}
