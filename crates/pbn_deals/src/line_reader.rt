//! One line of a text, piece by piece.

ghost use Rattle.std.specs.Prelude.{◌≡◌, ◌≤◌, false, length, IfOk};
ghost use Rattle.pbn_deals.specs.Views.{ReadsLine, ReadsTag};

use crate::faults::PbnFault;
use crate::games::GameTags;
use crate::hands::first_byte;
use crate::letters::is_blank;
use crate::tags::{read_tag, split_at_byte};
use std::alloc::Global;

/// Takes the tag pair after an opening bracket that stands before all section data, and answers what stands after it.
fn take_tag<'a>(
    tags: &mut GameTags,
    alloc: Global,
    text: &'a [u8],
    number: usize,
    count: usize,
) -> Result<&'a [u8], PbnFault>
    ensures pair { ReadsTag number count tags.old tags.new text.now result }
    ensures within { IfOk result (λ after. length after.now ≤ length text.now) }
{
    let Some(tag) = read_tag(text) else {
        return Err(PbnFault::TagForm { line: number });
    };
    tags.take(alloc, tag.name, tag.value, number, count)?;
    Ok(tag.rest)
}

/// Reads a line, from one of its places outside comments on, that follows `count` boards. Answers whether a brace
/// comment is open at its end.
pub(crate) fn read_line(
    tags: &mut GameTags,
    alloc: Global,
    line: &[u8],
    number: usize,
    count: usize,
) -> Result<bool, PbnFault>
    ensures { ReadsLine number count tags.old tags.new line.now result }
{
    let mut rest = line;
    let mut in_data = false;
    while let Some((first, others)) = first_byte(rest) {
        if first == b';' {
            return Ok(false);
        } else if first == b'{' {
            let Some((_, after)) = split_at_byte(others, b'}') else {
                return Ok(true);
            };
            rest = after;
        } else if first == b'"' {
            let Some((_, after)) = split_at_byte(others, b'"') else {
                return Ok(false);
            };
            in_data = true;
            rest = after;
        } else if first == b'[' && !in_data {
            rest = take_tag(tags, alloc, others, number, count)?;
        } else {
            in_data = in_data || !is_blank(first);
            rest = others;
        }
    }
    Ok(false)
}
