//! A whole text, line by line.

ghost use Rattle.pbn_deals.specs.Reading.{SaysBoards};
ghost use Rattle.pbn_deals.specs.Views.{boards_seen};

use crate::boards::Board;
use crate::faults::PbnFault;
use crate::games::GameTags;
use crate::line_cuts::{cut_line, is_blank_line, is_escaped, without_mark};
use crate::line_reader::read_line;
use crate::tags::split_at_byte;
use std::alloc::Global;
use std::mem;

/// What has been read so far: whole boards, the tags of the game, and the line of the `{` where a brace comment is
/// open.
#[derive(Drop)]
pub(crate) struct Reader {
    pub(crate) boards: Vec<Board>,
    pub(crate) tags: GameTags,
    pub(crate) opened: Option<usize>,
}

impl Reader {
    ghost use Rattle.std.specs.Prelude.{◌≡◌, ◌++◌, None, []};
    ghost use Rattle.pbn_deals.specs.Games.{no_tags, boards_of};
    ghost use Rattle.pbn_deals.specs.Views.{tags_seen};
    ghost use Rattle.pbn_deals.specs.Steps.{TakesLine, TakesRest, EndsGame};

    /// Nothing has been read.
    fn new(alloc: Global) -> Reader
        ensures boards { result.boards.items ≡ [] }
        ensures tags { tags_seen result.tags ≡ no_tags }
        ensures closed { result.opened ≡ None }
    {
        Reader {
            boards: Vec::new(alloc),
            tags: GameTags::new(),
            opened: None,
        }
    }

    /// Ends the game: what its tags say of a board is added to the boards.
    fn end_game(&mut self, alloc: Global) -> Result<(), PbnFault>
        ensures { EndsGame result self.old self.new }
    {
        let tags = mem::replace(&mut self.tags, GameTags::new());
        if let Some(board) = tags.into_board(alloc) {
            self.boards.push(board)?;
        }
        Ok(())
    }

    /// Takes what stands outside a comment that began in an earlier line.
    fn take_rest(&mut self, alloc: Global, rest: &[u8], number: usize) -> Result<(), PbnFault>
        ensures { TakesRest result number rest.now self.old self.new }
    {
        let count = self.boards.len();
        let is_open = read_line(&mut self.tags, alloc, rest, number, count)?;
        self.opened = is_open.then_some(number);
        Ok(())
    }

    /// Takes the line with this number.
    fn take_line(&mut self, alloc: Global, line: &[u8], number: usize) -> Result<(), PbnFault>
        ensures { TakesLine result number line.now self.old self.new }
    {
        if self.opened.is_some() {
            match split_at_byte(line, b'}') {
                Some((_, rest)) => self.take_rest(alloc, rest, number),
                None => Ok(()),
            }
        } else if is_escaped(line) {
            Ok(())
        } else if is_blank_line(line) {
            self.end_game(alloc)
        } else {
            self.take_rest(alloc, line, number)
        }
    }
}

/// The boards of a PBN text, in the order of their games, or the fault that stands first in it, with its line. Games
/// without a Deal tag are skipped. `OutOfMemory` says that there was no memory for a name or for the list.
pub fn read_boards(alloc: Global, text: &[u8]) -> Result<Vec<Board>, PbnFault>
    ensures { SaysBoards text.now (boards_seen result) }
{
    let mut reader = Reader::new(alloc);
    let mut rest = without_mark(text);
    let mut number = 1;
    'lines: loop {
        let (line, after) = cut_line(rest);
        reader.take_line(alloc, line, number)?;
        let Some(next) = after else {
            break 'lines;
        };
        number += 1;
        rest = next;
    }
    if let Some(line) = reader.opened {
        return Err(PbnFault::OpenComment { line });
    }
    reader.end_game(alloc)?;
    Ok(reader.boards)
}
