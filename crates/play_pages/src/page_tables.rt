//! The lines of all games.

ghost use Rattle.std.specs.Prelude.{◌≡◌};
ghost use Rattle.play_pages.specs.Tasks.{no_lines, lines_in};

use crate::lines::PlayLines;
use std::marker::Model;

/// The lines of all games, by their places. Contracts see the list of them.
#[derive(Drop)]
pub struct PageTable {
    found: Vec<Option<PlayLines>>,
}

impl Model for PageTable {
    ghost use Rattle.std.specs.Prelude.{List, Option};
    ghost use Rattle.std.specs.Coded.{codes};
    ghost use Rattle.certificate_graph.specs.TreeCodes.{tree_code};
    ghost use Rattle.play_pages.specs.declared.lines.PlayLines.{PlayLines};

    ghost Value = { List (Option PlayLines) };

    ghost coded = { Prim.hlevel (codes, tree_code) };

    ghost view = { λ table. table.found.items };
}

impl PageTable {
    /// The table of these lines. Takes no memory.
    pub(crate) fn new(found: Vec<Option<PlayLines>>) -> PageTable
        ensures { result ≡ found.items }
    {
        PageTable { found }
    }

    /// The lines of the game in this place. They are those given if none were noted.
    pub fn lines<'a>(&'a self, place: usize, none: &'a PlayLines) -> &'a PlayLines
        requires { none.now ≡ no_lines }
        ensures { result.now ≡ lines_in self.now place }
    {
        match self.found.get(place) {
            Some(Some(lines)) => lines,
            Some(None) | None => none,
        }
    }
}
