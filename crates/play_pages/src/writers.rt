//! What writes the page of plays.

use crate::page_tables::PageTable;
use cards::{DeviceFault, Sink};
use recorded_plays::RecordedGame;

/// Writes the page of plays: as a text ([`crate::write_page`]), or in another form.
pub trait PlaysWriter {
    ghost use Rattle.cards.specs.Devices.{Writes};
    ghost use Rattle.play_pages.specs.Tasks.{lines_in};
    ghost use Rattle.play_pages.specs.Making.{PlaysText};

    /// The page of games and the lines of their plays.
    ghost text: { Self → PlaysText };

    /// Writes the page. If the sink fails, it has got a beginning of it.
    fn write<S: Sink>(
        &self,
        sink: &mut S,
        games: &[RecordedGame<'_>],
        table: &PageTable,
    ) -> Result<(), DeviceFault>
        ensures { Writes (S.state sink.old) (S.state sink.new) (text self.now games.now (lines_in table.now)) result };
}
