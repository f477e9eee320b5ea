//! Lines of a name and a word, as they are read.

ghost use Rattle.std.specs.Prelude.{◌≡◌, ◌↔◌, IsTrue};
ghost use Rattle.card_evidence.specs.Readings.{ReadsLine};

use certificate_graph::after_prefix;
use evidence::cut_at;

/// Returns the word of the line of this name, and the rest of the text.
pub fn read_line<'a>(text: &'a [u8], name: &[u8]) -> Option<(&'a [u8], &'a [u8])>
    ensures { ReadsLine name.now text.now result }
{
    let Some(rest) = after_prefix(text, name) else {
        return None;
    };
    cut_at(rest, b'\n')
}

/// Whether both words are the same.
pub(crate) fn is_same(word: &[u8], other: &[u8]) -> bool
    ensures { IsTrue result ↔ (word.now ≡ other.now) }
{
    word == other
}
