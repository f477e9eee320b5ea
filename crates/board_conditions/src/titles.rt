//! Where and when a board was played.

ghost use Rattle.std.specs.Prelude.{◌≡◌};
ghost use Rattle.board_conditions.specs.Titles.{is_title};

/// What a game says of where and when it was played: of the values of its tags with these names the first that says a
/// title.
#[derive(Clone, Copy)]
pub struct Titles<'a> {
    /// Its event.
    pub event: Option<&'a [u8]>,
    /// The section of the event.
    pub section: Option<&'a [u8]>,
    /// The place.
    pub site: Option<&'a [u8]>,
    /// The day.
    pub date: Option<&'a [u8]>,
}

/// Whether a value says a title: it isn't empty, unknown (`?`) or that of the game before (`#`).
pub(crate) fn is_title(value: &[u8]) -> bool
    ensures { result ≡ is_title value.now }
{
    match value {
        b"" | b"?" | b"#" => false,
        _ => true,
    }
}
