//! Names of places.

ghost use Rattle.std.specs.Prelude.{◌≡◌, bytes_eq};

/// Whether a place has this name.
pub(crate) fn is_named(place: &[u8], name: &[u8]) -> bool
    ensures { result ≡ bytes_eq place.now name.now }
{
    place == name
}
