//! Templates: pages with places `{name}` for values.

ghost use Rattle.std.specs.Prelude.{◌≡◌, ◌≢◌, ◌∷◌, ◌++◌, All, MatchOption};
ghost use Rattle.html.specs.Templates.{filled};
ghost use Rattle.cards.specs.Devices.{Writes};

use cards::{DeviceFault, Sink, write_all};

/// A value for each place of a template.
pub trait Values {
    ghost use Rattle.std.specs.Prelude.{ℕ, List};
    ghost use Rattle.cards.specs.Devices.{Writes};
    ghost use Rattle.html.specs.Values.{value_text};

    /// The value for the place of a name.
    ghost values: { Self → List ℕ → List ℕ };

    /// Writes the value for the place of a name, as [`crate::write_value`] does.
    fn write<S: Sink>(&self, sink: &mut S, name: &[u8]) -> Result<(), DeviceFault>
        ensures { Writes (S.state sink.old) (S.state sink.new) (value_text (values self.now name.now)) result };
}

/// What stands before the first byte that is this mark, and what stands after it, if it is there.
fn cut(text: &[u8], mark: u8) -> (&[u8], Option<&[u8]>)
    ensures before { All (λ byte. byte ≢ mark) result.0.now }
    ensures after { MatchOption result.1 (result.0.now ≡ text.now)
        (λ after. text.now ≡ result.0.now ++ mark ∷ after.now) }
{
    match text.iter().position(|byte| *byte == mark) {
        Some(at) => (&text[..at], Some(&text[at + 1..])),
        None => (text, None),
    }
}

/// Writes a template with a value in each of its places.
pub fn write_filled<S: Sink, V: Values>(
    sink: &mut S,
    template: &[u8],
    values: &V,
) -> Result<(), DeviceFault>
    ensures { Writes (S.state sink.old) (S.state sink.new) (filled (V.values values.now) template.now) result }
{
    let mut rest = template;
    loop {
        let (text, place) = cut(rest, b'{');
        write_all(sink, text)?;
        let Some(place) = place else {
            return Ok(());
        };
        let (name, after) = cut(place, b'}');
        let Some(after) = after else {
            return Ok(());
        };
        values.write(sink, name)?;
        rest = after;
    }
}
