//! Tag pairs.

ghost use Rattle.std.specs.Prelude.{◌≡◌, ◌≢◌, ◌≤◌, ◌∷◌, ◌++◌, MatchOption, IfSome, All, length};
ghost use Rattle.pbn_deals.specs.Letters.{is_letter};
ghost use Rattle.pbn_deals.specs.Reading.{Lacks};
ghost use Rattle.pbn_deals.specs.Tags.{is_name_byte, name_front, after_name, is_board, is_deal, is_inherited};
ghost use Rattle.pbn_deals.specs.Tags.{is_same_name, tag_of};
ghost use Rattle.pbn_deals.specs.Views.{tag_seen};

use crate::hands::after_blanks;

/// A tag pair of a line, and what stands after it.
#[derive(Clone, Copy)]
pub(crate) struct Tag<'a> {
    pub(crate) name: &'a [u8],
    pub(crate) value: &'a [u8],
    pub(crate) rest: &'a [u8],
}

/// What stands before the first such byte and after it, where there is one.
pub(crate) fn split_at_byte(text: &[u8], byte: u8) -> Option<(&[u8], &[u8])>
    ensures { MatchOption result (Lacks byte text.now)
        (λ found. (text.now ≡ found.0.now ++ byte ∷ found.1.now) × Lacks byte found.0.now) }
{
    for (i, other) in text.iter().enumerate() {
        if *other == byte {
            return Some((&text[..i], &text[i + 1..]));
        }
    }
    None
}

fn is_name_byte(byte: u8) -> bool
    ensures { result ≡ is_name_byte byte }
{
    byte.is_ascii_alphanumeric() || byte == b'_'
}

/// The bytes of a name at the front, and what stands after them.
fn split_name(text: &[u8]) -> (&[u8], &[u8])
    ensures front { result.0.now ≡ name_front text.now }
    ensures after { result.1.now ≡ after_name text.now }
    ensures within { length result.1.now ≤ length text.now }
{
    for (i, byte) in text.iter().enumerate() {
        if !is_name_byte(*byte) {
            return text.split_at(i);
        }
    }
    (text, &[])
}

/// Whether the letter is this capital, or the small letter of it.
fn is_letter(capital: u8, byte: u8) -> bool
    requires { capital ≤ 90 }
    ensures { result ≡ is_letter capital byte }
{
    byte == capital || byte == capital + 32
}

/// Whether the name is this one, which is given in capitals, in any case.
pub fn is_same_name(capitals: &[u8], name: &[u8]) -> bool
    requires { All (λ capital. capital ≤ 90) capitals.now }
    ensures { result ≡ is_same_name capitals.now name.now }
{
    let mut rest = name;
    for capital in capitals {
        let [byte, others @ ..] = rest else {
            return false;
        };
        if !is_letter(*capital, *byte) {
            return false;
        }
        rest = others;
    }
    rest.is_empty()
}

/// Whether the name is `Board`, in any case.
pub(crate) fn is_board(name: &[u8]) -> bool
    ensures { result ≡ is_board name.now }
{
    is_same_name(b"BOARD", name)
}

/// Whether the name is `Deal`, in any case.
pub(crate) fn is_deal(name: &[u8]) -> bool
    ensures { result ≡ is_deal name.now }
{
    is_same_name(b"DEAL", name)
}

/// Whether the value is handed on from another game.
pub(crate) fn is_inherited(value: &[u8]) -> bool
    ensures { result ≡ is_inherited value.now }
{
    value.starts_with(b"#")
}

/// The tag pair that stands after an opening bracket.
pub(crate) fn read_tag(text: &[u8]) -> Option<Tag<'_>>
    ensures value { tag_seen result ≡ tag_of text.now }
    ensures within { IfSome result (λ tag. length tag.rest.now ≤ length text.now) }
{
    let (name, after) = split_name(after_blanks(text));
    if name.is_empty() {
        return None;
    }
    let [quote, after @ ..] = after_blanks(after) else {
        return None;
    };
    if *quote != b'"' {
        return None;
    }
    let Some((value, after)) = split_at_byte(after, b'"') else {
        return None;
    };
    let [bracket, rest @ ..] = after_blanks(after) else {
        return None;
    };
    if *bracket != b']' {
        return None;
    }
    Some(Tag { name, value, rest })
}
