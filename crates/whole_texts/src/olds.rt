//! What is dropped of a text: the names of tag pairs, and comments.

ghost use Rattle.std.specs.Prelude.{◌≡◌};
ghost use Rattle.whole_texts.specs.OldTables.{renews_pars, is_par_tag, is_old, is_count_text, is_unknown_text};
ghost use Rattle.whole_texts.specs.OldTables.{is_old_comment};

use pbn_deals::is_same_name;
use tables::Renews;

/// The capitals of the name of a table's tag pair.
const TABLE: &[u8] = b"OPTIMUMRESULTTABLE";

/// The capitals of the names of the tag pairs of a par.
const SCORE: &[u8] = b"OPTIMUMSCORE";

const CONTRACTS: &[u8] = b"PARCONTRACT";

/// Whether pars are written anew too.
fn renews_pars(renews: Renews) -> bool
    ensures { result ≡ renews_pars renews }
{
    match renews {
        Renews::Tables => false,
        Renews::TablesAndPars => true,
    }
}

/// Whether a tag pair of this name is one of a par.
fn is_par_tag(name: &[u8]) -> bool
    ensures { result ≡ is_par_tag name.now }
{
    is_same_name(SCORE, name) || is_same_name(CONTRACTS, name)
}

/// Whether a tag pair of this name is dropped.
pub(crate) fn is_old(renews: Renews, name: &[u8]) -> bool
    ensures { result ≡ is_old renews name.now }
{
    is_same_name(TABLE, name) || is_par_tag(name) && renews_pars(renews)
}

/// Whether the comment says why a par isn't known.
fn is_unknown_text(bytes: &[u8]) -> bool
    ensures { result ≡ is_unknown_text bytes.now }
{
    bytes == b"; par unknown: no dealer".as_slice()
        || bytes == b"; par unknown: no vulnerability".as_slice()
}

/// Whether the comment is dropped if it ends a game.
pub(crate) fn is_old_comment(renews: Renews, bytes: &[u8]) -> bool
    ensures { result ≡ is_old_comment renews bytes.now }
{
    is_count_text(bytes) || is_unknown_text(bytes) && renews_pars(renews)
}

/// Whether the comment is `; table incomplete: m of 20`, m below 20.
fn is_count_text(bytes: &[u8]) -> bool
    ensures { result ≡ is_count_text bytes.now }
{
    let Some(rest) = bytes.strip_prefix(b"; table incomplete: ") else {
        return false;
    };
    let Some(digits) = rest.strip_suffix(b" of 20") else {
        return false;
    };
    match digits {
        [digit] => digit.is_ascii_digit(),
        [first, digit] => *first == b'1' && digit.is_ascii_digit(),
        _ => false,
    }
}
