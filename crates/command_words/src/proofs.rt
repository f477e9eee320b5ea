//! Where numbers come from: a search, or evidence.

ghost use Rattle.std.specs.Prelude.{◌≡◌, is_some};
ghost use Rattle.clap.specs.Words.{found_of, rows_of};
ghost use Rattle.command_words.specs.Proofs.{SaysProof, names_both_files};
ghost use Rattle.command_words.specs.Says.{IsRead};

use crate::kinds::TextOption;
use crate::reading::word_of;
use clap::ArgMatches;

/// Where numbers come from, and where their evidence goes.
#[derive(Clone, Copy)]
pub enum Proof<'a> {
    /// They are searched, and the evidence is dropped.
    Dropped,
    /// They are searched, and the evidence goes into a new file of this name.
    Kept(&'a str),
    /// The evidence in the file of this name shows them.
    Audited(&'a str),
}

/// Where the evidence is kept.
pub const EVIDENCE: TextOption = TextOption {
    name: "evidence",
    value_name: "FILE",
    help: "Keeps the evidence in FILE, a new file",
};

/// Which evidence shows the numbers.
pub const AUDIT: TextOption = TextOption {
    name: "audit",
    value_name: "FILE",
    help: "Searches nothing: the evidence in FILE shows the numbers",
};

/// Returns where the numbers come from, unless the words name two files of evidence.
pub fn proof_of<'a>(said: &ArgMatches<'a>) -> Option<Proof<'a>>
    ensures { IsRead (SaysProof (rows_of (found_of said.now))) result }
{
    let kept = word_of(said, EVIDENCE.name);
    let audited = word_of(said, AUDIT.name);
    match (kept, audited) {
        (None, None) => Some(Proof::Dropped),
        (Some(name), None) => Some(Proof::Kept(name)),
        (None, Some(name)) => Some(Proof::Audited(name)),
        (Some(_), Some(_)) => None,
    }
}

/// Returns what is said of words that name two files of evidence: one that is kept, and one that is audited.
pub fn conflict(said: &ArgMatches<'_>) -> Option<&'static str>
    ensures { is_some result ≡ names_both_files (rows_of (found_of said.now)) }
{
    if word_of(said, EVIDENCE.name).is_some() && word_of(said, AUDIT.name).is_some() {
        Some("the argument '--evidence' cannot be used with '--audit'")
    } else {
        None
    }
}
