//! Plays whose evidence is kept in a new file.

ghost use Rattle.std.specs.Prelude.{◌≡◌, option_map};
ghost use Rattle.board_subcommands.specs.Plays.Kept.{KeepsAnswer, KeepsEvidence, KeepsText, written_answer};

use crate::faults::BoardFault;
use crate::plays::ends::PlaysOutcome;
use cards::{DeviceFault, OutOfMemory, write_all};
use evidence::Damage;
use evidence_solvers::KeepFault;
use play_pages::PlaysMade;
use run_ends::{FileFault, NewFiles};

/// What came of plays, and the file that was made for their evidence.
#[derive(Drop)]
pub(crate) struct Ended<F> {
    pub(crate) answer: Result<PlaysOutcome, BoardFault>,
    pub(crate) made: Option<F>,
}

/// Whether evidence was kept, and the file that was made for it.
#[derive(Drop)]
struct Kept<F> {
    answer: Result<(), BoardFault>,
    made: Option<F>,
}

/// What is said of a file that got its text, or a beginning of it.
fn written_answer(written: Result<(), DeviceFault>) -> Result<(), BoardFault>
    ensures { result ≡ written_answer written }
{
    match written {
        Ok(()) => Ok(()),
        Err(_) => Err(BoardFault::Unkept(KeepFault::Write)),
    }
}

/// Makes a file of this name, and writes the text into it.
fn keep_text<R: NewFiles>(rt: &R, name: &str, text: &[u8]) -> Kept<R::Made>
    ensures { KeepsText (R.may_make rt.now) name.now text.now (option_map R.Made.state result.made) result.answer }
{
    match rt.make_named(name) {
        Ok(mut file) => {
            let written = write_all(&mut file, text);
            Kept {
                answer: written_answer(written),
                made: Some(file),
            }
        }
        Err(why) => Kept {
            answer: Err(BoardFault::Evidence(FileFault::Open(why))),
            made: None,
        },
    }
}

/// Makes a file of this name, and writes the sections of plays into it, unless memory ran out for them.
fn keep_evidence<R: NewFiles>(
    rt: &R,
    name: &str,
    evidence: Result<Vec<u8>, OutOfMemory>,
) -> Kept<R::Made>
    ensures { KeepsEvidence (R.may_make rt.now) name.now evidence (option_map R.Made.state result.made)
        result.answer }
{
    match evidence {
        Ok(text) => keep_text(rt, name, text.as_slice()),
        Err(OutOfMemory) => Kept {
            answer: Err(BoardFault::Unkept(KeepFault::OutOfMemory)),
            made: None,
        },
    }
}

/// Writes the evidence of plays that were written into a new file of this name, which is handed out. The file is made
/// only now, after the search.
pub(crate) fn keep_made<R: NewFiles>(
    rt: &R,
    name: &str,
    made: Result<PlaysMade, BoardFault>,
) -> Ended<R::Made>
    ensures { KeepsAnswer (R.may_make rt.now) name.now made (option_map R.Made.state result.made)
        result.answer }
{
    let PlaysMade { report, evidence } = match made {
        Ok(made) => made,
        Err(fault) => {
            return Ended {
                answer: Err(fault),
                made: None,
            };
        }
    };
    let kept = keep_evidence(rt, name, evidence);
    Ended {
        answer: Ok(PlaysOutcome {
            report,
            damage: Damage::none(),
            kept: kept.answer,
        }),
        made: kept.made,
    }
}
