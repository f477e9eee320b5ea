//! The tricks of each card that may be played: searched, searched and kept, or shown by evidence.

ghost use Rattle.std.specs.Prelude.{◌≡◌, option_map};
ghost use Rattle.streams.specs.RunStreams.{devices_of};
ghost use Rattle.deal_subcommands.specs.CardTricks.Runs.{DoesCards, KeepsCards, RunsCards, evidence_answer, file_of};
ghost use Rattle.deal_subcommands.specs.CardTricks.Runs.{kept_answer};

use crate::card_tricks::audit::audit_cards;
use crate::card_tricks::kept::find_kept;
use crate::card_tricks::last_flush::with_last_flush;
use crate::card_tricks::options::CardsOptions;
use crate::card_tricks::valuing::value_cards;
use crate::faults::{DealFault, done};
use card_values::write_values;
use cards::{DeviceFault, Sink, Source, write_all};
use certificate_graph::CardSolver;
use command_words::Proof;
use run_ends::{FileFault, NamedFiles, NewFiles, Output, Status, end};
use std::alloc::Global;
use streams::Streams;

/// What came of the cards, and the file that was made for their evidence.
#[derive(Drop)]
struct Ended<F> {
    answer: Result<Status, DealFault>,
    made: Option<F>,
}

/// How a run ends, and the file that it made for evidence, if it made one.
#[derive(Drop)]
pub struct CardsRun<F> {
    pub status: Status,
    pub made: Option<F>,
}

/// What came of an audit of cards: if the file that was named is of no use, it is that of the evidence.
fn evidence_answer(answer: Result<Status, DealFault>) -> Result<Status, DealFault>
    ensures { result ≡ evidence_answer answer }
{
    match answer {
        Err(DealFault::AnswerFile(why)) => Err(DealFault::Evidence(why)),
        _ => answer,
    }
}

/// How a run ends whose evidence was written so, and then its values so.
fn kept_answer(
    written: Result<(), DeviceFault>,
    printed: Result<(), DeviceFault>,
) -> Result<Status, DealFault>
    ensures { result ≡ kept_answer written printed }
{
    match printed {
        Ok(()) => match written {
            Ok(()) => Ok(Status::Done),
            Err(_) => Err(DealFault::Unkept),
        },
        Err(_) => Err(DealFault::Write),
    }
}

/// Finds the tricks of the cards that may be played, writes their evidence into a new file of this name, and then the
/// tricks. The file is made after the search. It is handed out.
fn keep_cards<P: CardSolver, O: Sink, R: NewFiles>(
    rt: &R,
    alloc: Global,
    options: CardsOptions<'_>,
    name: &str,
    solver: &P,
    output: &mut O,
) -> Ended<R::Made>
    ensures { KeepsCards (P.may_find_cards solver.now) (R.may_make rt.now) options.entry name.now
        (O.state output.old) (O.state output.new) (option_map R.Made.state result.made) result.answer }
{
    let kept = match find_kept(alloc, options, solver) {
        Ok(kept) => kept,
        Err(fault) => {
            return Ended {
                answer: Err(fault),
                made: None,
            };
        }
    };
    let mut file = match rt.make_named(name) {
        Ok(file) => file,
        Err(why) => {
            return Ended {
                answer: Err(DealFault::Evidence(FileFault::Open(why))),
                made: None,
            };
        }
    };
    let written = write_all(&mut file, kept.text.as_slice());
    let printed = write_values(output, &kept.values);
    Ended {
        answer: kept_answer(written, printed),
        made: Some(file),
    }
}

/// Writes the tricks of each card that may be played, as the options ask for them.
fn do_cards<P: CardSolver, O: Sink, R: NamedFiles + NewFiles>(
    rt: &R,
    alloc: Global,
    options: CardsOptions<'_>,
    solver: &P,
    output: &mut O,
) -> Ended<R::Made>
    ensures { DoesCards (P.may_find_cards solver.now) (R.may_open rt.now) (R.may_make rt.now) options.entry
        options.entry.proof (O.state output.old) (O.state output.new) (option_map R.Made.state result.made)
        result.answer }
{
    match options.proof {
        Proof::Dropped => Ended {
            answer: done(value_cards(alloc, options, solver, output)),
            made: None,
        },
        Proof::Kept(name) => keep_cards(rt, alloc, options, name, solver, output),
        Proof::Audited(name) => Ended {
            answer: evidence_answer(audit_cards(rt, alloc, options, name, output)),
            made: None,
        },
    }
}

/// Returns the name of the file with the evidence, if there is one.
fn file_of(proof: Proof<'_>) -> Option<&str>
    ensures { option_map (λ name. name.now) result ≡ file_of proof.entry }
{
    match proof {
        Proof::Dropped => None,
        Proof::Kept(name) | Proof::Audited(name) => Some(name),
    }
}

/// Writes the tricks of each card that may be played, as the words ask for them, or tells why it can't, and answers how
/// the run ends, with the file that it made.
pub fn run<P: CardSolver, I: Source, O: Output, E: Sink, R: NamedFiles + NewFiles>(
    rt: &R,
    alloc: Global,
    options: CardsOptions<'_>,
    solver: &P,
    streams: &mut Streams<I, O, E>,
) -> CardsRun<R::Made>
    ensures { RunsCards (P.may_find_cards solver.now) (R.may_open rt.now) (R.may_make rt.now) options.entry
        (devices_of I.state O.state E.state streams.old) (devices_of I.state O.state E.state streams.new)
        (option_map R.Made.state result.made) (O.handed_on streams.new.output) result.status }
{
    let Ended { answer, made } = do_cards(rt, alloc, options, solver, &mut streams.output);
    let answer = with_last_flush(answer, &mut streams.output);
    CardsRun {
        status: end(answer, file_of(options.proof), &mut streams.errors),
        made,
    }
}
