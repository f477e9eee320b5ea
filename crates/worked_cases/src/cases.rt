//! What is asked in a case.

use crate::answers::Answer;
use crate::boards::{answer_boards, answer_layout, answer_page};
use crate::certificates::{answer_certificate, answer_cut, answer_judge};
use crate::requests::answer_requests;
use crate::texts::word;
use crate::words::{
    answer_check, answer_lines, answer_plain, answer_table, answer_told, answer_words,
};
use board_subcommands::table::KeptFiles;
use partition_solver::Partition;
use run_ends::{NamedFiles, NewFiles};
use std::alloc::Global;
use std::sync::Wait;
use std::thread::Threads;
use test_support::idle::FindsNothing;

/// Says what the program answers to a case on a run of it.
fn answer_run<R: NamedFiles + KeptFiles + NewFiles + Threads + Wait + Sync>(
    rt: &R,
    alloc: Global,
    case: &str,
    out: &mut Answer,
) {
    match word(case, 0) {
        "check" => answer_check(rt, alloc, "check", case, out),
        "line" => answer_check(rt, alloc, "line", case, out),
        "table" => answer_table(rt, alloc, case, out),
        "plain" => answer_plain(rt, alloc, case, out),
        "words" => answer_words(rt, alloc, case, out),
        "told" => answer_told(rt, alloc, case, out),
        "lines" => answer_lines(rt, alloc, case, out),
        _ => out.say("no such kind"),
    }
}

/// Says the page of a text by a solver that finds nothing, or by the partition solver. Answers whether the case is one
/// on a page.
fn answers_page(alloc: Global, case: &str, out: &mut Answer) -> bool {
    match word(case, 0) {
        "tables" => answer_page(alloc, &FindsNothing, false, case, out),
        "solved" => answer_page(alloc, &Partition::new(), false, case, out),
        "whole" => answer_page(alloc, &FindsNothing, true, case, out),
        "whole_solved" => answer_page(alloc, &Partition::new(), true, case, out),
        _ => return false,
    }
    true
}

/// Says what the libraries answer to a case on a text. Answers whether the case is one.
fn answers_text(alloc: Global, case: &str, out: &mut Answer) -> bool {
    match word(case, 0) {
        "boards" => answer_boards(alloc, case, out),
        "layout" => answer_layout(alloc, case, out),
        "certificate" => answer_certificate(alloc, case, out),
        "judge" => answer_judge(alloc, case, out),
        "answer" => answer_cut(alloc, case, out),
        "requests" => answer_requests(alloc, case, out),
        _ => return answers_page(alloc, case, out),
    }
    true
}

/// Says what the libraries answer now. The first word of a case is its kind.
pub fn answer_case<R: NamedFiles + KeptFiles + NewFiles + Threads + Wait + Sync>(
    rt: &R,
    alloc: Global,
    case: &str,
    out: &mut Answer,
) {
    if !answers_text(alloc, case, out) {
        answer_run(rt, alloc, case, out);
    }
}
