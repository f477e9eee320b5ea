//! Cases on the texts of certificates and answers.

use crate::answers::Answer;
use crate::texts::{bytes_of, field, number, say_field, say_refusal, seat, trump};
use cards::{Layout, Seat, Trump};
use certificate_graph::Graph;
use checker::{Proven, Texts, check_graph, judge};
use deal_subcommands::read_answer;
use pbn_deals::read_layout;
use std::alloc::Global;

/// Says whether the steps of a graph hold, or the first fault of a step.
fn say_steps(graph: &Graph, out: &mut Answer) {
    match check_graph(graph) {
        Ok(()) => out.say("steps hold"),
        Err(fault) => {
            out.say("node ");
            out.show(fault);
        }
    }
}

/// Why a text is refused, or whether the steps of its graph hold, or the first fault of a step.
pub fn answer_certificate(alloc: Global, case: &str, out: &mut Answer) {
    let text = bytes_of(alloc, field(case, 1), out);
    match Graph::read(alloc, text.as_slice()) {
        Ok(graph) => say_steps(&graph, out),
        Err(fault) => say_refusal(&fault, fault.line(), out),
    }
}

/// Says what was shown, and whether it was on this layout.
fn say_proven(proven: &Proven, layout: Option<Layout>, out: &mut Answer) {
    let shown = proven.shown();
    out.say("shown ");
    out.show(shown.declarer);
    out.say(" ");
    out.show(shown.trump);
    out.say(" ");
    out.show(shown.k);
    if layout != Some(shown.layout) {
        out.say(" on another layout");
    }
}

/// Says the verdict on two texts, for a contract on a layout and `k` tricks.
fn say_verdict(
    alloc: Global,
    layout: Option<Layout>,
    contract: (Seat, Trump),
    k: u8,
    texts: Texts<'_>,
    out: &mut Answer,
) {
    let (declarer, trump) = contract;
    match judge(alloc, layout.as_ref(), declarer, trump, k, texts) {
        Ok(Ok(proven)) => say_proven(&proven, layout, out),
        Ok(Err(fault)) => {
            out.say("refused ");
            out.show(fault);
        }
        Err(_) => out.say("out of memory"),
    }
}

/// The verdict on two texts, for a contract on a layout; the field of a board without a deal is empty.
pub fn answer_judge(alloc: Global, case: &str, out: &mut Answer) {
    let layout = read_layout(field(case, 1).as_bytes()).ok();
    let contract = (seat(field(case, 2)), trump(field(case, 3)));
    let k = (number(field(case, 4)) % 256) as u8;
    let ours = bytes_of(alloc, field(case, 5), out);
    let theirs = bytes_of(alloc, field(case, 6), out);
    let texts = Texts {
        declarers: &ours,
        defenders: &theirs,
    };
    say_verdict(alloc, layout, contract, k, texts, out);
}

/// Where the text of an answer is cut.
pub fn answer_cut(alloc: Global, case: &str, out: &mut Answer) {
    let text = bytes_of(alloc, field(case, 1), out);
    match read_answer(text.as_slice()) {
        Some((tricks, declarers, defenders)) => {
            out.say("cut ");
            out.show(tricks);
            out.say(" |");
            say_field(declarers, out);
            say_field(defenders, out);
        }
        None => out.say("no answer"),
    }
}
