//! Prints the lines of its input, each with its answer below it.
//!
//! It passes over a line of the input that has an answer, so the file with the answers is an input too.
#![tactic(auto)]

mod cases;
mod conditions;
mod plays;

use cases::answer_case;
use std::io;

fn main(rt: HostRuntime) -> io::Result<()> {
    let text = io::read_to_string(rt.alloc(), rt.reader())?;
    for case in text.lines() {
        if case.starts_with("=") {
            continue;
        }
        println!(rt; "{case}")?;
        if !case.is_empty() && !case.starts_with("#") {
            let mut answer = String::new(rt.alloc());
            answer_case(rt.alloc(), case, &mut answer)?;
            println!(rt; "= {answer}")?;
        }
    }
    Ok(())
}
