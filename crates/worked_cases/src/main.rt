//! Prints the worked cases of its input, each with the answer that the libraries give now.
//!
//! A line of the input that has an answer is passed over: what is printed below a case comes of that case alone.
#![tactic(auto)]

mod answers;
mod boards;
mod cases;
mod certificates;
mod replies;
mod requests;
mod texts;
mod words;

use answers::Answer;
use cases::answer_case;
use std::io;

fn main(rt: HostRuntime) -> io::Result<()> {
    for line in rt.lines(rt.alloc()) {
        let line = line?;
        let text = line.as_str();
        if text.starts_with("=") {
            continue;
        }
        println!(rt; "{text}")?;
        if !text.is_empty() && !text.starts_with("#") {
            let mut answer = Answer::new(rt.alloc());
            answer_case(&rt, rt.alloc(), text, &mut answer);
            let answer = answer.text()?;
            println!(rt; "= {answer}")?;
        }
    }
    Ok(())
}
