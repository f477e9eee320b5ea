//! Calls whose memory runs out: each line of the input names a call, how many allocations to make before it, and how
//! many to make after it until one is refused. What came of the call is printed.
#![tactic(auto)]

mod audit_runs;
mod books;
mod calls;
mod claims;
mod clerks;
mod desks;
mod outcomes;
mod readings;
mod searches;
mod spending;
mod table_runs;
mod texts;
mod without_memory;

use calls::call;
use spending::Spending;
use std::io;

fn main(rt: HostRuntime) -> io::Result<()> {
    for line in rt.lines(rt.alloc()) {
        let line = line?;
        let spending = Spending::of_words(line.as_str());
        let name = line.as_str().split(' ').next().unwrap_or("");
        let told = call(&rt, rt.alloc(), name, spending);
        println!(rt; "{name}: {told}")?;
    }
    Ok(())
}
