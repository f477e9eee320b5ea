//! Tests of runs of a farm: whole ones, what comes of solvers that find nothing or the wrong thing, and that threads
//! really work side by side. And tests of the relay between its threads.
#![tactic(auto)]

#[cfg(test)]
mod batch_tests;
#[cfg(test)]
mod dividing;
#[cfg(test)]
mod expect;
#[cfg(test)]
mod flaw_tests;
#[cfg(test)]
mod flawed;
#[cfg(test)]
mod gate_tests;
#[cfg(test)]
mod gates;
#[cfg(test)]
mod late;
#[cfg(test)]
mod late_tests;
#[cfg(test)]
mod notice_tests;
#[cfg(test)]
mod notices;
#[cfg(test)]
mod relay_end_tests;
#[cfg(test)]
mod relay_order_tests;
#[cfg(test)]
mod relay_runs;
#[cfg(test)]
mod relay_thread_tests;
#[cfg(test)]
mod relay_wait_tests;
#[cfg(test)]
mod relay_watch;
#[cfg(test)]
mod remembers;
#[cfg(test)]
mod run_tests;
#[cfg(test)]
mod runs;
#[cfg(test)]
mod settings_tests;
#[cfg(test)]
mod sharing;
#[cfg(test)]
mod solvers;
#[cfg(test)]
mod stack_tests;
#[cfg(test)]
mod stacks;
#[cfg(test)]
mod tallies;
#[cfg(test)]
mod thread_tests;
