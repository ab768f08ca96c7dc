//! Which of a task's consumers spills when one of them needs memory.
#![tactic(auto)]

mod choice;
#[cfg(test)]
mod tests;

pub use choice::choose;
