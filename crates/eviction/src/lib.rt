//! Which blocks are evicted, the least recently used first.
#![tactic(auto)]

mod candidate;
mod choice;
#[cfg(test)]
mod tests;

pub use candidate::Candidate;
pub use choice::victims;
