//! Several runs of one kind as one list of entries, or as one run.
#![tactic(auto)]

mod giving;
mod heads;
mod merge;
mod one_group;
mod one_run;
mod order;
mod queue;
mod rounds;

pub use merge::Merge;
pub use one_run::merge_all;
