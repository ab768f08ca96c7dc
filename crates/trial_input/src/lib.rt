//! The input of a trial, its job, and the lines that it prints.
#![tactic(auto)]

mod job;
mod laws;
mod lines;
mod sink;
mod source;
mod tally;
mod text;

pub use job::trial_job;
pub use laws::{trials_are_good, trials_fit};
pub use lines::trial_lines;
pub use sink::TextSink;
pub use source::TextSource;
pub use text::trial_text;
