//! What the words of a call say: the program, its options and what it is to do.
#![tactic(auto)]

mod audit;
mod command;
mod fault;
mod first;
mod numbers;
mod parsing;
mod plan;
mod run;
mod texts;
mod trial;
mod work;

pub use audit::read_audit_words;
pub use fault::WordsFault;
pub use first::begins_with;
pub use plan::read_plan_words;
pub use run::{RunWords, read_run_call, read_run_words};
pub use trial::{TrialWords, read_trial_words};
pub use work::WorkOptions;
