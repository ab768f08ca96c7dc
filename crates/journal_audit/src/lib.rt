//! The text of a journal: written, and read line by line.
#![tactic(auto)]

mod fields;
mod laws;
mod lines;
mod numbers;
mod rules;
mod text;
mod version;
mod widths;
mod words;
mod writing;

pub use laws::{one_journal_for_a_text, rules_are_those_of_legal_journals};
pub use lines::{take_entry, take_setup};
pub use rules::Rule;
pub use text::journal_text;
pub use version::Version;
pub use widths::journal_fits;
