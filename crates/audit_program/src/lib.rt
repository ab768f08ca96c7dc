//! The call of `audit`: a journal's text from a source, and its verdict as one line.
#![tactic(auto)]

mod answer_line;
mod call;
mod input;
mod status;

pub use call::audit_call;
pub use status::AuditStatus;
