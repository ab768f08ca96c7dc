//! What an audit answers.

use journal_audit::Rule;

/// What an audit answers to a text.
#[derive(Clone, Copy, Debug, PartialEq, Eq)]
pub enum Verdict {
    /// It is the text of a legal journal of so many entries.
    Yes { events: u64 },
    /// Each line is of the form, and the entry of this number, from 1, is the first that may not follow
    /// those before it: this is the first rule that it breaks. Where evictions wait at the end, the number
    /// is that of the entries plus 1, and the rule is `Pending`.
    No { event: u64, rule: Rule },
    /// This line, from 1, is the first one that isn't of the form. It is told before any broken rule.
    BadLine { line: u64 },
}
