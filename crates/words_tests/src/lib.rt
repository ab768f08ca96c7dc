//! Tests of `words`, `journal_audit`, `journal_replay` and `audit_program`, apart from them so that none is proved a
//! second time.
#![tactic(auto)]

#[cfg(test)]
mod tests;
