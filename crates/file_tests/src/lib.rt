//! Tests of `row_page`, `aggregate`, `spill_disk`, `run_file` and `run_merge`, apart from them so that none is proved a
//! second time.
#![tactic(auto)]

#[cfg(test)]
mod tests;
