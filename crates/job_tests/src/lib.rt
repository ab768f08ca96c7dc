//! Tests of `byte_io`, `job_text`, `job_plan`, `landing`, `lineage` and `trial_input`, apart from them so that none is
//! proved a second time.
#![tactic(auto)]

#[cfg(test)]
mod tests;
