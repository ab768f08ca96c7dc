//! What a run is called for.

use job_text::Job;
use pool_ledger::Setup;

/// A job over one input, the pool that its tasks share, and how the input is cut.
#[derive(Drop)]
pub struct RunCall {
    /// The pool's sizes, and how many workers take turns in it.
    pub pool: Setup,
    /// What is asked of the input.
    pub job: Job,
    /// The most rows below the header, at most 10,000,000.
    pub max_rows: u64,
    /// How many rows make a partition, at least 1; the last one may have fewer.
    pub part_rows: u64,
    /// Whether the pool's journal is to be written.
    pub journal: bool,
}
