//! Tests of `group_map`, `row_sorter`, `task_account`, `task_memory` and `worker_threads`, apart from them so that none is
//! proved a second time, over a consumer that is for tests alone.
#![tactic(auto)]

mod front;
mod row;
mod spiller;
#[cfg(test)]
mod tests;
