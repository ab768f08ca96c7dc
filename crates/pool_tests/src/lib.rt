//! Tests of `pool_ledger`, `block_store`, `memory_core`, `turn_lock` and `memory_lock`, apart from them so that none is
//! proved a second time.
#![tactic(auto)]

#[cfg(test)]
mod tests;
