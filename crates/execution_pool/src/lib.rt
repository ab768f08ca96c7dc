//! How much an ask for execution memory takes from storage, and how much of it is granted.
#![tactic(auto)]

mod ask;
mod fair_share;
mod reclaim;
#[cfg(test)]
mod tests;

pub use ask::{Share, ShareAt};
pub use fair_share::share;
pub use reclaim::growth;
