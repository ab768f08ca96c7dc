//! Whether a journal's text is that of a legal journal, and if not, where and why.
#![tactic(auto)]

mod ask_rules;
mod auditing;
mod before;
mod block_name;
mod block_rules;
mod blocks;
mod check;
mod copies;
mod evictable;
mod fronts;
mod grow_rules;
mod laws;
mod pins;
mod placed;
mod replay;
mod store_rules;
mod tables;
mod task_rules;
mod tasks;
mod turns;
mod use_order;
mod verdict;
mod victims;

pub use auditing::audit;
pub use laws::one_verdict_for_a_text;
pub use verdict::Verdict;
