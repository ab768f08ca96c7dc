//! One value for many threads, which take it in turn and add to its history.
#![tactic(auto)]

mod kept;
mod lock;
mod moves;
mod pass;
mod rule;
mod view;

pub use kept::Kept;
pub use lock::TurnLock;
pub use pass::Pass;
