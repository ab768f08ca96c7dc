//! The laws that every legal journal of the memory pool keeps, for readers of journals and for the crates above.
#![tactic(auto)]

mod evicting;
mod groups;
mod growing;
mod journals;
mod owners;
mod permitted;
mod sums;
mod uncached;

pub use evicting::victims_go_one_by_one;
pub use groups::groups_are_legal;
pub use growing::legal_histories_grow;
pub use journals::legal_journals_are_safe;
pub use owners::own_entries_tell;
pub use permitted::permitted_histories_keep_laws;
pub use sums::sums_stay_small;
pub use uncached::{lone_tasks_are_granted, uncached_histories_store_nothing};
