//! What an ask or a block is answered, and what moves and is evicted for it, from a journal's sums.
#![tactic(auto)]

mod admitting;
mod asking;
mod choice;

pub use admitting::{AdmissionPlan, need_of_admission, plan_admission};
pub use asking::{AttemptPlan, Room, plan_attempt, room_for_attempt};
