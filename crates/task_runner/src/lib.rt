//! The tasks of a job: what its final one merges, and the posts of its workers.
#![tactic(auto)]

mod answers;
mod aside;
mod asking;
mod at_once;
mod each_worker;
mod feeding;
mod final_task;
mod gate;
mod gathering;
mod making;
mod merged;
mod merging;
mod merging_lists;
mod one_worker;
mod pass;
mod post;
mod spilling;
mod task;
mod work_fault;
mod worker;
mod workers;

pub use aside::{swap_consumers, take_consumers};
pub use final_task::run_final;
pub use gate::{Gate, NoGate, Place};
pub use lineage::Executor;
pub use pass::Pass;
pub use post::Post;
pub use task::run_task;
pub use work_fault::WorkFault;
pub use workers::run_workers;
