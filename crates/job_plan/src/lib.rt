//! The columns, passes, tasks and keys of a job.
#![tactic(auto)]

mod columns;
mod entries;
mod fault;
mod filter_numbers;
mod headings;
mod linking;
mod making;
mod passing;
mod planned;
mod printing;
mod query_plan;
mod shapes;

pub use fault::PlanFault;
pub use making::plan;
pub use query_plan::Plan;
