//! The memory of one task: its consumers, its grants, and its stack of spills.
#![tactic(auto)]

mod alone;
mod ask;
mod begin;
mod draining;
mod fault;
mod feeding;
mod memory;
mod next;
mod obtained;
mod obtaining;
mod scenes;
mod spill;
mod spills;
mod starting;
mod steps;
mod uses;
mod writing;

pub use alone::acquire_or_nothing;
pub use fault::TaskFault;
pub use memory::{Memory, TaskMemory};
pub use scenes::scenes_go_on;
pub use spills::Spills;
pub use starting::{Started, start};
