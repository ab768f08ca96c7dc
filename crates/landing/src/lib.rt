//! The input of a job, checked and written in partitions.
#![tactic(auto)]

mod desk;
mod fault;
mod header;
mod landing;
mod length;
mod part;
mod rules;

pub use fault::LandFault;
pub use header::plan_input;
pub use landing::{Landed, land};
