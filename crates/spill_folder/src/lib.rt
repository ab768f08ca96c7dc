//! The folder `spill/` of the working folder, taken for one process.
#![tactic(auto)]

mod fault;
mod folder;
mod look;
mod streams;
#[cfg(test)]
mod tests;

pub use fault::{SpillFault, Strange};
pub use folder::{SpillFolder, take_folder};
