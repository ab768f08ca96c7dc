//! The rows of a dataset in a partition: from a pin, from a copy, or computed from those of its parent.
#![tactic(auto)]

mod checking;
mod executor;
mod handing;
mod keeping;
mod lineage;
mod looking;
mod making;
mod reading;
mod rows;
mod rows_fault;

pub use executor::Executor;
pub use handing::{rows_done, rows_of};
pub use lineage::Lineage;
pub use rows::Rows;
pub use rows_fault::RowsFault;
