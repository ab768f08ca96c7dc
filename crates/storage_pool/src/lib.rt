//! How much storage gives up for execution, and how much it borrows for a block.
#![tactic(auto)]

mod borrow;
mod room;
mod shrink;
#[cfg(test)]
mod tests;

pub use borrow::{Borrow, borrow_plan};
pub use room::fits;
pub use shrink::{Shrink, shrink_plan};
