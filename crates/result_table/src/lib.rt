//! The tables that are printed: a heading, then the row that each entry of a query's result tells.
#![tactic(auto)]

mod entry_reader;
mod print_fault;
mod row_fields;
mod run_table;
mod telling;
#[cfg(test)]
mod tests;
#[cfg(test)]
mod tests_of_sums;
mod wide;

pub use print_fault::PrintFault;
pub use run_table::print_table;
pub use wide::too_wide;
