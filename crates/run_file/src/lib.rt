//! Runs: rows in a file, written once and read once.
#![tactic(auto)]

mod kept;
mod laws;
mod row_writer;
mod run;
mod run_reader;
mod run_writer;
mod whole;

pub use laws::written_runs_stand;
pub use row_writer::{RowWriter, remove_run};
pub use run::{Damage, Run, RunFault};
pub use run_reader::RunReader;
pub use run_writer::RunWriter;
pub use whole::read_page;
