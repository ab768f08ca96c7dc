//! The plain answer of a job, and that what its entries come to tells it.
#![tactic(auto)]

mod derived;
mod laws;
mod missing;
mod parts;
mod planned;
mod told;

pub use derived::{datasets_filter_parents, landed_rows_are_derived, plain_jobs_derive_all};
pub use laws::{totals_tell_answers, totals_tell_queries, totals_tell_tables};
pub use missing::missing_values_are_empty;
pub use parts::parts_tell_all;
pub use planned::plans_derive_rows;
pub use told::short_shapes_are_told;
