//! How a call on a job ends, in words that each program over jobs has.
#![tactic(auto)]

mod call;
mod outcome;
mod status;

pub use call::RunCall;
pub use outcome::{Outcome, unpooled};
pub use status::Status;
