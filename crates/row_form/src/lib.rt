//! What the rows of runs are: their forms, and which fields are numbers.
#![tactic(auto)]

mod form;
mod number;
mod number_list;

pub use form::Form;
pub use number::{is_decimal, parse_number};
pub use number_list::{NumberList, NumberPlace};
