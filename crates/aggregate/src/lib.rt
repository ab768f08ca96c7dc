//! Keys as bytes in the order of their fields, and partial values of groups that are combined one by one.
#![tactic(auto)]

mod agg_list;
mod field_key;
mod key;
mod key_front;
mod kind;
mod name;
mod number_key;
mod partial;
mod total;

pub use agg_list::{Agg, AggList};
pub use field_key::{
    keys_in_order, put_field, spellings_are_apart, spellings_are_read_back, take_field,
};
pub use key::Key;
pub use key_front::{front, order};
pub use kind::Kind;
pub use name::Name;
pub use number_key::{numbers_in_order, put_number};
pub use partial::{
    Finished, combine, combine_is_associative, combined_values_stay_formed, finish,
    partials_are_joined, partials_are_long, partials_come_back, put_partial, sums_are_exact,
};
pub use total::{totals_ascend, totals_stay_equal, totals_tell_keys};
