//! Which rows a filter keeps, and from which rows each dataset is made.
#![tactic(auto)]

mod chain;
mod covering;
mod filter;
mod keeping;
mod laws;
mod moving;
mod selecting;
#[cfg(test)]
mod tests;

pub use chain::{Chain, Link};
pub use covering::covers;
pub use filter::{Comparison, Constant, Filter, FilterList};
pub use keeping::keeps;
pub use laws::{
    datasets_are_derived, empty_lists_and_double_negation, moved_filters_keep, negated_lists,
};
pub use moving::move_filter;
pub use selecting::select;
