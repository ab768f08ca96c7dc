//! A filter that is read in part.

use crate::filter_stack::Stack;
use row_filter::{Comparison, FilterList};

/// What stands before the unit at hand: the whole parts, each before an `or`, and then the units of the part
/// at hand, each before an `and`.
#[derive(Drop)]
pub(crate) struct Terms {
    pub(crate) parts: FilterList,
    pub(crate) units: FilterList,
}

/// What is open around a unit: a `not`, or a parenthesis, with what stands before it.
#[derive(Drop)]
pub(crate) enum Open {
    Not,
    Parenthesis(Terms),
}

/// What comes next in a filter.
#[derive(Clone, Copy, Drop)]
pub(crate) enum FilterAt {
    Unit,
    Test(u32),
    Constant(u32, Comparison),
    /// What may stand behind a unit, which is the last of the units.
    Behind,
}

/// A filter that was read so far.
#[derive(Drop)]
pub(crate) struct FilterState {
    /// What is open around the unit at hand, the innermost first.
    pub(crate) around: Stack<Open>,
    pub(crate) terms: Terms,
    pub(crate) at: FilterAt,
}
