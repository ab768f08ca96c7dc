//! Filters, as jobs and plans hold them.

use item_lists::{Boxed, Listed, Name};

/// How a test compares a field with its constant.
#[derive(Clone, Copy, Debug, PartialEq, Eq)]
pub enum Comparison {
    /// `=`
    Equal,
    /// `!=`
    NotEqual,
    /// `<`
    Less,
    /// `<=`
    AtMost,
    /// `>`
    Greater,
    /// `>=`
    AtLeast,
}

/// What a test compares a field with: as a number, or byte by byte.
#[derive(Debug, Drop)]
pub enum Constant {
    /// A number of 64 bits with a sign.
    Number(i64),
    /// A text, by its bytes.
    Text(Name),
}

/// Which rows are kept. In a job a column is a place in the job's names, in a chain that of a kept column,
/// from 0.
#[derive(Drop)]
pub enum Filter {
    /// The rows whose field passes a test.
    Test {
        column: u32,
        test: Comparison,
        constant: Constant,
    },
    /// The rows that all of these keep.
    And(FilterList),
    /// The rows that one of these keeps.
    Or(FilterList),
    /// The rows that this one doesn't keep.
    Not(Boxed<Filter>),
}

/// Filters in a list.
pub type FilterList = Listed<Filter>;
