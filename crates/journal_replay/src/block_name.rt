//! The names of blocks.

/// A block's name.
#[derive(Clone, Copy, Debug, PartialEq, Eq, Hash)]
pub(crate) struct BlockName {
    /// The number of its dataset.
    pub(crate) dataset: u32,
    /// The number of its part.
    pub(crate) part: u32,
}
