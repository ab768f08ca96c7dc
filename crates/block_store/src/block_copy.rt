//! Where a block's copy is.

/// The copy of a block: the block's name, its file on the store disk, and how many bytes it has.
#[derive(Clone, Copy, Debug, PartialEq, Eq)]
pub(crate) struct BlockCopy {
    pub(crate) dataset: u32,
    pub(crate) part: u32,
    pub(crate) file: u64,
    pub(crate) bytes: u64,
}
