//! The rows that are handed to a task.

ghost use Rattle.std.specs.Prelude.{◌≡◌};
ghost use Rattle.lineage.specs.Handed.{block_in};

use block_store::Block;
use row_page::Page;
use std::alloc::Global;
use std::sync::Arc;

/// The rows of a dataset in a partition, as a task is given them. They are given back by `rows_done`.
#[derive(Drop)]
pub enum Rows {
    /// Those of a block in memory, which the worker has pinned.
    Pinned(Arc<Block, Global>),
    /// Those that were computed or read back, which no pin keeps.
    Own(Arc<Block, Global>),
}

impl Rows {
    /// The page that has them. It isn't copied.
    pub fn page(&self) -> &Page
        ensures { result.now ≡ (block_in self.now).page }
    {
        match self {
            Rows::Pinned(block) => &block.page,
            Rows::Own(block) => &block.page,
        }
    }
}
