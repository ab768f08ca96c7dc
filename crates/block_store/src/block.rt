//! A block: the rows of one part of a kept dataset.

ghost use Rattle.std.specs.Prelude.{◌≡◌};
ghost use Rattle.row_page.specs.Spelling.{page_cost};

use pool_ledger::Level;
use row_page::Page;

/// The rows of one part of a kept dataset, as one page. It is named by its dataset and its part.
#[derive(Debug, Drop)]
pub struct Block {
    /// The number of the dataset in its job.
    pub dataset: u32,
    /// The number of the part in the dataset.
    pub part: u32,
    /// What becomes of it when it is evicted.
    pub level: Level,
    /// Its rows.
    pub page: Page,
}

impl Block {
    /// What the block costs in memory, in bytes: its page's cost.
    pub fn size(&self) -> u64
        ensures { result ≡ page_cost self.now.page.rows }
    {
        self.page.cost()
    }
}
