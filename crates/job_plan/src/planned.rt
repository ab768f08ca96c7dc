//! What is planned for one query.

use aggregate::Kind;
use job_text::Shape;
use row_page::RowBuf;

// The dataset of a query, its shape in the job, the same over the kept columns, how its entries are combined,
// and the first row of its table.
#[derive(Drop)]
pub(crate) struct Planned {
    pub(crate) dataset: u32,
    pub(crate) shape: Shape,
    pub(crate) kept: Shape,
    pub(crate) kind: Kind,
    pub(crate) heading: RowBuf,
}
