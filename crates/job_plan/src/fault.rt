//! Why there is no plan.

use item_lists::Name;
use thiserror::Error;

/// Why a job has no plan over a header.
#[derive(Debug, Drop, Error)]
pub enum PlanFault {
    /// The header lacks this column, the first one that it lacks in the order of the job's text.
    #[error("no column {}", column.text())]
    NoColumn { column: Name },
    #[error("out of memory")]
    NoMemory,
}
