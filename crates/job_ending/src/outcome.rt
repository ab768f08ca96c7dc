//! What a call leaves.

ghost use Rattle.std.specs.Prelude.{◌≡◌, [], None};

use crate::Status;
use pool_ledger::{Journal, Setup};
use std::alloc::Global;

/// What a run leaves.
#[derive(Drop)]
pub struct Outcome {
    /// How it ended.
    pub status: Status,
    /// The pool that was made, if one was.
    pub setup: Option<Setup>,
    /// Every event of that pool, in order. It is empty where no pool was made.
    pub journal: Journal,
}

/// What a run leaves where no pool was made.
pub fn unpooled(alloc: Global, status: Status) -> Outcome
    ensures status { result.status ≡ status }
    ensures setup { result.setup ≡ None }
    ensures journal { result.journal ≡ [] }
{
    Outcome {
        status,
        setup: None,
        journal: Journal::new(alloc),
    }
}
