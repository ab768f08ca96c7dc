//! What contracts know of a manager beside its entries.

use std::marker::Brand;

/// What a manager is made for: the sizes of its pool, which worker each task belongs to, and which rows a block
/// has. Contracts alone know it, and it takes no bytes at run time. Whoever starts a manager fixes it there.
pub trait Basis {
    ghost use Rattle.std.specs.Prelude.{ℕ, Option};
    ghost use Rattle.pool_ledger.specs.Sizes.{Sizes};
    ghost use Rattle.block_store.specs.Stores.{Rows};

    /// What the pool starts with.
    ghost sizes: { Sizes };

    /// The worker that may begin a task, and no other may.
    ghost owner: { ℕ → Option ℕ };

    /// The rows of a block, by its dataset and its part, where it says any.
    ghost rows: { ℕ → ℕ → Option Rows };
}

impl Basis for Brand {
    ghost use Rattle.std.specs.Prelude.{None};

    ghost sizes = { record { maximum = 0; region = 0; workers = 1 } };

    ghost owner = { λ _. None };

    ghost rows = { λ _ _. None };
}
