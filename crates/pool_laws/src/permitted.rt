ghost use Rattle.std.specs.Prelude.{◌≤◌};
ghost use Rattle.pool_ledger.specs.Sizes.{Sizes};
ghost use Rattle.pool_ledger.specs.History.{History};
ghost use Rattle.pool_ledger.specs.Legal.{IsPermitted};
ghost use Rattle.pool_laws.specs.Laws.{KeepsLaws};

/// The laws of every permitted history, also between the evictions of one attempt or admission: the pools
/// are never passed, the greatest holder is never told to wait, a short grant keeps the floor, pinned
/// blocks fit the region, and blocks are evicted for execution only above it. It does nothing when run.
pub fn permitted_histories_keep_laws()
    ensures { (setup : Sizes) (history : History) → setup.region ≤ setup.maximum
        → IsPermitted setup history → KeepsLaws setup history }
{}
