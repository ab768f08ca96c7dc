ghost use Rattle.std.specs.Prelude.{◌≤◌, ◌^◌};
ghost use Rattle.pool_ledger.specs.Sizes.{Sizes};
ghost use Rattle.pool_ledger.specs.History.{History, maximum};
ghost use Rattle.pool_ledger.specs.Legal.{IsPermitted};

/// In every permitted history both pools together have at most 2^41 bytes, where the setup has at most 2^40,
/// as every `Setup` has. It does nothing when run.
pub fn sums_stay_small()
    ensures { (setup : Sizes) (history : History) → setup.maximum ≤ 2 ^ 40 → IsPermitted setup history
        → maximum setup history ≤ 2 ^ 41 }
{}
