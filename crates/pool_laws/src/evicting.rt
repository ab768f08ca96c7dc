ghost use Rattle.std.specs.Prelude.{◌≤◌};
ghost use Rattle.pool_ledger.specs.Sizes.{Sizes};
ghost use Rattle.pool_laws.specs.Evicting.{EvictsOneByOne};

/// Victims go one by one: each may be evicted after those before it, and once all are gone the attempt, the
/// admission or the refusal that they are for may follow, with the numbers that the rules gave before the
/// first of them. It does nothing when run.
pub fn victims_go_one_by_one()
    ensures { (setup : Sizes) → setup.region ≤ setup.maximum → EvictsOneByOne setup }
{}
