ghost use Rattle.std.specs.Prelude.{◌≡◌, ◌≤◌, []};
ghost use Rattle.pool_ledger.specs.Sizes.{Sizes};
ghost use Rattle.pool_ledger.specs.History.{History};
ghost use Rattle.pool_ledger.specs.Blocks.{CachesNothing};
ghost use Rattle.pool_ledger.specs.Legal.{IsPermitted, IsLegal, pending};
ghost use Rattle.pool_laws.specs.Uncached.{StoresNothing, MayAlwaysAttempt, LoneTaskIsGranted};

/// Where no block was ever stored there is none to evict: an ask takes what storage has free, and each
/// attempt of a worker's task may follow. It does nothing when run.
pub fn uncached_histories_store_nothing()
    ensures stores { (setup : Sizes) (history : History)
        → CachesNothing history → StoresNothing setup history }
    ensures whole { (setup : Sizes) (history : History)
        → CachesNothing history → IsPermitted setup history → pending history ≡ [] }
    ensures attempts { (setup : Sizes) (history : History)
        → CachesNothing history → IsLegal setup history → MayAlwaysAttempt setup history }
{}

/// Where no block was ever stored, a task that holds alone is granted all that it asks, as far as there is
/// any. It does nothing when run.
pub fn lone_tasks_are_granted()
    ensures { (setup : Sizes) (history : History) → setup.region ≤ setup.maximum
        → CachesNothing history → IsPermitted setup history → LoneTaskIsGranted setup history }
{}
