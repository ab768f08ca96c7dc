ghost use Rattle.pool_ledger.specs.Sizes.{Sizes};
ghost use Rattle.pool_ledger.specs.History.{History};
ghost use Rattle.pool_ledger.specs.Legal.{IsLegal};
ghost use Rattle.pool_laws.specs.Growing.{Grows};

/// What may follow a legal history and leaves it legal: a begin, an attempt that evicts nothing, a release,
/// an end, and every other entry that is permitted and no eviction. It does nothing when run.
pub fn legal_histories_grow()
    ensures { (setup : Sizes) (history : History) → IsLegal setup history → Grows setup history }
{}
