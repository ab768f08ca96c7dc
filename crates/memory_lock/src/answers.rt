//! What a worker knows of its last answer.

ghost use Rattle.std.specs.Prelude.{ℕ, List, Option};
ghost use Rattle.pool_ledger.specs.declared.entry.Entry.{Entry};
ghost use Rattle.pool_ledger.specs.Sizes.{Sizes};
ghost use Rattle.pool_ledger.specs.Journal.{history_of};
ghost use Rattle.pool_ledger.specs.Legal.{IsLegal};
ghost use Rattle.memory_lock.specs.Endings.{EndsWithAttempt, IsLastAnswer};

/// An attempt at the end of a legal journal was answered by the rules: what it was granted is their answer to
/// the journal that came before its evictions, which is legal. So a worker knows it of its grant before the
/// manager is closed. It does nothing when run.
pub fn last_attempts_are_answered()
    ensures { (sizes : Sizes) (seen : List Entry) (worker task asked : ℕ) (got : Option ℕ)
        → IsLegal sizes (history_of seen) → EndsWithAttempt worker task asked got seen
        → IsLastAnswer sizes worker task asked got seen }
{}
