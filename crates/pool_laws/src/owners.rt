ghost use Rattle.std.specs.Prelude.{◌≡◌, ℕ, List, Option, Some};
ghost use Rattle.pool_ledger.specs.declared.entry.Entry.{Entry};
ghost use Rattle.pool_ledger.specs.Sizes.{Sizes};
ghost use Rattle.pool_ledger.specs.Journal.{history_of};
ghost use Rattle.pool_ledger.specs.Legal.{IsPermitted};
ghost use Rattle.pool_ledger.specs.Workers.{entries_of};
ghost use Rattle.pool_laws.specs.Owners.{AreOwned, OwnerTells, TellsGrowths, TellsWorker};

/// A worker's own entries tell its open task and its pin; and where each begin is by its task's owner, they
/// tell what its tasks hold, whether they are active and whether they were begun. So a worker that has seen
/// its own entries needs no others for that. It does nothing when run.
pub fn own_entries_tell()
    ensures worker { (journal : List Entry) (worker : ℕ)
        → TellsWorker (history_of journal) (history_of (entries_of worker journal)) worker }
    ensures task { (setup : Sizes) (owner : ℕ → Option ℕ) (journal : List Entry) (worker task : ℕ)
        → IsPermitted setup (history_of journal) → AreOwned owner (history_of journal) → owner task ≡ Some worker
        → OwnerTells (history_of journal) (history_of (entries_of worker journal)) task }
    ensures growths { (setup : Sizes) (journal : List Entry) → IsPermitted setup (history_of journal)
        → TellsGrowths (history_of journal) (history_of (entries_of 0 journal)) }
{}
