ghost use Rattle.std.specs.Prelude.{◌≤◌, List};
ghost use Rattle.pool_ledger.specs.declared.entry.Entry.{Entry};
ghost use Rattle.pool_ledger.specs.Sizes.{Sizes};
ghost use Rattle.pool_ledger.specs.Journal.{history_of};
ghost use Rattle.pool_ledger.specs.Legal.{IsLegal};
ghost use Rattle.pool_laws.specs.SafeJournal.{IsSafeJournal};

/// Every legal journal is safe: after each entry nothing passes its pool, no grant passes the fair share,
/// a short grant reaches half an equal part of the execution pool, and ended tasks hold nothing. It does
/// nothing when run.
pub fn legal_journals_are_safe()
    ensures { (setup : Sizes) (journal : List Entry) → setup.region ≤ setup.maximum
        → IsLegal setup (history_of journal) → IsSafeJournal setup journal }
{}
