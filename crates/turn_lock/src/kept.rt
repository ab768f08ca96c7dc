ghost use Rattle.std.specs.Prelude.{List};
ghost use Rattle.pool_ledger.specs.declared.entry.Entry.{Entry};

use pool_ledger::Entry;

/// A value that can lie under a lock. Contracts alone see what it has: there is nothing to run.
///
/// `B` names what the value's fact is about, as the rows of a job. The lock asks nothing of it.
pub trait Kept<B> {
    // Its entries, the oldest first. The list only grows: each turn adds entries of its pass.
    ghost history: { Self → List Entry };

    // What holds of the value whenever the turn is free.
    ghost fact: { Self → Type 0 };
}
