//! The tasks that were begun.

ghost use Rattle.std.specs.Prelude.{◌≡◌, ◌∷◌, ℕ, OnOk};
ghost use Rattle.pool_ledger.specs.History.{History};
ghost use Rattle.pool_laws.specs.Growing.{entry_by};
ghost use Rattle.journal_replay.specs.Tables.{TellsBegun};

use pool_ledger::Event;
use std::alloc::AllocError;
use std::collections::HashSet;

/// Notes the task that an event begins. An `Err` is want of memory.
pub(crate) fn note_begin(begun: &mut HashSet<u32>, event: Event) -> Result<(), AllocError>
    ensures ok { OnOk result ((history : History) (worker : ℕ)
        → TellsBegun begun.old history → TellsBegun begun.new (entry_by worker event ∷ history)) }
{
    if let Event::Begin { task } = event {
        begun.insert(task)?;
    }
    Ok(())
}
