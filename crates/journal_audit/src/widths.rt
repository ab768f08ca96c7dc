//! That the numbers of a journal fit their widths. Nothing here does anything when run, but for one pass.

ghost use Rattle.std.specs.Prelude.{All};
ghost use Rattle.journal_audit.specs.Text.{Fits};

use pool_ledger::{Entry, Journal};

// The numbers of an entry are below their widths.
fn entry_fits(entry: Entry)
    ensures { Fits entry }
{}

// The same of each entry.
fn entries_fit(entries: &[Entry])
    ensures { All Fits entries.now }
{
    for entry in entries {
        entry_fits(*entry);
    }
}

/// The numbers of each entry of a journal fit their fields: each is below the end of its integer type. It goes over the entries
/// once, and changes nothing.
pub fn journal_fits(journal: &Journal)
    ensures { All Fits journal.now }
{
    entries_fit(journal.entries());
}
