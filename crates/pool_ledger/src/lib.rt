//! The memory pool's setup, its eleven events, its journal, and the running sums over the journal.
#![tactic(auto)]

mod entry;
mod holding;
mod journal;
mod ledger;
mod setup;

pub use entry::{Entry, Event, Fate, Level};
pub use journal::Journal;
pub use ledger::Ledger;
pub use setup::{HeapTooSmall, Setup};
