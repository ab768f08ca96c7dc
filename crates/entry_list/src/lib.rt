//! Entries in one run of bytes, which are sorted by their keys and put on pages.
#![tactic(auto)]

mod filling;
mod list;
mod place;
mod sorting;

pub use filling::fill;
pub use list::EntryList;
