//! The entry of a line, read: its word, and the fields behind it.

ghost use Rattle.std.specs.Prelude.{◌≡◌};
ghost use Rattle.pool_ledger.specs.declared.entry.Entry.{Entry};
ghost use Rattle.journal_audit.specs.Fields.{ended, split, short_at, long_at, got_at, fate_at, level_at, form_at};
ghost use Rattle.journal_audit.specs.Entries.{begin_at, attempt_at, release_at, end_at, evict_at, admit_at, refused_at, pin_at, unpin_at, remove_at, grow_at, block_word, task_word, entry_word, entry_at};

use crate::fields::{
    is_word, split_field, take_fate, take_form, take_got, take_level, take_long, take_short,
};
use crate::version::Version;
use pool_ledger::{Entry, Event};

/// The entry that the line is of in this version, without its line feed.
#[tactic(auto, unfolding(crate::specs::Entries::entry_at))]
pub(crate) fn entry_of(version: Version, bytes: &[u8]) -> Option<Entry>
    ensures { result ≡ entry_at version bytes.now }
{
    let (word, rest) = split_field(bytes);
    read_word(version, word, rest)
}

// The entry of a word in this version, and what follows it.
#[tactic(auto, unfolding(crate::specs::Entries::entry_word))]
fn read_word(version: Version, word: &[u8], rest: &[u8]) -> Option<Entry>
    ensures { result ≡ entry_word version word.now rest.now }
{
    if is_word(word, b"grow") {
        read_grow(version, rest)
    } else {
        read_task_word(word, rest)
    }
}

// The entry of a word, and what follows it.
#[tactic(auto, unfolding(crate::specs::Entries::task_word))]
fn read_task_word(word: &[u8], rest: &[u8]) -> Option<Entry>
    ensures { result ≡ task_word word.now rest.now }
{
    if is_word(word, b"begin") {
        read_begin(rest)
    } else if is_word(word, b"attempt") {
        read_attempt(rest)
    } else if is_word(word, b"release") {
        read_release(rest)
    } else if is_word(word, b"end") {
        read_end(rest)
    } else {
        read_block_word(word, rest)
    }
}

// The entry of a word of a block's event, and what follows it.
#[tactic(auto, unfolding(crate::specs::Entries::block_word))]
fn read_block_word(word: &[u8], rest: &[u8]) -> Option<Entry>
    ensures { result ≡ block_word word.now rest.now }
{
    if is_word(word, b"evict") {
        read_evict(rest)
    } else if is_word(word, b"admit") {
        read_admit(rest)
    } else if is_word(word, b"refused") {
        read_refused(rest)
    } else if is_word(word, b"pin") {
        read_pin(rest)
    } else if is_word(word, b"unpin") {
        read_unpin(rest)
    } else if is_word(word, b"remove") {
        read_remove(rest)
    } else {
        None
    }
}

#[tactic(auto, unfolding(crate::specs::Entries::begin_at))]
fn read_begin(bytes: &[u8]) -> Option<Entry>
    ensures { result ≡ begin_at bytes.now }
{
    let (worker, rest) = take_short(bytes)?;
    let (task, rest) = take_short(rest)?;
    at_end(
        Entry {
            worker,
            event: Event::Begin { task },
        },
        rest,
    )
}

#[tactic(auto, unfolding(crate::specs::Entries::attempt_at))]
fn read_attempt(bytes: &[u8]) -> Option<Entry>
    ensures { result ≡ attempt_at bytes.now }
{
    let (worker, rest) = take_short(bytes)?;
    let (task, rest) = take_short(rest)?;
    let (asked, rest) = take_long(rest)?;
    let (moved, rest) = take_long(rest)?;
    let (evictions, rest) = take_long(rest)?;
    let (got, rest) = take_got(rest)?;
    at_end(
        Entry {
            worker,
            event: Event::Attempt {
                task,
                asked,
                moved,
                evictions,
                got,
            },
        },
        rest,
    )
}

#[tactic(auto, unfolding(crate::specs::Entries::release_at))]
fn read_release(bytes: &[u8]) -> Option<Entry>
    ensures { result ≡ release_at bytes.now }
{
    let (worker, rest) = take_short(bytes)?;
    let (task, rest) = take_short(rest)?;
    let (freed, rest) = take_long(rest)?;
    at_end(
        Entry {
            worker,
            event: Event::Release { task, freed },
        },
        rest,
    )
}

#[tactic(auto, unfolding(crate::specs::Entries::end_at))]
fn read_end(bytes: &[u8]) -> Option<Entry>
    ensures { result ≡ end_at bytes.now }
{
    let (worker, rest) = take_short(bytes)?;
    let (task, rest) = take_short(rest)?;
    let (freed, rest) = take_long(rest)?;
    at_end(
        Entry {
            worker,
            event: Event::End { task, freed },
        },
        rest,
    )
}

#[tactic(auto, unfolding(crate::specs::Entries::evict_at))]
fn read_evict(bytes: &[u8]) -> Option<Entry>
    ensures { result ≡ evict_at bytes.now }
{
    let (worker, rest) = take_short(bytes)?;
    let (dataset, rest) = take_short(rest)?;
    let (part, rest) = take_short(rest)?;
    let (size, rest) = take_long(rest)?;
    let (fate, rest) = take_fate(rest)?;
    at_end(
        Entry {
            worker,
            event: Event::Evict {
                dataset,
                part,
                size,
                fate,
            },
        },
        rest,
    )
}

#[tactic(auto, unfolding(crate::specs::Entries::admit_at))]
fn read_admit(bytes: &[u8]) -> Option<Entry>
    ensures { result ≡ admit_at bytes.now }
{
    let (worker, rest) = take_short(bytes)?;
    let (dataset, rest) = take_short(rest)?;
    let (part, rest) = take_short(rest)?;
    let (size, rest) = take_long(rest)?;
    let (level, rest) = take_level(rest)?;
    let (borrowed, rest) = take_long(rest)?;
    let (evictions, rest) = take_long(rest)?;
    at_end(
        Entry {
            worker,
            event: Event::Admit {
                dataset,
                part,
                size,
                level,
                borrowed,
                evictions,
            },
        },
        rest,
    )
}

#[tactic(auto, unfolding(crate::specs::Entries::refused_at))]
fn read_refused(bytes: &[u8]) -> Option<Entry>
    ensures { result ≡ refused_at bytes.now }
{
    let (worker, rest) = take_short(bytes)?;
    let (dataset, rest) = take_short(rest)?;
    let (part, rest) = take_short(rest)?;
    let (size, rest) = take_long(rest)?;
    let (borrowed, rest) = take_long(rest)?;
    let (evictions, rest) = take_long(rest)?;
    at_end(
        Entry {
            worker,
            event: Event::Refused {
                dataset,
                part,
                size,
                borrowed,
                evictions,
            },
        },
        rest,
    )
}

#[tactic(auto, unfolding(crate::specs::Entries::pin_at))]
fn read_pin(bytes: &[u8]) -> Option<Entry>
    ensures { result ≡ pin_at bytes.now }
{
    let (worker, rest) = take_short(bytes)?;
    let (dataset, rest) = take_short(rest)?;
    let (part, rest) = take_short(rest)?;
    let (copy, rest) = take_form(rest)?;
    at_end(
        Entry {
            worker,
            event: Event::Pin {
                dataset,
                part,
                copy,
            },
        },
        rest,
    )
}

#[tactic(auto, unfolding(crate::specs::Entries::unpin_at))]
fn read_unpin(bytes: &[u8]) -> Option<Entry>
    ensures { result ≡ unpin_at bytes.now }
{
    let (worker, rest) = take_short(bytes)?;
    let (dataset, rest) = take_short(rest)?;
    let (part, rest) = take_short(rest)?;
    at_end(
        Entry {
            worker,
            event: Event::Unpin { dataset, part },
        },
        rest,
    )
}

#[tactic(auto, unfolding(crate::specs::Entries::remove_at))]
fn read_remove(bytes: &[u8]) -> Option<Entry>
    ensures { result ≡ remove_at bytes.now }
{
    let (worker, rest) = take_short(bytes)?;
    let (dataset, rest) = take_short(rest)?;
    let (part, rest) = take_short(rest)?;
    let (size, rest) = take_long(rest)?;
    at_end(
        Entry {
            worker,
            event: Event::Remove {
                dataset,
                part,
                size,
            },
        },
        rest,
    )
}

// The first version has no such word.
#[tactic(auto, unfolding(crate::specs::Entries::grow_at))]
fn read_grow(version: Version, bytes: &[u8]) -> Option<Entry>
    ensures { result ≡ grow_at version bytes.now }
{
    match version {
        Version::First => None,
        Version::Second => {
            let (worker, rest) = take_short(bytes)?;
            let (grown, rest) = take_long(rest)?;
            at_end(
                Entry {
                    worker,
                    event: Event::Grow { bytes: grown },
                },
                rest,
            )
        }
    }
}

// The entry, if nothing is left of its line.
#[tactic(auto, unfolding(crate::specs::Fields::ended))]
fn at_end(entry: Entry, rest: &[u8]) -> Option<Entry>
    ensures { result ≡ ended entry rest.now }
{
    match rest {
        [] => Some(entry),
        _ => None,
    }
}
