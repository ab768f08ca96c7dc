// Entries as words, and what they tell.
use crate::tests::words::{cut, put};
use pool_ledger::{Entry, Event, Fate, Level};
use std::alloc::{AllocError, Global};
use std::string::String;

// All entries, with what moved from storage or with 0 in its place: a caller isn't told that.
pub fn put_entries(text: &mut String, entries: &[Entry], moved: bool) -> Result<(), AllocError> {
    for entry in entries {
        put_entry(text, *entry, moved)?;
    }
    Ok(())
}

// The worker's entries that aren't waits, as its thread knows them.
pub fn granted_of(alloc: Global, entries: &[Entry], worker: u32) -> Result<String, AllocError> {
    let mut text = String::new(alloc);
    for entry in entries {
        let waits = matches!(entry.event, Event::Attempt { got: None, .. });
        if entry.worker == worker && !waits {
            put_entry(&mut text, *entry, false)?;
        }
    }
    Ok(text)
}

// What of these words isn't found in the text, in their order.
pub fn missing<'a>(text: &str, wanted: &'a str) -> &'a str {
    let mut rest = wanted;
    for word in text.split_whitespace() {
        let (next, more) = cut(rest, ' ');
        if word == next {
            rest = more;
        }
    }
    rest
}

pub fn count_words(text: &str) -> u32 {
    let mut count = 0u32;
    for _word in text.split_whitespace() {
        count = count.wrapping_add(1);
    }
    count
}

// How many tasks ended, and how many blocks were admitted, pinned and unpinned.
pub fn tally(entries: &[Entry]) -> [u32; 4] {
    let mut tasks = 0u32;
    let mut blocks = 0u32;
    let mut pins = 0u32;
    let mut unpins = 0u32;
    for entry in entries {
        match entry.event {
            Event::End { .. } => tasks = tasks.wrapping_add(1),
            Event::Admit { .. } => blocks = blocks.wrapping_add(1),
            Event::Pin { copy: false, .. } => pins = pins.wrapping_add(1),
            Event::Unpin { .. } => unpins = unpins.wrapping_add(1),
            _ => {}
        }
    }
    [tasks, blocks, pins, unpins]
}

// The most that the tasks of these entries hold at once, and what they hold at the end.
pub fn held_in(entries: &[Entry]) -> (u64, u64) {
    let mut most = 0u64;
    let mut held = 0u64;
    for entry in entries {
        held = held_after(held, entry.event);
        most = most.max(held);
    }
    (most, held)
}

// What the worker's tasks hold at the end.
pub fn left_of(entries: &[Entry], worker: u32) -> u64 {
    let mut held = 0u64;
    for entry in entries {
        if entry.worker == worker {
            held = held_after(held, entry.event);
        }
    }
    held
}

fn held_after(held: u64, event: Event) -> u64 {
    match event {
        Event::Attempt { got, .. } => held.wrapping_add(got.unwrap_or(0)),
        Event::Release { freed, .. } => held.wrapping_sub(freed),
        Event::End { freed, .. } => held.wrapping_sub(freed),
        _ => held,
    }
}

pub fn put_entry(text: &mut String, entry: Entry, with_moved: bool) -> Result<(), AllocError> {
    let worker = u64::from(entry.worker);
    match entry.event {
        Event::Begin { task } => put(text, " begin", &[worker, u64::from(task)]),
        Event::Release { task, freed } => {
            put(text, " release", &[worker, u64::from(task), freed])
        }
        Event::End { task, freed } => put(text, " end", &[worker, u64::from(task), freed]),
        Event::Grow { bytes } => put(text, " grow", &[worker, bytes]),
        Event::Attempt {
            task,
            asked,
            moved,
            evictions,
            got,
        } => {
            let moved = if with_moved { moved } else { 0 };
            let numbers = [worker, u64::from(task), asked, moved, evictions];
            put(text, " attempt", &numbers)?;
            put_grant(text, got)
        }
        _ => put_block_entry(text, worker, entry.event),
    }
}

fn put_grant(text: &mut String, got: Option<u64>) -> Result<(), AllocError> {
    match got {
        Some(bytes) => put(text, "", &[bytes]),
        None => put(text, ",wait", &[]),
    }
}

fn put_block_entry(text: &mut String, worker: u64, event: Event) -> Result<(), AllocError> {
    match event {
        Event::Evict {
            dataset,
            part,
            size,
            fate,
        } => {
            put_block(text, " evict", worker, dataset, part)?;
            put(text, "", &[size])?;
            put(text, fate_word(fate), &[])
        }
        Event::Admit {
            dataset,
            part,
            size,
            level,
            borrowed,
            evictions,
        } => {
            put_block(text, " admit", worker, dataset, part)?;
            put(text, "", &[size])?;
            put(text, level_word(level), &[borrowed, evictions])
        }
        Event::Refused {
            dataset,
            part,
            size,
            borrowed,
            evictions,
        } => {
            put_block(text, " refused", worker, dataset, part)?;
            put(text, "", &[size, borrowed, evictions])
        }
        _ => put_use_entry(text, worker, event),
    }
}

fn put_use_entry(text: &mut String, worker: u64, event: Event) -> Result<(), AllocError> {
    match event {
        Event::Pin {
            dataset,
            part,
            copy,
        } => {
            put_block(text, " pin", worker, dataset, part)?;
            put(text, if copy { ",copy" } else { ",resident" }, &[])
        }
        Event::Unpin { dataset, part } => put_block(text, " unpin", worker, dataset, part),
        Event::Remove {
            dataset,
            part,
            size,
        } => {
            put_block(text, " remove", worker, dataset, part)?;
            put(text, "", &[size])
        }
        _ => Ok(()),
    }
}

fn put_block(
    text: &mut String,
    word: &str,
    worker: u64,
    dataset: u32,
    part: u32,
) -> Result<(), AllocError> {
    put(text, word, &[worker, u64::from(dataset), u64::from(part)])
}

fn fate_word(fate: Fate) -> &'static str {
    match fate {
        Fate::Disk => ",disk",
        Fate::Gone => ",gone",
        Fate::NoMemory => ",nomem",
    }
}

fn level_word(level: Level) -> &'static str {
    match level {
        Level::Memory => ",memory",
        Level::Disk => ",disk",
    }
}
