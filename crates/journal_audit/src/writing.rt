//! The lines of a journal's text, written.

ghost use Rattle.std.specs.Prelude.{◌≡◌, ◌++◌, OnOk};
ghost use Rattle.pool_ledger.specs.declared.entry.Event.TheVariants.{Grow};
ghost use Rattle.journal_audit.specs.declared.version.Version.TheVariants.{Second};
ghost use Rattle.journal_audit.specs.Text.{number_field, field, event_text, entry_text, block_text, stored_text, head_text, got_text, fate_word, level_word, form_word};

use itoa::Buffer;
use pool_ledger::{Entry, Event, Fate, Level, Setup};
use std::alloc::AllocError;

/// Appends the text of a setup's sizes in the second version, without its line feed. After an `Err` a
/// part of it may be there.
pub(crate) fn put_head(out: &mut Vec<u8>, setup: &Setup) -> Result<(), AllocError>
    ensures ok { OnOk result (out.new.items ≡ out.old.items ++ head_text Second setup.now) }
{
    out.extend_from_slice(b"memory journal 2")?;
    put_number(out, setup.max())?;
    put_number(out, setup.region())?;
    put_number(out, setup.workers())
}

/// Appends the text of an entry, without its line feed. After an `Err` a part of it may be there.
pub(crate) fn put_entry(out: &mut Vec<u8>, entry: Entry) -> Result<(), AllocError>
    ensures ok { OnOk result (out.new.items ≡ out.old.items ++ entry_text entry) }
{
    let worker = entry.worker;
    match entry.event {
        Event::Begin { task } => put_task(out, b"begin", worker, task),
        Event::Attempt {
            task,
            asked,
            moved,
            evictions,
            got,
        } => {
            put_task(out, b"attempt", worker, task)?;
            put_number(out, asked)?;
            put_number(out, moved)?;
            put_number(out, evictions)?;
            put_got(out, got)
        }
        Event::Release { task, freed } => {
            put_task(out, b"release", worker, task)?;
            put_number(out, freed)
        }
        Event::End { task, freed } => {
            put_task(out, b"end", worker, task)?;
            put_number(out, freed)
        }
        Event::Grow { bytes } => put_growth(out, worker, bytes),
        event => put_block_event(out, worker, event),
    }
}

// A pool that grows.
fn put_growth(out: &mut Vec<u8>, worker: u32, bytes: u64) -> Result<(), AllocError>
    ensures ok { OnOk result (out.new.items ≡ out.old.items ++ event_text worker (Grow bytes)) }
{
    out.extend_from_slice(b"grow")?;
    put_number(out, u64::from(worker))?;
    put_number(out, bytes)
}

// The text of an event of a block; nothing for an event of a task.
fn put_block_event(out: &mut Vec<u8>, worker: u32, event: Event) -> Result<(), AllocError>
    ensures ok { OnOk result (out.new.items ≡ out.old.items ++ block_text worker event) }
{
    match event {
        Event::Evict {
            dataset,
            part,
            size,
            fate,
        } => {
            put_sized(out, b"evict", worker, dataset, part, size)?;
            put_fate(out, fate)
        }
        Event::Pin {
            dataset,
            part,
            copy,
        } => {
            put_block(out, b"pin", worker, dataset, part)?;
            put_form(out, copy)
        }
        Event::Unpin { dataset, part } => put_block(out, b"unpin", worker, dataset, part),
        Event::Remove {
            dataset,
            part,
            size,
        } => put_sized(out, b"remove", worker, dataset, part, size),
        event => put_stored(out, worker, event),
    }
}

// The text of a block that was stored or found no room; nothing for another event.
fn put_stored(out: &mut Vec<u8>, worker: u32, event: Event) -> Result<(), AllocError>
    ensures ok { OnOk result (out.new.items ≡ out.old.items ++ stored_text worker event) }
{
    match event {
        Event::Admit {
            dataset,
            part,
            size,
            level,
            borrowed,
            evictions,
        } => {
            put_sized(out, b"admit", worker, dataset, part, size)?;
            put_level(out, level)?;
            put_number(out, borrowed)?;
            put_number(out, evictions)
        }
        Event::Refused {
            dataset,
            part,
            size,
            borrowed,
            evictions,
        } => {
            put_sized(out, b"refused", worker, dataset, part, size)?;
            put_number(out, borrowed)?;
            put_number(out, evictions)
        }
        _ => Ok(()),
    }
}

// A word, a worker and its task.
fn put_task(out: &mut Vec<u8>, word: &[u8], worker: u32, task: u32) -> Result<(), AllocError>
    ensures ok { OnOk result (out.new.items ≡ out.old.items ++ word.now ++ number_field worker ++ number_field task) }
{
    out.extend_from_slice(word)?;
    put_number(out, u64::from(worker))?;
    put_number(out, u64::from(task))
}

// A word, a worker and the name of a block.
fn put_block(
    out: &mut Vec<u8>,
    word: &[u8],
    worker: u32,
    dataset: u32,
    part: u32,
) -> Result<(), AllocError>
    ensures ok { OnOk result
        (out.new.items ≡ out.old.items ++ word.now ++ number_field worker ++ number_field dataset
        ++ number_field part) }
{
    put_task(out, word, worker, dataset)?;
    put_number(out, u64::from(part))
}

// The same with the block's size.
fn put_sized(
    out: &mut Vec<u8>,
    word: &[u8],
    worker: u32,
    dataset: u32,
    part: u32,
    size: u64,
) -> Result<(), AllocError>
    ensures ok { OnOk result (out.new.items
        ≡ out.old.items ++ word.now ++ number_field worker ++ number_field dataset
        ++ number_field part ++ number_field size) }
{
    put_block(out, word, worker, dataset, part)?;
    put_number(out, size)
}

// A comma and the decimal of a number.
fn put_number(out: &mut Vec<u8>, value: u64) -> Result<(), AllocError>
    ensures ok { OnOk result (out.new.items ≡ out.old.items ++ number_field value) }
{
    out.push(b',')?;
    out.extend_from_slice(Buffer::new().format(value).as_bytes())
}

// What an attempt was granted.
fn put_got(out: &mut Vec<u8>, got: Option<u64>) -> Result<(), AllocError>
    ensures ok { OnOk result (out.new.items ≡ out.old.items ++ field (got_text got)) }
{
    match got {
        Some(bytes) => put_number(out, bytes),
        None => out.extend_from_slice(b",wait"),
    }
}

// What became of an evicted block.
fn put_fate(out: &mut Vec<u8>, fate: Fate) -> Result<(), AllocError>
    ensures ok { OnOk result (out.new.items ≡ out.old.items ++ field (fate_word fate)) }
{
    out.extend_from_slice(match fate {
        Fate::Disk => b",disk",
        Fate::Gone => b",gone",
        Fate::NoMemory => b",nomem",
    })
}

// Where a block goes when it is evicted.
fn put_level(out: &mut Vec<u8>, level: Level) -> Result<(), AllocError>
    ensures ok { OnOk result (out.new.items ≡ out.old.items ++ field (level_word level)) }
{
    out.extend_from_slice(match level {
        Level::Memory => b",memory",
        Level::Disk => b",disk",
    })
}

// Whether a pin read a copy.
fn put_form(out: &mut Vec<u8>, copy: bool) -> Result<(), AllocError>
    ensures ok { OnOk result (out.new.items ≡ out.old.items ++ field (form_word copy)) }
{
    if copy {
        out.extend_from_slice(b",copy")
    } else {
        out.extend_from_slice(b",resident")
    }
}
