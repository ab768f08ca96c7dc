// Steps of a store as words, which store.rt tells.
use crate::tests::kept_blocks::level_of;
use crate::tests::pages::{page_of, put_blocks};
use crate::tests::words::{bytes, cut, number, put_after};
use block_store::{Block, Store};
use pool_ledger::{Fate, Level};
use row_page::Page;
use spill_disk::Disk;
use std::alloc::Global;
use std::string::String;
use std::sync::Arc;
use std::test::Fail;

// Plays the steps, and writes them down with their answers.
pub fn play<K: Disk>(store: &mut Store<K>, alloc: Global, steps: &str) -> Result<String, Fail> {
    let mut text = String::new(alloc);
    for word in steps.split_whitespace() {
        play_word(store, alloc, word, &mut text)?;
    }
    Ok(text)
}

fn play_word<K: Disk>(
    store: &mut Store<K>,
    alloc: Global,
    word: &str,
    text: &mut String,
) -> Result<(), Fail> {
    let (step, _) = cut(word, '=');
    text.push_str(if text.is_empty() { "" } else { " " })?;
    text.push_str(step)?;
    play_step(store, alloc, step, text)
}

fn play_step<K: Disk>(
    store: &mut Store<K>,
    alloc: Global,
    step: &str,
    text: &mut String,
) -> Result<(), Fail> {
    let (kind, rest) = cut(step, ':');
    match kind {
        "list" => {
            text.push('=')?;
            put_blocks(text, "/", store.list())
        }
        "first" => put_first(store, rest, text),
        "room" => put_after(text, "=", store.room()),
        "reserve" => {
            let is_there = store.reserve(bytes(rest)?).is_ok();
            Ok(text.push_str(if is_there { "=ok" } else { "=err" })?)
        }
        "forget" => {
            store.forget(number(rest)?);
            Ok(())
        }
        _ => play_block(store, alloc, kind, rest, text),
    }
}

// Tells the first block that may go, of another dataset where one is named.
fn put_first<K: Disk>(store: &Store<K>, dataset: &str, text: &mut String) -> Result<(), Fail> {
    let except = if dataset.is_empty() {
        None
    } else {
        Some(number(dataset)?)
    };
    match store.first_that_may_go(except) {
        Some(block) => put_blocks(text, "=", &[block]),
        None => Ok(text.push_str("=none")?),
    }
}

// A step of one block.
fn play_block<K: Disk>(
    store: &mut Store<K>,
    alloc: Global,
    kind: &str,
    rest: &str,
    text: &mut String,
) -> Result<(), Fail> {
    let (name, rest) = cut(rest, ':');
    let (dataset, part) = cut(name, '.');
    let dataset = number(dataset)?;
    let part = number(part)?;
    match kind {
        "put" => put(store, block_of(alloc, dataset, part, rest)?),
        "evict" => Ok(text.push_str(evict(store, dataset, part)?)?),
        "pin" => put_block(text, pin(store, dataset, part)?),
        "unpin" => unpin(store, dataset, part),
        "remove" => remove(store, dataset, part),
        "has" => {
            let has_copy = store.has_copy(dataset, part);
            Ok(text.push_str(if has_copy { "=yes" } else { "=no" })?)
        }
        "copy" => put_block(text, store.copy_of(dataset, part)?),
        "back" => put_back(store, dataset, part, text),
        "pins" => put_after(
            text,
            "=",
            store.pins(dataset, part).ok_or("it isn't in memory")?,
        ),
        _ => Err("an unknown step".into()),
    }
}

pub fn put<K: Disk>(store: &mut Store<K>, block: Arc<Block, Global>) -> Result<(), Fail> {
    store.reserve(1)?;
    let None = store.pins(block.dataset, block.part) else {
        return Err("it is in memory".into());
    };
    store.admit(block);
    Ok(())
}

// Puts a block into memory that has a copy.
fn put_back<K: Disk>(
    store: &mut Store<K>,
    dataset: u32,
    part: u32,
    text: &mut String,
) -> Result<(), Fail> {
    let copy = store.copy_of(dataset, part)?.ok_or("it has no copy")?;
    tell(text, &copy)?;
    put(store, copy)
}

fn evict<K: Disk>(store: &mut Store<K>, dataset: u32, part: u32) -> Result<&'static str, Fail> {
    let Some(0) = store.pins(dataset, part) else {
        return Err("it isn't in memory, or pinned".into());
    };
    Ok(match store.evict_one(dataset, part) {
        Fate::Disk => "=disk",
        Fate::Gone => "=gone",
        Fate::NoMemory => "=nomem",
    })
}

// Pins a block, and hands it out; none where it isn't in memory.
pub fn pin<K: Disk>(
    store: &mut Store<K>,
    dataset: u32,
    part: u32,
) -> Result<Option<Arc<Block, Global>>, Fail> {
    let lent = store.lend(dataset, part)?;
    match store.pins(dataset, part) {
        None => Ok(lent),
        Some(u64::MAX) => Err("it has too many pins".into()),
        Some(_) => {
            store.pin(dataset, part);
            Ok(lent)
        }
    }
}

pub fn unpin<K: Disk>(store: &mut Store<K>, dataset: u32, part: u32) -> Result<(), Fail> {
    let Some(1..) = store.pins(dataset, part) else {
        return Err("it has no pin".into());
    };
    store.unpin(dataset, part);
    Ok(())
}

fn remove<K: Disk>(store: &mut Store<K>, dataset: u32, part: u32) -> Result<(), Fail> {
    let Some(0) = store.pins(dataset, part) else {
        return Err("it isn't in memory, or pinned".into());
    };
    store.remove(dataset, part);
    Ok(())
}

// A block of one row, of these words: a level and the row's field.
pub fn block_of(
    alloc: Global,
    dataset: u32,
    part: u32,
    words: &str,
) -> Result<Arc<Block, Global>, Fail> {
    let (level, field) = cut(words, ':');
    let page = page_of(alloc, field.as_bytes())?;
    block(alloc, dataset, part, level_of(level), page)
}

fn block(
    alloc: Global,
    dataset: u32,
    part: u32,
    level: Level,
    page: Page,
) -> Result<Arc<Block, Global>, Fail> {
    let block = Block {
        dataset,
        part,
        level,
        page,
    };
    Ok(Arc::new(alloc, block)?)
}

fn put_block(text: &mut String, block: Option<Arc<Block, Global>>) -> Result<(), Fail> {
    match block {
        Some(block) => tell(text, &block),
        None => Ok(text.push_str("=none")?),
    }
}

// Tells a block's name, size, level, number of rows, and the field of its first row.
fn tell(text: &mut String, block: &Block) -> Result<(), Fail> {
    put_after(text, "=", u64::from(block.dataset))?;
    put_after(text, ".", u64::from(block.part))?;
    put_after(text, ",", block.size())?;
    let level = match block.level {
        Level::Disk => ",disk,",
        Level::Memory => ",memory,",
    };
    put_after(text, level, block.page.rows() as u64)?;
    put_field(text, &block.page)
}

fn put_field(text: &mut String, page: &Page) -> Result<(), Fail> {
    text.push(',')?;
    for byte in field(page)? {
        text.push(char::from(*byte))?;
    }
    Ok(())
}

// The field of a page of one row.
fn field(page: &Page) -> Result<&[u8], Fail> {
    if page.rows() == 0 {
        return Err("no row".into());
    }
    let row = page.row(0);
    if row.count() == 0 {
        return Err("no field".into());
    }
    Ok(row.field(0))
}
