// Blocks and their copies by themselves, by scripts of calls of their store.
//
// `put:D.P:L:F` stores a block of level L with one row of the field F, `evict:D.P=A` tells what became of the block, and
// `has:D.P=A` whether it has a copy. `pin:D.P=A`, `copy:D.P=A` and `back:D.P=A`, which puts the copy that it reads into
// memory, tell the block: its name, size, level, number of rows, and field. `pins:D.P=N` and `room=N` tell numbers,
// `reserve:N=A` whether there is memory, and `list=A` the blocks, the least recently used first, each behind a `/`.
// `first=A` is the first of them that may go, and `first:D=A` the first that isn't of dataset D. Last stand how many
// files were made, and what bytes the first three have.
use crate::tests::steps::{block_of, pin, play, put, unpin};
use crate::tests::words::{counts, cut, put_after, reads};
use block_store::Store;
use eviction::Candidate;
use spill_disk::{Disk, DiskError, FolderDisk, MemoryDisk};
use std::alloc::Global;
use std::fs;
use std::process::Abort;
use std::string::String;
use std::test::*;

// Three blocks in memory: two of level disk in dataset 1, and one of level memory in dataset 2. Their sizes are 64 bytes,
// 32 for the row, and its encoding: 4 and the field.
const THREE: &str = "put:1.0:disk:first put:1.1:disk:second put:2.0:memory:third";

#[test]
fn blocks_stand_in_use_order_with_their_pins(rt: HostRuntime) -> Result<(), Fail> {
    let alloc = rt.alloc();
    is_sent(&Store::new(alloc, MemoryDisk::new(alloc, Vec::new(alloc))));
    // The second pin is that of a second worker, and after the first unpin one pin is left.
    let script = "list=/1.0:105/1.1:106/2.0:105 pin:9.9=none pin:1.0=1.0,105,disk,1,first \
        list=/1.1:106/2.0:105/1.0:105:pinned pin:1.0=1.0,105,disk,1,first pins:1.0=2 unpin:1.0 \
        list=/1.1:106/2.0:105/1.0:105:pinned unpin:1.0 list=/1.1:106/2.0:105/1.0:105 pins:1.1=0 \
        remove:1.1 list=/2.0:105/1.0:105 files=0:0,0,0";
    check(&rt, alloc, "", THREE, script)
}

#[test]
fn the_first_that_may_go_is_free_and_not_excepted(rt: HostRuntime) -> Result<(), Fail> {
    let script = "first=1.0:105 first:1=2.0:105 pin:1.0=1.0,105,disk,1,first first=1.1:106 \
        pin:1.1=1.1,106,disk,1,second first=2.0:105 first:2=none evict:2.0=gone first=none \
        unpin:1.0 first=1.0:105 first:1=none files=0:0,0,0";
    check(&rt, rt.alloc(), "", THREE, script)
}

#[test]
fn a_thousand_blocks_stand_in_the_order_of_their_pins(rt: HostRuntime) -> Result<(), Fail> {
    let [put, used] = ordered(rt.alloc())?;
    counts(&rt, put, 1000);
    counts(&rt, used, 1000);
    Ok(())
}

// How many of a thousand blocks stand in the order in which they were put, and then in that of their pins.
fn ordered(alloc: Global) -> Result<[u32; 2], Fail> {
    let mut store = Store::new(alloc, MemoryDisk::new(alloc, Vec::new(alloc)));
    put_parts(&mut store, alloc, 1000)?;
    let put = ordered_by(store.list(), 1, 1000);
    // By sevens: 7, 14, 21 and so on, past 1,000 from the front again, and at last 0.
    use_parts(&mut store, 7, 1000)?;
    Ok([put, ordered_by(store.list(), 7, 1000)])
}

#[test]
fn room_is_kept_for_what_was_reserved(rt: HostRuntime) -> Result<(), Fail> {
    // No memory is so large as the last.
    let script = "room=0 reserve:2=ok room=2 put:1.0:disk:first room=1 reserve:1=ok room=1 \
        reserve:18446744073709551615=err list=/1.0:105 files=0:0,0,0";
    check(&rt, rt.alloc(), "", "", script)
}

#[test]
fn a_copy_is_written_once_and_read_back(rt: HostRuntime) -> Result<(), Fail> {
    let script = "evict:2.0=gone has:2.0=no evict:1.0=disk has:1.0=yes has:1.1=no copy:1.1=none \
        evict:1.1=disk list= back:1.0=1.0,105,disk,1,first evict:1.0=disk files=2:13,14,0";
    check(&rt, rt.alloc(), "", THREE, script)
}

#[test]
fn a_forgotten_dataset_has_no_copies_and_no_files(rt: HostRuntime) -> Result<(), Fail> {
    // The copy of dataset 3 stays, 4, 4 and 6 bytes, and so does the block in memory.
    let script =
        "put:3.0:disk:fourth evict:1.0=disk evict:3.0=disk evict:1.1=disk forget:1 has:1.0=no \
        has:1.1=no copy:1.0=none copy:3.0=3.0,106,disk,1,fourth list=/2.0:105 files=3:0,14,0";
    check(&rt, rt.alloc(), "", THREE, script)
}

#[test]
fn a_failed_write_leaves_no_copy(rt: HostRuntime) -> Result<(), Fail> {
    // Which calls fail, which are create, append, and then read, or remove after a failure: then half of it stays.
    let table = "\
none: evict:1.0=disk has:1.0=yes copy:1.0=1.0,105,disk,1,first files=1:13,0,0
0: evict:1.0=gone has:1.0=no copy:1.0=none files=0:0,0,0
1: evict:1.0=gone has:1.0=no copy:1.0=none files=1:0,0,0
1 2: evict:1.0=gone has:1.0=no copy:1.0=none files=1:6,0,0
2: evict:1.0=disk has:1.0=yes copy:1.0=none files=1:13,0,0";
    let mut count = 0u32;
    for row in table.lines() {
        check_row(&rt, rt.alloc(), row)?;
        count = count.wrapping_add(1);
    }
    counts(&rt, count, 5);
    Ok(())
}

#[test]
fn a_copy_that_was_not_read_is_read_later(rt: HostRuntime) -> Result<(), Fail> {
    // The first read fails, and the file isn't removed, and forgotten all the same.
    let script = "evict:1.0=disk copy:1.0=none copy:1.0=1.0,105,disk,1,first forget:1 has:1.0=no \
        files=1:13,0,0";
    check(&rt, rt.alloc(), "2 4", THREE, script)
}

#[test]
fn a_store_over_a_folder_writes_and_reads(rt: HostRuntime) -> Result<(), Fail> {
    let script = "put:1.0:disk:first evict:1.0=disk copy:1.0=1.0,105,disk,1,first forget:1";
    let told = play_in_folder(&rt, script)?;
    // What a store tells of a write that failed; and as it has a copy, a miss is a read that failed.
    if told.contains("=gone") || told.contains("=none") {
        return Err(DiskError::Failed.into());
    }
    reads(&rt, told.as_str(), script, "");
    fs::remove_dir(&rt, "copies")?;
    Ok(())
}

fn is_sent<T: Send>(_value: &T) {}

// The part of the block that is put, or used, at this step: by so many, from the first of so many again past the last.
fn part_at(step: u32, by: u32, count: u32) -> u32 {
    let place = u64::from(step).wrapping_add(1).wrapping_mul(u64::from(by));
    place.checked_rem(u64::from(count)).unwrap_or(0) as u32
}

// Puts so many blocks of dataset 1 into memory.
fn put_parts<K: Disk>(store: &mut Store<K>, alloc: Global, count: u32) -> Result<(), Fail> {
    for step in 0..count {
        put_part(store, alloc, part_at(step, 1, count))?;
    }
    Ok(())
}

fn put_part<K: Disk>(store: &mut Store<K>, alloc: Global, part: u32) -> Result<(), Fail> {
    put(store, block_of(alloc, 1, part, "memory:row")?)
}

// Pins and unpins each, by so many.
fn use_parts<K: Disk>(store: &mut Store<K>, by: u32, count: u32) -> Result<(), Fail> {
    for step in 0..count {
        use_part(store, part_at(step, by, count))?;
    }
    Ok(())
}

fn use_part<K: Disk>(store: &mut Store<K>, part: u32) -> Result<(), Fail> {
    if pin(store, 1, part)?.is_none() {
        return Err("it isn't in memory".into());
    }
    unpin(store, 1, part)
}

// How many of the blocks stand where they do if each was used by so many, and without pins.
fn ordered_by(blocks: &[Candidate], by: u32, count: u32) -> u32 {
    let mut found = 0u32;
    let mut step = 0u32;
    for block in blocks {
        if block.part == part_at(step, by, count) && !block.pinned {
            found = found.wrapping_add(1);
        }
        step = step.wrapping_add(1);
    }
    found
}

fn play_in_folder(rt: &HostRuntime, steps: &str) -> Result<String, Fail> {
    let path = String::from_str(rt.alloc(), "copies")?;
    let (text, _disk) = play_on(
        rt.alloc(),
        FolderDisk::new(rt.clone()?, rt.alloc(), path),
        "",
        steps,
    )?;
    Ok(text)
}

// Checks a row: which calls fail, and the script.
fn check_row(rt: &impl Abort, alloc: Global, row: &str) -> Result<(), Fail> {
    let (fails, script) = cut(row, ':');
    check(rt, alloc, fails, THREE, script.trim_start())
}

// Plays a script behind these steps, over a disk that fails at these calls, and compares what it is answered.
fn check(
    rt: &impl Abort,
    alloc: Global,
    fails: &str,
    before: &str,
    script: &str,
) -> Result<(), Fail> {
    let told = play_in_memory(alloc, fails, before, script)?;
    reads(rt, told.as_str(), script, fails);
    Ok(())
}

// What the script's steps are answered, and the files behind them.
fn play_in_memory(alloc: Global, fails: &str, before: &str, script: &str) -> Result<String, Fail> {
    let (steps, _) = script.rsplit_once(' ').unwrap_or((script, ""));
    let disk = MemoryDisk::new(alloc, numbers(alloc, fails)?);
    let (mut text, disk) = play_on(alloc, disk, before, steps)?;
    put_files(&mut text, disk)?;
    Ok(text)
}

// The numbers among these words.
fn numbers(alloc: Global, words: &str) -> Result<Vec<u64>, Fail> {
    let mut numbers = Vec::new(alloc);
    for word in words.split_whitespace() {
        put_number(&mut numbers, word)?;
    }
    Ok(numbers)
}

fn put_number(numbers: &mut Vec<u64>, word: &str) -> Result<(), Fail> {
    if let Ok(number) = word.parse::<u64>() {
        numbers.push(number)?;
    }
    Ok(())
}

// What these steps are answered by a store over this disk behind some others, and the disk.
fn play_on<K: Disk>(
    alloc: Global,
    disk: K,
    before: &str,
    steps: &str,
) -> Result<(String, K), Fail> {
    let mut store = Store::new(alloc, disk);
    play(&mut store, alloc, before)?;
    let text = play(&mut store, alloc, steps)?;
    Ok((text, store.close()))
}

// How many files were made on a disk, and what bytes the first three have.
fn put_files(text: &mut String, disk: MemoryDisk) -> Result<(), Fail> {
    let mut disk = disk;
    put_after(text, " files=", disk.created())?;
    put_left(text, ":", &mut disk, 0)?;
    put_left(text, ",", &mut disk, 1)?;
    put_left(text, ",", &mut disk, 2)
}

// What bytes a file has, behind this mark.
fn put_left(text: &mut String, mark: &str, disk: &mut MemoryDisk, file: u64) -> Result<(), Fail> {
    let mut buf = [0; 32];
    let left = disk.read_at(file, 0, &mut buf)?;
    put_after(text, mark, left as u64)
}
