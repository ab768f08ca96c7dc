// Threads that share one memory state, and one worker alone.
use crate::tests::crews::{Left, share};
use crate::tests::entries::{
    count_words, granted_of, held_in, left_of, missing, put_entries, tally,
};
use crate::tests::words::{finds, put_number};
use pool_ledger::{Entry, Setup};
use std::alloc::{AllocError, Global};
use std::marker::Brand;
use std::string::String;
use std::sync::Wait;
use std::test::*;
use std::thread::Threads;

// Workers play scripts in a pool of so many bytes.
fn played<R: Threads + Wait + Sync>(
    rt: &R,
    alloc: Global,
    bytes: u32,
    scripts: &[&str],
) -> Result<Left, AllocError> {
    let count = scripts.len().clamp(1, 4) as u32;
    match Setup::of(u64::from(bytes).max(1), 0, 1000, 500, count) {
        Ok(setup) => share::<Brand, _>(rt, alloc, setup, scripts),
        Err(_) => Err(AllocError),
    }
}

// What a worker alone knows, how many files were made, and the journal, with what moved from storage or without it.
fn alone<R: Threads + Wait + Sync>(
    rt: &R,
    alloc: Global,
    bytes: u32,
    script: &str,
    moved: bool,
) -> Result<String, AllocError> {
    let left = played(rt, alloc, bytes, &[script])?;
    left_alone(alloc, &left, moved)
}

fn left_alone(alloc: Global, left: &Left, moved: bool) -> Result<String, AllocError> {
    let mut text = String::new(alloc);
    put_number(&mut text, left.files)?;
    text.push_str(" files")?;
    for noted in &left.notes {
        put_line(&mut text, noted)?;
    }
    text.push('\n')?;
    put_entries(&mut text, left.journal.entries(), moved)?;
    Ok(text)
}

fn put_line(text: &mut String, line: &str) -> Result<(), AllocError> {
    text.push('\n')?;
    text.push_str(line)
}

const ANSWERS: &str = "0 files
 begin,0,0 attempt,0,0,600,0,0,600 attempt,0,0,600,0,0,400 attempt,0,0,1,0,0,0 release,0,0,1000 \
release,0,0,0 attempt,0,0,50,0,0,50 end,0,0,50
 begin,0,0 attempt,0,0,600,0,0,600 attempt,0,0,600,0,0,400 attempt,0,0,1,0,0,0 release,0,0,1000 \
release,0,0,0 attempt,0,0,50,0,0,50 end,0,0,50";

#[test]
fn one_worker_has_its_answers(rt: HostRuntime) -> Result<(), Fail> {
    let script = "task acquire:600 acquire:600 acquire:1 release:2000 release:1 acquire:50";
    finds(
        &rt,
        alone(&rt, rt.alloc(), 1000, script, false),
        ANSWERS,
        "its answers",
    )
}

// What each of several workers knows, and its entries in the journal, and how many entries that has.
fn together<R: Threads + Wait + Sync>(
    rt: &R,
    alloc: Global,
    bytes: u32,
    scripts: &[&str],
) -> Result<String, AllocError> {
    let left = played(rt, alloc, bytes, scripts)?;
    left_together(alloc, &left)
}

fn left_together(alloc: Global, left: &Left) -> Result<String, AllocError> {
    let mut text = String::new(alloc);
    put_number(&mut text, left.journal.entries().len() as u64)?;
    text.push_str(" entries")?;
    let mut worker = 0u32;
    for noted in &left.notes {
        put_both(alloc, &mut text, left.journal.entries(), worker, noted)?;
        worker = worker.wrapping_add(1);
    }
    Ok(text)
}

fn put_both(
    alloc: Global,
    text: &mut String,
    entries: &[Entry],
    worker: u32,
    noted: &str,
) -> Result<(), AllocError> {
    put_line(text, noted)?;
    let granted = granted_of(alloc, entries, worker)?;
    put_line(text, &granted)
}

const ROOM_FOR_BOTH: &str = "26 entries
 begin,0,0 attempt,0,0,100,0,0,100 attempt,0,0,100,0,0,100 attempt,0,0,100,0,0,100 \
attempt,0,0,100,0,0,100 attempt,0,0,100,0,0,100 attempt,0,0,100,0,0,100 attempt,0,0,100,0,0,100 \
attempt,0,0,100,0,0,100 attempt,0,0,100,0,0,100 attempt,0,0,100,0,0,100 release,0,0,1000 end,0,0,0
 begin,0,0 attempt,0,0,100,0,0,100 attempt,0,0,100,0,0,100 attempt,0,0,100,0,0,100 \
attempt,0,0,100,0,0,100 attempt,0,0,100,0,0,100 attempt,0,0,100,0,0,100 attempt,0,0,100,0,0,100 \
attempt,0,0,100,0,0,100 attempt,0,0,100,0,0,100 attempt,0,0,100,0,0,100 release,0,0,1000 end,0,0,0
 begin,1,1 attempt,1,1,100,0,0,100 attempt,1,1,100,0,0,100 attempt,1,1,100,0,0,100 \
attempt,1,1,100,0,0,100 attempt,1,1,100,0,0,100 attempt,1,1,100,0,0,100 attempt,1,1,100,0,0,100 \
attempt,1,1,100,0,0,100 attempt,1,1,100,0,0,100 attempt,1,1,100,0,0,100 release,1,1,1000 end,1,1,0
 begin,1,1 attempt,1,1,100,0,0,100 attempt,1,1,100,0,0,100 attempt,1,1,100,0,0,100 \
attempt,1,1,100,0,0,100 attempt,1,1,100,0,0,100 attempt,1,1,100,0,0,100 attempt,1,1,100,0,0,100 \
attempt,1,1,100,0,0,100 attempt,1,1,100,0,0,100 attempt,1,1,100,0,0,100 release,1,1,1000 end,1,1,0";

// Both always find room, so none of them waits.
#[test]
fn two_threads_with_room_for_both(rt: HostRuntime) -> Result<(), Fail> {
    let script = "task acquire:100 acquire:100 acquire:100 acquire:100 acquire:100 acquire:100 \
        acquire:100 acquire:100 acquire:100 acquire:100 release:1000";
    let found = together(&rt, rt.alloc(), 6000, &[script, script]);
    finds(&rt, found, ROOM_FOR_BOTH, "both workers")
}

const FOUR: [&str; 4] = [
    "task acquire:1000 release:1000 acquire:300 release:300 acquire:700 release:700",
    "task acquire:900 release:900 acquire:1000 release:1000 acquire:100 release:100",
    "task acquire:250 release:250 acquire:800 release:800 acquire:1000 release:1000",
    "task acquire:500 release:500 acquire:999 release:999 acquire:1 release:1",
];

// What is wrong after four threads, if anything is.
fn wrong_of_four<R: Threads + Wait + Sync>(
    rt: &R,
    alloc: Global,
) -> Result<&'static str, AllocError> {
    let left = played(rt, alloc, 1000, &FOUR)?;
    let (most, held) = held_in(left.journal.entries());
    if most > 1000 {
        return Ok("the pool is passed");
    }
    if held != 0 {
        return Ok("something is held at the end");
    }
    wrong_note(alloc, &left)
}

fn wrong_note(alloc: Global, left: &Left) -> Result<&'static str, AllocError> {
    let mut worker = 0u32;
    for noted in &left.notes {
        if !is_known(alloc, left.journal.entries(), worker, noted)? {
            return Ok("a worker knows other entries");
        }
        worker = worker.wrapping_add(1);
    }
    Ok("")
}

// Whether a worker knows its entries, of which there are eight, and its task holds nothing at the end.
fn is_known(
    alloc: Global,
    entries: &[Entry],
    worker: u32,
    noted: &str,
) -> Result<bool, AllocError> {
    let granted = granted_of(alloc, entries, worker)?;
    Ok(granted.as_str() == noted && count_words(noted) == 8 && left_of(entries, worker) == 0)
}

// Whoever waits holds nothing, and whoever holds gives all back: so each wait has an end.
#[test]
fn four_threads_in_a_small_pool(rt: HostRuntime) -> Result<(), Fail> {
    finds(&rt, four_rounds(&rt, rt.alloc()), "", "50 rounds")
}

// The first of 50 rounds after which something is wrong, with what it is.
fn four_rounds<R: Threads + Wait + Sync>(rt: &R, alloc: Global) -> Result<String, AllocError> {
    for round in 0..50u64 {
        let wrong = wrong_of_four(rt, alloc)?;
        if !wrong.is_empty() {
            return round_text(alloc, round, wrong);
        }
    }
    Ok(String::new(alloc))
}

fn round_text(alloc: Global, round: u64, wrong: &str) -> Result<String, AllocError> {
    let mut text = String::new(alloc);
    put_number(&mut text, round)?;
    put_line(&mut text, wrong)?;
    Ok(text)
}

// What is missing of these words in the journal, in their order, and what worker 1 has there.
fn waited<R: Threads + Wait + Sync>(
    rt: &R,
    alloc: Global,
    scripts: &[&str],
    wanted: &str,
) -> Result<String, AllocError> {
    let left = played(rt, alloc, 1000, scripts)?;
    left_waiting(alloc, left.journal.entries(), wanted)
}

fn left_waiting(alloc: Global, entries: &[Entry], wanted: &str) -> Result<String, AllocError> {
    let mut journal = String::new(alloc);
    put_entries(&mut journal, entries, false)?;
    let mut text = String::new(alloc);
    text.push_str(missing(&journal, wanted))?;
    let own = granted_of(alloc, entries, 1)?;
    put_line(&mut text, &own)?;
    Ok(text)
}

// Worker 1 is told to wait while worker 0 holds 900 of 1,000 bytes, and goes on once they are released: worker 0
// ends only behind that. The ask that waits isn't the first attempt of its task, which would raise the wake-up count.
#[test]
fn a_release_lets_a_waiting_acquire_go_on(rt: HostRuntime) -> Result<(), Fail> {
    let holder = "task await:ready acquire:900 raise:taken probe release:900 await:granted";
    let asker =
        "task acquire:1 release:1 raise:ready await:taken acquire:200 raise:granted release:200";
    let wanted = "release,1,1,1 attempt,0,0,900,0,0,900 attempt,1,1,200,0,0,wait release,0,0,900 \
        attempt,1,1,200,0,0,200 end,0,0,0";
    let own = "\n begin,1,1 attempt,1,1,1,0,0,1 release,1,1,1 attempt,1,1,200,0,0,200 \
        release,1,1,200 end,1,1,0";
    let found = waited(&rt, rt.alloc(), &[holder, asker], wanted);
    finds(
        &rt,
        found,
        own,
        "nothing is missing, and what the asker has",
    )
}

// Worker 1 is told to wait while worker 2 holds 900 of 1,000 bytes, and goes on once worker 0 makes the pools 100 bytes larger:
// the others end only behind that.
#[test]
fn a_growth_lets_a_waiting_acquire_go_on(rt: HostRuntime) -> Result<(), Fail> {
    let grower = "await:probed grow:100 await:granted;";
    let asker =
        "task acquire:1 release:1 raise:ready await:taken acquire:200 raise:granted release:200";
    let holder = "task await:ready acquire:900 raise:taken probe raise:probed await:granted";
    let wanted = "release,1,1,1 attempt,2,2,900,0,0,900 attempt,1,1,200,0,0,wait grow,0,100 \
        attempt,1,1,200,0,0,200 end,2,2,900";
    let own = "\n begin,1,1 attempt,1,1,1,0,0,1 release,1,1,1 attempt,1,1,200,0,0,200 \
        release,1,1,200 end,1,1,0";
    let found = waited(&rt, rt.alloc(), &[grower, asker, holder], wanted);
    finds(
        &rt,
        found,
        own,
        "nothing is missing, and what the asker has",
    )
}

// A growth of 2^36 bytes, the most at a time, and one of 24.
#[test]
fn one_worker_makes_its_pool_larger(rt: HostRuntime) -> Result<(), Fail> {
    let script = "grow:68719476736 grow:24; task acquire:4294967295 acquire:1024";
    let wanted = "0 files\n grow,0,68719476736 grow,0,24 begin,0,0 \
        attempt,0,0,4294967295,0,0,4294967295 attempt,0,0,1024,0,0,1024 end,0,0,4294968319\n \
        grow,0,68719476736 grow,0,24 begin,0,0 attempt,0,0,4294967295,0,0,4294967295 \
        attempt,0,0,1024,0,0,1024 end,0,0,4294968319";
    let found = alone(&rt, rt.alloc(), 1000, script, true);
    finds(&rt, found, wanted, "its answers")
}

// Block (1, 0) has 250 bytes and block (2, 0) has 200. The pin makes (1, 0) the one that was used last, so (2, 0) goes.
#[test]
fn one_worker_keeps_blocks(rt: HostRuntime) -> Result<(), Fail> {
    let script = "look:1.0:disk:7:150 keep:1.0:disk:7:150 keep:2.0:memory:8:100 \
        look:1.0:disk:7:150 | task acquire:300 acquire:100 | task acquire:600 | remove:1 \
        look:1.0:disk:7:150";
    let wanted = "0 files\n miss in in hit begin,0,0 attempt,0,0,300,0,0,300 \
        attempt,0,0,100,0,0,50 end,0,0,350 begin,0,1 attempt,0,1,600,0,0,350 end,0,1,350 miss\n \
        admit,0,1,0,250,disk,0,0 admit,0,2,0,200,memory,150,0 pin,0,1,0,resident unpin,0,1,0 \
        begin,0,0 evict,0,2,0,200,gone attempt,0,0,300,200,1,300 attempt,0,0,100,0,0,50 \
        end,0,0,350 begin,0,1 attempt,0,1,600,0,0,350 end,0,1,350 remove,0,1,0,250";
    finds(
        &rt,
        alone(&rt, rt.alloc(), 600, script, true),
        wanted,
        "the pinned one stays",
    )
}

// The same blocks, where (1, 0) isn't used again: it goes, to the store disk, and is read back with its rows.
#[test]
fn one_worker_reads_a_copy(rt: HostRuntime) -> Result<(), Fail> {
    let script = "keep:1.0:disk:7:150 keep:2.0:memory:8:100 | task acquire:300 | \
        look:1.0:disk:7:150";
    let wanted = "1 files\n in in begin,0,0 attempt,0,0,300,0,0,300 end,0,0,300 copy\n \
        admit,0,1,0,250,disk,0,0 admit,0,2,0,200,memory,150,0 begin,0,0 evict,0,1,0,250,disk \
        attempt,0,0,300,250,1,300 end,0,0,300 pin,0,1,0,copy";
    finds(
        &rt,
        alone(&rt, rt.alloc(), 600, script, true),
        wanted,
        "its rows",
    )
}

const TWO_WITH_BLOCKS: [&str; 2] = [
    "task keep:0.0:disk:7:200 look:1.0:disk:7:200 acquire:100 release:100 \
        keep:0.1:disk:7:200 look:1.1:disk:7:200 acquire:100 release:100 \
        keep:0.2:disk:7:200 look:1.2:disk:7:200 acquire:100 release:100 \
        keep:0.3:disk:7:200 look:1.3:disk:7:200 acquire:100 release:100",
    "task keep:1.0:disk:7:200 look:0.0:disk:7:200 acquire:100 release:100 \
        keep:1.1:disk:7:200 look:0.1:disk:7:200 acquire:100 release:100 \
        keep:1.2:disk:7:200 look:0.2:disk:7:200 acquire:100 release:100 \
        keep:1.3:disk:7:200 look:0.3:disk:7:200 acquire:100 release:100",
];

// What is wrong after two threads with blocks, if anything is.
fn wrong_of_blocks<R: Threads + Wait + Sync>(
    rt: &R,
    alloc: Global,
) -> Result<&'static str, AllocError> {
    let left = played(rt, alloc, 2000, &TWO_WITH_BLOCKS)?;
    let [tasks, blocks, pins, unpins] = tally(left.journal.entries());
    let (_, held) = held_in(left.journal.entries());
    Ok(if tasks != 2 {
        "a task hasn't ended"
    } else if blocks == 0 {
        "no block was kept"
    } else if pins != unpins {
        "a pin has no unpin"
    } else if held != 0 {
        "something is held at the end"
    } else {
        ""
    })
}

// Each keeps blocks of its own dataset and looks for the other's. What each finds isn't fixed, but each pin has
// its unpin.
#[test]
fn two_threads_share_blocks(rt: HostRuntime) -> Result<(), Fail> {
    finds(&rt, rounds_of_blocks(&rt, rt.alloc()), "", "50 rounds")
}

fn rounds_of_blocks<R: Threads + Wait + Sync>(rt: &R, alloc: Global) -> Result<String, AllocError> {
    for round in 0..50u64 {
        let wrong = wrong_of_blocks(rt, alloc)?;
        if !wrong.is_empty() {
            return round_text(alloc, round, wrong);
        }
    }
    Ok(String::new(alloc))
}
