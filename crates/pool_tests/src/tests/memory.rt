// Tasks that share a pool with blocks, by scripts of what their workers call.
use crate::tests::asks::{ASKS, GROWTHS};
use crate::tests::copies::{COPIES, CROWDS, REMOVALS, WAITS};
use crate::tests::faults::{FAULTS, SCRIPT};
use crate::tests::game::{Told, play_script};
use crate::tests::scripts::{EVICTIONS, LIMITS, LOANS, USES};
use crate::tests::words::{counts, cut, reads};
use pool_ledger::Setup;
use std::alloc::Global;
use std::process::Abort;
use std::string::String;
use std::test::*;

#[test]
fn scripts_of_many_tasks_have_their_answers(rt: HostRuntime) -> Result<(), Fail> {
    check_asks(&rt, rt.alloc(), ASKS, 34)
}

#[test]
fn pools_grow_between_asks(rt: HostRuntime) -> Result<(), Fail> {
    check_asks(&rt, rt.alloc(), GROWTHS, 4)
}

#[test]
fn blocks_go_in_use_order(rt: HostRuntime) -> Result<(), Fail> {
    check_all(&rt, rt.alloc(), USES, 7)
}

#[test]
fn some_blocks_find_no_room(rt: HostRuntime) -> Result<(), Fail> {
    check_all(&rt, rt.alloc(), LIMITS, 8)
}

#[test]
fn storage_borrows_and_gives_back(rt: HostRuntime) -> Result<(), Fail> {
    check_all(&rt, rt.alloc(), LOANS, 6)
}

#[test]
fn several_blocks_go_at_once(rt: HostRuntime) -> Result<(), Fail> {
    check_all(&rt, rt.alloc(), EVICTIONS, 4)
}

#[test]
fn copies_are_written_once_and_read(rt: HostRuntime) -> Result<(), Fail> {
    check_all(&rt, rt.alloc(), COPIES, 5)
}

#[test]
fn removals_leave_what_is_pinned(rt: HostRuntime) -> Result<(), Fail> {
    check_all(&rt, rt.alloc(), REMOVALS, 5)
}

#[test]
fn tasks_wait_beside_blocks(rt: HostRuntime) -> Result<(), Fail> {
    check_all(&rt, rt.alloc(), WAITS, 5)
}

#[test]
fn many_workers_share_a_pool_with_blocks(rt: HostRuntime) -> Result<(), Fail> {
    check_all(&rt, rt.alloc(), CROWDS, 3)
}

#[test]
fn a_disk_that_fails_once_changes_no_answer_to_a_task(rt: HostRuntime) -> Result<(), Fail> {
    check(&rt, rt.alloc(), SCRIPT)?;
    let mut call = 0u32;
    for fault in FAULTS.lines() {
        check_fault(&rt, rt.alloc(), u64::from(call), fault)?;
        call = call.wrapping_add(1);
    }
    counts(&rt, call, 24);
    Ok(())
}

#[test]
fn what_moves_and_waits_is_written_down(rt: HostRuntime) -> Result<(), Fail> {
    let script = "\
600 500 2 2 the journal by hand
ask:0:500=500 ask:1:200=wait ask:0:50=0 release:0:100=100 ask:1:200=200
journal begin,0,0 begin,1,1 attempt,0,0,500,200,0,500 attempt,1,1,200,100,0,wait \
    attempt,0,0,50,0,0,0 release,0,0,100 attempt,1,1,200,0,0,200
blocks
files 0 0
storage 0";
    check(&rt, rt.alloc(), script)
}

// A growth goes to execution, whose pool then has 1,000 bytes: 500 of them are free, and 500 are each task's share.
#[test]
fn a_growth_is_written_down(rt: HostRuntime) -> Result<(), Fail> {
    let script = "\
600 500 2 2 the journal by hand
ask:0:500=500 ask:1:200=wait grow:0:400 ask:1:200=200 ask:0:50=0
journal begin,0,0 begin,1,1 attempt,0,0,500,200,0,500 attempt,1,1,200,100,0,wait grow,0,400 \
    attempt,1,1,200,0,0,200 attempt,0,0,50,0,0,0
blocks
files 0 0
storage 0";
    check(&rt, rt.alloc(), script)
}

// Storage has 450 bytes, all of them used, before and after the growth, so the third block borrows all that it has. Of the
// 550 bytes of execution that leaves 430.
#[test]
fn a_pool_grows_beside_blocks(rt: HostRuntime) -> Result<(), Fail> {
    let script = "\
600 500 1 1 the journal by hand
admit:0:1.0:250:disk=in admit:0:2.0:200:memory=in grow:0:400 admit:0:3.0:120:memory=in ask:0:430=430
journal begin,0,0 admit,0,1,0,250,disk,0,0 admit,0,2,0,200,memory,150,0 grow,0,400 \
    admit,0,3,0,120,memory,120,0 attempt,0,0,430,0,0,430
blocks 1.0:250 2.0:200 3.0:120
files 0 0
storage 570";
    check(&rt, rt.alloc(), script)
}

#[test]
fn a_task_that_gave_all_back_no_longer_counts(rt: HostRuntime) -> Result<(), Fail> {
    let script = "\
600 500 2 2 the journal by hand
ask:0:400=400 release:0:1000=400 ask:1:600=600 ask:0:100=wait release:0:1=0
journal begin,0,0 begin,1,1 attempt,0,0,400,100,0,400 release,0,0,400 attempt,1,1,600,200,0,600 \
    attempt,0,0,100,0,0,wait release,0,0,0
blocks
files 0 0
storage 0";
    check(&rt, rt.alloc(), script)
}

// Half an equal share of what execution starts with is 75: an ask within it isn't granted short.
#[test]
fn an_ask_within_the_floor_waits_or_is_granted_whole(rt: HostRuntime) -> Result<(), Fail> {
    assert_eq!(rt; Setup::of(600, 0, 1000, 500, 2)?.floor(), 75);
    let script = "\
600 500 2 2 the journal by hand
ask:0:500=500 ask:0:100=100 ask:1:75=wait release:0:75=75 ask:1:75=75
journal begin,0,0 begin,1,1 attempt,0,0,500,200,0,500 attempt,0,0,100,100,0,100 \
    attempt,1,1,75,0,0,wait release,0,0,75 attempt,1,1,75,0,0,75
blocks
files 0 0
storage 0";
    check(&rt, rt.alloc(), script)
}

#[test]
fn an_ask_puts_the_first_block_out(rt: HostRuntime) -> Result<(), Fail> {
    let script = "\
600 500 1 1 the journal by hand
admit:0:1.0:250:disk=in admit:0:2.0:200:disk=in ask:0:300=300
journal begin,0,0 admit,0,1,0,250,disk,0,0 admit,0,2,0,200,disk,150,0 evict,0,1,0,250,disk \
    attempt,0,0,300,250,1,300
blocks 2.0:200
files 1 1
storage 200";
    check(&rt, rt.alloc(), script)
}

#[test]
fn an_ask_puts_the_second_block_out_where_the_first_is_pinned(rt: HostRuntime) -> Result<(), Fail> {
    let script = "\
600 500 1 1 the journal by hand
admit:0:1.0:250:disk=in admit:0:2.0:200:disk=in pin:0:1.0=hit ask:0:300=300
journal begin,0,0 admit,0,1,0,250,disk,0,0 admit,0,2,0,200,disk,150,0 pin,0,1,0,resident \
    evict,0,2,0,200,disk attempt,0,0,300,200,1,300
blocks 1.0:250:pinned
files 1 1
storage 250";
    check(&rt, rt.alloc(), script)
}

#[test]
fn what_a_refused_block_borrowed_stays_with_storage(rt: HostRuntime) -> Result<(), Fail> {
    let script = "\
600 500 1 1 the journal by hand
ask:0:100=100 admit:0:1.0:250:disk=in pin:0:1.0=hit admit:0:2.0:300:disk=refused \
    admit:0:2.0:301:disk=refused admit:0:1.0:250:disk=resident
journal begin,0,0 attempt,0,0,100,0,0,100 admit,0,1,0,250,disk,0,0 pin,0,1,0,resident \
    refused,0,2,0,300,200,0 refused,0,2,0,301,0,0
blocks 1.0:250:pinned
files 0 0
storage 500";
    check(&rt, rt.alloc(), script)
}

#[test]
fn a_pinned_block_was_used_last(rt: HostRuntime) -> Result<(), Fail> {
    let script = "\
600 500 1 1 the journal by hand
pin:0:1.0=miss admit:0:1.0:250:disk=in admit:0:2.0:200:memory=in pin:0:1.0=hit unpin:0 \
    ask:0:300=300 ask:0:100=50 end:0=350 begin:0 ask:0:600=350 end:0=350 remove:0:1 pin:0:1.0=miss
journal begin,0,0 admit,0,1,0,250,disk,0,0 admit,0,2,0,200,memory,150,0 pin,0,1,0,resident \
    unpin,0,1,0 evict,0,2,0,200,gone attempt,0,0,300,200,1,300 attempt,0,0,100,0,0,50 end,0,0,350 \
    begin,0,9 attempt,0,9,600,0,0,350 end,0,9,350 remove,0,1,0,250
blocks
files 0 0
storage 250";
    check(&rt, rt.alloc(), script)
}

#[test]
fn a_block_that_was_used_first_goes_to_disk(rt: HostRuntime) -> Result<(), Fail> {
    let script = "\
600 500 1 1 the journal by hand
admit:0:1.0:250:disk=in pin:0:1.0=hit unpin:0 admit:0:2.0:200:memory=in ask:0:300=300 pin:0:1.0=copy
journal begin,0,0 admit,0,1,0,250,disk,0,0 pin,0,1,0,resident unpin,0,1,0 \
    admit,0,2,0,200,memory,150,0 evict,0,1,0,250,disk attempt,0,0,300,250,1,300 pin,0,1,0,copy
blocks 2.0:200
files 1 1
storage 200";
    check(&rt, rt.alloc(), script)
}

// Checks each script of a table, which has so many.
fn check_all(rt: &impl Abort, alloc: Global, table: &str, scripts: u32) -> Result<(), Fail> {
    let mut count = 0u32;
    for script in table.split("\n\n") {
        check(rt, alloc, script)?;
        count = count.wrapping_add(1);
    }
    counts(rt, count, scripts);
    Ok(())
}

// The same of scripts that have answers alone.
fn check_asks(rt: &impl Abort, alloc: Global, table: &str, scripts: u32) -> Result<(), Fail> {
    let mut count = 0u32;
    for script in table.split("\n\n") {
        check_answers(rt, alloc, script)?;
        count = count.wrapping_add(1);
    }
    counts(rt, count, scripts);
    Ok(())
}

// Plays a script, and compares its answers.
fn check_answers(rt: &impl Abort, alloc: Global, script: &str) -> Result<(), Fail> {
    let (sizes, steps) = cut(script, '\n');
    let told = play_script(alloc, sizes, &[], steps)?;
    reads(rt, told.answers.as_str(), steps, sizes);
    Ok(())
}

// Plays the script where this call of the disk fails, and compares its answers and what is left with those of a line.
fn check_fault(rt: &impl Abort, alloc: Global, call: u64, fault: &str) -> Result<(), Fail> {
    let (sizes, script) = cut(SCRIPT, '\n');
    let (steps, _) = cut(script, '\n');
    let wanted = with_fault(alloc, fault)?;
    let told = play_script(alloc, sizes, &[call], steps)?;
    reads(rt, told.answers.as_str(), wanted.answers.as_str(), fault);
    reads(rt, told.left.as_str(), wanted.left.as_str(), fault);
    Ok(())
}

// The script's answers and what is left with the fault of a line.
fn with_fault(alloc: Global, fault: &str) -> Result<Told, Fail> {
    let (_, script) = cut(SCRIPT, '\n');
    let (steps, left) = cut(script, '\n');
    let (missed, rest) = cut(fault, ';');
    let (gone, files) = cut(rest, ';');
    let answers = with_misses(alloc, steps, missed)?;
    let left = with_faults(alloc, left, missed, gone, files)?;
    Ok(Told { answers, left })
}

// Plays a script, and compares its answers and what is left after it. A copy that it reads has the rows of the block.
fn check(rt: &impl Abort, alloc: Global, script: &str) -> Result<(), Fail> {
    let (sizes, rest) = cut(script, '\n');
    let (steps, left) = cut(rest, '\n');
    let told = play_script(alloc, sizes, &[], steps)?;
    reads(rt, told.left.as_str(), left, sizes);
    reads(rt, told.answers.as_str(), steps, sizes);
    Ok(())
}

// The steps with their answers where these copies, counted from 0, aren't read.
fn with_misses(alloc: Global, steps: &str, missed: &str) -> Result<String, Fail> {
    let mut answers = String::new(alloc);
    let mut copy = 0u32;
    for word in steps.split_whitespace() {
        let (step, answer) = cut(word, '=');
        let is_copy = answer == "copy";
        if is_copy && has(missed, copy) {
            put_word(&mut answers, step, "=miss")?;
        } else {
            put_word(&mut answers, word, "")?;
        }
        copy = copy.wrapping_add(u32::from(is_copy));
    }
    Ok(answers)
}

// Adds a word with this end, behind a space where a word is there.
fn put_word(text: &mut String, word: &str, end: &str) -> Result<(), Fail> {
    text.push_str(if text.is_empty() { "" } else { " " })?;
    text.push_str(word)?;
    Ok(text.push_str(end)?)
}

// What is left where these copies aren't read and these evictions leave none, both counted from 0, with these files.
fn with_faults(
    alloc: Global,
    left: &str,
    missed: &str,
    gone: &str,
    files: &str,
) -> Result<String, Fail> {
    let (journal, rest) = cut(left, '\n');
    let (blocks, rest) = cut(rest, '\n');
    let (_, storage) = cut(rest, '\n');
    let journal = with_gone(alloc, journal, missed, gone)?;
    let files = files.trim_start();
    Ok(format!(in alloc; "{journal}\n{blocks}\n{files}\n{storage}")?)
}

// The journal where these copies aren't read, and these evictions leave none.
fn with_gone(alloc: Global, journal: &str, missed: &str, gone: &str) -> Result<String, Fail> {
    let mut text = String::new(alloc);
    let mut copy = 0u32;
    let mut eviction = 0u32;
    for word in journal.split_whitespace() {
        if word.starts_with("evict,") {
            put_evicted(&mut text, word, has(gone, eviction))?;
            eviction = eviction.wrapping_add(1);
        } else if word.starts_with("pin,") && word.ends_with(",copy") {
            if !has(missed, copy) {
                put_word(&mut text, word, "")?;
            }
            copy = copy.wrapping_add(1);
        } else {
            put_word(&mut text, word, "")?;
        }
    }
    Ok(text)
}

// Adds an eviction, which may leave no copy.
fn put_evicted(text: &mut String, word: &str, is_gone: bool) -> Result<(), Fail> {
    if !is_gone {
        return put_word(text, word, "");
    }
    let (front, _) = word.rsplit_once(',').unwrap_or((word, ""));
    put_word(text, front, ",gone")
}

// Whether the number is one of the list's words.
fn has(list: &str, number: u32) -> bool {
    let mut found = false;
    for word in list.split_whitespace() {
        if let Ok(other) = word.parse::<u32>() {
            found = found || other == number;
        }
    }
    found
}
