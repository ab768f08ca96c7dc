// Rows by a pin, by a copy, or computed.
ghost use Rattle.std.specs.Prelude.{◌≡◌, IfOk};

use crate::tests::playing::{Case, play};
use pool_ledger::Setup;
use std::alloc::Global;
use std::marker::Brand;
use std::process::Abort;
use std::sync::Wait;
use std::test::*;

// Dataset 1 is kept on disk, 2 of it in memory; 3 is all of 1 and isn't kept, and nor is 4, which is of 3. Dataset 5 is kept
// and has no row.
pub const JOB: &str = "\
    let low = input where n < 6 keep disk; let marked = low where t = 'a' keep memory; \
    let all = low; let least = all where n < 2; let none = input where n < 0 keep disk; \
    group t: count from marked; group t: count from least; group t: count from none";

pub const PARTS: [&str; 2] = ["1,a 5,b 3,a 9,b", "7,a 2,b"];

// A pool of so many bytes. Blocks keep three quarters of them from tasks.
pub fn setup_of(bytes: u32) -> Result<Setup, Fail>
    ensures workers { IfOk result (λ setup. setup.workers ≡ 1) }
{
    Ok(Setup::of(u64::from(bytes).max(1), 0, 1000, 750, 1)?)
}

// Takes steps in a pool, and compares what was handed out and the journal.
fn hands<R: Wait + Abort>(
    rt: &R,
    alloc: Global,
    bytes: u32,
    steps: &[&str],
    notes: &str,
    entries: &str,
) -> Result<(), Fail> {
    let case = Case {
        job: JOB,
        parts: &PARTS,
        store_fails: &[],
        fails: &[],
        steps,
    };
    let played = play::<Brand, _>(rt, alloc, setup_of(bytes)?, &case)?;
    assert_eq!(rt; played.notes.as_str(), notes);
    assert_eq!(rt; played.entries.as_str(), entries);
    assert_eq!(rt; played.store_faults, 0);
    Ok(())
}

#[test]
fn a_kept_dataset_is_computed_and_then_pinned(rt: HostRuntime) -> Result<(), Fail> {
    let steps = ["hand:1.0", "hand:1.0", "hand:1.1"];
    let notes = " own 1,1,a 2,5,b 3,3,a pinned 1,1,a 2,5,b 3,3,a own 6,2,b";
    let entries = " admit,1,0 pin,1,0 unpin,1,0 admit,1,1";
    hands(&rt, rt.alloc(), 4000, &steps, notes, entries)
}

// A block has 64 bytes, and 54 for each row: those of datasets 1 and 2 have 226 and 172 of 400. An ask takes back what is
// beyond 300, and so the one goes that was used first, with all its bytes.
#[test]
fn an_evicted_block_is_read_back_and_kept(rt: HostRuntime) -> Result<(), Fail> {
    let steps = ["hand:1.0", "hand:2.0", "ask:400", "hand:1.0", "hand:1.0"];
    let notes = " own 1,1,a 2,5,b 3,3,a own 1,1,a 3,3,a 228 own 1,1,a 2,5,b 3,3,a \
        pinned 1,1,a 2,5,b 3,3,a";
    let entries = " admit,1,0 pin,1,0 unpin,1,0 admit,2,0 written,1,0 ask copy,1,0 admit,1,0 \
        pin,1,0 unpin,1,0";
    hands(&rt, rt.alloc(), 400, &steps, notes, entries)
}

#[test]
fn a_dropped_block_is_computed_again(rt: HostRuntime) -> Result<(), Fail> {
    let steps = ["hand:2.0", "hand:1.0", "ask:400", "hand:2.0"];
    let notes = " own 1,1,a 3,3,a pinned 1,1,a 2,5,b 3,3,a 174 own 1,1,a 3,3,a";
    let entries = " admit,1,0 admit,2,0 pin,1,0 unpin,1,0 gone,2,0 ask pin,1,0 unpin,1,0 admit,2,0";
    hands(&rt, rt.alloc(), 400, &steps, notes, entries)
}

#[test]
fn a_parent_is_unpinned_before_its_child_is_kept(rt: HostRuntime) -> Result<(), Fail> {
    let steps = ["hand:1.0", "hand:2.0", "hand:2.0"];
    let notes = " own 1,1,a 2,5,b 3,3,a own 1,1,a 3,3,a pinned 1,1,a 3,3,a";
    let entries = " admit,1,0 pin,1,0 unpin,1,0 admit,2,0 pin,2,0 unpin,2,0";
    hands(&rt, rt.alloc(), 4000, &steps, notes, entries)
}

#[test]
fn a_dataset_that_isnt_kept_is_always_computed(rt: HostRuntime) -> Result<(), Fail> {
    let steps = ["hand:3.0", "hand:4.0", "hand:4.0"];
    let notes = " own 1,1,a 2,5,b 3,3,a own 1,1,a own 1,1,a";
    let entries = " admit,1,0 pin,1,0 unpin,1,0 pin,1,0 unpin,1,0";
    hands(&rt, rt.alloc(), 4000, &steps, notes, entries)
}

#[test]
fn a_block_without_rows_is_kept_and_pinned(rt: HostRuntime) -> Result<(), Fail> {
    let steps = ["hand:5.1", "hand:5.1"];
    hands(
        &rt,
        rt.alloc(),
        4000,
        &steps,
        " own pinned",
        " admit,5,1 pin,5,1 unpin,5,1",
    )
}

#[test]
fn the_input_is_read_as_it_landed(rt: HostRuntime) -> Result<(), Fail> {
    let steps = ["hand:0.0", "hand:0.1"];
    let notes = " own 1,1,a 2,5,b 3,3,a 4,9,b own 5,7,a 6,2,b";
    hands(&rt, rt.alloc(), 4000, &steps, notes, "")
}

// Blocks of more than 75 bytes are refused.
#[test]
fn a_refused_block_is_computed_each_time(rt: HostRuntime) -> Result<(), Fail> {
    let steps = ["hand:1.0", "hand:1.0"];
    let notes = " own 1,1,a 2,5,b 3,3,a own 1,1,a 2,5,b 3,3,a";
    hands(
        &rt,
        rt.alloc(),
        100,
        &steps,
        notes,
        " refused,1,0 refused,1,0",
    )
}

// The block has the numbers of partition 0.
#[test]
fn a_block_of_another_partition_isnt_used(rt: HostRuntime) -> Result<(), Fail> {
    let steps = ["forge:1.1", "hand:1.1"];
    let entries = " admit,1,1 pin,1,1 unpin,1,1";
    hands(&rt, rt.alloc(), 4000, &steps, " own 6,2,b", entries)
}
