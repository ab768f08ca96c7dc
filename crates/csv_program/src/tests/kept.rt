// Jobs that keep datasets: their tables, and what their journals have of blocks.
ghost use Rattle.std.specs.Prelude.{IfOk, map};
ghost use Rattle.task_runner.specs.Consumers.{HasConsumers};
ghost use Rattle.csv_program.specs.QueryConsumers.{state_in};

use crate::consumers::{QueryConsumer, make_consumers};
use crate::tests::records::is_legal;
use crate::tests::running::{Call, Ran, answer, call_of, generated, run_with};
use crate::top::run;
use byte_io::{MemorySink, MemorySource};
use pool_ledger::{Entry, Event, Fate};
use spill_disk::VeilDisk;
use std::alloc::{AllocError, Global};
use std::sync::Wait;
use std::test::Fail;
use std::thread::Threads;
use task_runner::{NoGate, Post};

const ORDERS: &[u8] =
    b"order_id,region,amount\r\n1001,North,250\r\n1002,South,-40\r\n1003,North,75\r\n1004,\"East, upper\",75\r\n";

// Three datasets, of which two are kept, at both levels, and four queries over three of the four.
const JOB: &str = "let pos = input where price >= 0 keep disk; \
    let high = pos where price >= 500 keep memory; let top = high where price >= 900; \
    group k: count, sum price from pos; order number price down: k, price from top; \
    group k: min price, max price from high; order k: price from high";

// The same, but that none is kept.
const UNKEPT: &str = "let pos = input where price >= 0; \
    let high = pos where price >= 500; let top = high where price >= 900; \
    group k: count, sum price from pos; order number price down: k, price from top; \
    group k: min price, max price from high; order k: price from high";

// How often a journal has events of each kind.
#[derive(Clone, Copy, Debug, PartialEq, Eq)]
struct Blocks {
    admitted: u64,
    refused: u64,
    pinned: u64,
    read_back: u64,
    written: u64,
    dropped: u64,
    removed: u64,
}

fn blocks_in(entries: &[Entry]) -> Blocks {
    let mut seen = Blocks {
        admitted: 0,
        refused: 0,
        pinned: 0,
        read_back: 0,
        written: 0,
        dropped: 0,
        removed: 0,
    };
    for entry in entries {
        let count = match entry.event {
            Event::Admit { .. } => &mut seen.admitted,
            Event::Refused { .. } => &mut seen.refused,
            Event::Pin { copy: false, .. } => &mut seen.pinned,
            Event::Pin { copy: true, .. } => &mut seen.read_back,
            Event::Evict {
                fate: Fate::Disk,
                ..
            } => &mut seen.written,
            Event::Evict { .. } => &mut seen.dropped,
            Event::Remove { .. } => &mut seen.removed,
            _ => continue,
        };
        *count = count.wrapping_add(1);
    }
    seen
}

// The words of a job in a pool of so many workers that is all of a heap of so many bytes, in partitions of so many rows.
fn words_of<'a>(workers: &'a str, heap: &'a str, part_rows: &'a str, job: &'a str) -> [&'a str; 8] {
    [
        "run",
        workers,
        "--reserved=0",
        "--fraction=1000",
        part_rows,
        "--journal",
        heap,
        job,
    ]
}

fn run_in<X: Threads + Wait + Sync>(
    rt: &X,
    alloc: Global,
    words: &[&str],
    input: &[u8],
    store: &[u64],
) -> Result<Ran, AllocError> {
    let call = Call {
        store,
        ..call_of(words, input)
    };
    run_with(rt, alloc, 4, call)
}

// What a journal has where each of so many blocks is admitted once, pinned in later passes so often, and removed.
fn kept_all(blocks: u64, pinned: u64) -> Blocks {
    Blocks {
        admitted: blocks,
        pinned,
        removed: blocks,
        ..blocks_in(&[])
    }
}

#[test]
fn a_kept_dataset_is_cached_in_its_one_pass(rt: HostRuntime) -> Result<(), Fail> {
    let alloc = rt.alloc();
    let job = "let paid = input where amount > 0 keep memory; \
        group region: count, sum amount, max amount from paid; \
        order number amount down: order_id, amount from paid";
    let ran = run_with(&rt, alloc, 4, call_of(&["run", job], ORDERS))?;
    let found = answer(alloc, &ran.outcome.status, &ran.written)?;
    let wanted =
        "0 |region,count,sum_amount,max_amount\n\"East, upper\",1,75,75\nNorth,2,325,250\n\norder_id,amount\n1001,250\n1003,75\n1004,75\n";
    assert_eq!(rt; found.as_str(), wanted);
    let seen = blocks_in(ran.outcome.journal.entries());
    assert_eq!(rt; seen, kept_all(1, 0));
    Ok(())
}

// With ample room each partition of a kept dataset is computed once, and a later pass pins it.
#[test]
fn later_passes_pin_what_was_cached(rt: HostRuntime) -> Result<(), Fail> {
    let alloc = rt.alloc();
    let input = generated(alloc, 1_000)?;
    let words = words_of("--workers=4", "--heap=1000000000", "--part-rows=100", JOB);
    let ran = run_in(&rt, alloc, &words, &input, &[])?;
    assert!(rt; ran.outcome.status.number() == 0 && is_legal(alloc, &ran)?);
    let seen = blocks_in(ran.outcome.journal.entries());
    assert_eq!(rt; seen, kept_all(20, 20));
    Ok(())
}

#[test]
fn pools_agree_whatever_they_evict(rt: HostRuntime) -> Result<(), Fail> {
    let alloc = rt.alloc();
    let input = generated(alloc, 100_000)?;
    let plain = words_of(
        "--workers=1",
        "--heap=1000000000",
        "--part-rows=1000",
        UNKEPT,
    );
    let wanted = run_in(&rt, alloc, &plain, &input, &[])?;
    assert_eq!(rt; wanted.outcome.status.number(), 0);
    let mut all = blocks_in(&[]);
    for workers in ["--workers=1", "--workers=4"] {
        for heap in [
            "--heap=200000",
            "--heap=700000",
            "--heap=2000000",
            "--heap=6000000",
        ] {
            let words = words_of(workers, heap, "--part-rows=1000", JOB);
            let ran = run_in(&rt, alloc, &words, &input, &[])?;
            assert!(rt; agrees(alloc, &ran, &wanted)?, "{workers} {heap}");
            let seen = blocks_in(ran.outcome.journal.entries());
            all = added(all, seen);
        }
    }
    // Nothing that can happen to a block was left out.
    assert!(rt; has_each(all), "{all:?}");
    Ok(())
}

// Whether a run has the tables of another one and a legal journal.
fn agrees(alloc: Global, ran: &Ran, wanted: &Ran) -> Result<bool, AllocError> {
    let same = ran.outcome.status.number() == 0
        && ran.written.as_slice() == wanted.written.as_slice();
    Ok(same && is_legal(alloc, ran)?)
}

fn added(one: Blocks, other: Blocks) -> Blocks {
    Blocks {
        admitted: one.admitted.wrapping_add(other.admitted),
        refused: one.refused.wrapping_add(other.refused),
        pinned: one.pinned.wrapping_add(other.pinned),
        read_back: one.read_back.wrapping_add(other.read_back),
        written: one.written.wrapping_add(other.written),
        dropped: one.dropped.wrapping_add(other.dropped),
        removed: one.removed.wrapping_add(other.removed),
    }
}

fn has_each(all: Blocks) -> bool {
    let kept = all.admitted > 0 && all.refused > 0 && all.pinned > 0 && all.read_back > 0;
    kept && all.written > 0 && all.dropped > 0 && all.removed > 0
}

// A pool that is too small tells it, and prints nothing.
#[test]
fn a_pool_that_is_too_small_is_told(rt: HostRuntime) -> Result<(), Fail> {
    let alloc = rt.alloc();
    let input = generated(alloc, 2_000)?;
    let words = words_of("--workers=1", "--heap=400", "--part-rows=100", JOB);
    let ran = run_in(&rt, alloc, &words, &input, &[])?;
    assert_eq!(rt; ran.outcome.status.number(), 12);
    assert!(rt; ran.written.is_empty());
    Ok(())
}

// Each call of the store disk fails in turn, and then all: the tables are the same. A block that is written takes a call that makes
// its file and one that adds its bytes, and its removal one more.
#[test]
fn a_failing_store_disk_changes_no_table(rt: HostRuntime) -> Result<(), Fail> {
    let alloc = rt.alloc();
    let input = generated(alloc, 3_000)?;
    let words = words_of("--workers=1", "--heap=40000", "--part-rows=100", JOB);
    let wanted = run_in(&rt, alloc, &words, &input, &[])?;
    assert_eq!(rt; wanted.outcome.status.number(), 0);
    let seen = blocks_in(wanted.outcome.journal.entries());
    assert!(rt; seen.written > 0 && seen.read_back > 0, "{seen:?}");
    let calls = seen
        .written
        .saturating_mul(3)
        .saturating_add(seen.read_back);
    let mut fails = Vec::new(alloc);
    for call in 0..calls {
        let ran = run_in(&rt, alloc, &words, &input, &[call])?;
        assert!(rt; agrees(alloc, &ran, &wanted)?, "{call}");
        fails.push(call)?;
    }
    let ran = run_in(&rt, alloc, &words, &input, &fails)?;
    assert!(rt; agrees(alloc, &ran, &wanted)?);
    Ok(())
}

// A post with a disk that tells nothing.
fn silent_post(alloc: Global) -> Result<Post<VeilDisk, QueryConsumer>, AllocError>
    ensures { IfOk result (λ post. HasConsumers (map state_in post.consumers.items)) }
{
    Ok(Post {
        disk: VeilDisk::new(alloc, Vec::new(alloc), Vec::new(alloc)),
        consumers: make_consumers(alloc)?,
    })
}

// A disk that tells nothing, and of each of the first files hides so many last bytes.
fn cut_store(alloc: Global, hidden: u64) -> Result<VeilDisk, AllocError> {
    let mut short = Vec::new(alloc);
    for file in 0..40 {
        short.push((file, hidden))?;
    }
    Ok(VeilDisk::new(alloc, Vec::new(alloc), short))
}

// The table of a run with one worker on disks that tell nothing, where of each of the first copies the last bytes are hidden.
fn run_cut<X: Threads + Wait + Sync>(
    rt: &X,
    alloc: Global,
    words: &[&str],
    input: &[u8],
    hidden: u64,
) -> Result<Vec<u8>, AllocError> {
    let mut source = MemorySource::new(input.to_vec(alloc)?, Vec::new(alloc));
    let mut sink = MemorySink::new(alloc, Vec::new(alloc));
    let mut journal = MemorySink::new(alloc, Vec::new(alloc));
    let mut posts = Vec::new(alloc);
    posts.push(silent_post(alloc)?)?;
    let store = cut_store(alloc, hidden)?;
    run(
        rt,
        alloc,
        words,
        &mut source,
        &mut sink,
        &mut journal,
        &mut posts,
        store,
        &NoGate,
    );
    sink.bytes().to_vec(alloc)
}

#[test]
fn copies_that_were_cut_change_no_table(rt: HostRuntime) -> Result<(), Fail> {
    let alloc = rt.alloc();
    let input = generated(alloc, 3_000)?;
    let words = words_of("--workers=1", "--heap=40000", "--part-rows=100", JOB);
    let wanted = run_in(&rt, alloc, &words, &input, &[])?;
    for hidden in [0, 1, 40, 100_000] {
        let written = run_cut(&rt, alloc, &words, &input, hidden)?;
        assert!(rt; written.as_slice() == wanted.written.as_slice(), "{hidden}");
    }
    Ok(())
}
