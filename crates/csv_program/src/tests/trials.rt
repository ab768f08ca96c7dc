// Trials: their lines in large and small pools, on disks that fail, and what words are refused.
use crate::tests::running::{posts_of, told};
use crate::trial::trial;
use byte_io::MemorySink;
use job_ending::Outcome;
use pool_ledger::{Event, Fate};
use spill_disk::MemoryDisk;
use std::alloc::{AllocError, Global};
use std::sync::Wait;
use std::test::Fail;
use std::thread::Threads;
use task_runner::NoGate;

// What a trial left, what it wrote, and how many files post 0's disk made.
#[derive(Drop)]
struct Tried {
    outcome: Outcome,
    written: Vec<u8>,
    files: u64,
}

// The words, and the calls of the output, of post 0's disk and of the store disk that fail.
#[derive(Clone, Copy)]
struct Trial<'a> {
    words: &'a [&'a str],
    writes: &'a [u64],
    disk: &'a [u64],
    store: &'a [u64],
}

fn trial_of<'a>(words: &'a [&'a str]) -> Trial<'a> {
    Trial {
        words,
        writes: &[],
        disk: &[],
        store: &[],
    }
}

fn try_on<X: Threads + Wait + Sync>(
    rt: &X,
    alloc: Global,
    call: Trial<'_>,
) -> Result<Tried, AllocError> {
    let mut sink = MemorySink::new(alloc, call.writes.to_vec(alloc)?);
    let mut posts = posts_of(alloc, 4, call.disk)?;
    let store = MemoryDisk::new(alloc, call.store.to_vec(alloc)?);
    let outcome = trial(rt, alloc, call.words, &mut sink, &mut posts, store, &NoGate);
    let files = match posts.first() {
        Some(post) => post.disk.created(),
        None => 0,
    };
    Ok(Tried {
        outcome,
        written: sink.bytes().to_vec(alloc)?,
        files,
    })
}

// The status and the lines.
fn ended(alloc: Global, tried: &Tried) -> Result<String, Fail> {
    let status = told(alloc, &tried.outcome.status)?;
    let mut text = String::new(alloc);
    text.push_str(status.as_str())?;
    text.push_str("|")?;
    text.push_str(str::from_utf8(&tried.written)?)?;
    Ok(text)
}

// How many blocks were evicted with a copy, how many without one, and how many of these behind one with a copy.
fn evicted(tried: &Tried) -> (u64, u64, u64) {
    let mut copied: u64 = 0;
    let mut gone: u64 = 0;
    let mut late: u64 = 0;
    for entry in tried.outcome.journal.entries() {
        match entry.event {
            Event::Evict {
                fate: Fate::Disk,
                ..
            } => copied = copied.wrapping_add(1),
            Event::Evict { .. } => {
                gone = gone.wrapping_add(1);
                if copied > 0 {
                    late = late.wrapping_add(1);
                }
            }
            _ => {}
        }
    }
    (copied, gone, late)
}

const LARGE: [&str; 6] = [
    "trial",
    "--workers=1",
    "--reserved=0",
    "--fraction=1000",
    "--heap=67108864",
    "10000",
];

const SMALL: [&str; 6] = [
    "trial",
    "--workers=1",
    "--reserved=0",
    "--fraction=1000",
    "--heap=5408",
    "10000",
];

const SHARED: [&str; 7] = [
    "trial",
    "--workers=4",
    "--part-rows=50",
    "--reserved=0",
    "--fraction=1000",
    "--heap=21632",
    "10000",
];

// Worked out by another program.
const LINES: &str = "0 |rows 10000\ngroups 1000\ncounted 4906\n";

#[test]
fn a_trial_prints_the_same_in_each_pool(rt: HostRuntime) -> Result<(), Fail> {
    let alloc = rt.alloc();
    let large = try_on(&rt, alloc, trial_of(&LARGE))?;
    assert_eq!(rt; ended(alloc, &large)?.as_str(), LINES);
    let small = try_on(&rt, alloc, trial_of(&SMALL))?;
    assert_eq!(rt; ended(alloc, &small)?.as_str(), LINES);
    assert!(rt; large.files < small.files);
    let shared = try_on(&rt, alloc, trial_of(&SHARED))?;
    assert_eq!(rt; ended(alloc, &shared)?.as_str(), LINES);
    Ok(())
}

const CACHED: [&str; 7] = [
    "trial",
    "--workers=1",
    "--part-rows=50",
    "--reserved=0",
    "--fraction=1000",
    "--heap=5408",
    "1000",
];

// The first 100 calls of the store disk fail: at first blocks are dropped without a copy, and none is behind one that has a copy.
#[test]
fn a_failing_store_disk_changes_no_line(rt: HostRuntime) -> Result<(), Fail> {
    let alloc = rt.alloc();
    let kept = try_on(&rt, alloc, trial_of(&CACHED))?;
    let (copied, gone, _) = evicted(&kept);
    assert!(rt; copied > 0);
    assert_eq!(rt; gone, 0);
    let mut fails = Vec::new(alloc);
    for call in 0..100 {
        fails.push(call)?;
    }
    let call = Trial {
        store: &fails,
        ..trial_of(&CACHED)
    };
    let failed = try_on(&rt, alloc, call)?;
    assert_eq!(rt;
        ended(alloc, &failed)?.as_str(),
        ended(alloc, &kept)?.as_str()
    );
    let (_, gone, late) = evicted(&failed);
    assert!(rt; gone > 0);
    assert_eq!(rt; late, 0);
    Ok(())
}

// Words, and how the trial of them ends.
const ENDS: [(&str, &str); 7] = [
    ("1", "0 |rows 1\ngroups 1\ncounted 0\n"),
    ("", "2 "),
    ("0", "2 "),
    ("1000001", "2 "),
    ("--journal 5", "2 "),
    ("--workers=5 5", "2 "),
    ("--heap=1 5", "4 "),
];

#[test]
fn words_are_told(rt: HostRuntime) -> Result<(), Fail> {
    let alloc = rt.alloc();
    for (said, wanted) in ENDS {
        let mut words = Vec::new(alloc);
        words.push("trial")?;
        for word in said.split(' ') {
            if !word.is_empty() {
                words.push(word)?;
            }
        }
        let tried = try_on(&rt, alloc, trial_of(&words))?;
        assert!(rt;
            ended(alloc, &tried)?.as_str().starts_with(wanted),
            "{said}"
        );
    }
    Ok(())
}

#[test]
fn faults_are_told(rt: HostRuntime) -> Result<(), Fail> {
    let alloc = rt.alloc();
    let written = Trial {
        writes: &[0],
        ..trial_of(&LARGE)
    };
    let tried = try_on(&rt, alloc, written)?;
    assert_eq!(rt; ended(alloc, &tried)?.as_str(), "14 output failed|");
    let landed = Trial {
        disk: &[1],
        ..trial_of(&LARGE)
    };
    let tried = try_on(&rt, alloc, landed)?;
    assert_eq!(rt; ended(alloc, &tried)?.as_str(), "16 disk of post 0 failed|");
    Ok(())
}
