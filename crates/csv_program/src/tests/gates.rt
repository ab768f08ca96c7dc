// Tasks that are held where they start: the workers of a pass are there at the same time, and no delay changes a table.
use crate::tests::records::is_legal;
use crate::tests::running::{BOTH, cities, run_through};
use std::alloc::{AllocError, Global};
use std::sync::Wait;
use std::sync::atomic::{AtomicU64, Ordering};
use std::test::*;
use std::thread::Threads;
use task_runner::{Gate, Place};

const TABLE: &[u8] = b"city,count,sum_price\nBergen,1,4\nOslo,2,8\n";

// Holds worker 0 behind the first start of its memory until worker 1 was there, for at most so many turns.
#[derive(Drop)]
struct Meeting {
    held: AtomicU64,
    came: AtomicU64,
    given_up: AtomicU64,
}

const TURNS: u64 = 1_000_000_000;

impl Meeting {
    fn wait(&self) {
        for _ in 0..TURNS {
            if self.came.load(Ordering::SeqCst) == 1 {
                return;
            }
        }
        self.given_up.store(1, Ordering::SeqCst);
    }
}

impl Gate for Meeting {
    fn at(&self, worker: u32, _task: u32, place: Place) {
        if place == Place::Before {
            return;
        }
        if worker == 1 {
            self.came.store(1, Ordering::SeqCst);
        }
        if worker == 0 && self.held.swap(1, Ordering::SeqCst) == 0 {
            self.wait();
        }
    }
}

// Whether a run of two workers through a gate has the table.
fn has_table<X: Threads + Wait + Sync>(
    rt: &X,
    alloc: Global,
    gate: &Meeting,
) -> Result<bool, AllocError> {
    let words = ["run", "--workers", "2", "--part-rows", "2", BOTH];
    let ran = run_through(rt, alloc, 2, cities(&words), gate)?;
    Ok(ran.outcome.status.number() == 0 && ran.written.as_slice() == TABLE)
}

// Workers that run one after another reach the limit.
#[test]
fn two_workers_are_in_their_tasks_at_the_same_time(rt: HostRuntime) -> Result<(), Fail> {
    let alloc = rt.alloc();
    let gate = Meeting {
        held: AtomicU64::new(0),
        came: AtomicU64::new(0),
        given_up: AtomicU64::new(0),
    };
    assert!(rt; has_table(&rt, alloc, &gate)?);
    assert_eq!(rt; gate.given_up.load(Ordering::SeqCst), 0);
    Ok(())
}

// Delays each task at each place by a number of turns that is drawn from a seed.
#[derive(Drop)]
struct Delays {
    seed: u64,
    turns: AtomicU64,
}

impl Gate for Delays {
    fn at(&self, worker: u32, task: u32, place: Place) {
        let at = if place == Place::Before { 1 } else { 2 };
        let drawn = self
            .seed
            .wrapping_add((worker as u64).wrapping_mul(7))
            .wrapping_add((task as u64).wrapping_mul(31))
            .wrapping_add(at)
            .wrapping_mul(6364136223846793005);
        for _ in 0..(drawn >> 40) % 3000 {
            self.turns.fetch_add(1, Ordering::SeqCst);
        }
    }
}

// Whether a run with delays drawn from a seed has the table and a legal journal.
fn is_as_ever<X: Threads + Wait + Sync>(
    rt: &X,
    alloc: Global,
    words: &[&str],
    seed: u64,
) -> Result<bool, AllocError> {
    let gate = Delays {
        seed,
        turns: AtomicU64::new(0),
    };
    let ran = run_through(rt, alloc, 2, cities(words), &gate)?;
    Ok(ran.written.as_slice() == TABLE && is_legal(alloc, &ran)?)
}

// In a pool of 9,000 bytes, of which the first task that asks gets all, the other waits, whichever it is.
#[test]
fn delays_change_no_table(rt: HostRuntime) -> Result<(), Fail> {
    let alloc = rt.alloc();
    let words = [
        "run",
        "--journal",
        "--workers=2",
        "--part-rows=1",
        "--reserved=0",
        "--fraction=1000",
        "--storage=0",
        "--heap=9000",
        BOTH,
    ];
    for seed in 0..1000 {
        assert!(rt; is_as_ever(&rt, alloc, &words, seed)?, "{seed}");
    }
    Ok(())
}
