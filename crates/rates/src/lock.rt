//! Threads that ask one manager for memory and give it back.

ghost use Rattle.std.specs.Prelude.{◌≡◌, ℕ, None, Some, [], false};
ghost use Rattle.pool_ledger.specs.History.{was_begun};
ghost use Rattle.memory_lock.specs.Workers.{IsFree, own_of};

use crate::asked::{USAGE, number_at};
use block_store::Block;
use memory_lock::{Basis, Manager, Worker};
use pool_ledger::{Level, Setup};
use row_page::Page;
use spill_disk::MemoryDisk;
use std::alloc::{AllocError, Global};
use std::io;
use std::marker::{Brand, Send, Sync};
use std::sync::{Arc, Wait};
use std::thread::{Threads, map_vec};

// How many threads make rounds, how many rounds each of them makes, and how many blocks are in memory meanwhile.
#[derive(Clone, Copy)]
struct Wish {
    threads: u64,
    rounds: u64,
    blocks: u32,
}

// What the words ask for; without words two threads make a hundred rounds, without blocks.
fn wish_of(words: &[String]) -> Option<Wish> {
    if words.is_empty() {
        return Some(Wish {
            threads: 2,
            rounds: 100,
            blocks: 0,
        });
    }
    let threads = number_at(words, 0)?;
    let rounds = number_at(words, 1)?;
    let blocks = if words.len() > 2 {
        u32::try_from(number_at(words, 2)?).ok()?
    } else {
        0
    };
    Some(Wish {
        threads,
        rounds,
        blocks,
    })
}

/// Does what the words ask for, and prints how many rounds were made.
pub fn run<R: Threads + Wait + Sync + Print + AllocGlobal>(
    rt: &R,
    words: &[String],
) -> io::Result<()> {
    let Some(wish) = wish_of(words) else {
        return println!(rt; "{USAGE}");
    };
    let Ok(setup) = Setup::of(1 << 30, 0, 1000, 500, 16) else {
        return println!(rt; "no pool");
    };
    match serve_all::<Brand, _>(rt, rt.alloc(), setup, wish) {
        Ok(made) => println!(rt; "rounds {made}"),
        Err(_) => println!(rt; "out of memory"),
    }
}

// Starts a manager of this setup and gives each worker a thread. The first so many make the rounds; the
// answer is how many were made in all.
fn serve_all<B: Basis + Send + Sync, R: Threads + Wait + Sync>(
    rt: &R,
    alloc: Global,
    setup: Setup,
    wish: Wish,
) -> Result<u64, AllocError>
    requires basis { setup ≡ B.sizes }
    requires owner { (task : ℕ) → B.owner task ≡ Some task }
    requires rows { (dataset part : ℕ) → B.rows dataset part ≡ None }
{
    let store = MemoryDisk::new(alloc, Vec::new(alloc));
    let (manager, workers) = Manager::<MemoryDisk, B>::start(alloc, setup, store)?;
    let shared = &manager;
    let work = |worker: Worker<B>| -> u64
        requires { (worker.lock ≡ shared.now) × (worker.seen ≡ []) × (B.owner worker.number ≡ Some worker.number)
            × ((dataset part : ℕ) → B.rows dataset part ≡ None) }
    {
        let wanted = if u64::from(worker.number()) < wish.threads {
            wish.rounds
        } else {
            0
        };
        let kept = if worker.number() == 0 { wish.blocks } else { 0 };
        serve(rt, alloc, shared, worker, wanted, kept)
    };
    let made = map_vec(rt, workers, &work)?;
    let mut total = 0u64;
    for count in &made {
        total = total.saturating_add(*count);
    }
    Ok(total)
}

// Begins a task, keeps so many blocks without rows, asks for 100 bytes and gives them back in each round, and ends
// the task.
fn serve<B: Basis, R: Wait>(
    rt: &R,
    alloc: Global,
    manager: &Manager<MemoryDisk, B>,
    worker: Worker<B>,
    rounds: u64,
    blocks: u32,
) -> u64
    requires rows { (dataset part : ℕ) → B.rows dataset part ≡ None }
    requires manager { worker.lock ≡ manager.now }
    requires owner { B.owner worker.number ≡ Some worker.number }
    requires free { IsFree worker }
    requires fresh { was_begun (own_of worker) worker.number ≡ false }
{
    let mut worker = worker;
    let number = worker.number();
    let Ok(task) = manager.begin(rt, &mut worker, number) else {
        return 0;
    };
    for part in 0..blocks {
        let Ok(block) = block_of(alloc, part) else {
            break;
        };
        if manager.admit(rt, &mut worker, block).is_err() {
            break;
        }
    }
    let mut made = 0u64;
    for _ in 0..rounds {
        if manager.acquire(rt, &mut worker, &task, 100).is_err() {
            break;
        }
        if manager.release(rt, &mut worker, &task, 100).is_err() {
            break;
        }
        made = u64::saturating_add(made, 1);
    }
    let _freed = manager.end(rt, &mut worker, task);
    made
}

// A block without rows.
fn block_of(alloc: Global, part: u32) -> Result<Arc<Block, Global>, AllocError> {
    let block = Block {
        dataset: 0,
        part,
        level: Level::Memory,
        page: Page::new(alloc, 0),
    };
    Ok(Arc::new(alloc, block)?)
}
