//! The two workers, each in a thread of its own where they work at once.

ghost use Rattle.std.specs.Prelude.{◌≡◌, ◌≤◌, ◌^◌, ℕ, [], ◌∷◌, Some, length, IfOk};
ghost use Rattle.std.specs.Arc.{arc_value};
ghost use Rattle.memory_lock.specs.Crew.{AreNew, AreWorkers};
ghost use Rattle.memory_lock.specs.Workers.{SeesMore};

use crate::blocks::{block_of, cache};
use block_store::Block;
use memory_lock::{Basis, Manager, Worker};
use spill_disk::MemoryDisk;
use std::alloc::{AllocError, Global};
use std::io;
use std::marker::{Send, Sync};
use std::sync::{Arc, Wait};
use std::thread::{Threads, join};

/// Has the one worker cache blocks, and reads the pinned one while the other's task asks; then has it cache
/// what was made of that block. Both workers come back.
pub fn run_both<B: Basis + Send + Sync, R: Threads + Wait + AllocGlobal + Sync>(
    rt: &R,
    pool: &Manager<MemoryDisk, B>,
    workers: Vec<Worker<B>>,
    field: &[u8],
) -> io::Result<Vec<Worker<B>>>
    requires workers { AreWorkers pool.now B.sizes.workers workers.items }
    requires fresh { AreNew workers.items }
    requires two { B.sizes.workers ≡ 2 }
    requires owner { B.owner 7 ≡ Some 1 }
    requires short { length field.now ≤ 1000 }
    requires rows { (dataset part : ℕ) → B.rows dataset part ≡ Some ((field.now ∷ []) ∷ []) }
    ensures { IfOk result (λ back. AreWorkers pool.now B.sizes.workers back.items) }
{
    let (mut one, other) = two_of(workers);
    let pinned = cache(rt, pool, &mut one, field)?;
    let (other, copy) = ask_meanwhile(rt, pool, other, pinned.page.row(0).field(0));
    pool.unpin(rt, &mut one, 1, 0);
    pool.admit(rt, &mut one, copy?)?;
    let other = other?;
    // For the proof: that a worker rests is known with its number.
    let _numbers = (one.number(), other.number());
    Ok(vec![in rt.alloc(); one, other]?)
}

// The workers of a manager that has two.
fn two_of<B: Basis>(mut workers: Vec<Worker<B>>) -> (Worker<B>, Worker<B>)
    requires two { length workers.items ≡ 2 }
    ensures { workers.items ≡ result.0 ∷ result.1 ∷ [] }
{
    let Some(other) = workers.pop() else {
        unreachable!()
    };
    let Some(one) = workers.pop() else {
        unreachable!()
    };
    (one, other)
}

// Makes block 2.0 of this field, which the pinned block has, while the worker's task 7 asks for 400 bytes.
fn ask_meanwhile<B: Basis + Send + Sync, R: Threads + Wait + AllocGlobal + Sync>(
    rt: &R,
    pool: &Manager<MemoryDisk, B>,
    worker: Worker<B>,
    field: &[u8],
) -> (
    Result<Worker<B>, AllocError>,
    Result<Arc<Block, Global>, AllocError>,
)
    requires pool { worker.lock ≡ pool.now }
    requires fresh { worker.seen ≡ [] }
    requires owner { B.owner 7 ≡ Some worker.number }
    requires short { length field.now ≤ 1000 }
    ensures worker { IfOk result.0 (SeesMore worker) }
    ensures block { IfOk result.1 (λ block. (arc_value block).page.rows ≡ (field.now ∷ []) ∷ []) }
{
    join(
        rt,
        || ask(rt, pool, worker, 7, 400),
        || block_of(rt, 2, 0, field),
    )
}

// Begins a worker's task, asks for bytes and ends it.
fn ask<B: Basis, R: Wait>(
    rt: &R,
    pool: &Manager<MemoryDisk, B>,
    mut worker: Worker<B>,
    number: u32,
    bytes: u64,
) -> Result<Worker<B>, AllocError>
    requires pool { worker.lock ≡ pool.now }
    requires fresh { worker.seen ≡ [] }
    requires owner { B.owner number ≡ Some worker.number }
    requires some_asked { 1 ≤ bytes }
    requires few_asked { bytes ≤ 2 ^ 50 }
    ensures { IfOk result (SeesMore worker) }
{
    let task = pool.begin(rt, &mut worker, number)?;
    let granted = pool.acquire(rt, &mut worker, &task, bytes);
    let _freed = pool.end(rt, &mut worker, task);
    granted?;
    Ok(worker)
}
