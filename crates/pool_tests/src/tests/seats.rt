// A worker's seat, and the calls that it makes there.
ghost use Rattle.std.specs.Prelude.{◌≡◌, ◌≤◌, ◌^◌, ℕ, Some, None, IfOk};
ghost use Rattle.pool_ledger.specs.History.{grown_by, total};
ghost use Rattle.memory_lock.specs.Endings.{IsLastAnswer};
ghost use Rattle.memory_lock.specs.Workers.{KeepsTask, own_of};
ghost use Rattle.pool_tests.specs.Seats.{IsIdle, IsPlaying, IsSteady};

use crate::tests::signs::Board;
use block_store::Block;
use memory_core::{Admission, Pinned};
use memory_lock::{Basis, Manager, Task, Worker, last_attempts_are_answered};
use spill_disk::MemoryDisk;
use std::alloc::{AllocError, Global};
use std::sync::{Arc, Wait};

/// Where a worker plays, with its number.
#[derive(Drop)]
pub struct Seat<'a, B: Basis, R: Wait> {
    pub rt: &'a R,
    pub alloc: Global,
    pub manager: &'a Manager<MemoryDisk, B>,
    pub board: &'a Board,
    // How many workers the manager has.
    pub count: u64,
    pub number: u32,
    // From this number on the worker has begun no task.
    pub next: u32,
}

/// Bytes for a task. Its worker knows from what it has seen that they are the rules' answer, before the manager is closed.
pub fn acquire<B: Basis, R: Wait>(
    seat: &Seat<'_, B, R>,
    worker: &mut Worker<B>,
    task: &Task,
    asked: u64,
) -> Result<u64, AllocError>
    requires playing { IsPlaying seat.now.manager.now seat.now.count seat.now.number seat.now.next task.now worker.old }
    requires some_asked { 1 ≤ asked }
    requires few_asked { asked ≤ 2 ^ 50 }
    ensures playing { IsPlaying seat.now.manager.now seat.now.count seat.now.number seat.now.next task.now worker.new }
    ensures answers { IfOk result (λ got. IsLastAnswer B.sizes worker.old.number task.now asked (Some got) worker.new.seen) }
{
    last_attempts_are_answered();
    seat.manager.acquire(seat.rt, worker, task, asked)
}

pub fn release<B: Basis, R: Wait>(
    seat: &Seat<'_, B, R>,
    worker: &mut Worker<B>,
    task: &Task,
    bytes: u64,
) -> Result<u64, AllocError>
    requires playing { IsPlaying seat.now.manager.now seat.now.count seat.now.number seat.now.next task.now worker.old }
    ensures playing { IsPlaying seat.now.manager.now seat.now.count seat.now.number seat.now.next task.now worker.new }
{
    seat.manager.release(seat.rt, worker, task, bytes)
}

pub fn admit<B: Basis, R: Wait>(
    seat: &Seat<'_, B, R>,
    worker: &mut Worker<B>,
    block: Arc<Block, Global>,
) -> Result<Admission, AllocError>
    requires steady { IsSteady seat.now.manager.now seat.now.count seat.now.number seat.now.next worker.old }
    requires rows { (dataset part : ℕ) → B.rows dataset part ≡ None }
    ensures steady { IsSteady seat.now.manager.now seat.now.count seat.now.number seat.now.next worker.new }
    ensures task { KeepsTask worker.old worker.new }
{
    seat.manager.admit(seat.rt, worker, block)
}

/// A block with the word for where it was, which is given back.
pub fn pin<B: Basis, R: Wait>(
    seat: &Seat<'_, B, R>,
    worker: &mut Worker<B>,
    dataset: u32,
    part: u32,
) -> Result<Option<(&'static str, Arc<Block, Global>)>, AllocError>
    requires steady { IsSteady seat.now.manager.now seat.now.count seat.now.number seat.now.next worker.old }
    ensures steady { IsSteady seat.now.manager.now seat.now.count seat.now.number seat.now.next worker.new }
    ensures task { KeepsTask worker.old worker.new }
{
    match seat.manager.pin(seat.rt, worker, dataset, part)? {
        Pinned::Hit(block) => {
            seat.manager.unpin(seat.rt, worker, dataset, part);
            Ok(Some((" hit", block)))
        }
        Pinned::OnDisk(block) => Ok(Some((" copy", block))),
        Pinned::Miss => Ok(None),
    }
}

pub fn remove<B: Basis, R: Wait>(
    seat: &Seat<'_, B, R>,
    worker: &mut Worker<B>,
    dataset: u32,
) -> Result<(), AllocError>
    requires steady { IsSteady seat.now.manager.now seat.now.count seat.now.number seat.now.next worker.old }
    ensures steady { IsSteady seat.now.manager.now seat.now.count seat.now.number seat.now.next worker.new }
    ensures task { KeepsTask worker.old worker.new }
{
    seat.manager.remove(seat.rt, worker, dataset)
}

/// Makes the pools larger, if they may be. What it answers is by how much the worker has then made them so.
pub fn grow<B: Basis, R: Wait>(
    seat: &Seat<'_, B, R>,
    worker: &mut Worker<B>,
    bytes: u64,
    grown: u64,
) -> Result<u64, AllocError>
    requires idle { IsIdle seat.now.manager.now seat.now.count seat.now.number seat.now.next worker.old }
    requires grown { total grown_by (own_of worker.old) ≡ grown }
    ensures idle { IsIdle seat.now.manager.now seat.now.count seat.now.number seat.now.next worker.new }
    ensures grown { IfOk result (λ sum. total grown_by (own_of worker.new) ≡ sum) }
{
    let left = (1 << 41) - seat.manager.setup().max();
    if seat.number != 0 || bytes < 1 || bytes > 1 << 36 || bytes > left || grown > left - bytes {
        return Err(AllocError);
    }
    seat.manager.grow(seat.rt, worker, bytes)?;
    Ok(grown + bytes)
}
