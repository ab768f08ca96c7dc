//! Blocks that no later pass needs.

ghost use Rattle.std.specs.Prelude.{◌≡◌, ◌≢◌, ◌≤◌, ℕ, Contains, None, OnOk, slice_index_or};
ghost use Rattle.memory_lock.specs.Crew.{AreWorkers};
ghost use Rattle.turn_lock.specs.Passes.{WorkerView};
ghost use Rattle.csv_program.specs.Doing.{Clears, SawGone};

use memory_lock::{Basis, Worker};
use spill_disk::Disk;
use std::alloc::AllocError;
use std::sync::Wait;
use task_runner::Executor;

/// Removes the blocks of these datasets, by the first worker.
pub fn remove_blocks<K: Disk, B: Basis, R: Wait>(
    executor: &Executor<'_, R, K, B>,
    workers: &mut Vec<Worker<B>>,
    datasets: &[u32],
) -> Result<(), AllocError>
    requires workers { AreWorkers executor.now.manager.now B.sizes.workers workers.old.items }
    requires some { 1 ≤ B.sizes.workers }
    ensures workers { AreWorkers executor.now.manager.now B.sizes.workers workers.new.items }
    ensures clears { (any : WorkerView) → Clears datasets.now
        (slice_index_or workers.old.items 0 any) (slice_index_or workers.new.items 0 any) }
    ensures gone { OnOk result ((any : WorkerView) (dataset : ℕ) → Contains datasets.now dataset
        → SawGone dataset (slice_index_or workers.old.items 0 any) (slice_index_or workers.new.items 0 any)) }
    ensures others { (worker : ℕ) (any : WorkerView) → worker ≢ 0
        → slice_index_or workers.new.items worker any ≡ slice_index_or workers.old.items worker any }
{
    clear_all(executor, &mut workers[0], datasets)
}

// Removes the blocks of these datasets, by this worker.
fn clear_all<K: Disk, B: Basis, R: Wait>(
    executor: &Executor<'_, R, K, B>,
    worker: &mut Worker<B>,
    datasets: &[u32],
) -> Result<(), AllocError>
    requires manager { worker.old.lock ≡ executor.now.manager.now }
    ensures clears { Clears datasets.now worker.old worker.new }
    ensures gone { OnOk result ((dataset : ℕ) → Contains datasets.now dataset
        → SawGone dataset worker.old worker.new) }
    ensures rests { worker.new.base ≡ None }
{
    let cleared = clear_each(executor, worker, datasets);
    // That it rests is known with its number.
    let _number = worker.number();
    cleared
}

// The same, one dataset after the other.
fn clear_each<K: Disk, B: Basis, R: Wait>(
    executor: &Executor<'_, R, K, B>,
    worker: &mut Worker<B>,
    datasets: &[u32],
) -> Result<(), AllocError>
    requires manager { worker.old.lock ≡ executor.now.manager.now }
    ensures clears { Clears datasets.now worker.old worker.new }
    ensures gone { OnOk result ((dataset : ℕ) → Contains datasets.now dataset
        → SawGone dataset worker.old worker.new) }
{
    for i in 0..datasets.len() {
        executor.manager.remove(executor.rt, worker, datasets[i])?;
    }
    Ok(())
}
