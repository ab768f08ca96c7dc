// Workers that play scripts, each in a thread of its own.
ghost use Rattle.std.specs.Prelude.{◌≡◌, ◌%◌, [], ℕ, Some, None, IfOk};
ghost use Rattle.memory_lock.specs.Crew.{AreNew, AreWorkers, IsWorker};

use crate::tests::signs::Board;
use crate::tests::thread::play;
use memory_lock::{Basis, Manager, Worker};
use pool_ledger::{Journal, Setup};
use spill_disk::MemoryDisk;
use std::alloc::{AllocError, Global};
use std::string::String;
use std::sync::Wait;
use std::thread::{Threads, map_vec};

/// What workers left: the journal, what each of them noted, and how many files the store disk made.
#[derive(Drop)]
pub struct Left {
    pub journal: Journal,
    pub notes: Vec<String>,
    pub files: u64,
}

// New workers, each in a thread of its own.
fn play_all<B: Basis + Send + Sync, R: Threads + Wait + Sync>(
    rt: &R,
    alloc: Global,
    manager: &Manager<MemoryDisk, B>,
    workers: Vec<Worker<B>>,
    scripts: &[&str],
    board: &Board,
) -> Result<Vec<Worker<B>>, AllocError>
    requires workers { AreWorkers manager.now B.sizes.workers workers.items }
    requires new { AreNew workers.items }
    requires owner { (task : ℕ) → B.owner task ≡ Some (task % B.sizes.workers) }
    requires rows { (dataset part : ℕ) → B.rows dataset part ≡ None }
    ensures { IfOk result (λ after. AreWorkers manager.now B.sizes.workers after.items) }
{
    let thread = |worker: Worker<B>| -> Worker<B>
        requires { IsWorker manager.now B.sizes.workers worker.number worker × (worker.seen ≡ [])
            × ((task : ℕ) → B.owner task ≡ Some (task % B.sizes.workers))
            × ((dataset part : ℕ) → B.rows dataset part ≡ None) }
        ensures { IsWorker manager.entry.now B.sizes.workers worker.number result }
    { play(rt, alloc, manager, worker, scripts, board) };
    let after = map_vec(rt, workers, &thread)?;
    Ok(after)
}

// What each of so many workers noted, if each has come to its script's end.
fn notes_of<R: Wait>(
    rt: &R,
    alloc: Global,
    board: &Board,
    count: usize,
) -> Result<Vec<String>, AllocError> {
    let mut notes = Vec::new(alloc);
    for number in 0..count {
        let Some(noted) = board.take_notes(rt, number) else {
            return Err(AllocError);
        };
        notes.push(noted)?;
    }
    Ok(notes)
}

/// As many new workers as the setup has play these scripts, each that of its number.
pub fn share<B: Basis + Send + Sync, R: Threads + Wait + Sync>(
    rt: &R,
    alloc: Global,
    setup: Setup,
    scripts: &[&str],
) -> Result<Left, AllocError>
    requires basis { setup ≡ B.sizes }
    requires owner { (task : ℕ) → B.owner task ≡ Some (task % B.sizes.workers) }
    requires rows { (dataset part : ℕ) → B.rows dataset part ≡ None }
{
    let store = MemoryDisk::new(alloc, Vec::new(alloc));
    let (manager, workers) = Manager::<MemoryDisk, B>::start(alloc, setup, store)?;
    let board = Board::new();
    let workers = play_all(rt, alloc, &manager, workers, scripts, &board)?;
    let (journal, disk) = manager.close(workers);
    Ok(Left {
        journal,
        notes: notes_of(rt, alloc, &board, setup.workers() as usize)?,
        files: disk.created(),
    })
}
