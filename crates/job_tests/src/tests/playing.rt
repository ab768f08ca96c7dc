// One worker with one task, which hands out rows as a script says.
ghost use Rattle.std.specs.Prelude.{◌≡◌, ◌<◌, [], ℕ, Some, None, IfOk};
ghost use Rattle.memory_lock.specs.Crew.{IsWorker};
ghost use Rattle.memory_lock.specs.Workers.{HasNoPin, IsOpen, KeepsTask, SeesMore};
ghost use Rattle.lineage.specs.LineageViews.{IsLineage};

use crate::tests::landed::{PART_ROWS, land, plan_of};
use crate::tests::row_words::{cut, number, put_entries, put_fault, put_number, put_rows};
use block_store::Block;
use lineage::{Executor, Lineage, rows_done, rows_of};
use memory_lock::{Basis, Manager, Task, Worker};
use pool_ledger::{Level, Setup};
use spill_disk::MemoryDisk;
use std::alloc::{AllocError, Global};
use std::string::String;
use std::sync::{Arc, Wait};
use std::test::Fail;

// What is played: a job over columns `n` and `t`, the input's partitions, which calls of the store disk and of the partitions'
// disk fail, and the steps. `hand:D.P` asks for the rows of dataset D in partition P and gives them back. `ask:N` asks for N
// bytes for the task, and gives them back. `forge:D.P` keeps dataset 0's rows of partition 0 as the block of dataset D in
// partition P.
#[derive(Drop)]
pub struct Case<'a> {
    pub job: &'a str,
    pub parts: &'a [&'a str],
    pub store_fails: &'a [u64],
    pub fails: &'a [u64],
    pub steps: &'a [&'a str],
}

// What was handed out, the entries of the journal, and how often the store disk failed.
#[derive(Drop)]
pub struct Played {
    pub notes: String,
    pub entries: String,
    pub store_faults: u64,
}

// Asks for these rows, and gives them back.
fn hand<B: Basis, R: Wait>(
    executor: &Executor<'_, R, MemoryDisk, B>,
    worker: &mut Worker<B>,
    lineage: &Lineage<'_>,
    disk: &mut MemoryDisk,
    name: &str,
    notes: &mut String,
) -> Result<(), Fail>
    requires manager { worker.old.lock ≡ executor.now.manager.now }
    requires free { HasNoPin worker.old }
    requires lineage { IsLineage lineage.now }
    requires rows { (dataset part : ℕ) → B.rows dataset part ≡ None }
    ensures free { HasNoPin worker.new }
    ensures task { KeepsTask worker.old worker.new }
    ensures sees { SeesMore worker.old worker.new }
{
    let (dataset, part) = cut(name, '.');
    let (dataset, part) = (number(dataset), number(part));
    if dataset > lineage.chain.datasets() || part as usize >= lineage.landed.len() {
        return Err("no such dataset or partition".into());
    }
    match rows_of(executor, worker, lineage, disk, dataset, part) {
        Ok(rows) => {
            let put = put_rows(notes, &rows);
            rows_done(executor, worker, rows);
            Ok(put?)
        }
        Err(fault) => Ok(put_fault(notes, fault)?),
    }
}

// Keeps the input's rows of partition 0 as another block.
fn forge<B: Basis, R: Wait>(
    executor: &Executor<'_, R, MemoryDisk, B>,
    worker: &mut Worker<B>,
    lineage: &Lineage<'_>,
    disk: &mut MemoryDisk,
    name: &str,
) -> Result<(), Fail>
    requires manager { worker.old.lock ≡ executor.now.manager.now }
    requires free { HasNoPin worker.old }
    requires lineage { IsLineage lineage.now }
    requires rows { (dataset part : ℕ) → B.rows dataset part ≡ None }
    ensures free { HasNoPin worker.new }
    ensures task { KeepsTask worker.old worker.new }
    ensures sees { SeesMore worker.old worker.new }
{
    let (dataset, part) = cut(name, '.');
    let Some(landed) = lineage.landed.first() else {
        return Err("no partition".into());
    };
    let page = run_file::read_page(executor.alloc, disk, landed, lineage.chain.form())?;
    let block = Block {
        dataset: number(dataset),
        part: number(part),
        level: Level::Memory,
        page,
    };
    let block = Arc::new(executor.alloc, block)?;
    executor.manager.admit(executor.rt, worker, block)?;
    Ok(())
}

// Asks for bytes, and gives them back.
fn ask<B: Basis, R: Wait>(
    executor: &Executor<'_, R, MemoryDisk, B>,
    worker: &mut Worker<B>,
    task: &Task,
    bytes: u32,
    notes: &mut String,
) -> Result<(), Fail>
    requires manager { worker.old.lock ≡ executor.now.manager.now }
    requires its_task { IsOpen worker.old task.now }
    requires free { HasNoPin worker.old }
    ensures its_task { IsOpen worker.new task.now }
    ensures free { HasNoPin worker.new }
    ensures sees { SeesMore worker.old worker.new }
{
    let asked = u64::from(bytes).max(1);
    let got = executor.manager.acquire(executor.rt, worker, task, asked)?;
    let freed = executor.manager.release(executor.rt, worker, task, got)?;
    notes.push(' ')?;
    put_number(notes, freed)?;
    Ok(())
}

fn take_step<B: Basis, R: Wait>(
    executor: &Executor<'_, R, MemoryDisk, B>,
    worker: &mut Worker<B>,
    task: &Task,
    lineage: &Lineage<'_>,
    disk: &mut MemoryDisk,
    step: &str,
    notes: &mut String,
) -> Result<(), Fail>
    requires manager { worker.old.lock ≡ executor.now.manager.now }
    requires its_task { IsOpen worker.old task.now }
    requires free { HasNoPin worker.old }
    requires lineage { IsLineage lineage.now }
    requires rows { (dataset part : ℕ) → B.rows dataset part ≡ None }
    ensures its_task { IsOpen worker.new task.now }
    ensures free { HasNoPin worker.new }
    ensures sees { SeesMore worker.old worker.new }
{
    let (kind, rest) = cut(step, ':');
    if kind == "ask" {
        return ask(executor, worker, task, number(rest), notes);
    }
    if kind == "forge" {
        return forge(executor, worker, lineage, disk, rest);
    }
    hand(executor, worker, lineage, disk, rest, notes)
}

fn take_steps<B: Basis, R: Wait>(
    executor: &Executor<'_, R, MemoryDisk, B>,
    worker: &mut Worker<B>,
    task: &Task,
    lineage: &Lineage<'_>,
    disk: &mut MemoryDisk,
    steps: &[&str],
    notes: &mut String,
) -> Result<(), Fail>
    requires manager { worker.old.lock ≡ executor.now.manager.now }
    requires its_task { IsOpen worker.old task.now }
    requires free { HasNoPin worker.old }
    requires lineage { IsLineage lineage.now }
    requires rows { (dataset part : ℕ) → B.rows dataset part ≡ None }
    ensures its_task { IsOpen worker.new task.now }
    ensures sees { SeesMore worker.old worker.new }
{
    for step in steps {
        take_step(executor, worker, task, lineage, disk, step, notes)?;
    }
    Ok(())
}

// Begins the task, takes the steps, and ends it.
fn play_steps<B: Basis, R: Wait>(
    executor: &Executor<'_, R, MemoryDisk, B>,
    mut worker: Worker<B>,
    lineage: &Lineage<'_>,
    disk: &mut MemoryDisk,
    steps: &[&str],
    notes: &mut String,
) -> Result<Worker<B>, Fail>
    requires worker { IsWorker executor.now.manager.now B.sizes.workers worker.number worker }
    requires new { worker.seen ≡ [] }
    requires owner { (task : ℕ) → B.owner task ≡ Some worker.number }
    requires lineage { IsLineage lineage.now }
    requires rows { (dataset part : ℕ) → B.rows dataset part ≡ None }
    ensures { IfOk result (λ after. IsWorker executor.now.manager.now B.sizes.workers worker.number after) }
{
    let task = executor.manager.begin(executor.rt, &mut worker, 0)?;
    let taken = take_steps(executor, &mut worker, &task, lineage, disk, steps, notes);
    let _freed = executor.manager.end(executor.rt, &mut worker, task);
    taken?;
    let _number = worker.number();
    Ok(worker)
}

/// Lands the partitions, starts a manager with one worker, and takes the steps.
pub fn play<B: Basis, R: Wait>(
    rt: &R,
    alloc: Global,
    setup: Setup,
    case: &Case<'_>,
) -> Result<Played, Fail>
    requires basis { setup ≡ B.sizes }
    requires workers { B.sizes.workers ≡ 1 }
    requires owner { (task : ℕ) → B.owner task ≡ Some 0 }
    requires rows { (dataset part : ℕ) → B.rows dataset part ≡ None }
{
    let plan = plan_of(alloc, case.job)?;
    let mut disk = MemoryDisk::new(alloc, case.fails.to_vec(alloc)?);
    let landed = land(alloc, &mut disk, case.parts)?;
    if plan.chain().base() > 4096 {
        return Err("a chain of another job".into());
    }
    let lineage = Lineage {
        chain: plan.chain(),
        landed: &landed,
        part_rows: PART_ROWS,
    };
    let store = MemoryDisk::new(alloc, case.store_fails.to_vec(alloc)?);
    let (manager, mut workers) = Manager::<MemoryDisk, B>::start(alloc, setup, store)?;
    let Some(worker) = workers.pop() else {
        unreachable!()
    };
    let executor = Executor {
        rt,
        alloc,
        manager: &manager,
    };
    let mut notes = String::new(alloc);
    let worker = play_steps(
        &executor, worker, &lineage, &mut disk, case.steps, &mut notes,
    )?;
    workers.push(worker)?;
    let (journal, store) = manager.close(workers);
    let mut entries = String::new(alloc);
    put_entries(&mut entries, journal.entries())?;
    Ok(Played {
        notes,
        entries,
        store_faults: store.faults(),
    })
}
