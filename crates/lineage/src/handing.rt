//! The rows of a dataset in a partition, handed out and given back.

ghost use Rattle.std.specs.Prelude.{◌≡◌, ◌<◌, ◌≤◌, ℕ, IfOk, List, OnOk, length};
ghost use Rattle.memory_core.specs.Caches.{AreGiven};
ghost use Rattle.memory_lock.specs.Workers.{HasNoPin, KeepsTask, SeesMore, own_entries};
ghost use Rattle.row_filter.specs.Chains.{links_of};
ghost use Rattle.row_filter.specs.Derived.{derived};
ghost use Rattle.lineage.specs.Entries.{AddsRowsWork, AddsUnpin, WorksOn};
ghost use Rattle.lineage.specs.Handed.{AreFormed, GivesRows, HasCauseIn, HoldsPin, IsOwn, LeavesFiles, LeavesPin, rows_in};
ghost use Rattle.lineage.specs.LineageViews.{IsLineage, name_for, own_rows, run_for};
ghost use Rattle.lineage.specs.Standing.{HoldsInput, SaysDerived, SaysKept};
ghost use Rattle.lineage.specs.Telling.{TellsMade, TellsNearest, TellsOwn};

use crate::executor::Executor;
use crate::keeping::{block_of, keep_block};
use crate::lineage::Lineage;
use crate::looking::take_block;
use crate::making::make_page;
use crate::reading::read_input;
use crate::rows::Rows;
use crate::rows_fault::RowsFault;
use memory_lock::{Basis, Worker};
use spill_disk::Disk;
use std::alloc::{AllocError, Global};
use std::sync::Wait;

/// The rows of a dataset in a partition: those of its block, where it is kept and the block is in memory or has a copy, and
/// else computed from its parent's rows by its filter, up to the input, whose rows are read from the partition's landed run on
/// this disk. What was computed of a kept dataset, or read back, is kept as its block, if there is room. A block whose rows can't
/// be the partition's is not used. The rows of a parent are given back before a child is kept.
///
/// After Spark: `RDD.iterator`, which reads a cached partition or computes it from its parents'.
pub fn rows_of<K: Disk, D: Disk, B: Basis, R: Wait>(
    executor: &Executor<'_, R, K, B>,
    worker: &mut Worker<B>,
    lineage: &Lineage<'_>,
    disk: &mut D,
    dataset: u32,
    part: u32,
) -> Result<Rows, RowsFault>
    requires manager { worker.old.lock ≡ executor.now.manager.now }
    requires free { HasNoPin worker.old }
    requires lineage { IsLineage lineage.now }
    requires there { dataset ≤ length (links_of lineage.now.chain) }
    requires part { part < length lineage.now.landed }
    requires basis { SaysDerived B.rows (D.files disk.old) lineage.now part }
    ensures rows { (input : List (List (List ℕ))) → HoldsInput (D.files disk.old) lineage.now part input
        → SaysKept B.rows lineage.now.chain part → GivesRows (derived lineage.now.chain dataset input) result }
    ensures formed { IfOk result (λ rows. AreFormed lineage.now part (rows_in rows)) }

    // The worker: its pin, its task, and the entries of the nearest kept dataset's block.
    ensures pins { LeavesPin lineage.now dataset part worker.new result }
    ensures task { KeepsTask worker.old worker.new }
    ensures sees { SeesMore worker.old worker.new }
    ensures adds { AddsRowsWork worker.old.number (own_entries worker.old) (own_entries worker.new) }
    ensures told_of_block { OnOk result (TellsNearest lineage.now.chain dataset part worker.old worker.new) }
    ensures kept { IfOk result (TellsOwn lineage.now.chain dataset part worker.old worker.new) }

    // The disk.
    ensures disk { LeavesFiles (D.files disk.old) (D.files disk.new) (D.faults disk.old) (D.faults disk.new) }
    ensures cause { HasCauseIn (run_for lineage.now part) (D.faults disk.old) (D.faults disk.new) result }
{
    if dataset == 0 {
        return input_rows(executor.alloc, lineage, disk, part);
    }
    let Ok(found) = take_block(executor, worker, lineage, dataset, part) else {
        return Err(RowsFault::NoMemory);
    };
    if let Some(rows) = found {
        return Ok(rows);
    }
    let parent = lineage.chain.parent(dataset);
    let rows = match rows_of(executor, worker, lineage, disk, parent, part) {
        Ok(rows) => rows,
        Err(fault) => return Err(fault),
    };
    match make_rows(executor, worker, lineage, rows, dataset, part) {
        Ok(rows) => Ok(rows),
        Err(_) => Err(RowsFault::NoMemory),
    }
}

/// Gives rows back that were handed out: where they are pinned, the worker's pin.
pub fn rows_done<K: Disk, B: Basis, R: Wait>(
    executor: &Executor<'_, R, K, B>,
    worker: &mut Worker<B>,
    rows: Rows,
)
    requires manager { worker.old.lock ≡ executor.now.manager.now }
    requires pin { HoldsPin worker.old rows }
    ensures free { HasNoPin worker.new }
    ensures task { KeepsTask worker.old worker.new }
    ensures sees { SeesMore worker.old worker.new }
    ensures adds { AddsUnpin worker.old worker.new rows }
{
    if let Rows::Pinned(block) = rows {
        executor
            .manager
            .unpin(executor.rt, worker, block.dataset, block.part);
    }
}

// The input's rows in a partition.
fn input_rows<D: Disk>(
    alloc: Global,
    lineage: &Lineage<'_>,
    disk: &mut D,
    part: u32,
) -> Result<Rows, RowsFault>
    requires lineage { IsLineage lineage.now }
    requires part { part < length lineage.now.landed }
    ensures rows { (input : List (List (List ℕ))) → HoldsInput (D.files disk.old) lineage.now part input
        → GivesRows input result }
    ensures formed { IfOk result (λ rows. AreFormed lineage.now part (rows_in rows)) }
    ensures own { IfOk result IsOwn }
    ensures disk { LeavesFiles (D.files disk.old) (D.files disk.new) (D.faults disk.old) (D.faults disk.new) }
    ensures cause { HasCauseIn (run_for lineage.now part) (D.faults disk.old) (D.faults disk.new) result }
{
    let page = match read_input(alloc, lineage, disk, part) {
        Ok(page) => page,
        Err(fault) => return Err(fault),
    };
    match block_of(alloc, lineage, 0, part, page) {
        Ok(block) => Ok(Rows::Own(block)),
        Err(_) => Err(RowsFault::NoMemory),
    }
}

// The rows of a dataset, made of its parent's, which are given back before they are kept.
fn make_rows<K: Disk, B: Basis, R: Wait>(
    executor: &Executor<'_, R, K, B>,
    worker: &mut Worker<B>,
    lineage: &Lineage<'_>,
    parent: Rows,
    dataset: u32,
    part: u32,
) -> Result<Rows, AllocError>
    requires manager { worker.old.lock ≡ executor.now.manager.now }
    requires pin { HoldsPin worker.old parent }
    requires lineage { IsLineage lineage.now }
    requires there { dataset ≤ length (links_of lineage.now.chain) }
    requires formed { AreFormed lineage.now part (rows_in parent) }
    requires given { AreGiven B.rows (name_for lineage.now.chain dataset) part
        (own_rows lineage.now.chain dataset (rows_in parent)) }
    ensures rows { IfOk result (λ rows. rows_in rows ≡ own_rows lineage.now.chain dataset (rows_in parent)) }
    ensures own { IfOk result IsOwn }
    ensures free { HasNoPin worker.new }
    ensures works { WorksOn worker.old worker.new }
    ensures told { OnOk result (TellsMade lineage.now.chain dataset part worker.old worker.new) }
{
    let made = make_page(executor.alloc, lineage, dataset, parent.page());
    rows_done(executor, worker, parent);
    let block = block_of(executor.alloc, lineage, dataset, part, made?)?;
    if lineage.chain.level(dataset).is_some() {
        keep_block(executor, worker, &block)?;
    }
    Ok(Rows::Own(block))
}
