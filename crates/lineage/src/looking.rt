//! The block of a kept dataset, if it is in memory or has a copy.

ghost use Rattle.std.specs.Prelude.{◌≡◌, ◌<◌, ◌≤◌, IfOk, IfSome, OnErr, length};
ghost use Rattle.memory_core.specs.Caches.{AreGiven};
ghost use Rattle.memory_lock.specs.Workers.{HasNoPin};
ghost use Rattle.row_filter.specs.Chains.{links_of};
ghost use Rattle.lineage.specs.Entries.{WorksOn};
ghost use Rattle.lineage.specs.Handed.{FindsPin, IsKeptBlock, block_in, rows_in};
ghost use Rattle.lineage.specs.LineageViews.{IsLineage, name_for};
ghost use Rattle.lineage.specs.Telling.{TellsLook, TellsOwn};

use crate::checking::is_right;
use crate::executor::Executor;
use crate::keeping::keep_block;
use crate::lineage::Lineage;
use crate::rows::Rows;
use memory_core::Pinned;
use memory_lock::{Basis, Worker};
use spill_disk::Disk;
use std::alloc::AllocError;
use std::sync::Wait;

// The rows of a kept dataset's block: those that are pinned, or read back and then kept. A block whose rows can't be the
// partition's is left alone.
pub(crate) fn take_block<K: Disk, B: Basis, R: Wait>(
    executor: &Executor<'_, R, K, B>,
    worker: &mut Worker<B>,
    lineage: &Lineage<'_>,
    dataset: u32,
    part: u32,
) -> Result<Option<Rows>, AllocError>
    requires manager { worker.old.lock ≡ executor.now.manager.now }
    requires free { HasNoPin worker.old }
    requires lineage { IsLineage lineage.now }
    requires there { dataset ≤ length (links_of lineage.now.chain) }
    requires part { part < length lineage.now.landed }
    ensures given { IfOk result (λ found. IfSome found (λ rows.
        AreGiven B.rows (name_for lineage.now.chain dataset) part (rows_in rows))) }
    ensures found { IfOk result (λ found. IfSome found (λ rows.
        IsKeptBlock lineage.now dataset part (block_in rows))) }
    ensures pin { IfOk result (FindsPin worker.new) }
    ensures err { OnErr result (HasNoPin worker.new) }
    ensures works { WorksOn worker.old worker.new }
    ensures told { IfOk result (TellsLook lineage.now.chain dataset part worker.old worker.new) }
    ensures own { IfOk result (λ found. IfSome found (TellsOwn lineage.now.chain dataset part worker.old worker.new)) }
{
    if lineage.chain.level(dataset).is_none() {
        return Ok(None);
    }
    let name = lineage.chain.base() + dataset;
    match executor.manager.pin(executor.rt, worker, name, part)? {
        Pinned::Hit(block) => {
            if is_right(lineage, &block.page, part) {
                return Ok(Some(Rows::Pinned(block)));
            }
            executor.manager.unpin(executor.rt, worker, name, part);
            Ok(None)
        }
        Pinned::OnDisk(block) => {
            if !is_right(lineage, &block.page, part) {
                return Ok(None);
            }
            keep_block(executor, worker, &block)?;
            Ok(Some(Rows::Own(block)))
        }
        Pinned::Miss => Ok(None),
    }
}
