//! Rows that were computed, as a block.

ghost use Rattle.std.specs.Prelude.{◌≡◌, ◌≤◌, IfOk, OnOk, length};
ghost use Rattle.std.specs.Arc.{arc_value};
ghost use Rattle.memory_core.specs.Caches.{AreGiven};
ghost use Rattle.row_filter.specs.Chains.{links_of};
ghost use Rattle.task_pool.specs.Workers.{KeepsPin};
ghost use Rattle.lineage.specs.Entries.{WorksOn};
ghost use Rattle.lineage.specs.Handed.{IsBlockWith};
ghost use Rattle.lineage.specs.LineageViews.{IsLineage};
ghost use Rattle.lineage.specs.Telling.{TellsKeep};

use crate::executor::Executor;
use crate::lineage::Lineage;
use block_store::Block;
use memory_lock::{Basis, Worker};
use pool_ledger::Level;
use row_page::Page;
use spill_disk::Disk;
use std::alloc::{AllocError, Global};
use std::sync::{Arc, Wait};

// The block of a dataset with these rows. Where the dataset isn't kept its level says nothing.
pub(crate) fn block_of(
    alloc: Global,
    lineage: &Lineage<'_>,
    dataset: u32,
    part: u32,
    page: Page,
) -> Result<Arc<Block, Global>, AllocError>
    requires lineage { IsLineage lineage.now }
    requires there { dataset ≤ length (links_of lineage.now.chain) }
    ensures { IfOk result (λ block. IsBlockWith lineage.now.chain dataset part page.rows (arc_value block)) }
{
    let block = Block {
        dataset: lineage.chain.base() + dataset,
        part,
        level: lineage.chain.level(dataset).unwrap_or(Level::Memory),
        page,
    };
    Ok(Arc::new(alloc, block)?)
}

// Keeps a block in memory, where there is room for it.
pub(crate) fn keep_block<K: Disk, B: Basis, R: Wait>(
    executor: &Executor<'_, R, K, B>,
    worker: &mut Worker<B>,
    block: &Arc<Block, Global>,
) -> Result<(), AllocError>
    requires manager { worker.old.lock ≡ executor.now.manager.now }
    requires given { AreGiven B.rows (arc_value block.now).dataset (arc_value block.now).part
        (arc_value block.now).page.rows }
    ensures pin { KeepsPin worker.old worker.new }
    ensures works { WorksOn worker.old worker.new }
    ensures told { OnOk result (TellsKeep (arc_value block.now).dataset (arc_value block.now).part
        worker.old worker.new) }
{
    let shared = Arc::try_clone(block)?;
    executor.manager.admit(executor.rt, worker, shared)?;
    Ok(())
}
