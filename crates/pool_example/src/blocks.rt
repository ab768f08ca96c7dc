//! Blocks of one row, made and cached.

ghost use Rattle.std.specs.Prelude.{◌≡◌, ◌≤◌, ℕ, [], ◌∷◌, Some, length, IfOk, OnOk};
ghost use Rattle.std.specs.Arc.{arc_value};
ghost use Rattle.memory_lock.specs.Workers.{HasPin, KeepsPin, SeesMore};

use block_store::Block;
use memory_core::Pinned;
use memory_lock::{Basis, Manager, Worker};
use pool_ledger::Level;
use row_page::{Page, RowBuf};
use spill_disk::MemoryDisk;
use std::alloc::{AllocError, Global};
use std::io;
use std::sync::{Arc, Wait};

/// Caches three blocks of this field, and pins the first, which it hands out.
pub fn cache<B: Basis, R: Wait + AllocGlobal>(
    rt: &R,
    pool: &Manager<MemoryDisk, B>,
    worker: &mut Worker<B>,
    field: &[u8],
) -> io::Result<Arc<Block, Global>>
    requires pool { worker.old.lock ≡ pool.now }
    requires fresh { worker.old.seen ≡ [] }
    requires short { length field.now ≤ 1000 }
    requires rows { (dataset part : ℕ) → B.rows dataset part ≡ Some ((field.now ∷ []) ∷ []) }
    ensures rows { IfOk result (λ block. (arc_value block).page.rows ≡ (field.now ∷ []) ∷ []) }
    ensures pin { OnOk result (HasPin worker.new 1 0) }
    ensures sees { OnOk result (SeesMore worker.old worker.new) }
{
    keep(rt, pool, worker, 1, 0, field)?;
    let Pinned::Hit(block) = pool.pin(rt, worker, 1, 0)? else {
        return Err(io::ErrorKind::NotFound.into());
    };
    keep(rt, pool, worker, 1, 1, field)?;
    keep(rt, pool, worker, 1, 2, field)?;
    Ok(block)
}

// Caches the block of this name and field, where there is room.
fn keep<B: Basis, R: Wait + AllocGlobal>(
    rt: &R,
    pool: &Manager<MemoryDisk, B>,
    worker: &mut Worker<B>,
    dataset: u32,
    part: u32,
    field: &[u8],
) -> Result<(), AllocError>
    requires pool { worker.old.lock ≡ pool.now }
    requires short { length field.now ≤ 1000 }
    requires rows { (dataset part : ℕ) → B.rows dataset part ≡ Some ((field.now ∷ []) ∷ []) }
    ensures pin { OnOk result (KeepsPin worker.old worker.new) }
    ensures sees { OnOk result (SeesMore worker.old worker.new) }
{
    let block = block_of(rt, dataset, part, field)?;
    pool.admit(rt, worker, block)?;
    Ok(())
}

/// The block of this name with one row, which has this field. It costs 100 bytes more than the field.
pub fn block_of<R: AllocGlobal>(
    rt: &R,
    dataset: u32,
    part: u32,
    field: &[u8],
) -> Result<Arc<Block, Global>, AllocError>
    requires short { length field.now ≤ 1000 }
    ensures { IfOk result (λ block. (arc_value block).page.rows ≡ (field.now ∷ []) ∷ []) }
{
    let mut row = RowBuf::new(rt.alloc());
    row.add(field)?;
    let mut page = Page::new(rt.alloc(), 1024);
    if page.push(row.view()).is_err() {
        return Err(AllocError);
    }
    let block = Block {
        dataset,
        part,
        level: Level::Memory,
        page,
    };
    Ok(Arc::new(rt.alloc(), block)?)
}
