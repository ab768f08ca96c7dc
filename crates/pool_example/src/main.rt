//! Two threads share a pool: one caches blocks and pins one, and the other's ask evicts another.
#![tactic(auto)]

mod blocks;
mod workers;

ghost use Rattle.std.specs.Prelude.{◌≡◌, ℕ, [], ◌∷◌, Some, IfOk};
ghost use Rattle.pool_example.specs.Printed.{IsLegalText};

use journal_audit::journal_text;
use memory_lock::{Basis, Manager};
use pool_ledger::Setup;
use spill_disk::MemoryDisk;
use std::io;
use std::marker::{Brand, Send, Sync};
use std::sync::Wait;
use std::thread::Threads;
use workers::run_both;

fn main(rt: HostRuntime) -> io::Result<()> {
    let Some(setup) = Setup::with_sizes(600, 300, 2) else {
        unreachable!()
    };
    let text = share::<Brand, _>(&rt, setup, b"order 1001 of Bergen")?;
    rt.stdout().write_all(&text)
}

/// The text of the journal of a pool that two workers share, whose blocks have one row of this field.
pub fn share<B: Basis + Send + Sync, R: Threads + Wait + AllocGlobal + Sync>(
    rt: &R,
    setup: Setup,
    field: &[u8; 20],
) -> io::Result<Vec<u8>>
    requires basis { setup ≡ B.sizes }
    requires workers { B.sizes.workers ≡ 2 }
    requires owner { B.owner 7 ≡ Some 1 }
    requires rows { (dataset part : ℕ) → B.rows dataset part ≡ Some ((field.now ∷ []) ∷ []) }
    ensures legal { IfOk result (λ text. IsLegalText B.sizes text.items) }
{
    let store = MemoryDisk::new(rt.alloc(), Vec::new(rt.alloc()));
    let (pool, workers) = Manager::<MemoryDisk, B>::start(rt.alloc(), setup, store)?;
    let workers = run_both(rt, &pool, workers, field)?;
    let (journal, _) = pool.close(workers);
    Ok(journal_text(rt.alloc(), &setup, &journal)?)
}
