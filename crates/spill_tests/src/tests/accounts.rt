//! One worker alone, and its task's account.

ghost use Rattle.std.specs.Prelude.{◌≡◌, [], ℕ, Some};
ghost use Rattle.memory_lock.specs.Crew.{IsWorker};

use memory_lock::{Basis, Manager, Worker};
use pool_ledger::Setup;
use spill_disk::MemoryDisk;
use std::alloc::{AllocError, Global};
use std::marker::Brand;
use std::sync::Wait;
use std::test::Fail;
use task_account::Account;
use task_memory::Spills;
use task_pool::Pool;

/// A new worker's task that asks for 700 bytes and gives 40 back: what it got, and what it held at its end.
fn use_account<B: Basis, R: Wait>(
    rt: &R,
    manager: &Manager<MemoryDisk, B>,
    mut worker: Worker<B>,
) -> Result<(u64, u64), AllocError>
    requires worker { IsWorker manager.now B.sizes.workers worker.number worker }
    requires new { worker.seen ≡ [] }
    requires owner { B.owner worker.number ≡ Some worker.number }
{
    let number = worker.number();
    let task = manager.begin(rt, &mut worker, number)?;
    let mut account = Account::of(rt, manager, &mut worker, task);
    let got = account.acquire(700);
    let released = account.release(40);
    let held = account.end();
    released?;
    Ok((got?, held))
}

/// The same in a pool of one worker.
fn use_account_alone<B: Basis, R: Wait>(
    rt: &R,
    alloc: Global,
    setup: Setup,
) -> Result<(u64, u64), AllocError>
    requires basis { setup ≡ B.sizes }
    requires workers { B.sizes.workers ≡ 1 }
    requires owner { (task : ℕ) → B.owner task ≡ Some task }
{
    let store = MemoryDisk::new(alloc, Vec::new(alloc));
    let (manager, mut workers) = Manager::<MemoryDisk, B>::start(alloc, setup, store)?;
    let Some(worker) = workers.pop() else {
        unreachable!()
    };
    use_account(rt, &manager, worker)
}

#[test]
fn an_account_grants_and_takes_back(rt: HostRuntime) -> Result<(), Fail> {
    let setup = Setup::of(600, 0, 1000, 0, 1)?;
    let used = use_account_alone::<Brand, _>(&rt, rt.alloc(), setup)?;
    assert_eq!(rt; used, (600, 560), "700 are asked, and 40 given back");
    Ok(())
}

#[test]
fn spills_keep_their_picks_in_order(rt: HostRuntime) -> Result<(), Fail> {
    let spills = Spills::new(rt.alloc(), &[2, 0], 3)?;
    assert_eq!(rt; spills.picks(), [2, 0].as_slice());
    Ok(())
}
