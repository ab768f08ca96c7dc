// Four tasks in threads of their own that share one pool.
ghost use Rattle.std.specs.Prelude.{◌≡◌, ◌≤◌, ◌++◌, ◌∷◌, [], ℕ, length, Some, IfOk, OnOk};
ghost use Rattle.memory_lock.specs.Crew.{IsWorker};

use crate::tests::playing::{Left, Setting, play};
use memory_lock::{Basis, Manager, Worker};
use pool_ledger::{Journal, Setup};
use spill_disk::MemoryDisk;
use std::alloc::{AllocError, Global};
use std::sync::Wait;
use std::thread::{Threads, join};

/// Two workers with what their tasks left.
type Two<B> = ((Worker<B>, Left), (Worker<B>, Left));

// Two new workers, each in a thread of its own.
fn play_two<B: Basis + Send + Sync, R: Threads + Wait + Sync>(
    rt: &R,
    alloc: Global,
    manager: &Manager<MemoryDisk, B>,
    one: Worker<B>,
    other: Worker<B>,
    first: Setting<'_>,
    second: Setting<'_>,
) -> Result<Two<B>, AllocError>
    requires one { IsWorker manager.now B.sizes.workers one.number one × (one.seen ≡ []) }
    requires other { IsWorker manager.now B.sizes.workers other.number other × (other.seen ≡ []) }
    requires owner { (task : ℕ) → B.owner task ≡ Some task }
    ensures one { IfOk result (λ after. IsWorker manager.now B.sizes.workers one.number after.0.0) }
    ensures other { IfOk result (λ after. IsWorker manager.now B.sizes.workers other.number after.1.0) }
{
    let (one, other) = join(
        rt,
        move ||
            requires { IsWorker manager.now B.sizes.workers one.number one × (one.seen ≡ [])
                × (B.owner one.number ≡ Some one.number) }
        { play(rt, alloc, manager, one, false, first) },
        move ||
            requires { IsWorker manager.now B.sizes.workers other.number other × (other.seen ≡ [])
                × (B.owner other.number ≡ Some other.number) }
        { play(rt, alloc, manager, other, false, second) },
    );
    let one = one?;
    let other = other?;
    Ok((one, other))
}

// Four new workers, each in a thread of its own.
fn play_four<B: Basis + Send + Sync, R: Threads + Wait + Sync>(
    rt: &R,
    alloc: Global,
    manager: &Manager<MemoryDisk, B>,
    first: Worker<B>,
    second: Worker<B>,
    third: Worker<B>,
    fourth: Worker<B>,
    plays: &[Setting<'_>; 4],
) -> Result<(Two<B>, Two<B>), AllocError>
    requires first { IsWorker manager.now B.sizes.workers first.number first × (first.seen ≡ []) }
    requires second { IsWorker manager.now B.sizes.workers second.number second × (second.seen ≡ []) }
    requires third { IsWorker manager.now B.sizes.workers third.number third × (third.seen ≡ []) }
    requires fourth { IsWorker manager.now B.sizes.workers fourth.number fourth × (fourth.seen ≡ []) }
    requires owner { (task : ℕ) → B.owner task ≡ Some task }
    ensures first { IfOk result (λ after. IsWorker manager.now B.sizes.workers first.number after.0.0.0) }
    ensures second { IfOk result (λ after. IsWorker manager.now B.sizes.workers second.number after.0.1.0) }
    ensures third { IfOk result (λ after. IsWorker manager.now B.sizes.workers third.number after.1.0.0) }
    ensures fourth { IfOk result (λ after. IsWorker manager.now B.sizes.workers fourth.number after.1.1.0) }
{
    let (lower, upper) = join(
        rt,
        move ||
            requires { IsWorker manager.now B.sizes.workers first.number first
                × IsWorker manager.now B.sizes.workers second.number second
                × (first.seen ≡ []) × (second.seen ≡ []) × ((task : ℕ) → B.owner task ≡ Some task) }
        { play_two(rt, alloc, manager, first, second, plays[0], plays[1]) },
        move ||
            requires { IsWorker manager.now B.sizes.workers third.number third
                × IsWorker manager.now B.sizes.workers fourth.number fourth
                × (third.seen ≡ []) × (fourth.seen ≡ []) × ((task : ℕ) → B.owner task ≡ Some task) }
        { play_two(rt, alloc, manager, third, fourth, plays[2], plays[3]) },
    );
    let lower = lower?;
    let upper = upper?;
    Ok((lower, upper))
}

// Takes the last two workers off a list.
fn last_two<B: Basis>(workers: &mut Vec<Worker<B>>) -> (Worker<B>, Worker<B>)
    requires { 2 ≤ length workers.old.items }
    ensures { workers.old.items ≡ workers.new.items ++ result.0 ∷ result.1 ∷ [] }
{
    let Some(other) = workers.pop() else {
        unreachable!()
    };
    let Some(one) = workers.pop() else {
        unreachable!()
    };
    (one, other)
}

// Puts two workers at a list's end.
fn put_two<B: Basis>(
    workers: &mut Vec<Worker<B>>,
    one: Worker<B>,
    other: Worker<B>,
) -> Result<(), AllocError>
    ensures { OnOk result (workers.new.items ≡ workers.old.items ++ one ∷ other ∷ []) }
{
    workers.push(one)?;
    workers.push(other)?;
    Ok(())
}

/// The journal of four workers in threads of their own, and what the task of each of them left.
pub fn share_four<B: Basis + Send + Sync, R: Threads + Wait + Sync>(
    rt: &R,
    alloc: Global,
    setup: Setup,
    plays: &[Setting<'_>; 4],
) -> Result<(Journal, (Left, Left), (Left, Left)), AllocError>
    requires basis { setup ≡ B.sizes }
    requires workers { B.sizes.workers ≡ 4 }
    requires owner { (task : ℕ) → B.owner task ≡ Some task }
{
    let store = MemoryDisk::new(alloc, Vec::new(alloc));
    let (manager, mut workers) = Manager::<MemoryDisk, B>::start(alloc, setup, store)?;
    let (third, fourth) = last_two(&mut workers);
    let (first, second) = last_two(&mut workers);
    let (lower, upper) = play_four(rt, alloc, &manager, first, second, third, fourth, plays)?;
    let (first, second) = lower;
    let (third, fourth) = upper;
    put_two(&mut workers, first.0, second.0)?;
    put_two(&mut workers, third.0, fourth.0)?;
    let (journal, _) = manager.close(workers);
    Ok((journal, (first.1, second.1), (third.1, fourth.1)))
}
