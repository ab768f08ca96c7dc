//! Bytes that are got without a spill.

ghost use Rattle.std.specs.Prelude.{◌≡◌, ◌≤◌, ℕ, IfNone, IfOk, IfSome, OnOk};
ghost use Rattle.fault_count.specs.Faults.{HasCauseAt};
ghost use Rattle.task_memory.specs.Feeding.{GetsAlone, GetsNothing, IfNoRoom, IsTooLittle};
ghost use Rattle.task_memory.specs.Scenes.{CanBeAsked};
ghost use Rattle.task_pool.specs.Asks.{FirstAsks};
ghost use Rattle.task_pool.specs.Pools.{Goes, IsAtWork};

use crate::fault::TaskFault;
use std::alloc::AllocError;
use task_pool::{Pool, pools_go_on};

/// Gets at least `must` bytes by one attempt for `wish`, or nothing: what is less is given back, and the answer is
/// `None`.
pub fn acquire_or_nothing<P: Pool>(
    pool: &mut P,
    must: u64,
    wish: u64,
) -> Result<Option<u64>, AllocError>
    requires at_work { IsAtWork (P.state pool.old) }
    requires bytes { CanBeAsked must wish }
    ensures gets { IfOk result (λ answer. IfSome answer
        (GetsAlone (P.state pool.old).account (P.state pool.new).account must wish)) }
    ensures too_little { IfOk result (λ answer. IfNone answer
        (IsTooLittle (P.state pool.old).account (P.state pool.new).account must must)) }
    ensures first { OnOk result (FirstAsks wish (P.state pool.old).worker (P.state pool.new).worker) }
    ensures goes { Goes (P.state pool.old) (P.state pool.new) }
{
    // For the proof: no call is a way to go on, and so are two calls.
    pools_go_on();
    let got = pool.acquire(wish)?;
    if got >= must {
        return Ok(Some(got));
    }
    pool.release(got)?;
    Ok(None)
}

// The same of a task that holds `held`, with the refusal of a task's memory.
pub(crate) fn acquire_alone<P: Pool>(
    pool: &mut P,
    must: u64,
    wish: u64,
    held: u64,
) -> Result<u64, TaskFault>
    requires at_work { IsAtWork (P.state pool.old) }
    requires bytes { CanBeAsked must wish }
    requires held { held ≡ (P.state pool.old).account.held }
    ensures gets { IfOk result (GetsAlone (P.state pool.old).account (P.state pool.new).account must wish) }
    ensures no_room { IfNoRoom result (P.state pool.new).account
        (GetsNothing (P.state pool.old) (P.state pool.new) must wish) }
    ensures first { OnOk result (FirstAsks wish (P.state pool.old).worker (P.state pool.new).worker) }
    ensures goes { Goes (P.state pool.old) (P.state pool.new) }
    ensures no_disk { (faults : ℕ) → HasCauseAt TaskFault.DiskFault faults faults result }
{
    match acquire_or_nothing(pool, must, wish) {
        Ok(Some(got)) => Ok(got),
        Ok(None) => Err(TaskFault::NoRoom {
            asked: must,
            held,
            floor: pool.floor(),
        }),
        Err(_) => Err(TaskFault::NoMemory),
    }
}
