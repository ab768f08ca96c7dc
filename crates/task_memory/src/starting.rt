//! A task's memory as it starts.

ghost use Rattle.std.specs.Prelude.{◌≡◌, ◌<◌, ℕ, length, map, slice_index, IfOk};
ghost use Rattle.fault_count.specs.Faults.{HasCauseAt};
ghost use Rattle.task_memory.specs.Feeding.{IfNoRoom};
ghost use Rattle.task_memory.specs.Leasts.{CannotStart, IsLeastLacking, TakesLeasts, leasts_of};
ghost use Rattle.task_memory.specs.Starting.{AreAlike, ArePlaces, HoldsNothing};
ghost use Rattle.task_memory.specs.Words.{Starts};
ghost use Rattle.task_pool.specs.Pools.{Goes, IsAtWork};

use crate::alone::acquire_alone;
use crate::begin::begin_all;
use crate::fault::TaskFault;
use crate::spills::Spills;
use aggregate::Kind;
use consumer_trait::{Consumer, least_at};
use std::alloc::Global;
use task_pool::{Pool, pools_go_on};

/// What a task's memory starts with, beside what is lent to it.
#[derive(Drop)]
pub struct Started {
    /// What is kept of its spills.
    pub spills: Spills,
    /// The bytes that are held for its consumers' leasts.
    pub leasts: u64,
}

// Gets the leasts of the consumers at these places, one by one, and answers their sum.
fn take_leasts<C: Consumer, P: Pool>(
    consumers: &[C],
    pool: &mut P,
    picks: &[usize],
) -> Result<u64, TaskFault>
    requires at_work { IsAtWork (P.state pool.old) }
    requires nothing { (P.state pool.old).account.held ≡ 0 }
    requires within { (j : ℕ) → j < length picks.now → slice_index picks.now j < length consumers.now }
    ensures takes { IfOk result
        (TakesLeasts (P.state pool.new).account (leasts_of picks.now (map C.state consumers.now))) }
    ensures no_room { IfNoRoom result (P.state pool.new).account
        (IsLeastLacking (P.state pool.new).account (leasts_of picks.now (map C.state consumers.now))) }
    ensures no_disk { (faults : ℕ) → HasCauseAt TaskFault.DiskFault faults faults result }
    ensures goes { Goes (P.state pool.old) (P.state pool.new) }
{
    // For the proof: no call is a way to go on, and so are two calls.
    pools_go_on();
    let mut sum: u64 = 0;
    for j in 0..picks.len() {
        let least = least_at(consumers, picks[j]);
        // A least of 0 isn't asked for.
        if least > 0 {
            sum += acquire_alone(pool, least, least, sum)?;
        }
    }
    Ok(sum)
}

/// Makes a task that holds nothing ready. All consumers are reset, and those at `picks` are begun, each with its kind:
/// they are the task's own, in this order. Their leasts are got at once, each by one attempt: `NoRoom` where one isn't
/// granted whole. After an `Err` the task holds what it got until it is ended, and the consumers can be begun again.
pub fn start<C: Consumer, P: Pool>(
    alloc: Global,
    pool: &mut P,
    consumers: &mut [C],
    picks: &[usize],
    kinds: &[Kind],
) -> Result<Started, TaskFault>
    requires idle { HoldsNothing (P.state pool.old) }
    requires places { ArePlaces picks.now kinds.now (map C.state consumers.old) }
    ensures starts { IfOk result (Starts picks.now kinds.now (map C.state consumers.old)
        (map C.state consumers.new) (P.state pool.new) (length consumers.old)) }
    ensures no_room { IfNoRoom result (P.state pool.new).account
        (CannotStart (P.state pool.new).account
        (leasts_of picks.now (map C.state consumers.old)) (map C.state consumers.new)) }
    ensures no_disk { (faults : ℕ) → HasCauseAt TaskFault.DiskFault faults faults result }
    ensures alike { AreAlike (map C.state consumers.old) (map C.state consumers.new) }
    ensures goes { Goes (P.state pool.old) (P.state pool.new) }
{
    // For the proof: no call is a way to go on, and so are two calls.
    pools_go_on();
    let Ok(()) = begin_all(consumers, picks, kinds) else {
        return Err(TaskFault::NoMemory);
    };
    let Ok(spills) = Spills::new(alloc, picks, consumers.len()) else {
        return Err(TaskFault::NoMemory);
    };
    match take_leasts(consumers, pool, picks) {
        Ok(leasts) => Ok(Started { spills, leasts }),
        Err(fault) => Err(fault),
    }
}
