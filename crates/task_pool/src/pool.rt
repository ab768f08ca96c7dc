//! The trait.

ghost use Rattle.std.specs.Prelude.{◌≡◌, ◌≤◌, ◌^◌, ℕ, IfOk, OnOk};
ghost use Rattle.task_pool.specs.Accounts.{Grants, less_by};
ghost use Rattle.task_pool.specs.Asks.{FirstAsks};
ghost use Rattle.task_pool.specs.Pools.{Goes, IsAtWork, PoolState};

use std::alloc::AllocError;

/// A task that has begun and not ended, with the worker that began it and the pool that it draws bytes from.
pub trait Pool {
    /// The worker, its task, and what the task holds.
    ghost state: { Self → PoolState };

    /// What a grant that falls short leaves a task with, at least, in bytes.
    fn floor(&self) -> u64
        ensures { result ≡ (state self.now).account.floor };

    /// Asks for bytes until the answer is a grant, and answers how many were granted.
    fn acquire(&mut self, asked: u64) -> Result<u64, AllocError>
        requires at_work { IsAtWork (state self.old) }
        requires some { 1 ≤ asked }
        requires most { asked ≤ 2 ^ 50 }
        ensures grants { IfOk result (Grants (state self.old).account (state self.new).account asked) }
        ensures first { OnOk result (FirstAsks asked (state self.old).worker (state self.new).worker) }
        ensures goes { Goes (state self.old) (state self.new) };

    /// Gives bytes back, at most what the task holds.
    fn release(&mut self, bytes: u64) -> Result<(), AllocError>
        requires at_work { IsAtWork (state self.old) }
        ensures freed { OnOk result ((state self.new).account ≡ less_by (state self.old).account bytes) }
        ensures goes { Goes (state self.old) (state self.new) };
}

/// No call is a way to go on, and so are two calls. It does nothing when run.
pub fn pools_go_on()
    ensures none { (pool : PoolState) → IsAtWork pool → Goes pool pool }
    ensures more { (first then last : PoolState) → Goes first then → Goes then last → Goes first last }
    ensures asks { (asked : ℕ) (first then last : PoolState) → FirstAsks asked first.worker then.worker → Goes then last
        → FirstAsks asked first.worker last.worker }
{}
