ghost use Rattle.std.specs.Prelude.{◌≡◌, ◌+◌, ◌-◌, ◌^◌, ◌<◌, ◌≤◌, ◌↔◌, IfSome};
ghost use Rattle.pool_ledger.specs.Answers.{greatest_share, least_share, grant_of, share_of};
ghost use Rattle.execution_pool.specs.Shares.{moment_of, granted_in};

use crate::ask::{Share, ShareAt};

/// The answer to an ask, once what it takes from storage has moved.
///
/// The task counts as active from its first ask on, whatever the answer is.
/// Source: Spark, `ExecutionMemoryPool.acquireMemory`.
pub fn share(at: ShareAt) -> Share
    requires held { at.held ≤ at.exec }
    requires exec { at.exec ≤ at.pool }
    requires pools { at.stored + at.pool ≤ at.max }
    requires active { 1 ≤ at.active }
    requires max_small { at.max ≤ 2 ^ 50 }
    requires region_small { at.region ≤ 2 ^ 50 }
    requires active_small { at.active ≤ 2 ^ 50 }
    requires asked_small { at.asked ≤ 2 ^ 50 }
    ensures exact { granted_in result ≡ share_of (moment_of at) }

    // A grant is within what was asked and what is free, and leaves the task within its fair share.
    ensures asked { IfSome (granted_in result) (λ granted. granted ≤ at.asked) }
    ensures free { IfSome (granted_in result) (λ granted. granted ≤ at.pool - at.exec) }
    ensures greatest { IfSome (granted_in result) (λ granted. 0 < granted
        → at.held + granted ≤ greatest_share (moment_of at)) }

    // A grant that falls short leaves the task with at least half an equal part of the execution pool;
    // where it can't, the task waits.
    ensures least { IfSome (granted_in result) (λ granted. granted < at.asked
        → least_share (moment_of at) ≤ at.held + granted) }
    ensures wait { let grant = grant_of (moment_of at) in (result ≡ Share.Wait)
        ↔ ((grant < at.asked) × (at.held + grant < least_share (moment_of at))) }
{
    let limit = at.max - at.stored.min(at.region);
    let greatest = limit / at.active;
    let least = at.pool / (2 * at.active);
    let grant = at
        .asked
        .min(greatest.saturating_sub(at.held))
        .min(at.pool - at.exec);
    if grant < at.asked && at.held + grant < least {
        Share::Wait
    } else {
        Share::Grant(grant)
    }
}
