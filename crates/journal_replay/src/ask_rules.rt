//! The rules of an attempt: what it asked, what went for it, what moved and what it was granted.

ghost use Rattle.std.specs.Prelude.{◌≡◌, ◌≤◌, ◌<◌, ◌^◌, ℕ, Some, None, length, take};
ghost use Rattle.pool_ledger.specs.declared.entry.Event.TheVariants.{Attempt};
ghost use Rattle.pool_ledger.specs.History.{open_task};
ghost use Rattle.pool_ledger.specs.Answers.{answer, growth};
ghost use Rattle.pool_ledger.specs.Blocks.{evictable, sizes, stored};
ghost use Rattle.pool_ledger.specs.Legal.{settled, IsPermitted};
ghost use Rattle.execution_pool.specs.Shares.{granted_in};
ghost use Rattle.journal_audit.specs.Rules.{event_checks, first_in, goes, is_answer};
ghost use Rattle.journal_replay.specs.Checks.{attempt_checks};
ghost use Rattle.journal_replay.specs.Replays.{history_of, setup_of, IsReplay};

use crate::fronts::Freed;
use crate::replay::Replay;
use crate::task_rules::is_task;
use crate::turns::ledger_keeps_laws;
use crate::victims::{freed_by, have_gone};
use execution_pool::{Share, ShareAt, share};
use journal_audit::Rule;
use pool_ledger::Ledger;
use pool_plans::{AttemptPlan, plan_attempt, room_for_attempt};

/// The rule that an attempt breaks, of which this is told.
pub(crate) fn check_attempt(
    replay: &Replay,
    worker: u32,
    task: u32,
    asked: u64,
    told: AttemptPlan,
) -> Option<Rule>
    requires { IsReplay replay.now }
    ensures { result ≡ first_in (event_checks (setup_of replay.now) (history_of replay.now) worker
        (Attempt task asked told.moved told.evictions told.got)) }
{
    if !is_task(replay, worker, task) {
        return Some(Rule::Task);
    }
    if asked == 0 || 1 << 50 < asked {
        return Some(Rule::Asked);
    }
    check_growth(replay, worker, task, asked, told)
}

// The rule that the growth or the answer breaks, for an ask in range of an open task.
fn check_growth(
    replay: &Replay,
    worker: u32,
    task: u32,
    asked: u64,
    told: AttemptPlan,
) -> Option<Rule>
    requires tells { IsReplay replay.now }
    requires its_task { open_task (history_of replay.now) worker ≡ Some task }
    requires few_asked { asked ≤ 2 ^ 50 }
    ensures { result ≡ first_in (attempt_checks (setup_of replay.now) (history_of replay.now) task asked told) }
{
    let plan = plan_ask(replay, worker, task, asked);
    if !went_for_ask(replay, asked, plan, told.evictions) {
        return Some(Rule::Victims);
    }
    if told.moved != plan.moved {
        return Some(Rule::Growth);
    }
    if !is_answer(told.got, plan.got) {
        return Some(Rule::Share);
    }
    None
}

// The plan for the ask, with the blocks before the evictions that wait.
fn plan_ask(replay: &Replay, worker: u32, task: u32, asked: u64) -> AttemptPlan
    requires tells { IsReplay replay.now }
    requires its_task { open_task (history_of replay.now) worker ≡ Some task }
    requires few_asked { asked ≤ 2 ^ 50 }
    ensures moved { result.moved ≡ (growth (setup_of replay.now) (settled (history_of replay.now)) asked).moved }
    ensures got { result.got ≡ answer (setup_of replay.now) (settled (history_of replay.now)) task asked }
    ensures first { take result.evictions (evictable replay.now.turns.ledger.history None)
        ≡ (growth (setup_of replay.now) (settled (history_of replay.now)) asked).evicted }
    ensures few { result.evictions ≤ length (evictable replay.now.turns.ledger.history None) }
{
    let ledger = &replay.turns.ledger;
    let room = room_for_attempt(ledger, asked);
    if room.need == 0 {
        return plan_attempt(ledger, room, &[], task, asked);
    }
    let freed = freed_by(replay, room.need, None);
    plan_evicting(ledger, freed, task, asked)
}

// The plan for an ask for which these blocks have to go.
fn plan_evicting(ledger: &Ledger, freed: Freed, task: u32, asked: u64) -> AttemptPlan
    requires permitted { IsPermitted ledger.now.setup ledger.now.history }
    requires needs { 0 < (growth ledger.now.setup ledger.now.history asked).need }
    requires bytes { freed.bytes ≡ sizes (growth ledger.now.setup ledger.now.history asked).evicted }
    requires stored { freed.bytes ≤ stored ledger.now.history }
    requires its_task { (worker : ℕ) × (open_task ledger.now.history worker ≡ Some task) }
    requires few_asked { asked ≤ 2 ^ 50 }
    ensures moved { result.moved ≡ (growth ledger.now.setup ledger.now.history asked).moved }
    ensures got { result.got ≡ answer ledger.now.setup ledger.now.history task asked }
    ensures evictions { result.evictions ≡ freed.count }
{
    ledger_keeps_laws(ledger);
    let moved = moved_with(ledger, freed.bytes, asked);
    let newcomers = if ledger.is_active(task) { 0 } else { 1 };
    let got = bytes_of(share(ShareAt {
        max: ledger.max(),
        region: ledger.setup().region(),
        stored: ledger.stored() - freed.bytes,
        pool: ledger.execution_pool() + moved,
        exec: ledger.exec(),
        held: ledger.held(task),
        active: ledger.active() + newcomers,
        asked,
    }));
    AttemptPlan {
        moved,
        evictions: freed.count,
        got,
    }
}

// What moves for an ask for which blocks of so many bytes have to go: they go only once all that storage has
// free moves.
fn moved_with(ledger: &Ledger, bytes: u64, asked: u64) -> u64
    requires permitted { IsPermitted ledger.now.setup ledger.now.history }
    requires needs { 0 < (growth ledger.now.setup ledger.now.history asked).need }
    requires bytes { bytes ≡ sizes (growth ledger.now.setup ledger.now.history asked).evicted }
    requires stored { bytes ≤ stored ledger.now.history }
    ensures { result ≡ (growth ledger.now.setup ledger.now.history asked).moved }
{
    ledger_keeps_laws(ledger);
    ledger.storage_pool() - ledger.stored() + bytes
}

// What is granted, if it is no wait.
fn bytes_of(share: Share) -> Option<u64>
    ensures { result ≡ granted_in share }
{
    match share {
        Share::Grant(bytes) => Some(bytes),
        Share::Wait => None,
    }
}

// Whether what went is what the plan evicts, and its number is told.
fn went_for_ask(replay: &Replay, asked: u64, plan: AttemptPlan, told: u64) -> bool
    requires tells { IsReplay replay.now }
    requires first { take plan.evictions (evictable replay.now.turns.ledger.history None)
        ≡ (growth (setup_of replay.now) (settled (history_of replay.now)) asked).evicted }
    requires few { plan.evictions ≤ length (evictable replay.now.turns.ledger.history None) }
    ensures { result ≡ goes (history_of replay.now)
        (growth (setup_of replay.now) (settled (history_of replay.now)) asked).evicted told }
{
    have_gone(replay, None, plan.evictions, told)
}

// Whether two answers are the same; none is a wait.
fn is_answer(got: Option<u64>, answer: Option<u64>) -> bool
    ensures { result ≡ is_answer got answer }
{
    match (got, answer) {
        (None, None) => true,
        (Some(got), Some(granted)) => got == granted,
        (None, Some(_)) => false,
        (Some(_), None) => false,
    }
}
