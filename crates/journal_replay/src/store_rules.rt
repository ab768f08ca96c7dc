//! The rules of an admission and of a refusal: what went for it, what was borrowed, and which of the two it is.

ghost use Rattle.std.specs.Prelude.{◌≡◌, ◌≤◌, ◌<◌, ◌∷◌, Some, length, take};
ghost use Rattle.pool_ledger.specs.Answers.{admission};
ghost use Rattle.pool_ledger.specs.Blocks.{evictable, is_resident, sizes};
ghost use Rattle.pool_ledger.specs.Legal.{settled, IsPermitted};
ghost use Rattle.pool_plans.specs.Needs.{need_for};
ghost use Rattle.journal_audit.specs.declared.rules.Rule.TheVariants.{Block};
ghost use Rattle.journal_audit.specs.Rules.{breaks, first_in, goes};
ghost use Rattle.journal_replay.specs.Checks.{admission_checks, differs};
ghost use Rattle.journal_replay.specs.Replays.{history_of, setup_of, IsReplay};

use crate::block_rules::is_resident;
use crate::fronts::Freed;
use crate::replay::Replay;
use crate::turns::ledger_keeps_laws;
use crate::victims::{freed_by, have_gone};
use journal_audit::Rule;
use pool_ledger::Ledger;
use pool_plans::{AdmissionPlan, need_of_admission, plan_admission};

/// The rule that an admission or a refusal breaks, of which this is told.
pub(crate) fn check_stored(
    replay: &Replay,
    dataset: u32,
    part: u32,
    size: u64,
    told: AdmissionPlan,
) -> Option<Rule>
    requires { IsReplay replay.now }
    ensures { result ≡ first_in (breaks Block (is_resident (history_of replay.now) dataset part)
        ∷ admission_checks (setup_of replay.now) (history_of replay.now) dataset size told) }
{
    if is_resident(replay, dataset, part) {
        return Some(Rule::Block);
    }
    check_absent(replay, dataset, size, told)
}

// The rule that an admission or a refusal of a block that isn't in memory breaks.
fn check_absent(replay: &Replay, dataset: u32, size: u64, told: AdmissionPlan) -> Option<Rule>
    requires { IsReplay replay.now }
    ensures { result ≡ first_in (admission_checks (setup_of replay.now) (history_of replay.now) dataset size told) }
{
    let plan = plan_block(replay, dataset, size);
    if !went_for_block(replay, dataset, size, plan, told.evictions) {
        return Some(Rule::Victims);
    }
    if told.borrowed != plan.borrowed {
        return Some(Rule::Store);
    }
    if differs(told.admitted, plan.admitted) {
        return Some(Rule::Store);
    }
    None
}

// The plan for the block, with the blocks before the evictions that wait.
fn plan_block(replay: &Replay, dataset: u32, size: u64) -> AdmissionPlan
    requires tells { IsReplay replay.now }
    ensures admitted { result.admitted
        ≡ (admission (setup_of replay.now) (settled (history_of replay.now)) dataset size).admitted }
    ensures borrowed { result.borrowed
        ≡ (admission (setup_of replay.now) (settled (history_of replay.now)) dataset size).borrowed }
    ensures first { take result.evictions (evictable replay.now.turns.ledger.history (Some dataset))
        ≡ (admission (setup_of replay.now) (settled (history_of replay.now)) dataset size).evicted }
    ensures few { result.evictions ≤ length (evictable replay.now.turns.ledger.history (Some dataset)) }
{
    let ledger = &replay.turns.ledger;
    let need = need_of_admission(ledger, size);
    if need == 0 {
        return plan_admission(ledger, &[], dataset, size);
    }
    let freed = freed_by(replay, need, Some(dataset));
    plan_evicting(ledger, freed, dataset, size, need)
}

// The plan for a block for which these blocks have to go.
fn plan_evicting(ledger: &Ledger, freed: Freed, dataset: u32, size: u64, need: u64) -> AdmissionPlan
    requires permitted { IsPermitted ledger.now.setup ledger.now.history }
    requires need_is { need ≡ need_for ledger.now.setup ledger.now.history size }
    requires some_need { 1 ≤ need }
    requires bytes { freed.bytes ≡ sizes (admission ledger.now.setup ledger.now.history dataset size).evicted }
    ensures admitted { result.admitted ≡ (admission ledger.now.setup ledger.now.history dataset size).admitted }
    ensures borrowed { result.borrowed ≡ (admission ledger.now.setup ledger.now.history dataset size).borrowed }
    ensures evictions { result.evictions ≡ freed.count }
{
    ledger_keeps_laws(ledger);
    AdmissionPlan {
        admitted: need <= freed.bytes,
        // Blocks go only once all that execution has free is borrowed.
        borrowed: ledger.execution_pool() - ledger.exec(),
        evictions: freed.count,
    }
}

// Whether what went is what the plan evicts, and its number is told.
fn went_for_block(replay: &Replay, dataset: u32, size: u64, plan: AdmissionPlan, told: u64) -> bool
    requires tells { IsReplay replay.now }
    requires first { take plan.evictions (evictable replay.now.turns.ledger.history (Some dataset))
        ≡ (admission (setup_of replay.now) (settled (history_of replay.now)) dataset size).evicted }
    requires few { plan.evictions ≤ length (evictable replay.now.turns.ledger.history (Some dataset)) }
    ensures { result ≡ goes (history_of replay.now)
        (admission (setup_of replay.now) (settled (history_of replay.now)) dataset size).evicted told }
{
    have_gone(replay, Some(dataset), plan.evictions, told)
}

// Whether one was admitted and the other wasn't.
fn differs(told: bool, admitted: bool) -> bool
    ensures { result ≡ differs told admitted }
{
    if told { !admitted } else { admitted }
}
