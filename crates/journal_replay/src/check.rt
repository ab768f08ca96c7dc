//! The first rule that an entry breaks.

ghost use Rattle.std.specs.Prelude.{◌≡◌, ◌<◌, ◌&&◌, not};
ghost use Rattle.pool_ledger.specs.Legal.{is_own_turn};
ghost use Rattle.journal_audit.specs.Rules.{event_checks, first_broken, first_in, follows_evictions, is_waiting};
ghost use Rattle.journal_replay.specs.Checks.{IsOfBlock, IsOfStore};
ghost use Rattle.journal_replay.specs.Replays.{history_of, setup_of, IsReplay};

use crate::ask_rules::check_attempt;
use crate::block_rules::{check_evict, check_pin, check_remove, check_unpin};
use crate::grow_rules::check_grow;
use crate::replay::Replay;
use crate::store_rules::check_stored;
use crate::task_rules::{check_begin, check_end, check_release};
use journal_audit::Rule;
use pool_ledger::{Entry, Event};
use pool_plans::{AdmissionPlan, AttemptPlan};

/// The first rule that the entry breaks after those of the replay. `None` is that it may follow them.
pub(crate) fn check(replay: &Replay, entry: Entry) -> Option<Rule>
    requires { IsReplay replay.now }
    ensures { result ≡ first_broken (setup_of replay.now) (history_of replay.now) entry }
{
    if u64::from(entry.worker) >= replay.turns.ledger.setup().workers() {
        return Some(Rule::Worker);
    }
    if comes_amiss(replay, entry.worker, entry.event) {
        return Some(Rule::Pending);
    }
    check_event(replay, entry.worker, entry.event)
}

// Whether evictions wait, and this isn't what they can be for, or is another worker's.
fn comes_amiss(replay: &Replay, worker: u32, event: Event) -> bool
    requires { IsReplay replay.now }
    ensures { result ≡ (is_waiting (history_of replay.now)
        && not (follows_evictions event && is_own_turn (history_of replay.now) worker)) }
{
    match replay.turns.waits {
        Some(owner) => !(follows_evictions(event) && owner == worker),
        None => false,
    }
}

// Whether the event may come while evictions wait.
fn follows_evictions(event: Event) -> bool
    ensures { result ≡ follows_evictions event }
{
    match event {
        Event::Evict { .. } => true,
        Event::Attempt { .. } => true,
        Event::Admit { .. } => true,
        Event::Refused { .. } => true,
        _ => false,
    }
}

// The first rule that an event of a worker breaks.
fn check_event(replay: &Replay, worker: u32, event: Event) -> Option<Rule>
    requires tells { IsReplay replay.now }
    requires known { worker < 16 }
    ensures { result ≡ first_in (event_checks (setup_of replay.now) (history_of replay.now) worker event) }
{
    match event {
        Event::Begin { task } => check_begin(replay, worker, task),
        Event::Attempt {
            task,
            asked,
            moved,
            evictions,
            got,
        } => check_attempt(
            replay,
            worker,
            task,
            asked,
            AttemptPlan {
                moved,
                evictions,
                got,
            },
        ),
        Event::Release { task, freed } => check_release(replay, worker, task, freed),
        Event::End { task, freed } => check_end(replay, worker, task, freed),
        Event::Grow { bytes } => check_grow(replay, worker, bytes),
        event => check_block_event(replay, worker, event),
    }
}

// The first rule that an event of a block breaks.
fn check_block_event(replay: &Replay, worker: u32, event: Event) -> Option<Rule>
    requires tells { IsReplay replay.now }
    requires known { worker < 16 }
    requires block { IsOfBlock event }
    ensures { result ≡ first_in (event_checks (setup_of replay.now) (history_of replay.now) worker event) }
{
    match event {
        Event::Evict {
            dataset,
            part,
            size,
            fate,
        } => check_evict(replay, worker, dataset, part, size, fate),
        Event::Pin {
            dataset,
            part,
            copy,
        } => check_pin(replay, worker, dataset, part, copy),
        Event::Unpin { dataset, part } => check_unpin(replay, worker, dataset, part),
        Event::Remove {
            dataset,
            part,
            size,
        } => check_remove(replay, worker, dataset, part, size),
        event => check_store_event(replay, worker, event),
    }
}

// The first rule that an admission or a refusal breaks.
fn check_store_event(replay: &Replay, worker: u32, event: Event) -> Option<Rule>
    requires tells { IsReplay replay.now }
    requires store { IsOfStore event }
    ensures { result ≡ first_in (event_checks (setup_of replay.now) (history_of replay.now) worker event) }
{
    match event {
        Event::Admit {
            dataset,
            part,
            size,
            borrowed,
            evictions,
            ..
        } => check_stored(
            replay,
            dataset,
            part,
            size,
            AdmissionPlan {
                admitted: true,
                borrowed,
                evictions,
            },
        ),
        Event::Refused {
            dataset,
            part,
            size,
            borrowed,
            evictions,
        } => check_stored(
            replay,
            dataset,
            part,
            size,
            AdmissionPlan {
                admitted: false,
                borrowed,
                evictions,
            },
        ),
        _ => unreachable!(),
    }
}
