//! The rules of tasks: begin, release and end.

ghost use Rattle.std.specs.Prelude.{◌≡◌};
ghost use Rattle.pool_ledger.specs.History.{open_task};
ghost use Rattle.journal_audit.specs.Rules.{event_checks, first_in, is_the};
ghost use Rattle.pool_ledger.specs.declared.entry.Event.TheVariants.{Begin, Release, End};
ghost use Rattle.journal_replay.specs.Replays.{history_of, setup_of, IsReplay};

use crate::replay::Replay;
use crate::turns::{held, open_task};
use journal_audit::Rule;

/// Whether the worker's open task is this one.
pub(crate) fn is_task(replay: &Replay, worker: u32, task: u32) -> bool
    requires { IsReplay replay.now }
    ensures { result ≡ is_the (open_task (history_of replay.now) worker) task }
{
    match open_task(&replay.turns, worker) {
        Some(open) => open == task,
        None => false,
    }
}

/// The rule that the begin of a task breaks.
pub(crate) fn check_begin(replay: &Replay, worker: u32, task: u32) -> Option<Rule>
    requires { IsReplay replay.now }
    ensures { result ≡ first_in (event_checks (setup_of replay.now) (history_of replay.now) worker (Begin task)) }
{
    if replay.tables.begun.contains(&task) || open_task(&replay.turns, worker).is_some() {
        return Some(Rule::Task);
    }
    None
}

/// The rule that a release breaks.
pub(crate) fn check_release(replay: &Replay, worker: u32, task: u32, freed: u64) -> Option<Rule>
    requires { IsReplay replay.now }
    ensures { result ≡ first_in (event_checks (setup_of replay.now) (history_of replay.now) worker (Release task freed)) }
{
    if !is_task(replay, worker, task) {
        return Some(Rule::Task);
    }
    if held(&replay.turns, task) < freed {
        return Some(Rule::Freed);
    }
    None
}

/// The rule that the end of a task breaks.
pub(crate) fn check_end(replay: &Replay, worker: u32, task: u32, freed: u64) -> Option<Rule>
    requires { IsReplay replay.now }
    ensures { result ≡ first_in (event_checks (setup_of replay.now) (history_of replay.now) worker (End task freed)) }
{
    if !is_task(replay, worker, task) {
        return Some(Rule::Task);
    }
    if freed != held(&replay.turns, task) {
        return Some(Rule::Freed);
    }
    None
}
