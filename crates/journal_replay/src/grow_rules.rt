//! The rule of a growth of both pools.

ghost use Rattle.std.specs.Prelude.{◌≡◌};
ghost use Rattle.pool_ledger.specs.declared.entry.Event.TheVariants.{Grow};
ghost use Rattle.journal_audit.specs.Rules.{event_checks, first_in};
ghost use Rattle.journal_replay.specs.Replays.{history_of, setup_of, IsReplay};

use crate::replay::Replay;
use crate::turns::max;
use journal_audit::Rule;

/// The rule that a growth breaks.
pub(crate) fn check_grow(replay: &Replay, worker: u32, bytes: u64) -> Option<Rule>
    requires { IsReplay replay.now }
    ensures { result ≡ first_in (event_checks (setup_of replay.now) (history_of replay.now) worker (Grow bytes)) }
{
    if worker != 0 || bytes == 0 || 1 << 36 < bytes {
        return Some(Rule::Grow);
    }
    if 1 << 41 < max(&replay.turns) + bytes {
        return Some(Rule::Grow);
    }
    None
}
