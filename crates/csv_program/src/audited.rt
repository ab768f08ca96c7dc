//! That a run's journal passes an audit. Nothing here does anything when run, but for one pass over the entries.

ghost use Rattle.std.specs.Prelude.{IfSome, length};
ghost use Rattle.journal_audit.specs.Text.{text_of};
ghost use Rattle.journal_replay.specs.Verdicts.{IsVerdict};
ghost use Rattle.journal_replay.specs.declared.verdict.Verdict.TheVariants.{Yes};
ghost use Rattle.pool_ledger.specs.Journal.{history_of};
ghost use Rattle.pool_ledger.specs.Legal.{IsLegal};

use job_ending::Outcome;
use journal_audit::journal_fits;
use journal_replay::one_verdict_for_a_text;

// The text of a legal journal that a call leaves has the verdict of its number of entries.
pub fn journal_is_audited(outcome: &Outcome)
    requires legal { IfSome outcome.now.setup (λ pool. IsLegal pool (history_of outcome.now.journal)) }
    ensures { IfSome outcome.now.setup (λ pool. IsVerdict (text_of pool outcome.now.journal) (Yes (length outcome.now.journal))) }
{
    one_verdict_for_a_text();
    if let Some(setup) = &outcome.setup {
        // For the proof: a setup is in its range.
        let _max = setup.max();
        journal_fits(&outcome.journal);
    }
}
