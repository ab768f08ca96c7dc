//! A journal's text, read and replayed.

ghost use Rattle.std.specs.Prelude.{◌≡◌, ◌++◌, ◌∷◌, All, None, IfOk, MatchResult};
ghost use Rattle.journal_audit.specs.Text.{lines_text, FitsIn};
ghost use Rattle.journal_audit.specs.Lines.{IsBadLine};
ghost use Rattle.journal_audit.specs.Rules.{first_broken};
ghost use Rattle.journal_replay.specs.Replays.{history_of, setup_of, IsReplay, TellsHistory};
ghost use Rattle.journal_replay.specs.Verdicts.{IsAnswer, IsVerdict};
ghost use Rattle.journal_replay.specs.declared.verdict.Verdict.{Verdict};

use crate::check::check;
use crate::laws::one_verdict_for_a_text;
use crate::replay::{Replay, add, start};
use crate::verdict::Verdict;
use journal_audit::{Rule, Version, rules_are_those_of_legal_journals, take_entry, take_setup};
use pool_ledger::{Entry, Setup};
use std::alloc::{AllocError, Global};

/// Whether the text is that of a legal journal, and if not, where and why. The whole text is read first. An
/// `Err` is want of memory.
pub fn audit(alloc: Global, text: &[u8]) -> Result<Verdict, AllocError>
    ensures verdict { IfOk result (IsVerdict text.now) }
    ensures only { IfOk result (λ told. (verdict : Verdict) → IsVerdict text.now verdict → told ≡ verdict) }
{
    // For the proof: a text has one verdict.
    one_verdict_for_a_text();
    read_and_replay(alloc, text)
}

// A verdict of the text.
fn read_and_replay(alloc: Global, text: &[u8]) -> Result<Verdict, AllocError>
    ensures { IfOk result (IsVerdict text.now) }
{
    let Some((version, setup, lines)) = take_setup(text) else {
        return Ok(Verdict::BadLine { line: 1 });
    };
    match read_entries(alloc, version, lines)? {
        Ok(entries) => replay_all(alloc, setup, &entries),
        Err(line) => Ok(Verdict::BadLine { line }),
    }
}

// The entries of the lines behind the first one, or the number of the first that isn't an entry's in this version.
fn read_entries(
    alloc: Global,
    version: Version,
    lines: &[u8],
) -> Result<Result<Vec<Entry>, u64>, AllocError>
    ensures { IfOk result (λ read. MatchResult read
        (λ entries. All (FitsIn version) entries.items × (lines.now ≡ lines_text entries.items))
        (λ line. IsBadLine version lines.now line)) }
{
    let mut entries = Vec::new(alloc);
    let mut rest = lines;
    while !rest.is_empty() {
        let Some((entry, behind)) = take_entry(version, rest) else {
            return Ok(Err(entries.len() as u64 + 2));
        };
        entries.push(entry)?;
        rest = behind;
    }
    Ok(Ok(entries))
}

// The answer to the entries of a journal.
fn replay_all(alloc: Global, setup: Setup, entries: &[Entry]) -> Result<Verdict, AllocError>
    ensures { IfOk result (IsAnswer setup entries.now) }
{
    let mut replay = start(alloc, setup)?;
    for (index, entry) in entries.iter().enumerate() {
        let broken = step(&mut replay, *entry)?;
        if let Some(rule) = broken {
            return Ok(Verdict::No {
                event: index as u64 + 1,
                rule,
            });
        }
    }
    if replay.turns.waits.is_some() {
        return Ok(Verdict::No {
            event: entries.len() as u64 + 1,
            rule: Rule::Pending,
        });
    }
    Ok(Verdict::Yes {
        events: entries.len() as u64,
    })
}

// The first rule that the entry breaks. If it breaks none it is added.
fn step(replay: &mut Replay, entry: Entry) -> Result<Option<Rule>, AllocError>
    requires { IsReplay replay.old }
    ensures broken { IfOk result (λ broken. broken ≡ first_broken (setup_of replay.old) (history_of replay.old) entry) }
    ensures next { IfOk result (λ broken. broken ≡ None → TellsHistory replay.new (entry ∷ history_of replay.old)) }
    ensures setup { IfOk result (λ broken. broken ≡ None → setup_of replay.new ≡ setup_of replay.old) }
{
    // For the proof: an entry that breaks no rule may follow those before it.
    rules_are_those_of_legal_journals();
    let broken = check(replay, entry);
    if broken.is_some() {
        return Ok(broken);
    }
    add(replay, entry)?;
    Ok(None)
}
