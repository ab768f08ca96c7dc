//! The line of a verdict.

ghost use Rattle.std.specs.Prelude.{◌≡◌, ◌++◌, decimal, IfOk, OnOk};
ghost use Rattle.audit_program.specs.Calls.{line_of, rule_word, verdict_text};

use itoa::Buffer;
use journal_audit::Rule;
use journal_replay::Verdict;
use std::alloc::{AllocError, Global};

/// The line of a verdict, with its line feed. An `Err` is want of memory.
pub(crate) fn line_of(alloc: Global, verdict: Verdict) -> Result<Vec<u8>, AllocError>
    ensures { IfOk result (λ line. line.items ≡ line_of verdict) }
{
    let mut line = Vec::new(alloc);
    put_verdict(&mut line, verdict)?;
    line.push(b'\n')?;
    Ok(line)
}

// Appends the text of a verdict. After an `Err` a part of it may be there.
fn put_verdict(line: &mut Vec<u8>, verdict: Verdict) -> Result<(), AllocError>
    ensures ok { OnOk result (line.new.items ≡ line.old.items ++ verdict_text verdict) }
{
    match verdict {
        Verdict::Yes { events } => put_counted(line, b"yes ", events),
        Verdict::No { event, rule } => {
            put_counted(line, b"no ", event)?;
            line.push(b' ')?;
            put_rule(line, rule)
        }
        Verdict::BadLine { line: number } => put_counted(line, b"bad line ", number),
    }
}

// Appends a word and a number.
fn put_counted(line: &mut Vec<u8>, word: &[u8], number: u64) -> Result<(), AllocError>
    ensures ok { OnOk result (line.new.items ≡ line.old.items ++ (word.now ++ decimal number)) }
{
    line.extend_from_slice(word)?;
    line.extend_from_slice(Buffer::new().format(number).as_bytes())
}

// Appends the word of a rule.
fn put_rule(line: &mut Vec<u8>, rule: Rule) -> Result<(), AllocError>
    ensures ok { OnOk result (line.new.items ≡ line.old.items ++ rule_word rule) }
{
    line.extend_from_slice(match rule {
        Rule::Worker => b"worker",
        Rule::Pending => b"pending",
        Rule::Task => b"task",
        Rule::Asked => b"asked",
        Rule::Block => b"block",
        Rule::Pin => b"pin",
        Rule::Victims => b"victims",
        Rule::Growth => b"growth",
        Rule::Share => b"share",
        Rule::Store => b"store",
        Rule::Freed => b"freed",
        Rule::Grow => b"grow",
    })
}
