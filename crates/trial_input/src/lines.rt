//! The lines that a trial prints.

ghost use Rattle.std.specs.Prelude.{◌≡◌, ◌≤◌, IfOk, pos};
ghost use Rattle.trial_input.specs.Lines.{lines_with, trial_lines as lines_of_trial, trial_output};

use crate::tally::tally_text;
use itoa::Buffer;
use std::alloc::{AllocError, Global};

/// Three lines with these numbers.
fn lines_of(alloc: Global, rows: u64, group_count: u64, counted: u64) -> Result<Vec<u8>, AllocError>
    ensures { IfOk result (λ text. text.items ≡ lines_with rows group_count (pos counted)) }
{
    let mut buffer = Buffer::new();
    let mut text = Vec::from_slice(alloc, b"rows ")?;
    text.extend_from_slice(buffer.format(rows).as_bytes())?;
    text.extend_from_slice(b"\ngroups ")?;
    text.extend_from_slice(buffer.format(group_count).as_bytes())?;
    text.extend_from_slice(b"\ncounted ")?;
    text.extend_from_slice(buffer.format(counted).as_bytes())?;
    text.extend_from_slice(b"\n")?;
    Ok(text)
}

/// The three lines of a trial of so many rows, by the tables that the run of its job printed: `rows`, `groups`
/// with the number of rows of the last table, and `counted` with what the counts of the first come to.
pub fn trial_lines(alloc: Global, rows: u64, printed: &[u8]) -> Result<Vec<u8>, AllocError>
    requires few { rows ≤ 1000000 }
    ensures lines { printed.now ≡ trial_output rows → IfOk result (λ text. text.items ≡ lines_of_trial rows) }
{
    let tally = tally_text(alloc, printed)?;
    lines_of(alloc, rows, tally.rows, tally.counted)
}
