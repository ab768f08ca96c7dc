//! The text of a whole journal, written.

ghost use Rattle.std.specs.Prelude.{◌≡◌, ◌++◌, OnOk, IfOk, All};
ghost use Rattle.journal_audit.specs.Text.{Fits, lines_text, text_of};
ghost use Rattle.journal_audit.specs.Lines.{IsSetup};

use crate::widths::journal_fits;
use crate::writing::{put_entry, put_head};
use pool_ledger::{Entry, Journal, Setup};
use std::alloc::{AllocError, Global};

/// The text of a journal that came from a pool of this setup, in the second version: a first line with the
/// setup's sizes, then a line for each entry. An `Err` is want of memory.
pub fn journal_text(alloc: Global, setup: &Setup, journal: &Journal) -> Result<Vec<u8>, AllocError>
    ensures ok { IfOk result (λ text. text.items ≡ text_of setup.now journal.now) }

    // The numbers are ones that the format has, so no other journal has this text.
    ensures sizes { IsSetup setup.now }
    ensures fits { All Fits journal.now }
{
    // For the proof: a setup is in its range, and the numbers of entries are below their widths.
    let _max = setup.max();
    journal_fits(journal);
    let mut out = Vec::new(alloc);
    put_head(&mut out, setup)?;
    out.push(b'\n')?;
    put_lines(&mut out, journal.entries())?;
    Ok(out)
}

// The lines of these entries.
fn put_lines(out: &mut Vec<u8>, entries: &[Entry]) -> Result<(), AllocError>
    ensures ok { OnOk result (out.new.items ≡ out.old.items ++ lines_text entries.now) }
{
    for entry in entries {
        put_entry(out, *entry)?;
        out.push(b'\n')?;
    }
    Ok(())
}
