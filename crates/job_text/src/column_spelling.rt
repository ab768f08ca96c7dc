//! A column by itself, as a printed job spells it.

ghost use Rattle.std.specs.Prelude.{◌≡◌, IfOk, string_bytes};
ghost use Rattle.job_text.specs.Printing.{column_token, token_text};

use crate::printer::Printer;
use item_lists::Name;
use std::alloc::{AllocError, Global};

/// A column as a printed job spells it: a word where that is possible, and in quotes else, each quote in it
/// doubled. The one error is want of memory.
pub fn spell_column(alloc: Global, name: &Name) -> Result<String, AllocError>
    // Want of memory is the one answer without a cause; a test shows success.
    ensures { IfOk result (λ text. string_bytes text ≡ token_text (column_token name.now)) }
{
    let mut printer = Printer::new(alloc);
    printer.column(name)?;
    Ok(printer.into_text())
}
