//! Which rows a reader takes.

ghost use Rattle.std.specs.Prelude.{◌≡◌, ◌<◌, ◌↔◌, All, IsTrue, IfOk};
ghost use Rattle.row_page.specs.Views.{fields_in};
ghost use Rattle.aggregate.specs.Values.{IsValueOf};
ghost use Rattle.row_form.specs.Forms.{IsFormed, IsOfForm, IsWellFormed};
ghost use Rattle.row_form.specs.declared.form.Form.TheVariants.{Entries, Landed};
ghost use Rattle.row_form.specs.Numbers.{may_be};

use crate::NumberList;
use aggregate::Kind;
use row_page::{RowView, split_piece};
use std::alloc::AllocError;

/// What the rows of a run are. A reader is made for a form, and takes a row of another for damage.
#[derive(Debug, Drop)]
pub enum Form {
    /// Rows of two fields, key and value.
    Entries(Kind),
    /// Landed rows: a number of 8 bytes and the kept columns, with numbers in the number columns, or in value columns nothing.
    Landed { columns: u32, numbers: NumberList },
}

impl Form {
    /// The same form in memory of its own.
    pub fn copy(&self) -> Result<Form, AllocError>
        ensures { IfOk result (λ form. form ≡ self.now) }
    {
        match self {
            Form::Entries(kind) => Ok(Form::Entries(kind.copy()?)),
            Form::Landed { columns, numbers } => Ok(Form::Landed {
                columns: *columns,
                numbers: numbers.copy()?,
            }),
        }
    }

    /// Whether the row is well formed for this form, and costs at most `greatest` bytes in a run file.
    pub fn accepts(&self, row: RowView<'_>, greatest: u64) -> bool
        ensures { IsTrue result ↔ IsWellFormed self.now greatest (fields_in row.entry) }
    {
        self.takes(row.bytes(), greatest)
    }

    /// Whether the bytes are those of a row that `accepts` takes. It goes over them once.
    #[inline(always)]
    pub fn takes(&self, bytes: &[u8], greatest: u64) -> bool
        ensures { IsTrue result ↔ IsFormed self.now greatest bytes.now }
    {
        if bytes.len() > u32::MAX as usize || bytes.len() as u64 + 24 > greatest {
            return false;
        }
        match self {
            Form::Entries(kind) => is_entry(kind, bytes),
            Form::Landed { columns, numbers } => is_landed(*columns, numbers, bytes),
        }
    }
}

/// Whether the bytes are a key and a value of this kind.
#[inline(always)]
fn is_entry(kind: &Kind, bytes: &[u8]) -> bool
    ensures { IsTrue result ↔ IsOfForm (Entries kind.now) bytes.now }
{
    let Some((_, behind)) = split_piece(bytes) else {
        return false;
    };
    let Some((value, rest)) = split_piece(behind) else {
        return false;
    };
    rest.is_empty() && kind.takes(value)
}

/// Whether the bytes are those of a landed row.
#[inline(always)]
fn is_landed(columns: u32, numbers: &NumberList, bytes: &[u8]) -> bool
    ensures { IsTrue result ↔ IsOfForm (Landed columns numbers.now) bytes.now }
{
    let Some((number, behind)) = split_piece(bytes) else {
        return false;
    };
    if number.len() != 8 {
        return false;
    }
    let mut rest = behind;
    for place in 0..columns {
        let Some((field, behind)) = split_piece(rest) else {
            return false;
        };
        if !may_stand(numbers, place, field) {
            return false;
        }
        rest = behind;
    }
    rest.is_empty() && are_below(numbers, columns)
}

/// Whether a field may stand in the column at this place: where numbers have to, one that may be there.
#[inline(always)]
fn may_stand(numbers: &NumberList, column: u32, field: &[u8]) -> bool
    ensures { IsTrue result ↔ All (λ place. place.column ≡ column → IsTrue (may_be place field.now)) numbers.now }
{
    for place in numbers.items() {
        if place.column == column && !place.may_be(field) {
            return false;
        }
    }
    true
}

/// Whether there are more columns than any of these places.
#[inline(always)]
fn are_below(numbers: &NumberList, columns: u32) -> bool
    ensures { IsTrue result ↔ All (λ place. place.column < columns) numbers.now }
{
    for place in numbers.items() {
        if place.column >= columns {
            return false;
        }
    }
    true
}
