//! Whether a filter keeps a row.

ghost use Rattle.std.specs.Prelude.{◌≡◌, All, length};
ghost use Rattle.std.specs.List.{list_all, list_any};
ghost use Rattle.row_page.specs.Views.{fields_in};
ghost use Rattle.row_filter.specs.Meaning.{order_to as order_of, comparison_holds as holds};
ghost use Rattle.row_filter.specs.Rows.{HasTestedColumns, keeps_row};

use crate::filter::{Comparison, Constant, Filter};
use row_form::parse_number;
use row_page::RowView;
use std::cmp::Ordering;

/// Whether a comparison holds of a field that stands so to the constant.
fn passes(test: Comparison, order: Ordering) -> bool
    ensures { result ≡ holds test order }
{
    match test {
        Comparison::Equal => order.is_eq(),
        Comparison::NotEqual => order.is_ne(),
        Comparison::Less => order.is_lt(),
        Comparison::AtMost => order.is_le(),
        Comparison::Greater => order.is_gt(),
        Comparison::AtLeast => order.is_ge(),
    }
}

/// How a field stands to a constant. A number is parsed once.
fn order_to(field: &[u8], constant: &Constant) -> Ordering
    ensures { result ≡ order_of field.now constant.now }
{
    match constant {
        Constant::Number(number) => parse_number(field).unwrap_or(0).cmp(number),
        Constant::Text(text) => field.cmp(text.text().as_bytes()),
    }
}

/// Whether each of these filters keeps a row.
#[cycle(keep)]
fn all_keep(parts: &[Filter], row: &RowView<'_>) -> bool
    requires covers { All (HasTestedColumns (length (fields_in row.now))) parts.now }
    ensures { result ≡ list_all (λ part. keeps_row part (fields_in row.now)) parts.now }
{
    for part in parts {
        if !is_kept(part, row) {
            return false;
        }
    }
    true
}

/// Whether one of these filters keeps a row.
#[cycle(keep)]
fn some_keeps(parts: &[Filter], row: &RowView<'_>) -> bool
    requires covers { All (HasTestedColumns (length (fields_in row.now))) parts.now }
    ensures { result ≡ list_any (λ part. keeps_row part (fields_in row.now)) parts.now }
{
    for part in parts {
        if is_kept(part, row) {
            return true;
        }
    }
    false
}

/// Whether a filter keeps a row.
#[cycle(keep)]
fn is_kept(filter: &Filter, row: &RowView<'_>) -> bool
    requires covers { HasTestedColumns (length (fields_in row.now)) filter.now }
    ensures { result ≡ keeps_row filter.now (fields_in row.now) }
{
    match filter {
        Filter::Test {
            column,
            test,
            constant,
        } => passes(*test, order_to(row.field(*column as usize + 1), constant)),
        Filter::And(parts) => all_keep(parts.items(), row),
        Filter::Or(parts) => some_keeps(parts.items(), row),
        Filter::Not(inner) => !is_kept(inner.value(), row),
    }
}

/// Whether a filter keeps a landed row: its number of 8 bytes, then the kept columns, of which a test names
/// one from 0. A field that is no number counts as 0 beside a number. It takes no memory and copies no
/// field; each test goes over the fields before its own.
/// Source: the comparisons, `and`, `or` and `not` of SQL, as Spark's predicates have them.
pub fn keeps(filter: &Filter, row: RowView<'_>) -> bool
    requires covers { HasTestedColumns (length (fields_in row)) filter.now }
    ensures { result ≡ keeps_row filter.now (fields_in row.entry) }
{
    is_kept(filter, &row)
}
