//! Whether a row has a filter's columns.

ghost use Rattle.std.specs.Prelude.{◌≡◌, ◌↔◌, All, IsTrue};
ghost use Rattle.row_filter.specs.Rows.{HasTestedColumns};

use crate::filter::Filter;

/// Whether a landed row of so many fields has the columns of all of these filters.
#[cycle(cover)]
fn all_covered(parts: &[Filter], fields: usize) -> bool
    ensures { IsTrue result ↔ All (HasTestedColumns fields) parts.now }
{
    for part in parts {
        if !covers(part, fields) {
            return false;
        }
    }
    true
}

/// Whether a landed row of so many fields, its number included, has each column of a filter's tests: what
/// `keeps` and `select` ask for.
#[cycle(cover)]
pub fn covers(filter: &Filter, fields: usize) -> bool
    ensures { IsTrue result ↔ HasTestedColumns fields filter.now }
{
    match filter {
        Filter::Test { column, .. } => *column as usize + 1 < fields,
        Filter::And(parts) => all_covered(parts.items(), fields),
        Filter::Or(parts) => all_covered(parts.items(), fields),
        Filter::Not(inner) => covers(inner.value(), fields),
    }
}
