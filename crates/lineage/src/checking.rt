//! Which rows of a block are used: those that may be rows of the partition.

ghost use Rattle.std.specs.Prelude.{◌≡◌, ◌<◌, ◌+◌, ◌↔◌, true, length, IfNone, IfSome, IsTrue};
ghost use Rattle.row_page.specs.Views.{fields_in};
ghost use Rattle.row_form.specs.Forms.{IsWellFormed, is_landed};
ghost use Rattle.lineage.specs.Checking.{AreRight, AreRightFor, number_of};
ghost use Rattle.lineage.specs.LineageViews.{form_for};

use crate::lineage::Lineage;
use row_form::Form;
use row_page::{Page, RowView};

// The number of a landed row that is well formed, or none.
fn right_number(form: &Form, greatest: u64, row: RowView<'_>) -> Option<u64>
    requires landed { is_landed form.now ≡ true }
    ensures found { IfSome result (λ number. number ≡ number_of (fields_in row.entry)) }
    ensures right { IfSome result (λ number. IsWellFormed form.now greatest (fields_in row.entry)) }
    ensures none { IfNone result (IsWellFormed form.now greatest (fields_in row.entry) → ⊥) }
{
    if !form.accepts(row.again(), greatest) {
        return None;
    }
    let field = row.field(0);
    Some(u64::from_be_bytes([
        field[0], field[1], field[2], field[3], field[4], field[5], field[6], field[7],
    ]))
}

// Whether all rows are well formed and their numbers ascend from the first of these two on up to the other.
fn are_right(form: &Form, greatest: u64, first: u128, last: u128, page: &Page) -> bool
    requires landed { is_landed form.now ≡ true }
    ensures { IsTrue result ↔ AreRight form.now greatest first last page.now.rows }
{
    let mut least = first;
    for i in 0..page.rows() {
        let Some(number) = right_number(form, greatest, page.row(i)) else {
            return false;
        };
        let number = u128::from(number);
        if number < least || last < number {
            return false;
        }
        least = number + 1;
    }
    true
}

// Whether the rows of a block may be rows of the partition. A worker asks it of each block that it didn't make itself.
pub(crate) fn is_right(lineage: &Lineage<'_>, page: &Page, part: u32) -> bool
    requires landed { is_landed (form_for lineage.now) ≡ true }
    requires part { part < length lineage.now.landed }
    ensures { IsTrue result ↔ AreRightFor lineage.now part page.now.rows }
{
    let run = lineage.landed[part as usize];
    if page.rows() as u64 > run.count {
        return false;
    }
    let part_rows = u128::from(lineage.part_rows);
    let before = u128::from(part) * part_rows;
    are_right(
        lineage.chain.form(),
        run.greatest,
        before + 1,
        before + part_rows,
        page,
    )
}
