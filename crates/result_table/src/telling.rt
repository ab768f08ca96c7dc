// The row that an entry tells, where it tells one.
ghost use Rattle.std.specs.Prelude.{◌≡◌, ◌++◌, List, ℕ, IfOk, OnOk, length, map, true, false};
ghost use Rattle.aggregate.specs.declared.kind.Kind.TheVariants.{Group};
ghost use Rattle.row_page.specs.Reading.{fields_of};
ghost use Rattle.row_page.specs.Views.{fields_in};
ghost use Rattle.row_form.specs.Forms.{IsValueOf};
ghost use Rattle.job_plan.specs.Entries.{kind_of};
ghost use Rattle.job_plan.specs.Telling.{IsGroupEntry, IsOrderEntry, IsTold, key_fields, row_of, told_field, value_partials};
ghost use Rattle.result_table.specs.Table.{EndsRow, IsBetweenRows, text_in};

use crate::row_fields::{end_row, put_key, put_numbers, put_pieces};
use aggregate::{AggList, Kind};
use csv::Writer;
use job_text::Shape;
use row_page::RowView;
use std::alloc::AllocError;

// Writes the row of a row's fields.
pub(crate) fn tell_view(writer: &mut Writer<Vec<u8>>, view: &RowView<'_>) -> Result<(), AllocError>
    requires between { IsBetweenRows writer.old }
    ensures { OnOk result (EndsRow (text_in writer.old) (fields_in view.now) writer.new) }
{
    let Some(_) = put_pieces(writer, view.bytes())? else {
        unreachable!()
    };
    end_row(writer)
}

// Writes the row that an entry tells behind those before it, and says whether it can be told. Where it
// can't, a part of a row may stand there.
pub(crate) fn tell(
    writer: &mut Writer<Vec<u8>>,
    shape: &Shape,
    kind: &Kind,
    key: &[u8],
    value: &[u8],
    field: &mut Vec<u8>,
) -> Result<bool, AllocError>
    requires between { IsBetweenRows writer.old }
    requires kind { kind.now ≡ kind_of shape.now }
    requires value { IsValueOf kind.now value.now }
    ensures row { IfOk result (λ told. told ≡ true →
        EndsRow (text_in writer.old) (row_of shape.now (record { key = key.now; value = value.now })) writer.new) }
    ensures told { IfOk result (λ told. told ≡ true → IsTold shape.now (record { key = key.now; value = value.now })) }
    ensures untold { IfOk result (λ told. told ≡ false →
        IsTold shape.now (record { key = key.now; value = value.now }) → ⊥) }
{
    match shape {
        Shape::Group { columns, .. } => {
            let Kind::Group(aggs) = kind else {
                unreachable!()
            };
            tell_group(writer, columns.items().len(), aggs, key, value, field)
        }
        Shape::Order { columns, .. } => tell_order(writer, columns.items().len(), value),
    }
}

// The same of a group's entry: the fields that its key spells, and what is told of its value.
#[tactic(auto, using(aggregate::proofs::Tested::length_value))]
fn tell_group(
    writer: &mut Writer<Vec<u8>>,
    columns: usize,
    aggs: &AggList,
    key: &[u8],
    value: &[u8],
    field: &mut Vec<u8>,
) -> Result<bool, AllocError>
    requires between { IsBetweenRows writer.old }
    requires value { IsValueOf (Group aggs.now) value.now }
    ensures row { IfOk result (λ told. told ≡ true → EndsRow (text_in writer.old)
        (key_fields columns key.now ++ map told_field (value_partials (length aggs.now) value.now)) writer.new) }
    ensures told { IfOk result (λ told. told ≡ true →
        IsGroupEntry columns (length aggs.now) (record { key = key.now; value = value.now })) }
    ensures untold { IfOk result (λ told. told ≡ false →
        IsGroupEntry columns (length aggs.now) (record { key = key.now; value = value.now }) → ⊥) }
{
    if !put_key(writer, columns, key, field)? {
        return Ok(false);
    }
    if !put_numbers(writer, aggs, value)? {
        return Ok(false);
    }
    end_row(writer)?;
    Ok(true)
}

// The same of an ordered row's entry: the fields of the row that its value is.
fn tell_order(
    writer: &mut Writer<Vec<u8>>,
    columns: usize,
    value: &[u8],
) -> Result<bool, AllocError>
    requires between { IsBetweenRows writer.old }
    ensures row { IfOk result (λ told. told ≡ true → EndsRow (text_in writer.old) (fields_of value.now) writer.new) }
    ensures told { IfOk result (λ told. told ≡ true →
        (key : List ℕ) → IsOrderEntry columns (record { key = key; value = value.now })) }
    ensures untold { IfOk result (λ told. told ≡ false →
        (key : List ℕ) → IsOrderEntry columns (record { key = key; value = value.now }) → ⊥) }
{
    let Some(count) = put_pieces(writer, value)? else {
        return Ok(false);
    };
    if count != columns || value.len() > u32::MAX as usize {
        return Ok(false);
    }
    end_row(writer)?;
    Ok(true)
}
