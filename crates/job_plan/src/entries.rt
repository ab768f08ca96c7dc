//! The key and the value that a query makes of a landed row.

ghost use Rattle.std.specs.Prelude.{◌≡◌, ◌+◌, ◌++◌, ◌<◌, ◌^◌, All, OnOk, length};
ghost use Rattle.std.specs.List.{flat_map};
ghost use Rattle.aggregate.specs.Partial.{partial_of};
ghost use Rattle.aggregate.specs.Spelling.{spelled};
ghost use Rattle.row_page.specs.Spelling.{row_length, with_length};
ghost use Rattle.row_page.specs.Views.{fields_in};
ghost use Rattle.job_plan.specs.Entries.{field, item_bytes, key_of, number_in, told_by, value_of};
ghost use Rattle.job_plan.specs.Within.{HasColumnsOf, HasColumn, IsItemOf, IsPartOf};

use aggregate::{put_field, put_number, put_partial};
use job_text::{KeyItem, Part, Shape};
use row_form::parse_number;
use row_page::RowView;
use std::alloc::AllocError;

/// Appends the key that a shape over kept columns makes of a landed row.
#[tactic(auto, unfolding(crate::specs::Entries::key_of))]
pub(crate) fn put_key(key: &mut Vec<u8>, shape: &Shape, row: &RowView<'_>) -> Result<(), AllocError>
    requires numbered { 0 < length (fields_in row.now) }
    requires covers { HasColumnsOf (fields_in row.now) shape.now }
    ensures { OnOk result (key.new.items ≡ key.old.items ++ key_of shape.now (fields_in row.now)) }
{
    match shape {
        Shape::Group { columns, .. } => put_group(key, columns.items(), row),
        Shape::Order { keys, .. } => {
            put_items(key, keys.items(), row)?;
            key.extend_from_slice(row.field(0))
        }
    }
}

/// Appends the value that a shape over kept columns makes of a landed row.
#[tactic(auto, unfolding(crate::specs::Entries::value_of))]
pub(crate) fn put_value(
    value: &mut Vec<u8>,
    shape: &Shape,
    row: &RowView<'_>,
) -> Result<(), AllocError>
    requires { HasColumnsOf (fields_in row.now) shape.now }
    ensures { OnOk result (value.new.items ≡ value.old.items ++ value_of shape.now (fields_in row.now)) }
{
    match shape {
        Shape::Group { parts, .. } => put_parts(value, parts.items(), row),
        Shape::Order { columns, .. } => put_columns(value, columns.items(), row),
    }
}

// The field of a kept column.
fn field_at<'a>(row: &RowView<'a>, column: u32) -> &'a [u8]
    requires { HasColumn (fields_in row.now) column }
    ensures { result.now ≡ field (fields_in row.now) column }
{
    row.field(column as usize + 1)
}

// The number in a kept column; 0 where there is none.
fn number_at(row: &RowView<'_>, column: u32) -> i64
    requires { HasColumn (fields_in row.now) column }
    ensures { result ≡ number_in (fields_in row.now) column }
{
    parse_number(field_at(row, column)).unwrap_or(0)
}

// What a row adds to an aggregate of a column, if its field is a number, or to the count.
fn told(row: &RowView<'_>, part: &Part) -> Option<i64>
    requires { IsPartOf (fields_in row.now) part.now }
    ensures { result ≡ told_by (fields_in row.now) part.now.column }
{
    match part.column {
        Some(column) => parse_number(field_at(row, column)),
        None => Some(1),
    }
}

// Appends the fields of a group to a key.
fn put_group(key: &mut Vec<u8>, columns: &[u32], row: &RowView<'_>) -> Result<(), AllocError>
    requires { All (HasColumn (fields_in row.now)) columns.now }
    ensures { OnOk result (key.new.items ≡ key.old.items ++ flat_map (λ k. spelled (field (fields_in row.now) k)) columns.now) }
{
    for column in columns {
        put_field(key, field_at(row, *column), false)?;
    }
    Ok(())
}

// Appends what a row adds to each aggregate of a group to a value.
fn put_parts(value: &mut Vec<u8>, parts: &[Part], row: &RowView<'_>) -> Result<(), AllocError>
    requires { All (IsPartOf (fields_in row.now)) parts.now }
    ensures { OnOk result (value.new.items ≡ value.old.items ++ flat_map (λ part. partial_of (told_by (fields_in row.now) part.column)) parts.now) }
{
    for part in parts {
        put_partial(value, told(row, part).map(i128::from))?;
    }
    Ok(())
}

// Appends what a row is ordered by first, or next, to a key.
fn put_item(key: &mut Vec<u8>, item: &KeyItem, row: &RowView<'_>) -> Result<(), AllocError>
    requires { IsItemOf (fields_in row.now) item.now }
    ensures { OnOk result (key.new.items ≡ key.old.items ++ item_bytes (fields_in row.now) item.now) }
{
    if item.number {
        put_number(key, number_at(row, item.column), item.down)
    } else {
        put_field(key, field_at(row, item.column), item.down)
    }
}

// Appends what a row is ordered by to a key.
fn put_items(key: &mut Vec<u8>, items: &[KeyItem], row: &RowView<'_>) -> Result<(), AllocError>
    requires { All (IsItemOf (fields_in row.now)) items.now }
    ensures { OnOk result (key.new.items ≡ key.old.items ++ flat_map (item_bytes (fields_in row.now)) items.now) }
{
    for item in items {
        put_item(key, item, row)?;
    }
    Ok(())
}

// Appends a field behind its length in four bytes, the greatest first.
#[tactic(auto, unfolding(row_page::specs::Spelling::length_bytes))]
fn put_piece(value: &mut Vec<u8>, piece: &[u8]) -> Result<(), AllocError>
    requires { length piece.now < 2 ^ 32 }
    ensures { OnOk result (value.new.items ≡ value.old.items ++ with_length piece.now) }
{
    value.extend_from_slice(&(piece.len() as u32).to_be_bytes())?;
    value.extend_from_slice(piece)
}

// Appends the encoding of the row of these columns to a value.
fn put_columns(value: &mut Vec<u8>, columns: &[u32], row: &RowView<'_>) -> Result<(), AllocError>
    requires columns { All (HasColumn (fields_in row.now)) columns.now }
    requires short { row_length (fields_in row.now) < 2 ^ 32 }
    ensures { OnOk result (value.new.items ≡ value.old.items ++ flat_map (λ k. with_length (field (fields_in row.now) k)) columns.now) }
{
    for column in columns {
        put_piece(value, field_at(row, *column))?;
    }
    Ok(())
}
