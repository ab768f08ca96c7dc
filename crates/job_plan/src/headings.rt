//! The first rows of the tables that a job's queries print.

ghost use Rattle.std.specs.Prelude.{◌≡◌, ◌+◌, ◌*◌, ◌<◌, ◌≤◌, ◌++◌, ◌∷◌, [], All, IfOk, OnOk, length, map};
ghost use Rattle.row_page.specs.Spelling.{row_length};
ghost use Rattle.job_text.specs.Jobs.{IsAggregate, IsShape};
ghost use Rattle.job_plan.specs.Plans.{agg_name, heading_of, name_at, part_name};

use aggregate::Agg;
use item_lists::Name;
use job_text::{Part, Shape};
use row_page::RowBuf;
use std::alloc::{AllocError, Global};

fn text_of(agg: Agg) -> &'static [u8]
    ensures { result.now ≡ agg_name agg }
{
    match agg {
        Agg::Count => b"count",
        Agg::Sum => b"sum_",
        Agg::Min => b"min_",
        Agg::Max => b"max_",
    }
}

// The name of a column of a table that tells an aggregate.
fn name_part(alloc: Global, names: &[Name], part: &Part) -> Result<Vec<u8>, AllocError>
    requires { IsAggregate (length names.now) part.now }
    ensures { IfOk result (λ name. name.items ≡ part_name names.now part.now) }
{
    let mut name = text_of(part.agg).to_vec(alloc)?;
    if let Some(column) = part.column {
        name.extend_from_slice(names[column as usize].text().as_bytes())?;
    }
    Ok(name)
}

// Puts the names of columns behind others.
fn add_columns(row: &mut RowBuf, names: &[Name], columns: &[u32]) -> Result<(), AllocError>
    requires short { All (λ name. length name ≤ 1024) names.now }
    requires named { All (λ column. column < length names.now) columns.now }
    requires few { length columns.now ≤ 8 }
    requires room { row_length row.old ≤ 16384 }
    ensures ok { OnOk result (row.new ≡ row.old ++ map (name_at names.now) columns.now) }
    ensures room { OnOk result (row_length row.new ≤ row_length row.old + 1032 * length columns.now) }
{
    for column in columns {
        row.add(names[*column as usize].text().as_bytes())?;
    }
    Ok(())
}

// Puts the names of aggregates behind others.
fn add_parts(
    alloc: Global,
    row: &mut RowBuf,
    names: &[Name],
    parts: &[Part],
) -> Result<(), AllocError>
    requires short { All (λ name. length name ≤ 1024) names.now }
    requires parts { All (IsAggregate (length names.now)) parts.now }
    requires few { length parts.now ≤ 8 }
    requires room { row_length row.old ≤ 16384 }
    ensures { OnOk result (row.new ≡ row.old ++ map (part_name names.now) parts.now) }
{
    for part in parts {
        row.add(&name_part(alloc, names, part)?)?;
    }
    Ok(())
}

/// The first row of the table of a query of this shape: the names of its columns.
pub(crate) fn make_heading(
    alloc: Global,
    names: &[Name],
    shape: &Shape,
) -> Result<RowBuf, AllocError>
    requires short { All (λ name. length name ≤ 1024) names.now }
    requires shape { IsShape (length names.now) shape.now }
    ensures { IfOk result (λ row. row ≡ heading_of names.now shape.now) }
{
    let mut row = RowBuf::new(alloc);
    match shape {
        Shape::Group { columns, parts } => {
            add_columns(&mut row, names, columns.items())?;
            add_parts(alloc, &mut row, names, parts.items())?;
        }
        Shape::Order { columns, .. } => add_columns(&mut row, names, columns.items())?,
    }
    Ok(row)
}
