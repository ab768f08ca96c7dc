//! The shapes of a job's queries over the kept columns.

ghost use Rattle.std.specs.Prelude.{◌≡◌, ◌++◌, ℕ, IfOk, OnOk, map, slice_index};
ghost use Rattle.job_text.specs.Jobs.{IsShape};
ghost use Rattle.job_plan.specs.Columns.{ordered_in, told_in};
ghost use Rattle.job_plan.specs.Entries.{kind_of};
ghost use Rattle.job_plan.specs.Moved.{moved, moved_item, moved_part};
ghost use Rattle.std.specs.List.{filter, flat_map};
ghost use Rattle.std.specs.Option.{option_to_list};

use aggregate::{Agg, AggList, Kind};
use item_lists::Listed;
use job_text::{KeyItem, Part, Shape};
use std::alloc::{AllocError, Global};

/// The same shape in memory of its own.
pub(crate) fn copy_shape(alloc: Global, shape: &Shape) -> Result<Shape, AllocError>
    ensures { IfOk result (λ copy. copy ≡ shape.now) }
{
    match shape {
        Shape::Group { columns, parts } => Ok(Shape::Group {
            columns: Listed::of(columns.items().to_vec(alloc)?),
            parts: Listed::of(parts.items().to_vec(alloc)?),
        }),
        Shape::Order { keys, columns } => Ok(Shape::Order {
            keys: Listed::of(keys.items().to_vec(alloc)?),
            columns: Listed::of(columns.items().to_vec(alloc)?),
        }),
    }
}

// The kept column of a name's.
fn kept_column(kept: &[u32], column: u32) -> u32
    ensures { result ≡ slice_index kept.now column }
{
    match kept.get(column as usize) {
        Some(place) => *place,
        None => 0,
    }
}

fn move_columns(alloc: Global, kept: &[u32], columns: &[u32]) -> Result<Vec<u32>, AllocError>
    ensures { IfOk result (λ list. list.items ≡ map (slice_index kept.now) columns.now) }
{
    let mut list = Vec::new(alloc);
    for column in columns {
        list.push(kept_column(kept, *column))?;
    }
    Ok(list)
}

fn move_part(kept: &[u32], part: Part) -> Part
    ensures { result ≡ moved_part (slice_index kept.now) part }
{
    let column = match part.column {
        Some(column) => Some(kept_column(kept, column)),
        None => None,
    };
    Part {
        agg: part.agg,
        column,
    }
}

fn move_parts(alloc: Global, kept: &[u32], parts: &[Part]) -> Result<Vec<Part>, AllocError>
    ensures { IfOk result (λ list. list.items ≡ map (moved_part (slice_index kept.now)) parts.now) }
{
    let mut list = Vec::new(alloc);
    for part in parts {
        list.push(move_part(kept, *part))?;
    }
    Ok(list)
}

fn move_item(kept: &[u32], item: KeyItem) -> KeyItem
    ensures { result ≡ moved_item (slice_index kept.now) item }
{
    KeyItem {
        column: kept_column(kept, item.column),
        number: item.number,
        down: item.down,
    }
}

fn move_items(alloc: Global, kept: &[u32], items: &[KeyItem]) -> Result<Vec<KeyItem>, AllocError>
    ensures { IfOk result (λ list. list.items ≡ map (moved_item (slice_index kept.now)) items.now) }
{
    let mut list = Vec::new(alloc);
    for item in items {
        list.push(move_item(kept, *item))?;
    }
    Ok(list)
}

/// The shape over the kept columns: each name's column stands among them at its place in `kept`.
pub(crate) fn move_shape(alloc: Global, kept: &[u32], shape: &Shape) -> Result<Shape, AllocError>
    ensures { IfOk result (λ over. over ≡ moved (slice_index kept.now) shape.now) }
{
    match shape {
        Shape::Group { columns, parts } => Ok(Shape::Group {
            columns: Listed::of(move_columns(alloc, kept, columns.items())?),
            parts: Listed::of(move_parts(alloc, kept, parts.items())?),
        }),
        Shape::Order { keys, columns } => Ok(Shape::Order {
            keys: Listed::of(move_items(alloc, kept, keys.items())?),
            columns: Listed::of(move_columns(alloc, kept, columns.items())?),
        }),
    }
}

fn aggs_of(alloc: Global, parts: &[Part]) -> Result<Vec<Agg>, AllocError>
    ensures { IfOk result (λ aggs. aggs.items ≡ map (λ part. part.agg) parts.now) }
{
    let mut aggs = Vec::new(alloc);
    for part in parts {
        aggs.push(part.agg)?;
    }
    Ok(aggs)
}

/// How a shape's entries are combined.
pub(crate) fn make_kind(alloc: Global, shape: &Shape) -> Result<Kind, AllocError>
    requires { (columns : ℕ) × IsShape columns shape.now }
    ensures { IfOk result (λ kind. kind ≡ kind_of shape.now) }
{
    match shape {
        Shape::Group { parts, .. } => {
            let aggs = aggs_of(alloc, parts.items())?;
            Ok(Kind::Group(AggList::of(alloc, &aggs)?))
        }
        Shape::Order { .. } => Ok(Kind::Order),
    }
}

fn put_part_columns(into: &mut Vec<u32>, parts: &[Part]) -> Result<(), AllocError>
    ensures { OnOk result (into.new.items ≡ into.old.items ++ flat_map (λ part. option_to_list part.column) parts.now) }
{
    for part in parts {
        if let Some(column) = part.column {
            into.push(column)?;
        }
    }
    Ok(())
}

fn put_key_columns(into: &mut Vec<u32>, keys: &[KeyItem]) -> Result<(), AllocError>
    ensures { OnOk result (into.new.items ≡ into.old.items ++ map (λ key. key.column) (filter (λ key. key.number) keys.now)) }
{
    for key in keys {
        if key.number {
            into.push(key.column)?;
        }
    }
    Ok(())
}

/// Puts the columns that a shape adds up, or takes the least or the greatest of, behind others.
pub(crate) fn put_told(into: &mut Vec<u32>, shape: &Shape) -> Result<(), AllocError>
    ensures { OnOk result (into.new.items ≡ into.old.items ++ told_in shape.now) }
{
    match shape {
        Shape::Group { parts, .. } => put_part_columns(into, parts.items()),
        Shape::Order { .. } => Ok(()),
    }
}

/// Puts the columns that a shape orders by as a number behind others.
pub(crate) fn put_ordered(into: &mut Vec<u32>, shape: &Shape) -> Result<(), AllocError>
    ensures { OnOk result (into.new.items ≡ into.old.items ++ ordered_in shape.now) }
{
    match shape {
        Shape::Group { .. } => Ok(()),
        Shape::Order { keys, .. } => put_key_columns(into, keys.items()),
    }
}
