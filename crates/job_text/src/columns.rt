//! Columns as places among the names.

ghost use Rattle.std.specs.Prelude.{◌≡◌, ◌<◌, ◌^◌, length, IfOk, IfSome, Some};
ghost use Rattle.job_text.specs.declared.state.At.TheVariants as ats;
ghost use Rattle.job_text.specs.Columns.{place_of, with_name, has_column, has_key, has_part, named_in};
ghost use Rattle.job_text.specs.Step.{named as named_step, after_column as column_step};

use crate::job::{KeyItem, KeyList, NameList, Part, PartList, PlaceList};
use crate::lists::with_item;
use crate::state::{At, Read, State};
use aggregate::Agg;
use item_lists::Name;
use std::alloc::AllocError;

pub(crate) const MAX_LENGTH: usize = 1024;

/// The place of a name, which is added where it is new.
pub(crate) fn place(names: NameList, name: Name) -> Result<(NameList, u32), AllocError>
    requires { length names < 2 ^ 32 }
    ensures names { IfOk result (λ found. found.0 ≡ with_name names name) }
    ensures place { IfOk result (λ found. found.1 ≡ place_of names name) }
{
    let list = names.items();
    for i in 0..list.len() {
        if list[i].text() == name.text() {
            return Ok((names, i as u32));
        }
    }
    let place = list.len() as u32;
    Ok((with_item(names, name)?, place))
}

fn has(columns: &PlaceList, column: u32) -> bool
    ensures { result ≡ has_column columns.now column }
{
    columns.items().iter().any(|c| *c == column)
}

fn has_sorted(keys: &KeyList, column: u32) -> bool
    ensures { result ≡ has_key keys.now column }
{
    keys.items().iter().any(|k| k.column == column)
}

pub(crate) fn has_aggregate(parts: &PartList, part: Part) -> bool
    ensures { result ≡ has_part parts.now part }
{
    parts.items().iter().any(|p| *p == part)
}

/// The names with this one, and its place; None where it is too long.
fn named(read: Read, name: Name) -> Result<Option<(Read, u32)>, AllocError>
    requires room { length read.names < 2 ^ 32 }
    ensures { IfOk result (λ found. found ≡ named_in read name) }
{
    if name.text().len() > MAX_LENGTH {
        return Ok(None);
    }
    let Read {
        names,
        datasets,
        queries,
    } = read;
    let (names, column) = place(names, name)?;
    Ok(Some((
        Read {
            names,
            datasets,
            queries,
        },
        column,
    )))
}

fn group_column(read: Read, columns: PlaceList, name: Name) -> Result<Option<State>, AllocError>
    requires room { length read.names < 2 ^ 32 }
    ensures { IfOk result (λ next. next ≡ column_step read (ats.GroupColumn columns) (Some name)) }
{
    let Some((read, column)) = named(read, name)? else {
        return Ok(None);
    };
    if has(&columns, column) {
        return Ok(None);
    }
    let columns = with_item(columns, column)?;
    let at = At::GroupColumns(columns);
    Ok(Some(State { read, at }))
}

fn part_column(
    read: Read,
    columns: PlaceList,
    parts: PartList,
    agg: Agg,
    name: Name,
) -> Result<Option<State>, AllocError>
    requires room { length read.names < 2 ^ 32 }
    ensures { IfOk result (λ next. next ≡ column_step read (ats.PartColumn columns parts agg) (Some name)) }
{
    let Some((read, column)) = named(read, name)? else {
        return Ok(None);
    };
    let part = Part {
        agg,
        column: Some(column),
    };
    if has_aggregate(&parts, part) {
        return Ok(None);
    }
    let parts = with_item(parts, part)?;
    let at = At::Parts(columns, parts);
    Ok(Some(State { read, at }))
}

fn key_column(
    read: Read,
    keys: KeyList,
    number: bool,
    name: Name,
) -> Result<Option<State>, AllocError>
    requires room { length read.names < 2 ^ 32 }
    ensures { IfOk result (λ next. next ≡ named_step read (has_key keys) (λ column. ats.KeyColumn keys column number) (Some name)) }
{
    let Some((read, column)) = named(read, name)? else {
        return Ok(None);
    };
    if has_sorted(&keys, column) {
        return Ok(None);
    }
    let at = At::KeyColumn(keys, column, number);
    Ok(Some(State { read, at }))
}

fn order_column(
    read: Read,
    keys: KeyList,
    columns: PlaceList,
    name: Name,
) -> Result<Option<State>, AllocError>
    requires room { length read.names < 2 ^ 32 }
    ensures { IfOk result (λ next. next ≡ column_step read (ats.OrderColumn keys columns) (Some name)) }
{
    let Some((read, column)) = named(read, name)? else {
        return Ok(None);
    };
    if has(&columns, column) {
        return Ok(None);
    }
    let columns = with_item(columns, column)?;
    let at = At::OrderColumns(keys, columns);
    Ok(Some(State { read, at }))
}

/// What follows a column, None where it is refused.
pub(crate) fn after_column(read: Read, at: At, name: Name) -> Result<Option<State>, AllocError>
    requires room { length read.names < 2 ^ 32 }
    ensures { IfOk result (λ next. next ≡ column_step read at (Some name)) }
{
    match at {
        At::GroupColumn(columns) => group_column(read, columns, name),
        At::PartColumn(columns, parts, agg) => part_column(read, columns, parts, agg, name),
        At::Key(keys) => key_column(read, keys, false, name),
        At::NumberKey(keys) => key_column(read, keys, true, name),
        At::OrderColumn(keys, columns) => order_column(read, keys, columns, name),
        _ => Ok(None),
    }
}
