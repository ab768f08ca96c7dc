//! Filters over other columns.

ghost use Rattle.std.specs.Prelude.{◌≡◌, IfOk, map, slice_index};
ghost use Rattle.row_filter.specs.Moved.{moved_filter};

use crate::filter::{Constant, Filter};
use item_lists::{Boxed, Listed, Name};
use std::alloc::{AllocError, Global};

/// The same constant in memory of its own.
fn copy_constant(alloc: Global, constant: &Constant) -> Result<Constant, AllocError>
    ensures { IfOk result (λ copy. copy ≡ constant.now) }
{
    match constant {
        Constant::Number(number) => Ok(Constant::Number(*number)),
        Constant::Text(text) => {
            let text = String::from_str(alloc, text.text())?;
            Ok(Constant::Text(Name::of(text)))
        }
    }
}

/// The place that stands for a column; 0 where there is none.
fn place_for(places: &[u32], column: u32) -> u32
    ensures { result ≡ slice_index places.now column }
{
    match places.get(column as usize) {
        Some(place) => *place,
        None => 0,
    }
}

/// Each of these filters over other columns.
#[cycle(move_one)]
fn move_each(alloc: Global, filters: &[Filter], places: &[u32]) -> Result<Vec<Filter>, AllocError>
    ensures { IfOk result (λ moved. moved.items ≡ map (moved_filter (slice_index places.now)) filters.now) }
{
    let mut moved = Vec::new(alloc);
    for filter in filters {
        moved.push(move_filter(alloc, filter, places)?)?;
    }
    Ok(moved)
}

/// The filter over other columns, in memory of its own: for each column of its tests stands the one that
/// `places` has at its place, or 0 where it has none.
#[cycle(move_one)]
pub fn move_filter(alloc: Global, filter: &Filter, places: &[u32]) -> Result<Filter, AllocError>
    // Want of memory is the one answer without a cause; a test shows success.
    ensures { IfOk result (λ moved. moved ≡ moved_filter (slice_index places.now) filter.now) }
{
    match filter {
        Filter::Test {
            column,
            test,
            constant,
        } => Ok(Filter::Test {
            column: place_for(places, *column),
            test: *test,
            constant: copy_constant(alloc, constant)?,
        }),
        Filter::And(parts) => Ok(Filter::And(Listed::of(move_each(alloc, parts.items(), places)?))),
        Filter::Or(parts) => Ok(Filter::Or(Listed::of(move_each(alloc, parts.items(), places)?))),
        Filter::Not(inner) => {
            let inner = move_filter(alloc, inner.value(), places)?;
            Ok(Filter::Not(Boxed::of(Box::new(alloc, inner)?)))
        }
    }
}
