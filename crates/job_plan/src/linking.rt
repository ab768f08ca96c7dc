//! How a job's datasets are made over the kept columns, and the names that a plan prints.

ghost use Rattle.std.specs.Prelude.{◌≡◌, [], IfOk, map, option_map, slice_index, slice_index_or};
ghost use Rattle.row_filter.specs.Moved.{moved_filter};
ghost use Rattle.job_plan.specs.Making.{name_for};
ghost use Rattle.job_plan.specs.Moved.{link_over};

use crate::columns::index_of;
use item_lists::Name;
use job_text::Dataset;
use row_filter::{Filter, Link, move_filter};
use std::alloc::{AllocError, Global};

// A dataset's filter over the kept columns, if it has one.
fn move_own(
    alloc: Global,
    kept: &[u32],
    filter: &Option<Filter>,
) -> Result<Option<Filter>, AllocError>
    ensures { IfOk result (λ moved. moved ≡ option_map (moved_filter (slice_index kept.now)) filter.now) }
{
    match filter {
        Some(filter) => Ok(Some(move_filter(alloc, filter, kept)?)),
        None => Ok(None),
    }
}

fn link_dataset(alloc: Global, kept: &[u32], dataset: &Dataset) -> Result<Link, AllocError>
    ensures { IfOk result (λ link. link ≡ link_over (slice_index kept.now) dataset.now) }
{
    let filter = move_own(alloc, kept, &dataset.filter)?;
    Ok(Link {
        parent: dataset.parent,
        filter,
        level: dataset.level,
    })
}

/// How each dataset is made, where each name's column stands among the kept ones at its place in `kept`.
pub(crate) fn link_datasets(
    alloc: Global,
    kept: &[u32],
    datasets: &[Dataset],
) -> Result<Vec<Link>, AllocError>
    ensures { IfOk result (λ links. links.items ≡ map (link_over (slice_index kept.now)) datasets.now) }
{
    let mut links = Vec::new(alloc);
    for dataset in datasets {
        links.push(link_dataset(alloc, kept, dataset)?)?;
    }
    Ok(links)
}

fn copy_name(alloc: Global, name: &Name) -> Result<Name, AllocError>
    ensures { IfOk result (λ copy. copy ≡ name.now) }
{
    let text = String::from_str(alloc, name.text())?;
    Ok(Name::of(text))
}

/// The names of datasets.
pub(crate) fn names_of(alloc: Global, datasets: &[Dataset]) -> Result<Vec<Name>, AllocError>
    ensures { IfOk result (λ names. names.items ≡ map (λ dataset. dataset.name) datasets.now) }
{
    let mut names = Vec::new(alloc);
    for dataset in datasets {
        names.push(copy_name(alloc, &dataset.name)?)?;
    }
    Ok(names)
}

// The name at a place; an empty one where there is none.
fn name_at(alloc: Global, names: &[Name], place: usize) -> Result<Name, AllocError>
    ensures { IfOk result (λ name. name ≡ slice_index_or names.now place []) }
{
    match names.get(place) {
        Some(name) => copy_name(alloc, name),
        None => Ok(Name::of(String::new(alloc))),
    }
}

/// Of each of these places in the header the name whose column stands there.
pub(crate) fn names_at(
    alloc: Global,
    names: &[Name],
    places: &[u32],
    kept: &[u32],
) -> Result<Vec<Name>, AllocError>
    ensures { IfOk result (λ found. found.items ≡ map (name_for names.now places.now) kept.now) }
{
    let mut found = Vec::new(alloc);
    for place in kept {
        let index = index_of(places, *place).unwrap_or(0);
        found.push(name_at(alloc, names, index)?)?;
    }
    Ok(found)
}
