//! The plan of a job over a header.

ghost use Rattle.std.specs.Prelude.{◌≡◌, ◌≤◌, ◌++◌, ℕ, All, List, Some, None, IfOk, IsErrOf, length, map, slice_index};
ghost use Rattle.csv.specs.Records.{fields_of};
ghost use Rattle.job_text.specs.Jobs.{IsJob, IsShape};
ghost use Rattle.job_plan.specs.Columns.{missing};
ghost use Rattle.job_plan.specs.Making.{AreFound, ArePlannedOf, IsChainOf, IsPlannedOf, place_by, strict_over, told_over};
ghost use Rattle.job_plan.specs.Plans.{IsPlanOf};

use crate::columns::{below, find_places, indexes_in};
use crate::fault::PlanFault;
use crate::filter_numbers::put_filter_numbers;
use crate::headings::make_heading;
use crate::linking::{link_datasets, names_at, names_of};
use crate::passing::make_passes;
use crate::planned::Planned;
use crate::query_plan::Plan;
use crate::shapes::{copy_shape, make_kind, move_shape, put_ordered, put_told};
use csv::ByteRecord;
use item_lists::{Listed, Name};
use job_text::{Dataset, Job, Query};
use row_filter::{Chain, Link};
use row_form::{Form, NumberList, NumberPlace};
use std::alloc::{AllocError, Global};

/// The plan of a job over an input with this header. A column is the first header field with exactly its
/// bytes.
pub fn plan(alloc: Global, job: &Job, header: &ByteRecord) -> Result<Plan, PlanFault>
    requires job { IsJob job.now }
    requires short { length (fields_of header.now) ≤ 1024 }
    ensures ok { IfOk result (IsPlanOf job.now (fields_of header.now)) }
    ensures refused { (column : List ℕ) → IsErrOf result (PlanFault.NoColumn column) → missing job.now.names (fields_of header.now) ≡ Some column }
{
    let places = find_places(alloc, job.names.items(), header)?;
    match plan_at(alloc, job, header, &places) {
        Ok(plan) => Ok(plan),
        Err(_) => Err(PlanFault::NoMemory),
    }
}

// The plan, where the columns stand at these places in the header.
fn plan_at(
    alloc: Global,
    job: &Job,
    header: &ByteRecord,
    places: &[u32],
) -> Result<Plan, AllocError>
    requires job { IsJob job.now }
    requires short { length (fields_of header.now) ≤ 1024 }
    requires places { AreFound job.now.names (fields_of header.now) places.now }
    requires found { missing job.now.names (fields_of header.now) ≡ None }
    ensures { IfOk result (IsPlanOf job.now (fields_of header.now)) }
{
    let kept = below(alloc, header.len() as u32, places)?;
    let indexes = indexes_in(alloc, &kept, places)?;
    let queries = plan_queries(alloc, job.names.items(), &indexes, job.queries.items())?;
    let chain = make_chain(alloc, &kept, &indexes, job.datasets.items(), &queries)?;
    let passes = make_passes(alloc, &chain, &datasets_of(alloc, &queries)?)?;
    let columns = names_at(alloc, job.names.items(), places, &kept)?;
    let names = names_of(alloc, job.datasets.items())?;
    Ok(Plan {
        places: kept,
        columns,
        names,
        chain,
        queries,
        passes,
        first_task: 0,
    })
}

// The datasets over the kept columns, and the form of landed rows.
fn make_chain(
    alloc: Global,
    kept: &[u32],
    indexes: &[u32],
    datasets: &[Dataset],
    queries: &[Planned],
) -> Result<Chain, AllocError>
    requires { length kept.now ≤ 1024 }
    ensures { IfOk result (IsChainOf (length kept.now) (slice_index indexes.now) datasets.now queries.now) }
{
    let links = link_datasets(alloc, indexes, datasets)?;
    let strict = strict_columns(alloc, &links, queries)?;
    let columns = number_columns(alloc, &strict, queries)?;
    let numbers = number_places(alloc, &below(alloc, kept.len() as u32, &columns)?, &strict)?;
    let form = Form::Landed {
        columns: kept.len() as u32,
        numbers: NumberList::of(alloc, &numbers)?,
    };
    Ok(Chain::of(Listed::of(links), form))
}

// What is planned for each query.
fn plan_queries(
    alloc: Global,
    names: &[Name],
    kept: &[u32],
    queries: &[Query],
) -> Result<Vec<Planned>, AllocError>
    requires names { All (λ name. length name ≤ 1024) names.now }
    requires shapes { All (λ query. IsShape (length names.now) query.shape) queries.now }
    ensures planned { IfOk result (λ planned. ArePlannedOf names.now kept.now queries.now planned.items) }
    ensures count { IfOk result (λ planned. length planned.items ≡ length queries.now) }
{
    let mut planned = Vec::new(alloc);
    for query in queries {
        planned.push(plan_query(alloc, names, kept, query)?)?;
    }
    Ok(planned)
}

// What is planned for a query.
fn plan_query(
    alloc: Global,
    names: &[Name],
    kept: &[u32],
    query: &Query,
) -> Result<Planned, AllocError>
    requires names { All (λ name. length name ≤ 1024) names.now }
    requires shape { IsShape (length names.now) query.now.shape }
    ensures { IfOk result (IsPlannedOf names.now kept.now query.now) }
{
    Ok(Planned {
        dataset: query.dataset,
        shape: copy_shape(alloc, &query.shape)?,
        kept: move_shape(alloc, kept, &query.shape)?,
        kind: make_kind(alloc, &query.shape)?,
        heading: make_heading(alloc, names, &query.shape)?,
    })
}

// The kept columns where only a number may stand, one dataset behind the other and then one query behind the other.
fn strict_columns(
    alloc: Global,
    links: &[Link],
    queries: &[Planned],
) -> Result<Vec<u32>, AllocError>
    ensures { IfOk result (λ columns. columns.items ≡ strict_over links.now queries.now) }
{
    let mut columns = Vec::new(alloc);
    put_filter_numbers(&mut columns, links)?;
    for planned in queries {
        put_ordered(&mut columns, &planned.kept)?;
    }
    Ok(columns)
}

// These, and behind them the kept columns that the queries add up, or take the least or the greatest of.
fn number_columns(
    alloc: Global,
    strict: &[u32],
    queries: &[Planned],
) -> Result<Vec<u32>, AllocError>
    ensures { IfOk result (λ columns. columns.items ≡ strict.now ++ told_over queries.now) }
{
    let mut columns = strict.to_vec(alloc)?;
    for planned in queries {
        put_told(&mut columns, &planned.kept)?;
    }
    Ok(columns)
}

// The number columns at these places: value columns, unless only a number may stand there.
fn number_places(
    alloc: Global,
    columns: &[u32],
    strict: &[u32],
) -> Result<Vec<NumberPlace>, AllocError>
    ensures { IfOk result (λ places. places.items ≡ map (place_by strict.now) columns.now) }
{
    let mut places = Vec::new(alloc);
    for column in columns {
        places.push(NumberPlace {
            column: *column,
            value: !strict.contains(column),
        })?;
    }
    Ok(places)
}

// The datasets of the queries.
fn datasets_of(alloc: Global, queries: &[Planned]) -> Result<Vec<u32>, AllocError>
    ensures { IfOk result (λ datasets. datasets.items ≡ map (λ planned. planned.dataset) queries.now) }
{
    let mut datasets = Vec::new(alloc);
    for planned in queries {
        datasets.push(planned.dataset)?;
    }
    Ok(datasets)
}
