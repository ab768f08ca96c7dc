//! The job of a trial.

ghost use Rattle.std.specs.Prelude.{◌≡◌, [], ◌∷◌, IfOk, Some};
ghost use Rattle.job_text.specs.Jobs.{IsJob};
ghost use Rattle.job_text.specs.declared.job.Shape.TheVariants.{Group};
ghost use Rattle.trial_input.specs.FixedJob.{counts, high_dataset, keys_query, limits_query, of_price, order_query, pos_dataset, priced_from, sums_query, trial_job as fixed_job};

use aggregate::Agg;
use item_lists::{Listed, Name};
use job_text::{Dataset, Job, KeyItem, Part, Query, Shape};
use pool_ledger::Level;
use row_filter::{Comparison, Constant, Filter};
use std::alloc::{AllocError, Global};

// The columns, in the order of the job's text.
const PRICE: u32 = 0;

const KEY: u32 = 1;

const COUNTS: Part = Part {
    agg: Agg::Count,
    column: None,
};

/// What an aggregate makes of the prices.
fn price_part(agg: Agg) -> Part
    ensures { result ≡ of_price agg }
{
    Part {
        agg,
        column: Some(PRICE),
    }
}

/// The name that a text spells.
fn name_of(alloc: Global, text: &str) -> Result<Name, AllocError>
    ensures { IfOk result (λ name. name ≡ text.now) }
{
    Ok(Name::of(String::from_str(alloc, text)?))
}

/// The rows with at least this price.
fn priced(least: i64) -> Option<Filter>
    ensures { result ≡ Some (priced_from least) }
{
    Some(Filter::Test {
        column: PRICE,
        test: Comparison::AtLeast,
        constant: Constant::Number(least),
    })
}

/// The two datasets: the rows with a price from 0 on, and those of them with one from 500 on.
fn datasets(alloc: Global) -> Result<Listed<Dataset>, AllocError>
    ensures { IfOk result (λ datasets. datasets ≡ pos_dataset ∷ high_dataset ∷ []) }
{
    let pos = Dataset {
        name: name_of(alloc, "pos")?,
        parent: 0,
        filter: priced(0),
        level: Some(Level::Disk),
    };
    let high = Dataset {
        name: name_of(alloc, "high")?,
        parent: 1,
        filter: priced(500),
        level: None,
    };
    Ok(Listed::of(Vec::from_array(alloc, [pos, high])?))
}

/// A query that groups a dataset by the key.
fn by_key(alloc: Global, dataset: u32, parts: &[Part]) -> Result<Query, AllocError>
    ensures { IfOk result (λ query. query ≡ record { dataset = dataset; shape = Group (1 ∷ []) parts.now }) }
{
    let columns = Listed::of(Vec::from_slice(alloc, &[KEY])?);
    let parts = Listed::of(Vec::from_slice(alloc, parts)?);
    Ok(Query {
        dataset,
        shape: Shape::Group { columns, parts },
    })
}

/// The query that orders by the price.
fn by_price(alloc: Global) -> Result<Query, AllocError>
    ensures { IfOk result (λ query. query ≡ order_query) }
{
    let item = KeyItem {
        column: PRICE,
        number: true,
        down: true,
    };
    let keys = Listed::of(Vec::from_slice(alloc, &[item])?);
    let columns = Listed::of(Vec::from_slice(alloc, &[KEY, PRICE])?);
    Ok(Query {
        dataset: 1,
        shape: Shape::Order { keys, columns },
    })
}

fn queries(alloc: Global) -> Result<Listed<Query>, AllocError>
    ensures { IfOk result (λ queries. queries ≡ sums_query ∷ order_query ∷ limits_query ∷ keys_query ∷ []) }
{
    let sums = by_key(alloc, 1, &[COUNTS, price_part(Agg::Sum)])?;
    let order = by_price(alloc)?;
    let limits = by_key(alloc, 2, &[price_part(Agg::Min), price_part(Agg::Max)])?;
    let keys = by_key(alloc, 0, &[COUNTS])?;
    Ok(Listed::of(Vec::from_array(alloc, [sums, order, limits, keys])?))
}

fn made_job(alloc: Global) -> Result<Job, AllocError>
    ensures { IfOk result (λ job. job ≡ fixed_job) }
{
    let price = name_of(alloc, "price")?;
    let key = name_of(alloc, "key")?;
    Ok(Job {
        names: Listed::of(Vec::from_array(alloc, [price, key])?),
        datasets: datasets(alloc)?,
        queries: queries(alloc)?,
    })
}

/// The job of a trial: groups and an order over two datasets, and groups over all rows.
pub fn trial_job(alloc: Global) -> Result<Job, AllocError>
    ensures job { IfOk result (λ job. job ≡ fixed_job) }
    ensures whole { IfOk result IsJob }
{
    made_job(alloc)
}
