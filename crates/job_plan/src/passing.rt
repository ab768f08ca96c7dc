//! The passes of a job.

ghost use Rattle.std.specs.Prelude.{◌≡◌, ◌<◌, ◌≤◌, ◌==◌, ◌&&◌, All, IfOk, length, slice_index_or};
ghost use Rattle.std.specs.List.{list_any};
ghost use Rattle.row_filter.specs.Chains.{links_of};
ghost use Rattle.row_filter.specs.Lines.{AreOrdered, derives as derives_from};
ghost use Rattle.job_plan.specs.Making.{ArePasses, IsPassAt};
ghost use Rattle.job_plan.specs.Passes.{is_first, has_level, is_last_use as is_last, pass_datasets, queries_over as over, removed_after as removed};

use row_filter::Chain;
use std::alloc::{AllocError, Global};

// A pass over a dataset: the queries that it serves, and the datasets whose blocks are removed after it.
#[derive(Drop)]
pub(crate) struct Pass {
    pub(crate) dataset: u32,
    pub(crate) queries: Vec<u32>,
    pub(crate) removed: Vec<u32>,
}

// Whether no query before this one goes over its dataset.
fn is_first_over(datasets: &[u32], query: usize) -> bool
    requires { query < length datasets.now }
    ensures { result ≡ is_first datasets.now query }
{
    !datasets[..query].contains(&datasets[query])
}

// The datasets of the passes, each where the first query over it stands.
fn datasets_of_passes(alloc: Global, datasets: &[u32]) -> Result<Vec<u32>, AllocError>
    ensures { IfOk result (λ passes. passes.items ≡ pass_datasets datasets.now) }
{
    let mut passes = Vec::new(alloc);
    for i in 0..datasets.len() {
        if is_first_over(datasets, i) {
            passes.push(datasets[i])?;
        }
    }
    Ok(passes)
}

// Whether a query goes over a dataset.
fn is_over(datasets: &[u32], query: usize, dataset: u32) -> bool
    requires { query < length datasets.now }
    ensures { result ≡ (slice_index_or datasets.now query 0 == dataset) }
{
    datasets[query] == dataset
}

// The queries over a dataset.
fn queries_over(alloc: Global, datasets: &[u32], dataset: u32) -> Result<Vec<u32>, AllocError>
    requires { length datasets.now ≤ 8 }
    ensures { IfOk result (λ queries. queries.items ≡ over datasets.now dataset) }
{
    let mut queries = Vec::new(alloc);
    for i in 0..datasets.len() {
        if is_over(datasets, i, dataset) {
            queries.push(i as u32)?;
        }
    }
    Ok(queries)
}

// Whether one of these datasets is another one or derives from it.
fn some_derives(chain: &Chain, datasets: &[u32], from: u32) -> bool
    requires ordered { AreOrdered (links_of chain.now) }
    requires there { All (λ d. d ≤ length (links_of chain.now)) datasets.now }
    ensures { result ≡ list_any (λ d. derives_from (links_of chain.now) d from) datasets.now }
{
    for dataset in datasets {
        if chain.derives(*dataset, from) {
            return true;
        }
    }
    false
}

// Whether a pass is the last one that a dataset's blocks serve.
fn is_last_use(chain: &Chain, passes: &[u32], dataset: u32, pass: usize) -> bool
    requires ordered { AreOrdered (links_of chain.now) }
    requires there { All (λ d. d ≤ length (links_of chain.now)) passes.now }
    requires within { pass < length passes.now }
    ensures { result ≡ is_last (links_of chain.now) passes.now dataset pass }
{
    chain.derives(passes[pass], dataset) && !some_derives(chain, &passes[pass + 1..], dataset)
}

// Whether a dataset's blocks are removed after a pass.
fn is_removed(chain: &Chain, passes: &[u32], dataset: u32, pass: usize) -> bool
    requires kept { dataset ≤ length (links_of chain.now) }
    requires ordered { AreOrdered (links_of chain.now) }
    requires there { All (λ d. d ≤ length (links_of chain.now)) passes.now }
    requires within { pass < length passes.now }
    ensures { result ≡ (has_level (links_of chain.now) dataset
        && is_last (links_of chain.now) passes.now dataset pass) }
{
    chain.level(dataset).is_some() && is_last_use(chain, passes, dataset, pass)
}

// The datasets whose blocks are removed after a pass.
fn removed_after(
    alloc: Global,
    chain: &Chain,
    passes: &[u32],
    pass: usize,
) -> Result<Vec<u32>, AllocError>
    requires few { length (links_of chain.now) ≤ 8 }
    requires ordered { AreOrdered (links_of chain.now) }
    requires there { All (λ d. d ≤ length (links_of chain.now)) passes.now }
    requires within { pass < length passes.now }
    ensures { IfOk result (λ datasets. datasets.items ≡ removed (links_of chain.now) passes.now pass) }
{
    let mut datasets = Vec::new(alloc);
    for before in 0..chain.datasets() {
        let dataset = before + 1;
        if is_removed(chain, passes, dataset, pass) {
            datasets.push(dataset)?;
        }
    }
    Ok(datasets)
}

// One of the passes over these datasets.
fn make_pass(
    alloc: Global,
    chain: &Chain,
    datasets: &[u32],
    passes: &[u32],
    pass: usize,
) -> Result<Pass, AllocError>
    requires few { length (links_of chain.now) ≤ 8 }
    requires ordered { AreOrdered (links_of chain.now) }
    requires queries { length datasets.now ≤ 8 }
    requires there { All (λ d. d ≤ length (links_of chain.now)) passes.now }
    requires within { pass < length passes.now }
    ensures { IfOk result (IsPassAt (links_of chain.now) datasets.now passes.now pass) }
{
    let dataset = passes[pass];
    let queries = queries_over(alloc, datasets, dataset)?;
    let removed = removed_after(alloc, chain, passes, pass)?;
    Ok(Pass {
        dataset,
        queries,
        removed,
    })
}

/// The passes of queries over these datasets of a chain, in the order of their first query.
pub(crate) fn make_passes(
    alloc: Global,
    chain: &Chain,
    datasets: &[u32],
) -> Result<Vec<Pass>, AllocError>
    requires few { length (links_of chain.now) ≤ 8 }
    requires ordered { AreOrdered (links_of chain.now) }
    requires queries { length datasets.now ≤ 8 }
    requires there { All (λ d. d ≤ length (links_of chain.now)) datasets.now }
    ensures { IfOk result (λ passes. ArePasses (links_of chain.now) datasets.now passes.items) }
{
    let over = datasets_of_passes(alloc, datasets)?;
    let mut passes = Vec::new(alloc);
    for i in 0..over.len() {
        passes.push(make_pass(alloc, chain, datasets, &over, i)?)?;
    }
    Ok(passes)
}
