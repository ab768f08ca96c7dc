//! The rows of a dataset, computed from those of its parent.

ghost use Rattle.std.specs.Prelude.{◌≡◌, ◌≤◌, All, IfOk, length};
ghost use Rattle.std.specs.List.{AllByRecursion};
ghost use Rattle.row_form.specs.Forms.{HasForm};
ghost use Rattle.row_filter.specs.Chains.{links_of};
ghost use Rattle.row_filter.specs.Rows.{HasTestedColumns, kept_rows};
ghost use Rattle.lineage.specs.LineageViews.{IsLineage, form_for, own_rows};

use crate::lineage::Lineage;
use row_filter::{Filter, select};
use row_page::{Page, PageFault};
use std::alloc::{AllocError, Global};

// The dataset's rows, of those of its parent, on a page of their own.
pub(crate) fn make_page(
    alloc: Global,
    lineage: &Lineage<'_>,
    dataset: u32,
    from: &Page,
) -> Result<Page, AllocError>
    requires lineage { IsLineage lineage.now }
    requires there { dataset ≤ length (links_of lineage.now.chain) }
    requires formed { AllByRecursion (HasForm (form_for lineage.now)) from.now.rows }
    ensures { IfOk result (λ page. page.rows ≡ own_rows lineage.now.chain dataset from.now.rows) }
{
    match lineage.chain.filter(dataset) {
        Some(filter) => Ok(filter_page(alloc, filter, from)?),
        None => Ok(copy_page(alloc, from)?),
    }
}

// The rows that the filter keeps, on a page of their own.
fn filter_page(alloc: Global, filter: &Filter, from: &Page) -> Result<Page, AllocError>
    requires covers { All (λ row. HasTestedColumns (length row) filter.now) from.now.rows }
    ensures { IfOk result (λ page. page.rows ≡ kept_rows filter.now from.now.rows) }
{
    // What is kept takes no more bytes than all.
    let mut page = Page::new(alloc, from.bytes().len() as u64);
    match select(filter, from, &mut page) {
        Ok(()) => Ok(page),
        Err(PageFault::Full) => unreachable!(),
        Err(PageFault::NoMemory) => Err(AllocError),
    }
}

// All rows, on a page of their own.
fn copy_page(alloc: Global, from: &Page) -> Result<Page, AllocError>
    ensures { IfOk result (λ page. page.rows ≡ from.now.rows) }
{
    let bytes = from.bytes().to_vec(alloc)?;
    let room = bytes.len() as u64;
    let page = Page::read_known(alloc, bytes, from.rows(), room)?;
    Ok(page)
}
