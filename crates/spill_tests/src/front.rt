//! Rows at the front of a list: which ascend, and how they go to a page.

ghost use Rattle.std.specs.Prelude.{◌≡◌, ◌+◌, ◌-◌, ◌*◌, ◌<◌, ◌≤◌, ◌++◌, ◌∷◌, [], true, length, take, drop, slice_index_or, Some, IfOk, OnOk, OnErr};
ghost use Rattle.std.specs.Ordering.{is_gt};
ghost use Rattle.aggregate.specs.declared.kind.Kind.TheVariants.{Order};
ghost use Rattle.aggregate.specs.Rows.{Ascends};
ghost use Rattle.aggregate.specs.Totals.{costs as costs_of, key_cmp};
ghost use Rattle.row_page.specs.Pages.{empty_page};
ghost use Rattle.spill_tests.specs.declared.row.Row.{Row};
ghost use Rattle.spill_tests.specs.Rows.{entries_of_rows, Puts};

use crate::row::Row;
use consumer_trait::{cost_of, put_entry};
use row_page::{Page, PageFault};
use std::alloc::AllocError;

/// How many rows at the front have keys that never fall, at most `most`.
pub fn front_of(rows: &[Row], most: usize) -> usize
    requires rows { 1 ≤ length rows.now }
    requires most { 1 ≤ most }
    ensures some { 1 ≤ result }
    ensures within { result ≤ length rows.now }
    ensures ascends { Ascends (Some Order) (take result (entries_of_rows rows.now)) }
    ensures most { result ≤ most }
    ensures longest { (before behind : Row) → result < length rows.now → result < most →
        before ≡ slice_index_or rows.now (result - 1) before →
        behind ≡ slice_index_or rows.now result behind →
        is_gt (key_cmp before.key.items behind.key.items) ≡ true }
{
    let end = most.min(rows.len());
    for i in 1..end {
        if rows[i - 1]
            .key
            .as_slice()
            .cmp(rows[i].key.as_slice())
            .is_gt()
        {
            return i;
        }
    }
    end
}

/// Puts the first `most` rows on the page, or as many as it has room for, and says how many.
pub fn put_front(rows: &[Row], most: usize, out: &mut Page) -> Result<usize, AllocError>
    requires some { 1 ≤ most }
    requires within { most ≤ length rows.now }
    requires page { out.old ≡ empty_page }
    ensures puts { IfOk result (λ count. Puts rows.now most count out.new.rows) }
    ensures room { out.new.room ≡ out.old.room }
{
    for i in 0..most {
        match put_entry(&rows[i].key, &rows[i].value, out) {
            Ok(()) => {}
            Err(PageFault::Full) if i > 0 => return Ok(i),
            Err(_) => return Err(AllocError),
        }
    }
    Ok(most)
}

/// Takes the first `count` rows away, and their costs.
pub fn drop_front(rows: &mut Vec<Row>, costs: &mut u64, count: usize)
    requires within { count ≤ length rows.old.items }
    requires charged { costs.old ≡ costs_of (entries_of_rows rows.old.items) }
    ensures rows { rows.new.items ≡ drop count rows.old.items }
    ensures charged { costs.new ≡ costs_of (entries_of_rows rows.new.items) }
    ensures less { costs.new + 32 * count ≤ costs.old }
{
    for _i in 0..count {
        let row = rows.remove(0);
        *costs -= cost_of(&row.key, &row.value);
    }
}
