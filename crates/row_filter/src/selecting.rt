//! The rows of a page that a filter keeps, put into another page.

ghost use Rattle.std.specs.Prelude.{◌≡◌, ◌<◌, ◌≤◌, ◌++◌, All, Err, OnErr, OnOk, length};
ghost use Rattle.row_page.specs.declared.page.PageFault.TheVariants as faults;
ghost use Rattle.row_page.specs.Spelling.{page_length};
ghost use Rattle.row_filter.specs.Rows.{HasTestedColumns, TakesFront, TakesWhatFits, kept_rows};

use crate::filter::Filter;
use crate::keeping::keeps;
use row_page::{Page, PageFault};

/// Puts the landed rows of a page that a filter keeps behind those of another page, in their order. `Full`
/// comes at the first of them that passes the room which is left; those before it were put. After any `Err`
/// the rows that were put stay. A kept row's bytes are copied once.
pub fn select(filter: &Filter, from: &Page, into: &mut Page) -> Result<(), PageFault>
    requires covers { All (λ row. HasTestedColumns (length row) filter.now) from.now.rows }
    ensures ok { OnOk result (into.new
        ≡ record into.old { rows = into.old.rows ++ kept_rows filter.now from.now.rows }) }
    ensures fits { OnOk result
        (page_length (into.old.rows ++ kept_rows filter.now from.now.rows) ≤ into.old.room) }
    ensures err { OnErr result (TakesFront into.old into.new (kept_rows filter.now from.now.rows)) }
    ensures full { result ≡ Err faults.Full
        → TakesWhatFits into.old into.new (kept_rows filter.now from.now.rows) }
    ensures passes { result ≡ Err faults.Full
        → into.old.room < page_length (into.old.rows ++ kept_rows filter.now from.now.rows) }
{
    for i in 0..from.rows() {
        let row = from.row(i);
        if keeps(filter, row.again()) {
            into.push(row)?;
        }
    }
    // For the proof: a page's bytes never pass its room, as this clause says.
    let _ = into.bytes();
    Ok(())
}
