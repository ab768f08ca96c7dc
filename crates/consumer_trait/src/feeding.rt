//! An entry that is fed: what it costs, what it lacks, and how it stands on a page.

ghost use Rattle.std.specs.Prelude.{◌≡◌, ◌≢◌, ◌≤◌, ◌++◌, ◌∷◌, [], max, length, Err, OnOk, OnErr};
ghost use Rattle.aggregate.specs.Totals.{cost};
ghost use Rattle.row_page.specs.Pages.{page_room};
ghost use Rattle.row_page.specs.declared.page.PageFault.TheVariants.{Full};
ghost use Rattle.consumer_trait.specs.declared.answers.Fed.TheVariants.{Need};
ghost use Rattle.consumer_trait.specs.Usages.{fields_of_entry};

use crate::answers::Fed;
use row_page::{Page, PageFault};

/// The bytes that an entry is charged: 32, its key and its value.
pub fn cost_of(key: &[u8], value: &[u8]) -> u64
    requires key_fits { length key.now ≤ 131152 }
    requires value_fits { length value.now ≤ 65568 }
    ensures { result ≡ cost (record { key = key.now; value = value.now }) }
{
    32 + key.len() as u64 + value.len() as u64
}

/// The answer of a consumer whose room falls short by so many bytes: at least 16,384 are welcome.
pub fn need_of(must: u64) -> Fed
    ensures { result ≡ Need must (max must 16384) }
{
    Fed::Need {
        must,
        wish: must.max(16384),
    }
}

/// Puts an entry on the page. `Full` comes only where the page has rows: each entry has room on an empty
/// one. After an `Err` the page is as it was.
pub fn put_entry(key: &[u8], value: &[u8], out: &mut Page) -> Result<(), PageFault>
    requires key_fits { length key.now ≤ 131152 }
    requires value_fits { length value.now ≤ 65568 }
    requires room { out.old.room ≡ page_room }
    ensures ok { OnOk result (out.new ≡ record out.old {
      rows = out.old.rows ++ fields_of_entry (record { key = key.now; value = value.now }) ∷ [];
    }) }
    ensures err { OnErr result (out.new ≡ out.old) }
    ensures full { result ≡ Err Full → out.old.rows ≢ [] }
{
    out.push_pair(key, value)
}
