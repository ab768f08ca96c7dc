// Entries, and runs of them.
ghost use Rattle.std.specs.Prelude.{◌≡◌, IfOk};

use crate::tests::told::Told;
use row_page::Page;
use run_file::{Run, RunFault, RunWriter};
use spill_disk::Disk;
use std::alloc::Global;

/// Puts an entry behind those of a page.
pub fn push_entry(page: &mut Page, key: &[u8], value: &[u8], told: &mut Told) {
    if key.len() > 1_000_000 || value.len() > 1_000_000 {
        return told.put("a long entry");
    }
    told.need(page.push_pair(key, value).is_ok());
}

/// A page of three entries: `a` with `1`, `b` with nothing, `cc` with `22`.
pub fn three_entries(alloc: Global, told: &mut Told) -> Page {
    let mut page = Page::new(alloc, 100);
    push_entry(&mut page, b"a", b"1", told);
    push_entry(&mut page, b"b", b"", told);
    push_entry(&mut page, b"cc", b"22", told);
    page
}

/// Writes a page as a run on the disk with this number.
pub fn put_run<D: Disk>(disk: &mut D, number: u32, page: &Page) -> Result<Run, RunFault>
    ensures { IfOk result (λ run. run.disk ≡ number) }
{
    let mut writer = RunWriter::start(disk, number)?;
    writer.write(disk, page)?;
    Ok(writer.finish())
}
