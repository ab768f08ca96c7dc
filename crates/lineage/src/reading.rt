//! The input's rows in a partition, as they landed.

ghost use Rattle.std.specs.Prelude.{◌<◌, ℕ, IfOk, List, length};
ghost use Rattle.lineage.specs.Handed.{AreFormed, GivesPage, HasCauseIn, LeavesFiles};
ghost use Rattle.lineage.specs.LineageViews.{run_for};
ghost use Rattle.lineage.specs.Standing.{HoldsInput};

use crate::lineage::Lineage;
use crate::rows_fault::RowsFault;
use row_page::Page;
use run_file::{Run, RunFault, read_page};
use spill_disk::Disk;
use std::alloc::Global;

// Reads a partition's landed run from its disk into the page that its bytes are.
pub(crate) fn read_input<D: Disk>(
    alloc: Global,
    lineage: &Lineage<'_>,
    disk: &mut D,
    part: u32,
) -> Result<Page, RowsFault>
    requires part { part < length lineage.now.landed }
    ensures rows { (input : List (List (List ℕ))) → HoldsInput (D.files disk.old) lineage.now part input
        → GivesPage input result }
    ensures formed { IfOk result (λ page. AreFormed lineage.now part page.rows) }
    ensures disk { LeavesFiles (D.files disk.old) (D.files disk.new) (D.faults disk.old) (D.faults disk.new) }
    ensures cause { HasCauseIn (run_for lineage.now part) (D.faults disk.old) (D.faults disk.new) result }
{
    let landed = lineage.landed[part as usize];
    let run = Run { disk: 0, ..landed };
    match read_page(alloc, disk, &run, lineage.chain.form()) {
        Ok(page) => Ok(page),
        Err(RunFault::DiskFault { .. }) => Err(RowsFault::DiskFault),
        Err(RunFault::Damaged(damage)) => Err(RowsFault::Damaged(damage)),
        Err(RunFault::NoMemory) => Err(RowsFault::NoMemory),
    }
}
