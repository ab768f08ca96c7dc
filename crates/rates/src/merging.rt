//! Runs of drawn entries, and their merge.

ghost use Rattle.std.specs.Prelude.{◌≡◌, ◌≤◌, ◌<◌, ◌^◌, [], List, ℕ, All, length, true, Some, IsSome, IfOk, OnOk};
ghost use Rattle.aggregate.specs.declared.kind.Kind.TheVariants.{Order};
ghost use Rattle.row_page.specs.Pages.{empty_page};
ghost use Rattle.consumer_trait.specs.States.{Rest};
ghost use Rattle.spill_disk.specs.Files.{IsThere};
ghost use Rattle.row_sorter.specs.Sorters.{state_of};

use crate::drawn::Drawn;
use crate::feeding::feed_one;
use aggregate::Kind;
use consumer_trait::{Consumer, Turn};
use row_page::{PAGE_ROOM, Page};
use row_sorter::RowSorter;
use run_file::{Run, RunFault, RunWriter};
use run_merge::Merge;
use spill_disk::{Disk, MemoryDisk, One};
use std::alloc::Global;

// Spills a consumer whole to a run.
fn spill_to<C: Consumer, D: Disk>(
    consumer: &mut C,
    page: &mut Page,
    disk: &mut D,
    writer: &mut RunWriter,
) -> Result<(), RunFault>
    requires kind { IsSome (C.state consumer.old).kind }
    requires page { page.old ≡ empty_page }
    requires there { IsThere (D.files disk.old) writer.old.file }
    ensures kind { IfOk result (λ _. (C.state consumer.new).kind ≡ (C.state consumer.old).kind) }
    ensures rest { IfOk result (λ _. (C.state consumer.new).stage ≡ Rest) }
    ensures page { IfOk result (λ _. page.new ≡ empty_page) }
    ensures disk { writer.new.disk ≡ writer.old.disk }
{
    for _turn in 0..u64::MAX {
        let Ok(turn) = consumer.spill_turn(page) else {
            return Err(RunFault::NoMemory);
        };
        match turn {
            Turn::Ask(_) => {
                // That more could be granted is known with it.
                let _used = consumer.used();
                consumer.granted(0);
            }
            Turn::Write => {
                writer.write(disk, page)?;
                page.clear();
            }
            Turn::Freed(_) => {}
            Turn::Done => return Ok(()),
        }
    }
    Err(RunFault::NoMemory)
}

// Writes a run of so many drawn entries.
fn write_run(
    sorter: &mut RowSorter,
    page: &mut Page,
    disk: &mut MemoryDisk,
    drawn: &mut Drawn,
    keys: u64,
    entries: u64,
) -> Result<Run, RunFault>
    requires kind { (state_of sorter.old).kind ≡ Some Order }
    requires rest { (state_of sorter.old).stage ≡ Rest }
    requires page { page.old ≡ empty_page }
    ensures kind { IfOk result (λ _. (state_of sorter.new).kind ≡ Some Order) }
    ensures rest { IfOk result (λ _. (state_of sorter.new).stage ≡ Rest) }
    ensures page { IfOk result (λ _. page.new ≡ empty_page) }
    ensures disk { IfOk result (λ run. run.disk ≡ 0) }
{
    let mut value = [0; 34];
    value[0] = 1;
    value[17] = 1;
    for _entry in 0..entries {
        let key = drawn.key(keys);
        if feed_one(sorter, page, &key, &value, 1 << 40).is_err() {
            return Err(RunFault::NoMemory);
        }
    }
    let mut writer = RunWriter::start(disk, 0)?;
    spill_to(sorter, page, disk, &mut writer)?;
    Ok(writer.finish())
}

/// Writes eight runs of drawn entries, each sorted, and reads them side by side, if that is wanted. Answers how many rows the
/// runs had, or the merge gave.
#[tactic(auto, using(crate::proofs::OnDisk::are_on_more))]
pub fn merge_drawn(alloc: Global, keys: u64, entries: u64, merges: bool) -> Result<u64, RunFault> {
    let mut disk = MemoryDisk::new(alloc, Vec::new(alloc));
    let mut page = Page::new(alloc, PAGE_ROOM);
    let mut drawn = Drawn::new();
    let mut sorter = RowSorter::new(alloc);
    let mut runs = Vec::new(alloc);
    let mut rows = 0u64;
    let Ok(()) = sorter.begin(&Kind::Order) else {
        return Err(RunFault::NoMemory);
    };
    for _run in 0..8 {
        let run = write_run(
            &mut sorter,
            &mut page,
            &mut disk,
            &mut drawn,
            keys,
            entries / 8,
        )?;
        rows = rows.saturating_add(run.count);
        if runs.push(run).is_err() {
            return Err(RunFault::NoMemory);
        }
    }
    if !merges {
        return Ok(rows);
    }
    let mut shelf = One { disk: &mut disk };
    let Ok(mut merge) = Merge::new(alloc, &runs, &Kind::Order) else {
        return Err(RunFault::NoMemory);
    };
    let mut given = 0u64;
    for _row in 0..u64::MAX {
        if !merge.advance(&mut shelf)? {
            break;
        }
        given = given.saturating_add(merge.row().count() as u64 / 2);
    }
    Ok(given)
}
