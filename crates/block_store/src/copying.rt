//! Copies, written to the disk, read back and removed.

ghost use Rattle.std.specs.Prelude.{◌≡◌, ◌≤◌, ◌<◌, ◌+◌, ◌^◌, ℕ, Some, true, false, is_some, IfOk, IfSome, IfNone, OnErr};
ghost use Rattle.std.specs.Arc.{arc_value};
ghost use Rattle.std.specs.Option.{option_map};
ghost use Rattle.row_page.specs.Spelling.{page_bytes, page_length};
ghost use Rattle.row_page.specs.Reading.{rows_of};
ghost use Rattle.spill_disk.specs.declared.disk.DiskError.TheVariants.{Failed, NoMemory};
ghost use Rattle.fault_count.specs.Faults.{Rose, HasCauseAt};
ghost use Rattle.block_store.specs.Copies.{AreStored, IsStored, has_copy, has_file, copy_rows, of_others, only_of};
ghost use Rattle.block_store.specs.Evictions.{WritesCopy, BeginsAtMost, SameBelow, IsFront, KeepsOthers, file_at};

use crate::Block;
use crate::block_copy::BlockCopy;
use crate::copy_list::CopyList;
use pool_ledger::{Fate, Level};
use row_page::Page;
use spill_disk::{Disk, DiskError};
use std::alloc::{AllocError, Global};
use std::sync::Arc;

/// Writes a block's copy, and enters it in the list. What is not `Disk` leaves no copy, and a file
/// that was begun is removed, if the disk does so.
pub(crate) fn write_copy<K: Disk>(
    disk: &mut K,
    copies: &mut CopyList,
    dataset: u32,
    part: u32,
    page: &Page,
) -> Fate
    requires stored { AreStored (K.files disk.old) (K.next_number disk.old) copies.old.list }
    requires uncopied { has_copy copies.old.list dataset part ≡ false }
    requires room { 0 < copies.old.room }
    ensures written { result ≡ Fate.Disk → (file : ℕ)
        × WritesCopy (K.files disk.old) (K.files disk.new) file (page_bytes page.now.rows) }
    ensures copy { result ≡ Fate.Disk → has_copy copies.new.list dataset part ≡ true }
    ensures rows { result ≡ Fate.Disk → is_some (K.files disk.old) ≡ true →
        copy_rows (K.files disk.new) copies.new.list dataset part ≡ Some page.now.rows }
    ensures gone { result ≡ Fate.Gone → Rose (K.faults disk.old) (K.faults disk.new) }
    ensures begun { (result ≡ Fate.Disk → ⊥) → BeginsAtMost (K.files disk.old) (K.files disk.new) }
    ensures none { (result ≡ Fate.Disk → ⊥) → copies.new.list ≡ copies.old.list }
    ensures others { KeepsOthers dataset part
        (K.files disk.old) copies.old.list (K.files disk.new) copies.new.list }
    ensures room { copies.old.room ≤ copies.new.room + 1 }
    ensures stored { AreStored (K.files disk.new) (K.next_number disk.new) copies.new.list }
    ensures tells { is_some (K.files disk.new) ≡ is_some (K.files disk.old) }
    ensures later { K.faults disk.old ≤ K.faults disk.new }
{
    let bytes = page.bytes();
    match write_file(disk, bytes) {
        Ok(file) => {
            copies.add(BlockCopy {
                dataset,
                part,
                file,
                bytes: bytes.len() as u64,
            });
            Fate::Disk
        }
        Err(DiskError::Failed) => Fate::Gone,
        Err(DiskError::NoMemory) => Fate::NoMemory,
    }
}

/// Writes bytes to a new file. After an `Err` the file is removed, if the disk does so.
fn write_file<K: Disk>(disk: &mut K, bytes: &[u8]) -> Result<u64, DiskError>
    ensures ok { IfOk result (λ file. WritesCopy (K.files disk.old) (K.files disk.new) file bytes.now) }
    ensures fresh { IfOk result (λ file. K.next_number disk.old ≤ file) }
    ensures given { IfOk result (λ file. file < K.next_number disk.new) }
    ensures err { OnErr result (BeginsAtMost (K.files disk.old) (K.files disk.new)) }
    ensures same { SameBelow (K.next_number disk.old) (K.files disk.old) (K.files disk.new) }
    ensures numbers { K.next_number disk.old ≤ K.next_number disk.new }
    ensures tells { is_some (K.files disk.new) ≡ is_some (K.files disk.old) }
    ensures cause { HasCauseAt DiskError.Failed (K.faults disk.old) (K.faults disk.new) result }
{
    let file = disk.create()?;
    if let Err(error) = disk.append(file, bytes) {
        let _ = disk.remove(file);
        return Err(error);
    }
    Ok(file)
}

/// Reads a copy back, as a block of level `Disk`. `None` is a failure of the disk, or that what a
/// disk which tells nothing gave is no page, or less than was written.
pub(crate) fn read_copy<K: Disk>(
    alloc: Global,
    disk: &mut K,
    copy: BlockCopy,
) -> Result<Option<Arc<Block, Global>>, AllocError>
    requires small { copy.bytes ≤ 2 ^ 40 }
    requires stored { IsStored (K.files disk.old) copy }
    ensures rows { is_some (K.files disk.old) ≡ true → IfOk result (λ read. IfSome read (λ block.
        option_map rows_of (file_at (K.files disk.old) copy.file)
        ≡ Some (arc_value block).page.rows)) }
    ensures dataset { IfOk result (λ read. IfSome read (λ block.
        (arc_value block).dataset ≡ copy.dataset)) }
    ensures part { IfOk result (λ read. IfSome read (λ block. (arc_value block).part ≡ copy.part)) }
    ensures level { IfOk result (λ read. IfSome read (λ block.
        (arc_value block).level ≡ Level.Disk)) }
    ensures whole { IfOk result (λ read. IfSome read (λ block.
        copy.bytes ≤ page_length (arc_value block).page.rows)) }
    ensures lost { is_some (K.files disk.old) ≡ true → IfOk result (λ read. IfNone read
        (Rose (K.faults disk.old) (K.faults disk.new))) }
    ensures same { K.files disk.new ≡ K.files disk.old }
    ensures numbers { K.next_number disk.new ≡ K.next_number disk.old }
    ensures later { K.faults disk.old ≤ K.faults disk.new }
{
    let Some(bytes) = read_file(alloc, disk, copy)? else {
        return Ok(None);
    };
    // The front of a page may be a page, with fewer rows.
    if (bytes.len() as u64) < copy.bytes {
        return Ok(None);
    }
    let Some(page) = Page::read(alloc, bytes, copy.bytes)? else {
        return Ok(None);
    };
    let block = Block {
        dataset: copy.dataset,
        part: copy.part,
        level: Level::Disk,
        page,
    };
    Ok(Some(Arc::new(alloc, block)?))
}

/// The first bytes of a copy's file, as many as the copy has. `None` is a failure of the disk.
fn read_file<K: Disk>(
    alloc: Global,
    disk: &mut K,
    copy: BlockCopy,
) -> Result<Option<Vec<u8>>, AllocError>
    ensures front { IfOk result (λ read. IfSome read (λ bytes.
        IsFront (K.files disk.old) copy.file copy.bytes bytes.items)) }
    ensures lost { IfOk result (λ read. IfNone read
        (Rose (K.faults disk.old) (K.faults disk.new))) }
    ensures same { K.files disk.new ≡ K.files disk.old }
    ensures numbers { K.next_number disk.new ≡ K.next_number disk.old }
    ensures later { K.faults disk.old ≤ K.faults disk.new }
{
    let mut bytes = vec![in alloc; 0u8; copy.bytes as usize]?;
    match disk.read_at(copy.file, 0, &mut bytes) {
        Ok(count) => {
            bytes.truncate(count);
            Ok(Some(bytes))
        }
        Err(DiskError::Failed) => Ok(None),
        Err(DiskError::NoMemory) => Err(AllocError),
    }
}

/// Forgets the copies of a dataset, and removes their files, if the disk does so.
pub(crate) fn forget_copies<K: Disk>(disk: &mut K, copies: &mut CopyList, dataset: u32)
    requires { AreStored (K.files disk.old) (K.next_number disk.old) copies.old.list }
    ensures list { copies.new.list ≡ of_others dataset copies.old.list }
    ensures stored { AreStored (K.files disk.new) (K.next_number disk.new) copies.new.list }
    ensures files { (file : ℕ) → has_file (only_of dataset copies.old.list) file ≡ false →
        file_at (K.files disk.new) file ≡ file_at (K.files disk.old) file }
    ensures room { copies.new.room ≡ copies.old.room }
    ensures tells { is_some (K.files disk.new) ≡ is_some (K.files disk.old) }
    ensures later { K.faults disk.old ≤ K.faults disk.new }
{
    while let Some(copy) = copies.take_of(dataset) {
        let _ = disk.remove(copy.file);
    }
}
