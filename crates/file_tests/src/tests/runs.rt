// Runs, written and read.
ghost use Rattle.std.specs.Prelude.{◌≡◌, ◌<◌, ◌++◌, List, ℕ, IfOk, OnOk};
ghost use Rattle.run_file.specs.Readers.{run_of};
ghost use Rattle.run_file.specs.Reading.{IsAhead};
ghost use Rattle.run_file.specs.Shelved.{files_on};

use crate::tests::calls::put_failed;
use crate::tests::entries::{push_entry, put_run, three_entries};
use crate::tests::folders::{disk_in, remove};
use crate::tests::lists::kind_of;
use crate::tests::reading::{put_fault, put_numbers, take_steps};
use crate::tests::scripts::plays;
use crate::tests::told::{Told, tells};
use crate::tests::words::{number_of, parted};
use aggregate::Kind;
use row_form::Form;
use row_page::Page;
use run_file::{Run, RunFault, RunReader, RunWriter};
use spill_disk::{Disk, MemoryDisk, One, Shelf, VeilDisk};
use std::alloc::Global;
use std::test::Fail;

/// A disk in memory, one that tells nothing, or one that hides the last byte; a run that is written there, and steps of a
/// reader.
pub fn play_read(alloc: Global, given: &str, rest: &str, told: &mut Told) {
    let (disk, run) = parted(given, ' ');
    if disk == "memory" {
        let mut disk = MemoryDisk::new(alloc, Vec::new(alloc));
        return read_on(alloc, &mut disk, run, rest, told);
    }
    let hidden = if disk == "short" { 1 } else { 0 };
    let Ok(short) = vec![in alloc; (0, hidden)] else {
        return told.lack();
    };
    let mut disk = VeilDisk::new(alloc, Vec::new(alloc), short);
    read_on(alloc, &mut disk, run, rest, told);
}

/// Tells of the run that is written, and of the steps of a reader with a form.
pub fn read_on<D: Disk>(alloc: Global, disk: &mut D, run: &str, rest: &str, told: &mut Told) {
    let (kind, entries) = parted(run, ' ');
    let (_, steps) = parted(rest, '|');
    let page = three_entries(alloc, told);
    match put_entries(disk, &page, entries) {
        Ok(run) => read_run(alloc, disk, &run, kind, steps, told),
        Err(fault) => put_fault(fault, told),
    }
}

fn read_run<D: Disk>(
    alloc: Global,
    disk: &mut D,
    run: &Run,
    kind: &str,
    steps: &str,
    told: &mut Told,
)
    requires { run.now.disk ≡ 0 }
{
    put_numbers(run, told);
    told.put("|");
    match kind_of(alloc, kind) {
        Ok(kind) => take_steps(alloc, disk, run, Form::Entries(kind), steps, told),
        Err(_) => told.lack(),
    }
}

// Writes a page as a run, once or twice, or with another length of its second row.
fn put_entries<D: Disk>(disk: &mut D, page: &Page, entries: &str) -> Result<Run, RunFault>
    ensures { IfOk result (λ run. run.disk ≡ 0) }
{
    match entries {
        "once" => put_run(disk, 0, page),
        "twice" => put_twice(disk, page),
        length => put_damaged(disk, page, number_of(length)),
    }
}

fn put_twice<D: Disk>(disk: &mut D, page: &Page) -> Result<Run, RunFault>
    ensures { IfOk result (λ run. run.disk ≡ 0) }
{
    let mut writer = RunWriter::start(disk, 0)?;
    writer.write(disk, page)?;
    writer.write(disk, page)?;
    Ok(writer.finish())
}

// The bytes of the three entries' page with another length of the second one.
fn damaged_bytes(page: &Page, length: u64) -> Result<[u8; 43], RunFault> {
    if page.bytes().len() != 43 {
        return Err(RunFault::NoMemory);
    }
    let mut bytes = [0u8; 43];
    bytes.copy_from_slice(page.bytes());
    let length = length.min(4_294_967_295) as u32;
    bytes[14..18].copy_from_slice(&length.to_be_bytes());
    Ok(bytes)
}

/// Writes the run of the three entries with another length of the second one.
pub fn put_damaged<D: Disk>(disk: &mut D, page: &Page, length: u64) -> Result<Run, RunFault>
    ensures { IfOk result (λ run. run.disk ≡ 0) }
{
    let bytes = damaged_bytes(page, length)?;
    let Ok(file) = disk.create() else {
        return Err(RunFault::NoMemory);
    };
    if disk.append(file, &bytes).is_err() {
        return Err(RunFault::NoMemory);
    }
    Ok(Run {
        disk: 0,
        file,
        bytes: 43,
        count: 3,
        greatest: 36,
    })
}

// An entry of another form has a value of 1 byte, where a count has 17. The second row has 9 bytes, and none of the run
// more than 12.
const READ: &str = "\
a run is read as it was written|read memory order once|0:0:43:3:36| advance=00000001610000000131 \
advance=000000016200000000 advance=000000026363000000023232 advance=end next=end
the first by next|read memory order once|0:0:43:3:36| next=00000001610000000131
next lends the rows in order and then none|read memory order once|0:0:43:3:36| next=00000001610000000131 \
next=000000016200000000 next=000000026363000000023232 next=end next=end
next goes on from the row that advance stands at|read memory order once|0:0:43:3:36| \
advance=00000001610000000131 next=000000016200000000 advance=000000026363000000023232 advance=end
a row of another form is damage|read memory count once|0:0:43:3:36| next=damaged:0:0:3:0
a short file is damaged and not ended|read short order once|0:0:43:3:36| advance=00000001610000000131 \
advance=000000016200000000 advance=damaged:0:0:3:2 next=damaged:0:0:3:2";

#[test]
fn a_run_is_read_as_it_was_written(rt: HostRuntime) -> Result<(), Fail> {
    plays(&rt, rt.alloc(), READ)
}

const LENGTHS: &str = "\
0|read memory order 0|0:0:43:3:36| advance=00000001610000000131 advance=damaged:0:0:3:1 next=damaged:0:0:3:1
8|read memory order 8|0:0:43:3:36| advance=00000001610000000131 advance=damaged:0:0:3:1 next=damaged:0:0:3:1
10|read memory order 10|0:0:43:3:36| advance=00000001610000000131 advance=damaged:0:0:3:1 next=damaged:0:0:3:1
12|read memory order 12|0:0:43:3:36| advance=00000001610000000131 advance=damaged:0:0:3:1 next=damaged:0:0:3:1
13|read memory order 13|0:0:43:3:36| advance=00000001610000000131 advance=damaged:0:0:3:1 next=damaged:0:0:3:1
26|read memory order 26|0:0:43:3:36| advance=00000001610000000131 advance=damaged:0:0:3:1 next=damaged:0:0:3:1
4294967295|read memory order 4294967295|0:0:43:3:36| advance=00000001610000000131 advance=damaged:0:0:3:1 \
next=damaged:0:0:3:1
0, a disk that tells nothing|read veil order 0|0:0:43:3:36| advance=00000001610000000131 advance=damaged:0:0:3:1 \
next=damaged:0:0:3:1
8, a disk that tells nothing|read veil order 8|0:0:43:3:36| advance=00000001610000000131 advance=damaged:0:0:3:1 \
next=damaged:0:0:3:1
10, a disk that tells nothing|read veil order 10|0:0:43:3:36| advance=00000001610000000131 advance=damaged:0:0:3:1 \
next=damaged:0:0:3:1
12, a disk that tells nothing|read veil order 12|0:0:43:3:36| advance=00000001610000000131 advance=damaged:0:0:3:1 \
next=damaged:0:0:3:1
13, a disk that tells nothing|read veil order 13|0:0:43:3:36| advance=00000001610000000131 advance=damaged:0:0:3:1 \
next=damaged:0:0:3:1
26, a disk that tells nothing|read veil order 26|0:0:43:3:36| advance=00000001610000000131 advance=damaged:0:0:3:1 \
next=damaged:0:0:3:1
4294967295, a disk that tells nothing|read veil order 4294967295|0:0:43:3:36| advance=00000001610000000131 \
advance=damaged:0:0:3:1 next=damaged:0:0:3:1";

#[test]
fn a_length_that_is_another_is_damage(rt: HostRuntime) -> Result<(), Fail> {
    plays(&rt, rt.alloc(), LENGTHS)
}

// Writes the run of one entry, `k` with a value of 17 bytes: the first, the second and the last of these numbers, and zeros.
fn put_slot<D: Disk>(
    alloc: Global,
    disk: &mut D,
    bytes: &str,
    told: &mut Told,
) -> Result<Run, RunFault>
    ensures { IfOk result (λ run. run.disk ≡ 0) }
{
    let (flag, number) = parted(bytes, ' ');
    let (first, last) = parted(number, ' ');
    let mut slot = [0u8; 17];
    slot[0] = number_of(flag).min(255) as u8;
    slot[1] = number_of(first).min(255) as u8;
    slot[16] = number_of(last).min(255) as u8;
    let mut page = Page::new(alloc, 100);
    push_entry(&mut page, b"k", &slot, told);
    put_run(disk, 0, &page)
}

/// A kind, and the value of the one entry of a run; and steps of its reader.
pub fn play_value(alloc: Global, given: &str, steps: &str, told: &mut Told) {
    let (kind, bytes) = parted(given, ' ');
    let mut disk = MemoryDisk::new(alloc, Vec::new(alloc));
    let run = match put_slot(alloc, &mut disk, bytes, told) {
        Ok(run) => run,
        Err(fault) => return put_fault(fault, told),
    };
    match kind_of(alloc, kind) {
        Ok(kind) => take_steps(alloc, &mut disk, &run, Form::Entries(kind), steps, told),
        Err(_) => told.lack(),
    }
}

// A value of a group begins with a 1, or it is zeros alone, but for a count. An order's value is any bytes.
const VALUES: &str = "\
a number|value sum 1 0 0| next=000000016b000000110100000000000000000000000000000000 next=end
any bytes of a number|value sum 1 171 205| next=000000016b0000001101ab0000000000000000000000000000cd next=end
any bytes of a count|value count 1 255 255| next=000000016b0000001101ff0000000000000000000000000000ff next=end
a missing sum|value sum 0 0 0| next=000000016b000000110000000000000000000000000000000000 next=end
a missing least|value min 0 0 0| next=000000016b000000110000000000000000000000000000000000 next=end
a missing greatest|value max 0 0 0| next=000000016b000000110000000000000000000000000000000000 next=end
a missing count|value count 0 0 0| next=damaged:0:0:1:0 next=damaged:0:0:1:0
a first byte of 2|value sum 2 0 0| next=damaged:0:0:1:0
a first byte of 255|value max 255 255 255| next=damaged:0:0:1:0
a missing sum with a last byte|value sum 0 0 1| next=damaged:0:0:1:0
a missing sum with a byte behind the first|value sum 0 128 0| next=damaged:0:0:1:0
a value of an order|value order 2 0 1| next=000000016b000000110200000000000000000000000000000001 next=end";

#[test]
fn a_value_that_no_group_has_is_damage(rt: HostRuntime) -> Result<(), Fail> {
    plays(&rt, rt.alloc(), VALUES)
}

/// Puts the rows that are ahead behind those of a page, by `next` alone.
fn put_rows<D: Disk, H: Shelf<D>>(
    reader: &mut RunReader,
    shelf: &mut H,
    page: &mut Page,
) -> Result<(), Fail>
    requires there { (run_of reader.old).disk < H.count_of shelf.old }
    ensures { (rows : List (List (List ℕ))) →
        IsAhead (files_on H.disk_of D.files shelf.old (run_of reader.old).disk) reader.old rows →
        OnOk result (page.new.rows ≡ page.old.rows ++ rows) }
{
    while let Some(row) = reader.next(shelf)? {
        page.push(row)?;
    }
    Ok(())
}

// Puts the rows of a run behind those of a page.
fn put_run_rows(
    alloc: Global,
    disk: &mut MemoryDisk,
    run: &Run,
    page: &mut Page,
) -> Result<(), Fail>
    requires { run.now.disk ≡ 0 }
{
    let mut reader = RunReader::new(alloc, run, Form::Entries(Kind::Order));
    put_rows(&mut reader, &mut One { disk }, page)
}

// Reads the run of a page into another one.
fn copy_rows(alloc: Global, page: &Page, copy: &mut Page) -> Result<(), Fail> {
    let mut disk = MemoryDisk::new(alloc, Vec::new(alloc));
    let run = put_run(&mut disk, 0, page)?;
    put_run_rows(alloc, &mut disk, &run, copy)
}

/// Whether a run that is read in a loop into another page is that of the three entries.
pub fn play_copy(alloc: Global, told: &mut Told) -> Result<(), Fail> {
    let page = three_entries(alloc, told);
    let mut copy = Page::new(alloc, 100);
    copy_rows(alloc, &page, &mut copy)?;
    told.put_bool(copy.bytes() == page.bytes());
    Ok(())
}

#[test]
fn next_lends_the_rows_in_a_loop(rt: HostRuntime) -> Result<(), Fail> {
    plays(&rt, rt.alloc(), "three entries|copy|yes")
}

fn read_folder(rt: &HostRuntime, rest: &str, told: &mut Told) -> Result<(), Fail> {
    let mut disk = disk_in(rt, "runs")?;
    read_on(rt.alloc(), &mut disk, "order twice", rest, told);
    put_failed(disk.remove(0), told);
    remove(rt, "runs", told);
    Ok(())
}

const TWICE: &str = "0:0:86:6:36| advance=00000001610000000131 advance=000000016200000000 \
    advance=000000026363000000023232 advance=00000001610000000131 advance=000000016200000000 \
    advance=000000026363000000023232 advance=end";

#[test]
fn a_run_through_a_folder_is_read_back(rt: HostRuntime) -> Result<(), Fail> {
    let mut told = Told::new(rt.alloc());
    read_folder(&rt, TWICE, &mut told)?;
    tells(&rt, &told, TWICE, "six entries")
}
