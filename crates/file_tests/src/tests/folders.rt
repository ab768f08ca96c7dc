// Disks in folders.
use crate::tests::calls::{make_calls, put_failed};
use crate::tests::told::{Told, tells};
use spill_disk::{Disk, FolderDisk};
use std::fs;
use std::rt::Files;
use std::test::Fail;

const ROW: usize = 40;

const ROWS: u64 = 78_644;

/// A disk in the folder of this name.
pub fn disk_in(rt: &HostRuntime, name: &str) -> Result<FolderDisk<HostRuntime>, Fail> {
    let folder = String::from_str(rt.alloc(), name)?;
    Ok(FolderDisk::new(rt.clone()?, rt.alloc(), folder))
}

/// Takes an empty folder away.
pub fn remove(rt: &impl Files, name: &str, told: &mut Told) {
    if fs::remove_dir(rt, name).is_err() {
        told.put(" it stays");
    }
}

fn add_rows<R: Files + Drop>(disk: &mut FolderDisk<R>, told: &mut Told) {
    for i in 0..ROWS {
        put_failed(disk.append(0, &[(i % 251) as u8; ROW]), told);
    }
}

// Whether the row of this place is read as it was added.
fn is_read<R: Files + Drop>(disk: &mut FolderDisk<R>, place: u64) -> bool {
    let mut row = [0u8; ROW];
    let count = disk.read_at(0, place.wrapping_mul(40), &mut row);
    count == Ok(ROW) && row == [(place % 251) as u8; ROW]
}

// How many rows are as they were added.
fn rows_read<R: Files + Drop>(disk: &mut FolderDisk<R>) -> u64 {
    let mut count = 0u64;
    for place in 0..ROWS {
        count = count.saturating_add(u64::from(is_read(disk, place)));
    }
    count
}

// Writes a long file and a short one, and reads and removes what it wrote.
fn write_long<R: Files + Drop>(disk: &mut FolderDisk<R>, told: &mut Told) {
    make_calls(disk, None, "create= create=", told);
    add_rows(disk, told);
    make_calls(disk, Some(1), "append:other=", told);
    told.put_count("rows", rows_read(disk));
    make_calls(disk, Some(1), ENDS, told);
}

// The end of the long file; what was collected is read; a number that wasn't given out is removed.
const ENDS: &str = "read:0:3145760:40= append:!= read:1:3:40= remove:0= remove:9=";

fn put_there(rt: &impl Files, path: &str, told: &mut Told) {
    told.begin(path);
    told.put_bool(fs::exists(rt, path).unwrap_or(false));
}

fn write_and_look(rt: &HostRuntime, told: &mut Told) -> Result<(), Fail> {
    let mut disk = disk_in(rt, "disk")?;
    write_long(&mut disk, told);
    put_there(rt, "disk/1", told);
    put_there(rt, "disk/0", told);
    make_calls(&mut disk, Some(1), "remove:1= read:1:0:40=", told);
    put_there(rt, "disk", told);
    remove(rt, "disk", told);
    Ok(())
}

const LONG: &str = " create=0 create=1 append:other=ok rows=78644 \
    read:0:3145760:40=0:........................................ append:!=ok \
    read:1:3:40=3:er!..................................... remove:0=ok remove:9=ok disk/1=yes disk/0=no \
    remove:1=ok read:1:0:40=failed disk=yes";

#[test]
fn a_folder_disk_gives_back_a_long_file_row_by_row_and_removes_it(
    rt: HostRuntime,
) -> Result<(), Fail> {
    let mut told = Told::new(rt.alloc());
    write_and_look(&rt, &mut told)?;
    tells(&rt, &told, LONG, "a long file")
}

// Makes a file of two bytes.
fn make_file<R: Files + Drop>(disk: &mut FolderDisk<R>, number: u8, told: &mut Told) {
    let file = u64::from(number);
    if disk.create() != Ok(file) {
        told.put_count("another", file);
    }
    put_failed(disk.append(file, &[number; 2]), told);
}

// Whether a file is read as it was written. It is taken away.
fn is_file<R: Files + Drop>(disk: &mut FolderDisk<R>, number: u8, told: &mut Told) -> bool {
    let file = u64::from(number);
    let mut buf = [0u8; 4];
    let count = disk.read_at(file, 0, &mut buf);
    put_failed(disk.remove(file), told);
    count == Ok(3) && buf == [number, number, 100, 0]
}

// Makes 70 files of three bytes, with the numbers from 0 on, and reads them.
fn write_many<R: Files + Drop>(disk: &mut FolderDisk<R>, told: &mut Told) {
    for number in 0..70u8 {
        make_file(disk, number, told);
    }
    for number in 0..70u64 {
        put_failed(disk.append(69 - number, &[100; 1]), told);
    }
    for number in 0..70u8 {
        let is_file = is_file(disk, number, told);
        told.put(if is_file { "." } else { "!" });
    }
}

fn write_many_in(rt: &HostRuntime, told: &mut Told) -> Result<(), Fail> {
    let mut disk = disk_in(rt, "many")?;
    write_many(&mut disk, told);
    remove(rt, "many", told);
    Ok(())
}

#[test]
fn a_folder_disk_has_more_files_than_are_kept_open(rt: HostRuntime) -> Result<(), Fail> {
    let mut told = Told::new(rt.alloc());
    write_many_in(&rt, &mut told)?;
    let wanted = "......................................................................";
    tells(&rt, &told, wanted, "70 files")
}

// Puts a folder in the place of a file.
fn put_folder(rt: &impl Files, told: &mut Told) {
    if fs::remove_file(rt, "stuck/0").is_err() || fs::create_dir(rt, "stuck/0").is_err() {
        told.put(" no folder");
    }
}

// While a folder stands in a file's place, it can't be removed as a file. The disk has the file open.
fn write_stuck(rt: &HostRuntime, told: &mut Told) -> Result<(), Fail> {
    let mut disk = disk_in(rt, "stuck")?;
    make_calls(&mut disk, None, "create= append:abc=", told);
    put_folder(rt, told);
    make_calls(&mut disk, None, "remove:0= read:0:0:4=", told);
    remove(rt, "stuck/0", told);
    make_calls(&mut disk, None, "remove:0=", told);
    remove(rt, "stuck", told);
    Ok(())
}

// A file that is gone is no fault.
#[test]
fn a_removal_that_fails_leaves_what_was_collected(rt: HostRuntime) -> Result<(), Fail> {
    let mut told = Told::new(rt.alloc());
    write_stuck(&rt, &mut told)?;
    let wanted = " create=0 append:abc=ok remove:0=failed read:0:0:4=3:abc. remove:0=ok";
    tells(&rt, &told, wanted, "a folder in a file's place")
}
