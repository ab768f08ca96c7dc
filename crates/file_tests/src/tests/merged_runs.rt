// Runs that are merged into one.
ghost use Rattle.std.specs.Prelude.{◌≡◌, ◌≤◌, ◌-◌, ◌^◌, IfOk};
ghost use Rattle.run_file.specs.Several.{AreOn};

use crate::tests::entries::{push_entry, put_run};
use crate::tests::lists::{Pair, drawn_lists, kind_of, lists_of, page_of_text, put_lists};
use crate::tests::merges::wanted_page;
use crate::tests::owner::{Owner, add_owner};
use crate::tests::reading::{put_fault, put_numbers};
use crate::tests::scripts::plays;
use crate::tests::told::Told;
use crate::tests::words::{number_of, parted};
use aggregate::Kind;
use row_page::Page;
use run_file::{Run, RunFault};
use run_merge::merge_all;
use spill_disk::{Disk, MemoryDisk, One, Shelf};
use std::alloc::Global;
use std::test::Fail;

// Tells of the run that runs of one disk come to.
fn merge_on(
    alloc: Global,
    disk: &mut MemoryDisk,
    runs: Vec<Run>,
    kind: &Kind,
    fan_in: usize,
    told: &mut Told,
)
    requires { AreOn (2 ^ 32 - 1) runs.items }
{
    let mut one = One { disk };
    put_merged(
        merge_all(alloc, &mut one, runs, kind, fan_in.max(2), 0),
        told,
    );
}

fn put_merged(answer: Result<Option<Run>, RunFault>, told: &mut Told) {
    match answer {
        Ok(Some(run)) => put_numbers(&run, told),
        Ok(None) => told.put("none"),
        Err(fault) => put_fault(fault, told),
    }
}

// Writes the pairs of a text as a run on the disk of this number.
fn put_text(
    alloc: Global,
    disk: &mut MemoryDisk,
    number: u32,
    text: &str,
    is_short: bool,
    told: &mut Told,
) -> Result<Run, RunFault>
    ensures { IfOk result (λ run. run.disk ≡ number) }
{
    let page = page_of_text(alloc, text, is_short, told);
    put_run(disk, number, &page)
}

// Writes a bystander's run and the lists, and merges these.
fn merge_lists(
    alloc: Global,
    disk: &mut MemoryDisk,
    lists: &str,
    kind: &str,
    fan_in: usize,
    told: &mut Told,
) -> Result<(), Fail> {
    let is_short = kind == "order";
    put_text(alloc, disk, 0, "z:9", is_short, told)?;
    let lists = lists_of(alloc, lists, told);
    let runs = put_lists(alloc, disk, &lists, is_short, 0, 0, told)?;
    let kind = kind_of(alloc, kind)?;
    merge_on(alloc, disk, runs, &kind, fan_in, told);
    Ok(())
}

// The number of so many calls from one on.
fn calls_from(alloc: Global, from: u64, count: u64, told: &mut Told) -> Vec<u64> {
    let mut calls = Vec::new(alloc);
    for k in 0..count {
        told.need(calls.push(from.saturating_add(k)).is_ok());
    }
    calls
}

// Adds a file's bytes. A read that fails stands for a call that the merge left over.
fn put_file(disk: &mut MemoryDisk, file: u64, told: &mut Told) {
    let mut bytes = [0u8; 128];
    for _ in 0..200u8 {
        if let Ok(count) = disk.read_at(file, 0, &mut bytes) {
            return told.put_hex(&bytes[..count]);
        }
    }
}

fn put_files(disk: &mut MemoryDisk, files: &str, told: &mut Told) {
    for word in files.split_whitespace() {
        let (file, _) = parted(word, '=');
        told.begin(file);
        put_file(disk, number_of(file), told);
    }
}

/// A kind, how many runs are merged at once, and from which call on how many fail; the lists; the run that they come to; and
/// what files then have. File 0 is that of a run that isn't merged, and the lists' files are those behind it.
pub fn play_merged(alloc: Global, given: &str, rest: &str, told: &mut Told) -> Result<(), Fail> {
    let (lists, rest) = parted(rest, '|');
    told.put(lists);
    told.put("|");
    let (_, files) = parted(rest, '|');
    let (kind, given) = parted(given, ' ');
    let (fan_in, fails) = parted(given, ' ');
    let (from, count) = parted(fails, ' ');
    let fails = calls_from(alloc, number_of(from), number_of(count), told);
    let mut disk = MemoryDisk::new(alloc, fails);
    let fan_in = number_of(fan_in).min(100) as usize;
    merge_lists(alloc, &mut disk, lists, kind, fan_in, told)?;
    told.put("|");
    put_files(&mut disk, files, told);
    Ok(())
}

// Without a run there is none, and one stays. Equal keys of a group are combined, a missing value with one that is there as
// well, and only the inputs go. Six calls write the runs: then one begins the run, two read, one writes, and two take the
// inputs away. Each fails alone, and with each later one.
const MERGED: &str = "\
no run|merged order 2 99 0|none|none| 0=0000000d000000017a0000000400000009
one run|merged order 2 99 0|a:1 b:2|0:1:34:2:37| 0=0000000d000000017a0000000400000009 1=0000000d000000016100000004000000010000000d00000001620000000400000002
equal keys|merged count 2 99 0|a:1 c:1/b:1 c:1|0:3:90:3:50| 0=0000001a000000017a000000110100000000000000000000000000000009 1= 2= 3=0000001a00000001610000001101000000000000000000000000000000010000001a00000001620000001101000000000000000000000000000000010000001a0000000163000000110100000000000000000000000000000002
missing values|merged min 2 99 0|a:none b:5 c:none/a:none b:none c:-7|0:3:90:3:50| 0=0000001a000000017a000000110100000000000000000000000000000009 1= 2= 3=0000001a00000001610000001100000000000000000000000000000000000000001a00000001620000001101000000000000000000000000000000050000001a00000001630000001101fffffffffffffffffffffffffffffff9
call 0|merged order 2 6 1|a:1/b:1|fault:0| 0=0000000d000000017a0000000400000009
each call from 0 on|merged order 2 6 20|a:1/b:1|fault:0| 0=0000000d000000017a0000000400000009
call 1|merged order 2 7 1|a:1/b:1|fault:0| 0=0000000d000000017a0000000400000009
each call from 1 on|merged order 2 7 20|a:1/b:1|fault:0| 0=0000000d000000017a0000000400000009
call 2|merged order 2 8 1|a:1/b:1|fault:0| 0=0000000d000000017a0000000400000009
each call from 2 on|merged order 2 8 20|a:1/b:1|fault:0| 0=0000000d000000017a0000000400000009
call 3|merged order 2 9 1|a:1/b:1|fault:0| 0=0000000d000000017a0000000400000009
each call from 3 on|merged order 2 9 20|a:1/b:1|fault:0| 0=0000000d000000017a0000000400000009
call 4|merged order 2 10 1|a:1/b:1|fault:0| 0=0000000d000000017a0000000400000009
each call from 4 on|merged order 2 10 20|a:1/b:1|fault:0| 0=0000000d000000017a0000000400000009
call 5|merged order 2 11 1|a:1/b:1|fault:0| 0=0000000d000000017a0000000400000009
each call from 5 on|merged order 2 11 20|a:1/b:1|fault:0| 0=0000000d000000017a0000000400000009
no call is left|merged order 2 12 20|a:1/b:1|0:3:34:2:37| 0=0000000d000000017a0000000400000009";

#[test]
fn runs_come_to_one_and_each_call_that_fails_is_told(rt: HostRuntime) -> Result<(), Fail> {
    plays(&rt, rt.alloc(), MERGED)
}

/// The bytes of a run's file.
fn bytes_of(alloc: Global, disk: &mut MemoryDisk, run: &Run) -> Result<Vec<u8>, Fail> {
    let mut bytes = vec![in alloc; 0u8; run.bytes as usize]?;
    let count = disk.read_at(run.file, 0, &mut bytes)?;
    bytes.truncate(count);
    Ok(bytes)
}

// The run that runs of one disk come to.
fn merged_of(
    alloc: Global,
    disk: &mut MemoryDisk,
    runs: Vec<Run>,
    kind: &Kind,
    fan_in: usize,
) -> Result<Run, RunFault>
    requires { AreOn (2 ^ 32 - 1) runs.items }
{
    let mut one = One { disk };
    match merge_all(alloc, &mut one, runs, kind, fan_in.max(2), 0) {
        Ok(Some(run)) => Ok(run),
        Ok(None) => Err(RunFault::NoMemory),
        Err(fault) => Err(fault),
    }
}

// Whether a file has no byte, or isn't there.
fn is_gone(disk: &mut MemoryDisk, file: u64) -> bool {
    let mut bytes = [0u8; 1];
    disk.read_at(file, 0, &mut bytes) == Ok(0)
}

// Tells of each file that is left but that of the run.
fn put_left(disk: &mut MemoryDisk, run: &Run, told: &mut Told) {
    for file in 0..disk.created() {
        if file != run.file && !is_gone(disk, file) {
            told.put_count("left", file);
        }
    }
}

// Tells how many files were made, what is left beside the run, whether that is in none of the lists' files, and whether
// it is as wanted.
fn merge_many(
    alloc: Global,
    lists: &Vec<Vec<Pair>>,
    kind: &str,
    fan_in: usize,
    wanted: &[u8],
    told: &mut Told,
) -> Result<(), Fail> {
    let mut disk = MemoryDisk::new(alloc, Vec::new(alloc));
    let runs = put_lists(alloc, &mut disk, lists, kind == "order", 0, 0, told)?;
    let kind = kind_of(alloc, kind)?;
    let run = merged_of(alloc, &mut disk, runs, &kind, fan_in)?;
    told.put_count("files", disk.created());
    put_left(&mut disk, &run, told);
    let is_wanted = bytes_of(alloc, &mut disk, &run)?.as_slice() == wanted;
    told.put_bool(run.file >= lists.len() as u64);
    told.put_bool(is_wanted);
    Ok(())
}

/// A kind, how many drawn lists, and how many are merged at once.
pub fn play_many(alloc: Global, given: &str, told: &mut Told) -> Result<(), Fail> {
    let (kind, given) = parted(given, ' ');
    let (count, fan_in) = parted(given, ' ');
    let times = if kind == "order" { 3 } else { 1 };
    let lists = drawn_lists(alloc, number_of(count).min(100), 40, times, told);
    let wanted = wanted_page(alloc, kind, &lists, told);
    let fan_in = number_of(fan_in).min(100) as usize;
    merge_many(alloc, &lists, kind, fan_in, wanted.bytes(), told)
}

// A round makes a file of each that are merged at once, and a run that is alone stays. Forty runs make five by eight and
// these one; of nine the last stays, so that two are left for the second round.
const MANY: &str = "\
9 runs in order by 8|many order 9 8| files=11yesyes
9 runs in order by 2|many order 9 2| files=17yesyes
65 runs in order by 8|many order 65 8| files=75yesyes
65 runs in order by 2|many order 65 2| files=129yesyes
40 runs in order by 8|many order 40 8| files=46yesyes
9 runs in groups by 8|many sum 9 8| files=11yesyes
9 runs in groups by 2|many sum 9 2| files=17yesyes
65 runs in groups by 8|many sum 65 8| files=75yesyes
65 runs in groups by 2|many sum 65 2| files=129yesyes";

#[test]
fn many_runs_come_to_one_and_no_other_file_is_left(rt: HostRuntime) -> Result<(), Fail> {
    plays(&rt, rt.alloc(), MANY)
}

// A run of one row with a value of 300,000 bytes.
fn put_long(alloc: Global, disk: &mut MemoryDisk, told: &mut Told) -> Result<Run, RunFault>
    ensures { IfOk result (λ run. run.disk ≡ 0) }
{
    let Ok(value) = vec![in alloc; 7u8; 300_000] else {
        return Err(RunFault::NoMemory);
    };
    let mut page = Page::new(alloc, 1_000_000);
    push_entry(&mut page, b"b", &value, told);
    put_run(disk, 0, &page)
}

// The byte of a place, or 256 where there is none.
fn byte_at(bytes: &[u8], place: usize) -> u64 {
    match bytes.get(place) {
        Some(byte) => u64::from(*byte),
        None => 256,
    }
}

/// The run that a row which passes a page and two short ones come to, its file's length, and the first two keys there.
pub fn play_long(alloc: Global, told: &mut Told) -> Result<(), Fail> {
    let mut disk = MemoryDisk::new(alloc, Vec::new(alloc));
    let long = put_long(alloc, &mut disk, told)?;
    let short = put_text(alloc, &mut disk, 0, "a:1 c:3", true, told)?;
    let runs = vec![in alloc; long, short]?;
    let run = merged_of(alloc, &mut disk, runs, &Kind::Order, 2)?;
    put_numbers(&run, told);
    let bytes = bytes_of(alloc, &mut disk, &run)?;
    told.put_count("length", bytes.len() as u64);
    told.put_count("first", byte_at(&bytes, 8));
    told.put_count("second", byte_at(&bytes, 25));
    Ok(())
}

// Writes the pairs of a text as a run on the disk of this number.
fn put_on(
    alloc: Global,
    owners: &mut Vec<Owner>,
    number: u32,
    text: &str,
    told: &mut Told,
) -> Result<Run, RunFault>
    ensures { IfOk result (λ run. run.disk ≡ number) }
{
    if number >= Shelf::count(owners) {
        return Err(RunFault::NoMemory);
    }
    put_text(alloc, Shelf::disk(owners, number), number, text, true, told)
}

// Tells of the run that two runs come to on the second of two disks.
fn merge_pair(alloc: Global, owners: &mut Vec<Owner>, first: Run, second: Run, told: &mut Told)
    requires first { first.disk ≡ 0 }
    requires second { second.disk ≡ 1 }
{
    let Ok(runs) = vec![in alloc; first, second] else {
        return told.lack();
    };
    if Shelf::count(owners) != 2 {
        return told.put("no two disks");
    }
    put_merged(merge_all(alloc, owners, runs, &Kind::Order, 2, 1), told);
}

/// The run that two runs of two disks come to on the second one. The first file of that disk is the second run's.
pub fn play_two_disks(alloc: Global, told: &mut Told) {
    let mut owners = Vec::new(alloc);
    add_owner(alloc, &mut owners, told);
    add_owner(alloc, &mut owners, told);
    let Ok(first) = put_on(alloc, &mut owners, 0, "a:1", told) else {
        return told.lack();
    };
    let Ok(second) = put_on(alloc, &mut owners, 1, "a:2", told) else {
        return told.lack();
    };
    merge_pair(alloc, &mut owners, first, second, told);
}

const PASSING: &str = "\
a row that passes a page|long|0:2:300047:3:300033 length=300047 first=97 second=98
runs of two disks|disks|1:1:34:2:37";

#[test]
fn long_rows_and_runs_of_two_disks_come_to_one(rt: HostRuntime) -> Result<(), Fail> {
    plays(&rt, rt.alloc(), PASSING)
}
