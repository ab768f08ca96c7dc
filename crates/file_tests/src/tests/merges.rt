// Runs that are read side by side.
ghost use Rattle.std.specs.Prelude.{◌≡◌, IfOk};

use crate::tests::entries::{put_run, three_entries};
use crate::tests::lists::{
    Pair, drawn_lists, kind_of, lists_of, page_of_text, put_lists, sorted_page, summed_page,
};
use crate::tests::merging::{drain, merge_steps};
use crate::tests::runs::put_damaged;
use crate::tests::scripts::plays;
use crate::tests::told::Told;
use crate::tests::words::{number_of, parted};
use aggregate::Kind;
use row_page::Page;
use run_file::{Run, RunFault};
use spill_disk::{Disk, MemoryDisk, VeilDisk};
use std::alloc::Global;
use std::test::Fail;

/// Lists that are written as runs on disks of two numbers and more, and steps of a merge, where one call fails.
pub fn play_merge(alloc: Global, given: &str, rest: &str, told: &mut Told) -> Result<(), Fail> {
    let (lists, steps) = parted(rest, '|');
    told.put(lists);
    told.put("|");
    let (kind, failing) = parted(given, ' ');
    let lists = lists_of(alloc, lists, told);
    merge_lists(alloc, &lists, kind, number_of(failing), steps, told)
}

// The first list's run is on disk 3, the second one's on disk 5.
fn merge_lists(
    alloc: Global,
    lists: &Vec<Vec<Pair>>,
    kind: &str,
    failing: u64,
    steps: &str,
    told: &mut Told,
) -> Result<(), Fail> {
    let mut disk = MemoryDisk::new(alloc, vec![in alloc; failing]?);
    let runs = put_lists(alloc, &mut disk, lists, false, 3, 2, told)?;
    merge_steps(alloc, &mut disk, &runs, &kind_of(alloc, kind)?, steps, told);
    Ok(())
}

// In groups what both runs have is combined, and what is missing in one is that of the other; in an order equal keys come in
// the order of the runs. Runs without rows give nothing. A call that fails is a fault of its run's disk: the first four calls
// write the runs, and as a reader keeps one row here, each row is read by a call of its own, the first of both runs, then the
// next of the one whose row was given.
const MERGES: &str = "\
counts of both runs|merge count never|a:1 c:1/b:1 c:1| advance=0000000161000000110100000000000000000000000000000001 \
advance=0000000162000000110100000000000000000000000000000001 advance=0000000163000000110100000000000000000000000000000002 \
advance=end advance=end
equal keys in an order|merge order never|k:1 k:2/a:3 k:4/k:5 z:6| \
advance=0000000161000000110100000000000000000000000000000003 \
advance=000000016b000000110100000000000000000000000000000001 \
advance=000000016b000000110100000000000000000000000000000002 \
advance=000000016b000000110100000000000000000000000000000004 \
advance=000000016b000000110100000000000000000000000000000005 \
advance=000000017a000000110100000000000000000000000000000006 advance=end
no run|merge order never|none| advance=end
two empty runs|merge order never|/| next=end
one entry|merge order never|/a:1/| advance=0000000161000000110100000000000000000000000000000001 advance=end
next lends sums|merge sum never|a:1 c:258/c:-1| next=0000000161000000110100000000000000000000000000000001 \
next=0000000163000000110100000000000000000000000000000101 next=end next=end
the first read fails|merge order 4|a:1 c:1/b:1| advance=fault:3
the second read fails|merge order 5|a:1 c:1/b:1| advance=fault:5
the third read fails|merge order 6|a:1 c:1/b:1| advance=0000000161000000110100000000000000000000000000000001 \
advance=fault:3
missing sums|merge sum never|a:none b:5 c:none d:2/a:none b:none c:-7 d:none e:none| \
advance=0000000161000000110000000000000000000000000000000000 \
advance=0000000162000000110100000000000000000000000000000005 \
advance=00000001630000001101fffffffffffffffffffffffffffffff9 \
advance=0000000164000000110100000000000000000000000000000002 \
advance=0000000165000000110000000000000000000000000000000000 advance=end
missing least|merge min never|a:none b:5 c:none d:2/a:none b:none c:7 d:-3| \
advance=0000000161000000110000000000000000000000000000000000 \
advance=0000000162000000110100000000000000000000000000000005 \
advance=0000000163000000110100000000000000000000000000000007 \
advance=00000001640000001101fffffffffffffffffffffffffffffffd advance=end
missing greatest|merge max never|a:none b:-5 c:none d:-2/a:none b:none c:-7 d:-3/b:-6 c:none d:none| \
advance=0000000161000000110000000000000000000000000000000000 \
advance=00000001620000001101fffffffffffffffffffffffffffffffb \
advance=00000001630000001101fffffffffffffffffffffffffffffff9 \
advance=00000001640000001101fffffffffffffffffffffffffffffffe advance=end
no call is left|merge order 7|a:1 c:1/b:1| advance=0000000161000000110100000000000000000000000000000001 \
advance=0000000162000000110100000000000000000000000000000001 \
advance=0000000163000000110100000000000000000000000000000001 advance=end";

#[test]
fn a_merge_gives_what_its_scripts_say(rt: HostRuntime) -> Result<(), Fail> {
    plays(&rt, rt.alloc(), MERGES)
}

/// Whether a merge of eight drawn runs, each on a disk of another number, gives what std's sort or map does, and whether
/// that is many rows: in an order more than 400 of 960 places, in groups more than 100 of 120 keys.
pub fn play_eight(alloc: Global, kind: &str, told: &mut Told) -> Result<(), Fail> {
    let times = if kind == "order" { 3 } else { 1 };
    let lists = drawn_lists(alloc, 8, 120, times, told);
    let wanted = wanted_page(alloc, kind, &lists, told);
    let mut page = Page::new(alloc, 65536);
    put_eight(alloc, kind, &lists, &mut page, told)?;
    told.put_bool(page.bytes() == wanted.bytes());
    let most = if kind == "order" { 400 } else { 100 };
    told.put_bool(page.rows() > most);
    Ok(())
}

/// The page of what a merge of the lists gives: in an order short values, in groups long ones.
pub fn wanted_page(alloc: Global, kind: &str, lists: &Vec<Vec<Pair>>, told: &mut Told) -> Page {
    if kind == "order" {
        return sorted_page(alloc, lists, true, told);
    }
    summed_page(alloc, lists, told)
}

fn put_eight(
    alloc: Global,
    kind: &str,
    lists: &Vec<Vec<Pair>>,
    page: &mut Page,
    told: &mut Told,
) -> Result<(), Fail> {
    let mut disk = MemoryDisk::new(alloc, Vec::new(alloc));
    let runs = put_lists(alloc, &mut disk, lists, kind == "order", 1, 1, told)?;
    let kind = kind_of(alloc, kind)?;
    Ok(drain(alloc, &mut disk, &runs, &kind, page)?)
}

#[test]
fn drawn_runs_come_to_what_a_stable_sort_and_a_map_give(rt: HostRuntime) -> Result<(), Fail> {
    plays(
        &rt,
        rt.alloc(),
        "the rows, about half of 960|eight order|yesyes\nthe sums, of most of 120 keys|eight sum|yesyes",
    )
}

/// A run of three entries on a disk of number 7, whose file has one byte less.
fn put_cut(alloc: Global, disk: &mut MemoryDisk, told: &mut Told) -> Result<Run, RunFault>
    ensures { IfOk result (λ run. run.disk ≡ 7) }
{
    let page = page_of_text(alloc, "a:1 c:1 d:1", false, told);
    let bytes = page.bytes();
    let Ok(file) = disk.create() else {
        return Err(RunFault::NoMemory);
    };
    if disk
        .append(file, &bytes[..bytes.len().saturating_sub(1)])
        .is_err()
    {
        return Err(RunFault::NoMemory);
    }
    Ok(Run {
        disk: 7,
        file,
        bytes: bytes.len() as u64,
        count: 3,
        greatest: 50,
    })
}

// A run and one that is cut.
fn merge_cut(alloc: Global, steps: &str, told: &mut Told) -> Result<(), Fail> {
    let mut disk = MemoryDisk::new(alloc, Vec::new(alloc));
    let page = page_of_text(alloc, "b:1", false, told);
    let whole = put_run(&mut disk, 0, &page)?;
    let cut = put_cut(alloc, &mut disk, told)?;
    merge_steps(alloc, &mut disk, &[whole, cut], &Kind::Order, steps, told);
    Ok(())
}

// The three entries' run and one with another length of the second one.
fn merge_damaged<D: Disk>(
    alloc: Global,
    disk: &mut D,
    length: &str,
    steps: &str,
    told: &mut Told,
) -> Result<(), Fail> {
    let page = three_entries(alloc, told);
    let whole = put_run(disk, 0, &page)?;
    let damaged = put_damaged(disk, &page, number_of(length))?;
    merge_steps(alloc, disk, &[whole, damaged], &Kind::Order, steps, told);
    Ok(())
}

/// A run and one that is cut, or one with another length on a disk in memory or on one that tells nothing.
pub fn play_cut(alloc: Global, given: &str, rest: &str, told: &mut Told) -> Result<(), Fail> {
    let (disk, length) = parted(given, ' ');
    match disk {
        "short" => merge_cut(alloc, rest, told),
        "memory" => {
            let mut disk = MemoryDisk::new(alloc, Vec::new(alloc));
            merge_damaged(alloc, &mut disk, length, rest, told)
        }
        _ => {
            let mut disk = VeilDisk::new(alloc, Vec::new(alloc), Vec::new(alloc));
            merge_damaged(alloc, &mut disk, length, rest, told)
        }
    }
}

const CUT: &str = "\
a short file is damaged with its place|cut short| advance=0000000161000000110100000000000000000000000000000001 \
advance=0000000162000000110100000000000000000000000000000001 \
advance=0000000163000000110100000000000000000000000000000001 advance=damaged:7:1:3:2
0|cut memory 0| advance=00000001610000000131 advance=00000001610000000131 advance=damaged:0:1:3:1
13|cut memory 13| advance=00000001610000000131 advance=00000001610000000131 advance=damaged:0:1:3:1
4294967295|cut memory 4294967295| advance=00000001610000000131 advance=00000001610000000131 advance=damaged:0:1:3:1
0, a disk that tells nothing|cut veil 0| advance=00000001610000000131 advance=00000001610000000131 \
advance=damaged:0:1:3:1
13, a disk that tells nothing|cut veil 13| advance=00000001610000000131 advance=00000001610000000131 \
advance=damaged:0:1:3:1
4294967295, a disk that tells nothing|cut veil 4294967295| advance=00000001610000000131 \
advance=00000001610000000131 advance=damaged:0:1:3:1";

#[test]
fn a_short_file_and_a_length_that_is_another_are_damage_of_their_run(
    rt: HostRuntime,
) -> Result<(), Fail> {
    plays(&rt, rt.alloc(), CUT)
}
