// Steps of a merge as words of text.
ghost use Rattle.std.specs.Prelude.{◌≡◌, ◌≤◌, ◌-◌, ◌^◌, length};
ghost use Rattle.run_merge.specs.Merging.{runs_of};
ghost use Rattle.run_file.specs.Several.{AreOn};

use crate::tests::reading::put_fault;
use crate::tests::told::Told;
use crate::tests::words::parted;
use aggregate::Kind;
use row_page::Page;
use run_file::{Run, RunFault};
use run_merge::Merge;
use spill_disk::{Disk, One};
use std::alloc::Global;

/// Tells what a merge of the runs answers to these steps, each with its answer behind a `=`. They are `advance` and `next`,
/// and the answers `end`, a row's bytes in hex, `fault:DISK` and `damaged:DISK:FILE:KEPT:FOUND`. A merge that keeps more
/// than its runs' greatest costs is told of.
pub fn merge_steps<D: Disk>(
    alloc: Global,
    disk: &mut D,
    runs: &[Run],
    kind: &Kind,
    steps: &str,
    told: &mut Told,
)
    requires { AreOn (2 ^ 32 - 1) runs.now }
{
    if runs.len() > 65536 {
        return told.put("many runs");
    }
    match Merge::new(alloc, runs, kind) {
        Ok(mut merge) => take_steps(disk, &mut merge, greatest_of(runs), steps, told),
        Err(_) => told.lack(),
    }
}

// What the greatest costs of the runs come to.
fn greatest_of(runs: &[Run]) -> u64 {
    let mut greatest = 0u64;
    for run in runs {
        greatest = greatest.saturating_add(run.greatest);
    }
    greatest
}

fn take_steps<D: Disk>(disk: &mut D, merge: &mut Merge, greatest: u64, steps: &str, told: &mut Told)
    requires there { AreOn (2 ^ 32 - 1) (runs_of merge.old) }
    requires few { length (runs_of merge.old) ≤ 65536 }
{
    for word in steps.split_whitespace() {
        take_step(disk, merge, word, told);
        if merge.buffered() as u64 > greatest {
            told.put(" too much is kept");
        }
    }
}

fn take_step<D: Disk>(disk: &mut D, merge: &mut Merge, word: &str, told: &mut Told)
    requires { AreOn (2 ^ 32 - 1) (runs_of merge.old) }
    ensures { runs_of merge.new ≡ runs_of merge.old }
{
    let (step, _) = parted(word, '=');
    told.begin(step);
    if step == "next" {
        return next(disk, merge, told);
    }
    advance(disk, merge, told);
}

fn advance<D: Disk>(disk: &mut D, merge: &mut Merge, told: &mut Told)
    requires { AreOn (2 ^ 32 - 1) (runs_of merge.old) }
    ensures { runs_of merge.new ≡ runs_of merge.old }
{
    let mut one = One { disk };
    match merge.advance(&mut one) {
        Ok(true) => told.put_hex(merge.row().bytes()),
        Ok(false) => told.put("end"),
        Err(fault) => put_fault(fault, told),
    }
}

fn next<D: Disk>(disk: &mut D, merge: &mut Merge, told: &mut Told)
    requires { AreOn (2 ^ 32 - 1) (runs_of merge.old) }
    ensures { runs_of merge.new ≡ runs_of merge.old }
{
    let mut one = One { disk };
    match merge.next(&mut one) {
        Ok(Some(row)) => told.put_hex(row.bytes()),
        Ok(None) => told.put("end"),
        Err(fault) => put_fault(fault, told),
    }
}

/// Puts all that a merge of the runs gives behind the rows of a page.
pub fn drain<D: Disk>(
    alloc: Global,
    disk: &mut D,
    runs: &[Run],
    kind: &Kind,
    page: &mut Page,
) -> Result<(), RunFault>
    requires { AreOn (2 ^ 32 - 1) runs.now }
{
    match Merge::new(alloc, runs, kind) {
        Ok(mut merge) => put_rest(disk, &mut merge, page),
        Err(_) => Err(RunFault::NoMemory),
    }
}

fn put_rest<D: Disk>(disk: &mut D, merge: &mut Merge, page: &mut Page) -> Result<(), RunFault>
    requires { AreOn (2 ^ 32 - 1) (runs_of merge.old) }
{
    let mut one = One { disk };
    while merge.advance(&mut one)? {
        if page.push(merge.row()).is_err() {
            return Err(RunFault::NoMemory);
        }
    }
    Ok(())
}
