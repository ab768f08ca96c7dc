//! A run that is read whole, into a page.

ghost use Rattle.std.specs.Prelude.{◌≡◌, ◌+◌, ◌≤◌, List, ℕ, IfOk, IfSome, OnErr, OnOk, length, take};
ghost use Rattle.std.specs.List.{AllByRecursion};
ghost use Rattle.run_file.specs.Causes.{HasCauseOn, NoDiskFault, NotDamaged};
ghost use Rattle.row_form.specs.Forms.{HasForm, IsWellFormed};
ghost use Rattle.run_file.specs.Runs.{Stands};
ghost use Rattle.run_file.specs.Whole.{AreRowsOf, BeginsRows, FindsDamage, GivesPage, ReadsRun, TellsDamageOf, UsesAll, bytes_in};

use crate::run::fault_of;
use crate::run_reader::{damage_of, front_of};
use crate::{Run, RunFault};
use row_form::Form;
use row_page::Page;
use spill_disk::Disk;
use std::alloc::Global;

/// The greatest room of a page, in bytes.
const MOST_BYTES: usize = 1 << 40;

/// Reads a run whole from its disk, by one call of the disk, into a page that has no more room than its
/// rows take. The first row that isn't well formed is damage, and those before it are counted. A run of more than 2^40 bytes is want of memory.
pub fn read_page<D: Disk>(
    alloc: Global,
    disk: &mut D,
    run: &Run,
    form: &Form,
) -> Result<Page, RunFault>
    ensures rows { (rows : List (List (List ℕ))) → Stands (D.files disk.old) run.now rows
        → AllByRecursion (HasForm form.now) rows → GivesPage rows result }
    ensures formed { IfOk result (λ page. AllByRecursion (IsWellFormed form.now run.now.greatest) page.rows) }
    ensures count { IfOk result (λ page. length page.rows ≡ run.now.count) }
    ensures room { IfOk result (λ page. page.room ≤ run.now.bytes) }
    ensures damaged { TellsDamageOf run.now result }
    ensures why { IfSome (bytes_in (D.files disk.old) run.now) (λ bytes. FindsDamage form.now run.now.greatest bytes result) }
    ensures same { D.files disk.new ≡ D.files disk.old }
    ensures later { D.faults disk.old ≤ D.faults disk.new }
    ensures cause { HasCauseOn run.now.disk (D.faults disk.old) (D.faults disk.new) result }
{
    let bytes = load(alloc, disk, run)?;
    page_of(alloc, run, form, bytes)
}

/// Reads the first bytes of a run's file, as many as the run has.
fn load<D: Disk>(alloc: Global, disk: &mut D, run: &Run) -> Result<Vec<u8>, RunFault>
    ensures read { IfOk result (λ bytes. ReadsRun (D.files disk.old) run.now bytes.items) }
    ensures bound { IfOk result (λ bytes. length bytes.items ≤ run.now.bytes) }
    ensures same { D.files disk.new ≡ D.files disk.old }
    ensures later { D.faults disk.old ≤ D.faults disk.new }
    ensures cause { HasCauseOn run.now.disk (D.faults disk.old) (D.faults disk.new) result }
    ensures sound { NotDamaged result }
{
    let Ok(mut bytes) = vec![in alloc; 0u8; run.bytes as usize] else {
        return Err(RunFault::NoMemory);
    };
    match disk.read_at(run.file, 0, &mut bytes) {
        Ok(count) => {
            bytes.truncate(count);
            Ok(bytes)
        }
        Err(error) => Err(fault_of(run.disk, error)),
    }
}

/// The page that the bytes of a run are.
fn page_of(alloc: Global, run: &Run, form: &Form, bytes: Vec<u8>) -> Result<Page, RunFault>
    ensures rows { (rows : List (List (List ℕ))) → AreRowsOf form.now run.now bytes.items rows → GivesPage rows result }
    ensures formed { IfOk result (λ page. AllByRecursion (IsWellFormed form.now run.now.greatest) page.rows) }
    ensures count { IfOk result (λ page. length page.rows ≡ run.now.count) }
    ensures room { IfOk result (λ page. page.room ≤ length bytes.items) }
    ensures damaged { TellsDamageOf run.now result }
    ensures why { FindsDamage form.now run.now.greatest bytes.items result }
    ensures inside { NoDiskFault result }
{
    let used = check_rows(form, run, &bytes)?;
    if used > MOST_BYTES {
        return Err(RunFault::NoMemory);
    }
    let mut bytes = bytes;
    bytes.truncate(used);
    match Page::read_known(alloc, bytes, run.count as usize, used as u64) {
        Ok(page) => Ok(page),
        Err(_) => Err(RunFault::NoMemory),
    }
}

/// How many bytes the rows of a run take, each of which is checked.
fn check_rows(form: &Form, run: &Run, bytes: &[u8]) -> Result<usize, RunFault>
    ensures begins { IfOk result (λ used. BeginsRows form.now run.now.greatest bytes.now used run.now.count) }
    ensures inside { IfOk result (λ used. used ≤ length bytes.now) }
    ensures all { (rows : List (List (List ℕ))) → AreRowsOf form.now run.now bytes.now rows → UsesAll bytes.now result }
    ensures damaged { TellsDamageOf run.now result }
    ensures why { FindsDamage form.now run.now.greatest bytes.now result }
    ensures disk { NoDiskFault result }
{
    let mut at = 0;
    for found in 0..run.count {
        let Some(size) = front_of(form, run.greatest, &bytes[at..]) else {
            return Err(damage_of(run, found));
        };
        at += 4 + size;
    }
    Ok(at)
}
