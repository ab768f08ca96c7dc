//! One partition of an input, landed as a run.

ghost use Rattle.std.specs.Prelude.{◌≡◌, ◌+◌, ◌<◌, ◌≤◌, ◌++◌, ◌∷◌, [], ℕ, List, IfErr, IfOk, IfSome, None, Some, OnOk, false, true};
ghost use Rattle.std.specs.Io.KnownBytes.{IsAtEnd};
ghost use Rattle.csv.specs.Records.{fields_of};
ghost use Rattle.fault_count.specs.Faults.{Rose};
ghost use Rattle.byte_io.specs.Records.{IsReading, rows_left, source_under};
ghost use Rattle.spill_disk.specs.Files.{IsThere};
ghost use Rattle.run_file.specs.Shelved.{files_on, faults_on, IsNotThereOn, KeepsShelf, SameBut};
ghost use Rattle.run_file.specs.Writing.{IsSoFar};
ghost use Rattle.job_plan.specs.Rows.{AreBytes};
ghost use Rattle.landing.specs.Explaining.{Explains, FailsOn};
ghost use Rattle.landing.specs.Filling.{Fills, LandsPart};
ghost use Rattle.run_file.specs.Several.{KeepsAll};
ghost use Rattle.landing.specs.Ruling.{IsRuled, ahead, first_refusal_in, refusal_in, row_in};

use crate::desk::Desk;
use crate::fault::{LandFault, fault_of};
use crate::rules::{Rules, check_row, make_row};
use byte_io::{Origin, Records, Tap};
use row_page::Page;
use run_file::{RowWriter, Run, written_runs_stand};
use spill_disk::{Disk, Shelf};
use std::alloc::Global;

/// Checks the record in hand as the row of this number, and puts its landed row behind those of a run so far.
fn put_record<D: Disk, H: Shelf<D>>(
    rules: &Rules,
    n: u64,
    shelf: &mut H,
    writer: &mut RowWriter,
    desk: &mut Desk,
) -> Result<(), LandFault>
    requires rules { IsRuled rules.now }
    requires to { writer.old.run.disk < H.count_of shelf.old }
    requires there { IsThere (files_on H.disk_of D.files shelf.old writer.old.run.disk) writer.old.run.file }
    ensures passes { OnOk result (refusal_in rules.now n (fields_of desk.old.row) ≡ None) }
    ensures bytes { OnOk result (AreBytes (row_in rules.now n (fields_of desk.old.row))) }
    ensures put { OnOk result ((rows : List (List (List ℕ))) →
        IsSoFar (files_on H.disk_of D.files shelf.old writer.old.run.disk) writer.old rows →
        IsSoFar (files_on H.disk_of D.files shelf.new writer.old.run.disk) writer.new
        (rows ++ row_in rules.now n (fields_of desk.old.row) ∷ [])) }
    ensures there { IsThere (files_on H.disk_of D.files shelf.new writer.old.run.disk) writer.old.run.file }
    ensures disk { writer.new.run.disk ≡ writer.old.run.disk }
    ensures file { writer.new.run.file ≡ writer.old.run.file }
    ensures same { SameBut (H.named shelf.old)
        (files_on H.disk_of D.files shelf.old) (files_on H.disk_of D.files shelf.new)
        writer.old.run.disk writer.old.run.file }
    ensures shelf { KeepsShelf H.count_of H.named H.disk_of D.files D.faults shelf.old shelf.new }
    ensures err { IfErr result (Explains
        (λ why. refusal_in rules.now n (fields_of desk.old.row) ≡ Some why) ⊥
        (FailsOn writer.old.run.disk
        (faults_on H.disk_of D.faults shelf.old) (faults_on H.disk_of D.faults shelf.new))) }
{
    check_row(rules, n, &desk.row)?;
    make_row(rules, n, &desk.row, &mut desk.landed)?;
    match writer.put(shelf, desk.landed.view()) {
        Ok(()) => Ok(()),
        Err(fault) => Err(fault_of(fault)),
    }
}

/// Puts the rows of one partition, from the record in hand on. The next partition's first record is in hand
/// then, unless the records have ended.
fn fill_part<T: Tap, O: Origin, D: Disk, H: Shelf<D>>(
    records: &mut Records<T, O>,
    rules: &Rules,
    shelf: &mut H,
    first: u64,
    part_rows: u64,
    writer: &mut RowWriter,
    desk: &mut Desk,
) -> Result<(), LandFault>
    requires reading { IsReading records.old }
    requires rules { IsRuled rules.now }
    requires few { rules.now.max_rows ≤ 10000000 }
    requires first { first ≤ rules.now.max_rows }
    requires some { 1 ≤ part_rows }
    requires more { desk.old.more ≡ true }
    requires to { writer.old.run.disk < H.count_of shelf.old }
    requires there { IsThere (files_on H.disk_of D.files shelf.old writer.old.run.disk) writer.old.run.file }
    requires begun { IsSoFar (files_on H.disk_of D.files shelf.old writer.old.run.disk) writer.old [] }
    ensures filled { OnOk result (Fills (files_on H.disk_of D.files shelf.new writer.old.run.disk) rules.now first
        part_rows writer.new desk.new.more (ahead true desk.old.row (rows_left records.old))
        (ahead desk.new.more desk.new.row (rows_left records.new))) }
    ensures reading { OnOk result (IsReading records.new) }
    ensures end { OnOk result (desk.new.more ≡ false → IsAtEnd (T.left (source_under records.new))) }
    ensures there { IsThere (files_on H.disk_of D.files shelf.new writer.old.run.disk) writer.old.run.file }
    ensures disk { writer.new.run.disk ≡ writer.old.run.disk }
    ensures file { writer.new.run.file ≡ writer.old.run.file }
    ensures same { SameBut (H.named shelf.old)
        (files_on H.disk_of D.files shelf.old) (files_on H.disk_of D.files shelf.new)
        writer.old.run.disk writer.old.run.file }
    ensures shelf { KeepsShelf H.count_of H.named H.disk_of D.files D.faults shelf.old shelf.new }
    ensures err { IfErr result (Explains
        (λ why. IfSome (ahead true desk.old.row (rows_left records.old))
        (λ rows. first_refusal_in rules.now (first + 1) rows ≡ Some why))
        (Rose O.faults (T.faults (source_under records.new)))
        (FailsOn writer.old.run.disk
        (faults_on H.disk_of D.faults shelf.old) (faults_on H.disk_of D.faults shelf.new))) }
{
    let mut count = 0;
    'rows: while desk.more && count < part_rows {
        put_record(rules, first + count + 1, shelf, writer, desk)?;
        count += 1;
        desk.take(records)?;
    }
    Ok(())
}

/// Lands one partition on this disk, from the record in hand on, behind `first` rows of others. The page is one
/// without rows, and comes back as one.
pub(crate) fn land_part<T: Tap, O: Origin, D: Disk, H: Shelf<D>>(
    alloc: Global,
    records: &mut Records<T, O>,
    rules: &Rules,
    shelf: &mut H,
    to: u32,
    first: u64,
    part_rows: u64,
    page: Page,
    desk: &mut Desk,
) -> Result<(Run, Page), LandFault>
    requires reading { IsReading records.old }
    requires rules { IsRuled rules.now }
    requires few { rules.now.max_rows ≤ 10000000 }
    requires first { first ≤ rules.now.max_rows }
    requires some { 1 ≤ part_rows }
    requires more { desk.old.more ≡ true }
    requires to { to < H.count_of shelf.old }
    requires empty { page.rows ≡ [] }
    ensures lands { IfOk result (λ part. LandsPart (files_on H.disk_of D.files shelf.new to) rules.now first
        part_rows part.0 desk.new.more (ahead true desk.old.row (rows_left records.old))
        (ahead desk.new.more desk.new.row (rows_left records.new))) }
    ensures disk { IfOk result (λ part. part.0.disk ≡ to) }
    ensures page { IfOk result (λ part. part.1.rows ≡ []) }
    ensures fresh { IfOk result (λ part.
        IsNotThereOn (H.named shelf.old) (files_on H.disk_of D.files shelf.old) to part.0.file) }
    ensures only { IfOk result (λ part. SameBut (H.named shelf.old)
        (files_on H.disk_of D.files shelf.old) (files_on H.disk_of D.files shelf.new) to part.0.file) }
    ensures reading { OnOk result (IsReading records.new) }
    ensures end { OnOk result (desk.new.more ≡ false → IsAtEnd (T.left (source_under records.new))) }
    ensures files { KeepsAll
        (files_on H.disk_of D.files shelf.old) (files_on H.disk_of D.files shelf.new) }
    ensures shelf { KeepsShelf H.count_of H.named H.disk_of D.files D.faults shelf.old shelf.new }
    ensures err { IfErr result (Explains
        (λ why. IfSome (ahead true desk.old.row (rows_left records.old))
        (λ rows. first_refusal_in rules.now (first + 1) rows ≡ Some why))
        (Rose O.faults (T.faults (source_under records.new)))
        (FailsOn to (faults_on H.disk_of D.faults shelf.old) (faults_on H.disk_of D.faults shelf.new))) }
{
    written_runs_stand();
    let mut writer = match RowWriter::begin(alloc, shelf, to, page) {
        Ok(writer) => writer,
        Err(fault) => return Err(fault_of(fault)),
    };
    fill_part(records, rules, shelf, first, part_rows, &mut writer, desk)?;
    match writer.finish(shelf) {
        Ok(part) => Ok(part),
        Err(fault) => Err(fault_of(fault)),
    }
}
