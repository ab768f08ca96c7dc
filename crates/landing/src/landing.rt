//! An input that is landed.

ghost use Rattle.std.specs.Prelude.{◌≡◌, ◌≤◌, IfOk, IfSome, IfErr, IsErrOf, OnOk, Some, option_map};
ghost use Rattle.std.specs.Io.KnownBytes.{IsAtEnd};
ghost use Rattle.fault_count.specs.Faults.{Rose};
ghost use Rattle.byte_io.specs.Records.{IsReading, rows_left, source_under};
ghost use Rattle.byte_io.specs.Rows.{rows_of};
ghost use Rattle.run_file.specs.Several.{SameOthers, KeepsAll};
ghost use Rattle.run_file.specs.Shelved.{files_on, faults_on, KeepsShelf};
ghost use Rattle.job_text.specs.Jobs.{IsJob};
ghost use Rattle.landing.specs.Checks.{Refused, checked};
ghost use Rattle.landing.specs.Explaining.{Explains, FailsAmong};
ghost use Rattle.landing.specs.Filling.{LandsRows};
ghost use Rattle.landing.specs.Landed.{AreMade, HasCauseAmong, IsOfInput, Lands};
ghost use Rattle.landing.specs.Ruling.{IsRuled, first_refusal_in};
ghost use Rattle.landing.specs.declared.fault.LandFault.{LandFault};

use crate::desk::Desk;
use crate::fault::LandFault;
use crate::part::land_part;
use crate::rules::{Rules, rules_of};
use byte_io::{Origin, RecordFault, Records, Source, Tap};
use job_plan::Plan;
use job_text::Job;
use row_page::{PAGE_ROOM, Page};
use run_file::Run;
use spill_disk::{Disk, Shelf};
use std::alloc::Global;
use std::marker::Brand;

/// What was landed: the plan of the job over the header, the landed run of each partition, that of
/// partition `p` on disk `p % workers`, and how many rows there are.
#[derive(Drop)]
pub struct Landed {
    /// The job's plan over the header.
    pub plan: Plan,
    /// The run of each partition.
    pub parts: Vec<Run>,
    /// How many rows the input has below its header.
    pub rows: u64,
}

/// Lands the rows of a reading below its header.
fn land_rows<T: Tap, O: Origin, D: Disk, H: Shelf<D>>(
    alloc: Global,
    records: &mut Records<T, O>,
    rules: &Rules,
    part_rows: u64,
    workers: u32,
    shelf: &mut H,
) -> Result<(Vec<Run>, u64), LandFault>
    requires reading { IsReading records.old }
    requires rules { IsRuled rules.now }
    requires few { rules.now.max_rows ≤ 10000000 }
    requires some { 1 ≤ part_rows }
    requires one { 1 ≤ workers }
    requires shelf { workers ≤ H.count_of shelf.old }
    ensures lands { IfOk result (λ landed. LandsRows (files_on H.disk_of D.files shelf.new) rules.now part_rows
        workers landed.0.items landed.1 (rows_left records.old)) }
    ensures only { IfOk result (λ landed. SameOthers (H.named shelf.old)
        (files_on H.disk_of D.files shelf.old) (files_on H.disk_of D.files shelf.new) landed.0.items) }
    ensures made { IfOk result (λ landed.
        AreMade (H.named shelf.old) (files_on H.disk_of D.files shelf.old) landed.0.items) }
    ensures end { OnOk result (IsAtEnd (T.left (source_under records.new))) }
    ensures files { KeepsAll
        (files_on H.disk_of D.files shelf.old) (files_on H.disk_of D.files shelf.new) }
    ensures shelf { KeepsShelf H.count_of H.named H.disk_of D.files D.faults shelf.old shelf.new }
    ensures err { IfErr result (Explains
        (λ why. IfSome (rows_left records.old) (λ rows. first_refusal_in rules.now 1 rows ≡ Some why))
        (Rose O.faults (T.faults (source_under records.new)))
        (FailsAmong workers (faults_on H.disk_of D.faults shelf.old) (faults_on H.disk_of D.faults shelf.new))) }
{
    let mut desk = Desk::new(alloc);
    desk.take(records)?;
    let mut page = Page::new(alloc, PAGE_ROOM);
    let mut parts = Vec::new(alloc);
    let mut rows = 0;
    'parts: while desk.more {
        let to = (parts.len() % workers as usize) as u32;
        let (run, cleared) = land_part(
            alloc, records, rules, shelf, to, rows, part_rows, page, &mut desk,
        )?;
        page = cleared;
        rows += run.count;
        if parts.push(run).is_err() {
            return Err(LandFault::NoMemory);
        }
    }
    Ok((parts, rows))
}

/// Reads the header, and lands the rows below it.
fn land_all<T: Tap, O: Origin, D: Disk, H: Shelf<D>>(
    alloc: Global,
    records: &mut Records<T, O>,
    job: &Job,
    max_rows: u64,
    part_rows: u64,
    workers: u32,
    shelf: &mut H,
) -> Result<Landed, LandFault>
    requires reading { IsReading records.old }
    requires job { IsJob job.now }
    requires some { 1 ≤ part_rows }
    requires few { max_rows ≤ 10000000 }
    requires one { 1 ≤ workers }
    requires shelf { workers ≤ H.count_of shelf.old }
    ensures lands { IfOk result (λ landed. Lands (files_on H.disk_of D.files shelf.new) job.now max_rows
        part_rows workers landed.plan landed.parts.items landed.rows (rows_left records.old)) }
    ensures only { IfOk result (λ landed. SameOthers (H.named shelf.old)
        (files_on H.disk_of D.files shelf.old) (files_on H.disk_of D.files shelf.new) landed.parts.items) }
    ensures made { IfOk result (λ landed.
        AreMade (H.named shelf.old) (files_on H.disk_of D.files shelf.old) landed.parts.items) }
    ensures end { OnOk result (IsAtEnd (T.left (source_under records.new))) }
    ensures files { KeepsAll
        (files_on H.disk_of D.files shelf.old) (files_on H.disk_of D.files shelf.new) }
    ensures shelf { KeepsShelf H.count_of H.named H.disk_of D.files D.faults shelf.old shelf.new }
    ensures err { IfErr result (Explains
        (λ why. IfSome (rows_left records.old) (λ rows. checked job.now max_rows rows ≡ Refused why))
        (Rose O.faults (T.faults (source_under records.new)))
        (FailsAmong workers (faults_on H.disk_of D.faults shelf.old) (faults_on H.disk_of D.faults shelf.new))) }
{
    let header = match records.next() {
        Ok(Some(header)) => header,
        Ok(None) => return Err(LandFault::NoHeader),
        Err(RecordFault::ReadFault) => return Err(LandFault::ReadFault),
        Err(RecordFault::NoMemory) => return Err(LandFault::NoMemory),
    };
    let rules = rules_of(alloc, job, &header, max_rows)?;
    let (parts, rows) = land_rows(alloc, records, &rules, part_rows, workers, shelf)?;
    let Rules {
        plan,
        heads: _,
        count: _,
        max_rows: _,
    } = rules;
    Ok(Landed { plan, parts, rows })
}

/// Lands a lent source, and hands it back.
fn land_from<T: Tap, O: Origin, D: Disk, H: Shelf<D>>(
    alloc: Global,
    source: T,
    job: &Job,
    max_rows: u64,
    part_rows: u64,
    workers: u32,
    shelf: &mut H,
) -> (Result<Landed, LandFault>, T)
    requires name { T.name source ≡ O.name }
    requires faults { T.faults source ≡ O.faults }
    requires job { IsJob job.now }
    requires some { 1 ≤ part_rows }
    requires few { max_rows ≤ 10000000 }
    requires one { 1 ≤ workers }
    requires shelf { workers ≤ H.count_of shelf.old }
    ensures lands { IfOk result.0 (λ landed. Lands (files_on H.disk_of D.files shelf.new) job.now max_rows
        part_rows workers landed.plan landed.parts.items landed.rows (option_map rows_of (T.left source))) }
    ensures only { IfOk result.0 (λ landed. SameOthers (H.named shelf.old)
        (files_on H.disk_of D.files shelf.old) (files_on H.disk_of D.files shelf.new) landed.parts.items) }
    ensures made { IfOk result.0 (λ landed.
        AreMade (H.named shelf.old) (files_on H.disk_of D.files shelf.old) landed.parts.items) }
    ensures end { OnOk result.0 (IsAtEnd (T.left result.1)) }
    ensures same { T.name result.1 ≡ O.name }
    ensures later { O.faults ≤ T.faults result.1 }
    ensures files { KeepsAll
        (files_on H.disk_of D.files shelf.old) (files_on H.disk_of D.files shelf.new) }
    ensures shelf { KeepsShelf H.count_of H.named H.disk_of D.files D.faults shelf.old shelf.new }
    ensures err { IfErr result.0 (Explains
        (λ why. IfSome (option_map rows_of (T.left source)) (λ rows. checked job.now max_rows rows ≡ Refused why))
        (Rose O.faults (T.faults result.1))
        (FailsAmong workers (faults_on H.disk_of D.faults shelf.old) (faults_on H.disk_of D.faults shelf.new))) }
{
    let mut records = Records::<T, O>::new(alloc, source);
    let answer = land_all(
        alloc,
        &mut records,
        job,
        max_rows,
        part_rows,
        workers,
        shelf,
    );
    (answer, records.finish())
}

/// Reads a source to its end, checks its header and its rows, and writes the columns that the job names, in
/// partitions of `part_rows` rows, each behind its number.
pub fn land<S: Source, D: Disk, H: Shelf<D>>(
    alloc: Global,
    source: &mut S,
    job: &Job,
    max_rows: u64,
    part_rows: u64,
    workers: u32,
    shelf: &mut H,
) -> Result<Landed, LandFault>
    requires job { IsJob job.now }
    requires some { 1 ≤ part_rows }
    requires few { max_rows ≤ 10000000 }
    requires one { 1 ≤ workers }
    requires shelf { workers ≤ H.count_of shelf.old }
    ensures lands { IfOk result (λ landed. Lands (files_on H.disk_of D.files shelf.new) job.now max_rows
        part_rows workers landed.plan landed.parts.items landed.rows (option_map rows_of (S.left source.old))) }
    ensures only { IfOk result (λ landed. SameOthers (H.named shelf.old)
        (files_on H.disk_of D.files shelf.old) (files_on H.disk_of D.files shelf.new) landed.parts.items) }
    ensures made { IfOk result (λ landed.
        AreMade (H.named shelf.old) (files_on H.disk_of D.files shelf.old) landed.parts.items) }
    ensures end { OnOk result (IsAtEnd (S.left source.new)) }
    ensures refused { (why : LandFault) → IsOfInput why → IsErrOf result why →
        IfSome (S.left source.old) (λ bytes. checked job.now max_rows (rows_of bytes) ≡ Refused why) }
    ensures read { IsErrOf result LandFault.ReadFault → Rose (S.faults source.old) (S.faults source.new) }
    ensures cause { IfErr result (HasCauseAmong workers
        (faults_on H.disk_of D.faults shelf.old) (faults_on H.disk_of D.faults shelf.new)) }
    ensures later { S.faults source.old ≤ S.faults source.new }
    ensures files { KeepsAll (files_on H.disk_of D.files shelf.old) (files_on H.disk_of D.files shelf.new) }
    ensures shelf { KeepsShelf H.count_of H.named H.disk_of D.files D.faults shelf.old shelf.new }
{
    let (landed, _last) = land_from::<&mut S, Brand, D, H>(
        alloc, source, job, max_rows, part_rows, workers, shelf,
    );
    landed
}
