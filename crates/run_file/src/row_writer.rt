//! Rows that go to a run by way of a page.

ghost use Rattle.std.specs.Prelude.{◌≡◌, ◌<◌, ◌++◌, ◌∷◌, [], List, ℕ, IfOk, OnErr, OnOk};
ghost use Rattle.row_page.specs.Views.{fields_in};
ghost use Rattle.spill_disk.specs.Files.{IsThere};
ghost use Rattle.run_file.specs.Causes.{HasCauseOn, NotDamaged};
ghost use Rattle.run_file.specs.Runs.{CountsRows, IsFileOf};
ghost use Rattle.run_file.specs.Shelved.{files_on, faults_on, IsNotThereOn, KeepsShelf, LeavesFiles, SameBut};
ghost use Rattle.run_file.specs.Writing.{IsSoFar, IsWritten};

use crate::run::fault_of;
use crate::{Run, RunFault, RunWriter};
use row_page::{Page, PageFault, RowView};
use spill_disk::{Disk, Shelf};
use std::alloc::Global;
use std::marker::Model;

/// Writes the rows of a run to a new file on a disk of a shelf. Rows are put on a page, which is written
/// where it is full. Contracts see the run as far as it is written, and the page.
#[derive(Debug, Drop)]
pub struct RowWriter {
    alloc: Global,
    writer: RunWriter,
    page: Page,
}

impl Model for RowWriter {
    ghost use Rattle.run_file.specs.Writing.{WriterView};

    ghost Value = { WriterView };

    ghost view = { λ rows. record { run = rows.writer; page = rows.page } };
}

impl RowWriter {
    /// Begins a run in a new file of the disk that this number names. The page is one without rows; its
    /// memory and its room are used for the run.
    pub fn begin<D: Disk, H: Shelf<D>>(
        alloc: Global,
        shelf: &mut H,
        to: u32,
        page: Page,
    ) -> Result<RowWriter, RunFault>
        requires to { to < H.count_of shelf.old }
        requires empty { page.rows ≡ [] }
        ensures disk { IfOk result (λ rows. rows.run.disk ≡ to) }
        ensures begins { IfOk result (λ rows. IsSoFar (files_on H.disk_of D.files shelf.new to) rows []) }
        ensures there { IfOk result (λ rows.
            IsThere (files_on H.disk_of D.files shelf.new to) rows.run.file) }
        ensures fresh { IfOk result (λ rows.
            IsNotThereOn (H.named shelf.old) (files_on H.disk_of D.files shelf.old) to rows.run.file) }
        ensures same { IfOk result (λ rows. SameBut (H.named shelf.old)
            (files_on H.disk_of D.files shelf.old) (files_on H.disk_of D.files shelf.new) to rows.run.file) }
        ensures err { OnErr result
            (LeavesFiles H.count_of H.named H.disk_of D.files D.faults shelf.old shelf.new) }
        ensures shelf { KeepsShelf H.count_of H.named H.disk_of D.files D.faults shelf.old shelf.new }
        ensures cause { HasCauseOn to (faults_on H.disk_of D.faults shelf.old to)
            (faults_on H.disk_of D.faults shelf.new to) result }
        ensures sound { NotDamaged result }
    {
        let writer = start_on(shelf, to)?;
        Ok(RowWriter {
            alloc,
            writer,
            page,
        })
    }

    /// Puts a row behind those so far: on the page, which is written first where it is full. A row that
    /// passes the room of a page goes to the file as a page of its own. After an `Err` the writer is only
    /// dropped.
    #[inline(always)]
    pub fn put<D: Disk, H: Shelf<D>>(
        &mut self,
        shelf: &mut H,
        row: RowView<'_>,
    ) -> Result<(), RunFault>
        requires to { self.old.run.disk < H.count_of shelf.old }
        requires there { IsThere (files_on H.disk_of D.files shelf.old self.old.run.disk) self.old.run.file }
        ensures put { OnOk result ((rows : List (List (List ℕ))) →
            IsSoFar (files_on H.disk_of D.files shelf.old self.old.run.disk) self.old rows →
            IsSoFar (files_on H.disk_of D.files shelf.new self.old.run.disk) self.new
            (rows ++ fields_in row.entry ∷ [])) }
        ensures there { IsThere (files_on H.disk_of D.files shelf.new self.old.run.disk) self.old.run.file }
        ensures disk { self.new.run.disk ≡ self.old.run.disk }
        ensures file { self.new.run.file ≡ self.old.run.file }
        ensures same { SameBut (H.named shelf.old)
            (files_on H.disk_of D.files shelf.old) (files_on H.disk_of D.files shelf.new)
            self.old.run.disk self.old.run.file }
        ensures shelf { KeepsShelf H.count_of H.named H.disk_of D.files D.faults shelf.old shelf.new }
        ensures cause { HasCauseOn self.old.run.disk
            (faults_on H.disk_of D.faults shelf.old self.old.run.disk)
            (faults_on H.disk_of D.faults shelf.new self.old.run.disk) result }
        ensures sound { NotDamaged result }
    {
        match self.page.push(row.again()) {
            Ok(()) => Ok(()),
            Err(PageFault::Full) => {
                write_on(shelf, &mut self.writer, &self.page)?;
                self.page.clear();
                put_first(self.alloc, shelf, &mut self.writer, &mut self.page, row)
            }
            Err(PageFault::NoMemory) => Err(RunFault::NoMemory),
        }
    }

    /// Writes the rows that are still on the page, and answers the run and the page without rows.
    pub fn finish<D: Disk, H: Shelf<D>>(self, shelf: &mut H) -> Result<(Run, Page), RunFault>
        requires to { self.run.disk < H.count_of shelf.old }
        requires there { IsThere (files_on H.disk_of D.files shelf.old self.run.disk) self.run.file }
        ensures written { IfOk result (λ done. (rows : List (List (List ℕ))) →
            IsSoFar (files_on H.disk_of D.files shelf.old self.run.disk) self rows →
            IsWritten (files_on H.disk_of D.files shelf.new self.run.disk) done.0 rows) }
        ensures there { IsThere (files_on H.disk_of D.files shelf.new self.run.disk) self.run.file }
        ensures disk { IfOk result (λ done. done.0.disk ≡ self.run.disk) }
        ensures file { IfOk result (λ done. done.0.file ≡ self.run.file) }
        ensures page { IfOk result (λ done. done.1 ≡ record self.page { rows = [] }) }
        ensures same { SameBut (H.named shelf.old)
            (files_on H.disk_of D.files shelf.old) (files_on H.disk_of D.files shelf.new)
            self.run.disk self.run.file }
        ensures shelf { KeepsShelf H.count_of H.named H.disk_of D.files D.faults shelf.old shelf.new }
        ensures cause { HasCauseOn self.run.disk
            (faults_on H.disk_of D.faults shelf.old self.run.disk)
            (faults_on H.disk_of D.faults shelf.new self.run.disk) result }
        ensures sound { NotDamaged result }
    {
        let RowWriter {
            alloc: _,
            mut writer,
            mut page,
        } = self;
        write_on(shelf, &mut writer, &page)?;
        page.clear();
        Ok((writer.finish(), page))
    }
}

/// Takes a run's file away.
pub fn remove_run<D: Disk, H: Shelf<D>>(shelf: &mut H, run: &Run) -> Result<(), RunFault>
    requires there { run.now.disk < H.count_of shelf.old }
    ensures gone { OnOk result (IsNotThereOn (H.named shelf.old)
        (files_on H.disk_of D.files shelf.new) run.now.disk run.now.file) }
    ensures same { SameBut (H.named shelf.old)
        (files_on H.disk_of D.files shelf.old) (files_on H.disk_of D.files shelf.new)
        run.now.disk run.now.file }
    ensures err { OnErr result
        (LeavesFiles H.count_of H.named H.disk_of D.files D.faults shelf.old shelf.new) }
    ensures shelf { KeepsShelf H.count_of H.named H.disk_of D.files D.faults shelf.old shelf.new }
    ensures cause { HasCauseOn run.now.disk (faults_on H.disk_of D.faults shelf.old run.now.disk)
        (faults_on H.disk_of D.faults shelf.new run.now.disk) result }
    ensures sound { NotDamaged result }
{
    let disk = shelf.disk(run.disk);
    match disk.remove(run.file) {
        Ok(()) => Ok(()),
        Err(error) => Err(fault_of(run.disk, error)),
    }
}

/// Puts a row on an empty page; one that passes its room goes to the file at once.
#[cold]
#[inline(never)]
fn put_first<D: Disk, H: Shelf<D>>(
    alloc: Global,
    shelf: &mut H,
    writer: &mut RunWriter,
    page: &mut Page,
    row: RowView<'_>,
) -> Result<(), RunFault>
    requires to { writer.old.disk < H.count_of shelf.old }
    requires there { IsThere (files_on H.disk_of D.files shelf.old writer.old.disk) writer.old.file }
    requires empty { page.old.rows ≡ [] }
    ensures put { OnOk result ((rows : List (List (List ℕ))) →
        IsSoFar (files_on H.disk_of D.files shelf.old writer.old.disk)
        (record { run = writer.old; page = page.old }) rows →
        IsSoFar (files_on H.disk_of D.files shelf.new writer.old.disk)
        (record { run = writer.new; page = page.new }) (rows ++ fields_in row.entry ∷ [])) }
    ensures there { IsThere (files_on H.disk_of D.files shelf.new writer.old.disk) writer.old.file }
    ensures disk { writer.new.disk ≡ writer.old.disk }
    ensures file { writer.new.file ≡ writer.old.file }
    ensures same { SameBut (H.named shelf.old)
        (files_on H.disk_of D.files shelf.old) (files_on H.disk_of D.files shelf.new)
        writer.old.disk writer.old.file }
    ensures shelf { KeepsShelf H.count_of H.named H.disk_of D.files D.faults shelf.old shelf.new }
    ensures cause { HasCauseOn writer.old.disk
        (faults_on H.disk_of D.faults shelf.old writer.old.disk)
        (faults_on H.disk_of D.faults shelf.new writer.old.disk) result }
    ensures sound { NotDamaged result }
{
    match page.push(row.again()) {
        Ok(()) => Ok(()),
        Err(PageFault::Full) => put_alone(alloc, shelf, writer, row),
        Err(PageFault::NoMemory) => Err(RunFault::NoMemory),
    }
}

/// Puts a row behind those in a run's file, as a page of its own.
#[cold]
#[inline(never)]
fn put_alone<D: Disk, H: Shelf<D>>(
    alloc: Global,
    shelf: &mut H,
    writer: &mut RunWriter,
    row: RowView<'_>,
) -> Result<(), RunFault>
    requires to { writer.old.disk < H.count_of shelf.old }
    requires there { IsThere (files_on H.disk_of D.files shelf.old writer.old.disk) writer.old.file }
    ensures written { OnOk result ((rows : List (List (List ℕ))) →
        IsFileOf (files_on H.disk_of D.files shelf.old writer.old.disk) writer.old.file rows →
        IsFileOf (files_on H.disk_of D.files shelf.new writer.old.disk) writer.old.file
        (rows ++ fields_in row.entry ∷ [])) }
    ensures counts { OnOk result ((rows : List (List (List ℕ))) →
        CountsRows writer.old rows → CountsRows writer.new (rows ++ fields_in row.entry ∷ [])) }
    ensures there { IsThere (files_on H.disk_of D.files shelf.new writer.old.disk) writer.old.file }
    ensures disk { writer.new.disk ≡ writer.old.disk }
    ensures file { writer.new.file ≡ writer.old.file }
    ensures same { SameBut (H.named shelf.old)
        (files_on H.disk_of D.files shelf.old) (files_on H.disk_of D.files shelf.new)
        writer.old.disk writer.old.file }
    ensures shelf { KeepsShelf H.count_of H.named H.disk_of D.files D.faults shelf.old shelf.new }
    ensures cause { HasCauseOn writer.old.disk
        (faults_on H.disk_of D.faults shelf.old writer.old.disk)
        (faults_on H.disk_of D.faults shelf.new writer.old.disk) result }
    ensures sound { NotDamaged result }
{
    let mut alone = Page::new(alloc, row.bytes().len() as u64 + 4);
    match alone.push(row) {
        Ok(()) => write_on(shelf, writer, &alone),
        Err(_) => Err(RunFault::NoMemory),
    }
}

/// Begins a run in a new file of the disk that this number names.
fn start_on<D: Disk, H: Shelf<D>>(shelf: &mut H, to: u32) -> Result<RunWriter, RunFault>
    requires to { to < H.count_of shelf.old }
    ensures disk { IfOk result (λ writer. writer.disk ≡ to) }
    ensures counts { IfOk result (λ writer. CountsRows writer []) }
    ensures empty { IfOk result (λ writer.
        IsFileOf (files_on H.disk_of D.files shelf.new to) writer.file []) }
    ensures there { IfOk result (λ writer.
        IsThere (files_on H.disk_of D.files shelf.new to) writer.file) }
    ensures fresh { IfOk result (λ writer.
        IsNotThereOn (H.named shelf.old) (files_on H.disk_of D.files shelf.old) to writer.file) }
    ensures same { IfOk result (λ writer. SameBut (H.named shelf.old)
        (files_on H.disk_of D.files shelf.old) (files_on H.disk_of D.files shelf.new) to writer.file) }
    ensures err { OnErr result
        (LeavesFiles H.count_of H.named H.disk_of D.files D.faults shelf.old shelf.new) }
    ensures shelf { KeepsShelf H.count_of H.named H.disk_of D.files D.faults shelf.old shelf.new }
    ensures cause { HasCauseOn to (faults_on H.disk_of D.faults shelf.old to)
        (faults_on H.disk_of D.faults shelf.new to) result }
    ensures sound { NotDamaged result }
{
    let disk = shelf.disk(to);
    RunWriter::start(disk, to)
}

/// Puts a page's rows behind those of a run on its disk.
#[inline(never)]
fn write_on<D: Disk, H: Shelf<D>>(
    shelf: &mut H,
    writer: &mut RunWriter,
    page: &Page,
) -> Result<(), RunFault>
    requires to { writer.old.disk < H.count_of shelf.old }
    requires there { IsThere (files_on H.disk_of D.files shelf.old writer.old.disk) writer.old.file }
    ensures written { OnOk result ((rows : List (List (List ℕ))) →
        IsFileOf (files_on H.disk_of D.files shelf.old writer.old.disk) writer.old.file rows →
        IsFileOf (files_on H.disk_of D.files shelf.new writer.old.disk) writer.old.file (rows ++ page.now.rows)) }
    ensures counts { OnOk result ((rows : List (List (List ℕ))) →
        CountsRows writer.old rows → CountsRows writer.new (rows ++ page.now.rows)) }
    ensures there { IsThere (files_on H.disk_of D.files shelf.new writer.old.disk) writer.old.file }
    ensures disk { writer.new.disk ≡ writer.old.disk }
    ensures file { writer.new.file ≡ writer.old.file }
    ensures same { SameBut (H.named shelf.old)
        (files_on H.disk_of D.files shelf.old) (files_on H.disk_of D.files shelf.new)
        writer.old.disk writer.old.file }
    ensures shelf { KeepsShelf H.count_of H.named H.disk_of D.files D.faults shelf.old shelf.new }
    ensures cause { HasCauseOn writer.old.disk
        (faults_on H.disk_of D.faults shelf.old writer.old.disk)
        (faults_on H.disk_of D.faults shelf.new writer.old.disk) result }
    ensures sound { NotDamaged result }
{
    let disk = shelf.disk(writer.disk());
    writer.write(disk, page)
}
