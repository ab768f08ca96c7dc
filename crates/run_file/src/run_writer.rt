//! A run that is being written.

ghost use Rattle.std.specs.Prelude.{◌≡◌, ◌≤◌, ◌++◌, [], List, ℕ, is_some, IfOk, OnOk, OnErr};
ghost use Rattle.row_page.specs.Spelling.{page_bytes};
ghost use Rattle.spill_disk.specs.Files.{IsThere, Creates, Appends, AppendsPart};
ghost use Rattle.run_file.specs.Runs.{CountsRows, IsFileOf, greatest_cost};
ghost use Rattle.run_file.specs.Causes.{HasCauseOn, NotDamaged};

use crate::run::fault_of;
use crate::{Run, RunFault};
use row_page::Page;
use spill_disk::Disk;
use std::marker::Model;

/// A run that is being written, page by page, to a file of its own. Contracts see the run so far.
#[derive(Debug, Drop)]
pub struct RunWriter {
    run: Run,
}

impl Model for RunWriter {
    ghost use Rattle.run_file.specs.declared.run.Run.{Run};

    ghost Value = { Run };

    ghost view = { λ writer. writer.run };
}

impl RunWriter {
    /// Begins a run in a new file of this disk, which has this number on its shelf.
    pub fn start<D: Disk>(disk: &mut D, number: u32) -> Result<RunWriter, RunFault>
        ensures made { IfOk result
            (λ writer. Creates (D.files disk.old) (D.files disk.new) writer.file) }
        ensures there { IfOk result (λ writer. IsThere (D.files disk.new) writer.file) }
        ensures empty { IfOk result (λ writer. IsFileOf (D.files disk.new) writer.file []) }
        ensures counts { IfOk result (λ writer. CountsRows writer []) }
        ensures named { IfOk result (λ writer. writer.disk ≡ number) }
        ensures err { OnErr result (D.files disk.new ≡ D.files disk.old) }
        ensures tells { is_some (D.files disk.new) ≡ is_some (D.files disk.old) }
        ensures later { D.faults disk.old ≤ D.faults disk.new }
        ensures cause { HasCauseOn number (D.faults disk.old) (D.faults disk.new) result }
        ensures sound { NotDamaged result }
    {
        match disk.create() {
            Ok(file) => Ok(RunWriter {
                run: Run {
                    disk: number,
                    file,
                    bytes: 0,
                    count: 0,
                    greatest: 0,
                },
            }),
            Err(error) => Err(fault_of(number, error)),
        }
    }

    /// Puts a page's rows behind those of the run. After an `Err` a part of the page may stand in the
    /// file, and the writer is only dropped.
    pub fn write<D: Disk>(&mut self, disk: &mut D, page: &Page) -> Result<(), RunFault>
        requires there { IsThere (D.files disk.old) self.old.file }
        ensures ok { OnOk result (Appends (D.files disk.old) (D.files disk.new) self.old.file
            (page_bytes page.now.rows)) }
        ensures err { OnErr result (AppendsPart (D.files disk.old) (D.files disk.new) self.old.file
            (page_bytes page.now.rows)) }
        ensures there { IsThere (D.files disk.new) self.new.file }
        ensures written { OnOk result ((rows : List (List (List ℕ))) →
            IsFileOf (D.files disk.old) self.old.file rows →
            IsFileOf (D.files disk.new) self.new.file (rows ++ page.now.rows)) }
        ensures counts { OnOk result ((rows : List (List (List ℕ))) →
            CountsRows self.old rows → CountsRows self.new (rows ++ page.now.rows)) }
        ensures unwritten { OnErr result (self.new ≡ self.old) }
        ensures disk { self.new.disk ≡ self.old.disk }
        ensures file { self.new.file ≡ self.old.file }
        ensures tells { is_some (D.files disk.new) ≡ is_some (D.files disk.old) }
        ensures later { D.faults disk.old ≤ D.faults disk.new }
        ensures cause { HasCauseOn self.old.disk (D.faults disk.old) (D.faults disk.new) result }
        ensures sound { NotDamaged result }
    {
        let bytes = page.bytes();
        // No disk has 2^64 bytes: a run that would have is want of memory.
        let Some(total) = self.run.bytes.checked_add(bytes.len() as u64) else {
            return Err(RunFault::NoMemory);
        };
        let Some(count) = self.run.count.checked_add(page.rows() as u64) else {
            return Err(RunFault::NoMemory);
        };
        let greatest = self.run.greatest.max(greatest_of(page));
        match disk.append(self.run.file, bytes) {
            Ok(()) => {
                self.run.bytes = total;
                self.run.count = count;
                self.run.greatest = greatest;
                Ok(())
            }
            Err(error) => Err(fault_of(self.run.disk, error)),
        }
    }

    /// The number of its disk.
    pub fn disk(&self) -> u32
        ensures { result ≡ self.now.disk }
    {
        self.run.disk
    }

    /// The run that was written.
    pub fn finish(self) -> Run
        ensures { result ≡ self }
    {
        self.run
    }
}

/// The greatest cost of a row of the page.
fn greatest_of(page: &Page) -> u64
    ensures { result ≡ greatest_cost page.now.rows }
{
    let mut greatest: u64 = 0;
    for i in 0..page.rows() {
        greatest = greatest.max(24 + page.row(i).bytes().len() as u64);
    }
    greatest
}
