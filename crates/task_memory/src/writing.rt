//! The pages of one spill, written as one run.

ghost use Rattle.std.specs.Prelude.{◌≡◌, ◌≢◌, ◌++◌, List, ℕ, Option, IfOk, OnOk, OnErr};
ghost use Rattle.spill_disk.specs.Files.{Files, IsThere};
ghost use Rattle.fault_count.specs.Faults.{HasCauseAt};
ghost use Rattle.task_memory.specs.Disks.{KeepsFiles, SameAt};
ghost use Rattle.task_memory.specs.Faults.{fault_by};
ghost use Rattle.task_memory.specs.Writing.{HasFile, IsRunSoFar, IsWritten};

use crate::fault::Fault;
use row_page::Page;
use run_file::{RunFault, RunWriter};
use spill_disk::Disk;

// A run's fault as one of spilling. A writer finds nothing damaged.
fn fault_of(fault: RunFault) -> Fault
    ensures { result ≡ fault_by fault }
{
    match fault {
        RunFault::DiskFault { disk: _ } => Fault::DiskFault,
        _ => Fault::NoMemory,
    }
}

// The writer to go on with: that which is there, or that of a new run.
fn begun<D: Disk>(disk: &mut D, writer: Option<RunWriter>) -> Result<RunWriter, Fault>
    requires there { HasFile (D.files disk.old) writer }
    ensures ok { IfOk result (λ run. (start : Option Files) (rows : List (List (List ℕ)))
        → IsWritten start (D.files disk.old) writer rows
        → IsRunSoFar start (D.files disk.new) run rows × KeepsFiles start (D.files disk.new)
        × ((file : ℕ) → file ≢ run.file → SameAt start (D.files disk.new) file)) }
    ensures there { IfOk result (λ run. IsThere (D.files disk.new) run.file) }
    ensures err { OnErr result (D.files disk.new ≡ D.files disk.old) }
    ensures cause { HasCauseAt Fault.DiskFault (D.faults disk.old) (D.faults disk.new) result }
{
    match writer {
        Some(current) => Ok(current),
        None => match RunWriter::start(disk, 0) {
            Ok(started) => Ok(started),
            Err(fault) => Err(fault_of(fault)),
        },
    }
}

// Puts a page's rows behind those of the spill's run, which begins with the first page.
pub(crate) fn write_page<D: Disk>(
    disk: &mut D,
    writer: &mut Option<RunWriter>,
    page: &Page,
) -> Result<(), Fault>
    requires there { HasFile (D.files disk.old) writer.old }
    ensures ok { OnOk result ((start : Option Files) (rows : List (List (List ℕ)))
        → IsWritten start (D.files disk.old) writer.old rows
        → IsWritten start (D.files disk.new) writer.new (rows ++ page.now.rows)) }
    ensures err { OnErr result ((start : Option Files) (rows : List (List (List ℕ)))
        → IsWritten start (D.files disk.old) writer.old rows
        → KeepsFiles start (D.files disk.new)) }
    ensures there { HasFile (D.files disk.new) writer.new }
    ensures cause { HasCauseAt Fault.DiskFault (D.faults disk.old) (D.faults disk.new) result }
{
    let mut current = begun(disk, writer.take())?;
    let written = current.write(disk, page);
    *writer = Some(current);
    match written {
        Ok(()) => Ok(()),
        Err(fault) => Err(fault_of(fault)),
    }
}
