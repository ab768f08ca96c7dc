// Steps of a reader as words of text.
ghost use Rattle.std.specs.Prelude.{◌≡◌};
ghost use Rattle.run_file.specs.Readers.{run_of};

use crate::tests::told::Told;
use crate::tests::words::parted;
use row_form::Form;
use run_file::{Damage, Run, RunFault, RunReader};
use spill_disk::{Disk, One};
use std::alloc::Global;

/// Tells what a reader of the run answers to these steps, each with its answer behind a `=`. They are `advance` and
/// `next`, and the answers `end`, a row's bytes in hex, `fault:DISK` and `damaged:DISK:FILE:KEPT:FOUND`. A reader that keeps
/// more than its run's greatest cost is told of.
pub fn take_steps<D: Disk>(
    alloc: Global,
    disk: &mut D,
    run: &Run,
    form: Form,
    steps: &str,
    told: &mut Told,
)
    requires { run.now.disk ≡ 0 }
{
    let mut reader = RunReader::new(alloc, run, form);
    for word in steps.split_whitespace() {
        take_step(disk, &mut reader, word, told);
        if reader.buffered() as u64 > run.greatest {
            told.put(" too much is kept");
        }
    }
}

fn take_step<D: Disk>(disk: &mut D, reader: &mut RunReader, word: &str, told: &mut Told)
    requires { (run_of reader.old).disk ≡ 0 }
    ensures { run_of reader.new ≡ run_of reader.old }
{
    let (step, _) = parted(word, '=');
    told.begin(step);
    if step == "next" {
        return next(disk, reader, told);
    }
    advance(disk, reader, told);
}

fn advance<D: Disk>(disk: &mut D, reader: &mut RunReader, told: &mut Told)
    requires { (run_of reader.old).disk ≡ 0 }
    ensures { run_of reader.new ≡ run_of reader.old }
{
    let mut one = One { disk };
    match reader.advance(&mut one) {
        Ok(true) => told.put_hex(reader.row().bytes()),
        Ok(false) => told.put("end"),
        Err(fault) => put_fault(fault, told),
    }
}

fn next<D: Disk>(disk: &mut D, reader: &mut RunReader, told: &mut Told)
    requires { (run_of reader.old).disk ≡ 0 }
    ensures { run_of reader.new ≡ run_of reader.old }
{
    let mut one = One { disk };
    match reader.next(&mut one) {
        Ok(Some(row)) => told.put_hex(row.bytes()),
        Ok(None) => told.put("end"),
        Err(fault) => put_fault(fault, told),
    }
}

/// Adds a fault. Want of memory is none.
pub fn put_fault(fault: RunFault, told: &mut Told) {
    let is_ok = match fault {
        RunFault::DiskFault { disk } => write!(told.text, "fault:{disk}").is_ok(),
        RunFault::Damaged(
            Damage {
                disk,
                file,
                kept,
                found,
            },
        ) => write!(told.text, "damaged:{disk}:{file}:{kept}:{found}").is_ok(),
        RunFault::NoMemory => false,
    };
    told.need(is_ok);
}

/// Adds a run's numbers.
pub fn put_numbers(run: &Run, told: &mut Told) {
    let Run {
        disk,
        file,
        bytes,
        count,
        greatest,
    } = *run;
    let is_ok = write!(told.text, "{disk}:{file}:{bytes}:{count}:{greatest}").is_ok();
    told.need(is_ok);
}
