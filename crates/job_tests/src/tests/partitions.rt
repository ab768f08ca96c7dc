// Inputs that are landed on two disks in memory, against answers that were written by hand.
ghost use Rattle.std.specs.Prelude.{◌≡◌, [], IfOk, OnOk};
ghost use Rattle.job_text.specs.Jobs.{IsJob};
ghost use Rattle.run_file.specs.Readers.{run_of};

use crate::tests::jobs::job_of;
use byte_io::MemorySource;
use job_text::{Job, JobFault};
use landing::{LandFault, Landed, land};
use row_form::Form;
use row_page::RowView;
use run_file::{Run, RunReader};
use spill_disk::{HasDisk, MemoryDisk, Shelf};
use std::alloc::{AllocError, Global};
use std::test::Fail;

// An owner of a disk.
#[derive(Drop)]
struct Owner {
    own: MemoryDisk,
}

impl HasDisk<MemoryDisk> for Owner {
    ghost use Rattle.std.proofs.Common.{refl};

    ghost own = { λ owner. owner.own };

    ghost with_own = { λ owner disk. record owner { own = disk } };

    ghost own_with_own = { λ owner disk. refl };

    fn disk(&mut self) -> &mut MemoryDisk {
        &mut self.own
    }
}

// The number of no call.
const NEVER: u64 = u64::MAX;

// A disk of which this call fails.
fn disk_of(alloc: Global, fails: u64) -> Result<Owner, AllocError> {
    Ok(Owner {
        own: MemoryDisk::new(alloc, vec![in alloc; fails]?),
    })
}

// Two disks, of each of which one call fails.
fn disks_of(alloc: Global, first: u64, second: u64) -> Result<Vec<Owner>, AllocError> {
    let mut disks = Vec::new(alloc);
    disks.push(disk_of(alloc, first)?)?;
    disks.push(disk_of(alloc, second)?)?;
    Ok(disks)
}

// A source of a text, of which one call fails.
fn source_of(alloc: Global, text: &[u8], fails: u64) -> Result<MemorySource, AllocError> {
    Ok(MemorySource::new(text.to_vec(alloc)?, vec![in alloc; fails]?))
}

// The job of a text, which is one query over the input.
fn plain_job_of(alloc: Global, text: &str) -> Result<Job, JobFault>
    ensures job { IfOk result IsJob }
    ensures plain { IfOk result (λ job. job.datasets ≡ []) }
{
    let job = job_of(alloc, text)?;
    if !job.is_plain() {
        return Err(JobFault::BadJob { place: 0 });
    }
    Ok(job)
}

// Lands a source for two workers: at most so many rows, and so many in a partition.
fn land_job(
    alloc: Global,
    source: &mut MemorySource,
    job: &Job,
    most: u64,
    part: u64,
    disks: &mut Vec<Owner>,
) -> Result<Landed, LandFault>
    requires job { IsJob job.now }
    requires plain { job.now.datasets ≡ [] }
{
    if Shelf::count(disks) < 2 {
        return Err(LandFault::NoMemory);
    }
    land(alloc, source, job, most.min(1000), part.max(1), 2, disks)
}

// Lands a source of a job that is given as its text.
fn land_text(
    alloc: Global,
    source: &mut MemorySource,
    job: &str,
    most: u64,
    part: u64,
    disks: &mut Vec<Owner>,
) -> Result<Result<Landed, LandFault>, JobFault> {
    let job = plain_job_of(alloc, job)?;
    Ok(land_job(alloc, source, &job, most, part, disks))
}

// How much was landed, or why nothing was.
fn told(alloc: Global, answer: Result<Landed, LandFault>) -> Result<String, AllocError> {
    match answer {
        Ok(landed) => format!(in alloc; "{} rows", landed.rows),
        Err(fault) => format!(in alloc; "{fault}"),
    }
}

// What is told of a text that is landed on these disks, where one call of the source fails: at most so
// many rows, in partitions of two.
fn told_on(
    alloc: Global,
    job: &str,
    text: &[u8],
    fails: u64,
    most: u64,
    disks: &mut Vec<Owner>,
) -> Result<String, Fail> {
    let mut source = source_of(alloc, text, fails)?;
    let answer = land_text(alloc, &mut source, job, most, 2, disks)?;
    Ok(told(alloc, answer)?)
}

// The same on two disks of which these calls fail.
fn told_by(
    alloc: Global,
    text: &[u8],
    fails: u64,
    first: u64,
    second: u64,
) -> Result<String, Fail> {
    let mut disks = disks_of(alloc, first, second)?;
    told_on(alloc, "order a: a", text, fails, 1000, &mut disks)
}

// The same of any job, where each call succeeds.
fn told_of(alloc: Global, job: &str, text: &[u8]) -> Result<String, Fail> {
    let mut disks = disks_of(alloc, NEVER, NEVER)?;
    told_on(alloc, job, text, NEVER, 1000, &mut disks)
}

// A job, a text, and why the text isn't landed.
const REFUSED: &str = "\
    order number a: a||input has no header~\
    order number a: a|b,c\n1,2\n3\n|no column a~\
    order number a: a|a,b\n1\n|row 1: wrong number of fields~\
    order number a: a|a\n1\n2,2\nx\n|row 2: wrong number of fields~\
    order number price: price|city,price\nOslo,3\nBergen,-4\nOslo,+5\nOslo,3.5\nOslo,6\nOslo\n|\
    row 4 column 1: not a number~\
    order number price: price|city,price\nOslo,9223372036854775808\n|\
    row 1 column 1: not a number~\
    order number price: price|city,price\nOslo,\n|row 1 column 1: not a number~\
    group city: sum price|city,price\nOslo,\nOslo, \n|row 2 column 1: not a number";

#[test]
fn the_first_thing_that_is_wrong_is_told(rt: HostRuntime) -> Result<(), Fail> {
    for row in REFUSED.split('~') {
        let (job, row) = row.split_once('|').ok_or("a row without a text")?;
        let (text, wanted) = row.split_once('|').ok_or("a row without a reason")?;
        let answer = told_of(rt.alloc(), job, text.as_bytes())?;
        assert_eq!(rt; answer.as_str(), wanted, "of {text:?}");
    }
    Ok(())
}

#[test]
fn a_row_past_the_most_is_too_many_whatever_it_has(rt: HostRuntime) -> Result<(), Fail> {
    let alloc = rt.alloc();
    let mut disks = disks_of(alloc, NEVER, NEVER)?;
    for (text, wanted) in [("a\n1\n2\n3,3\n", "too many rows"), ("a\n1\n2\n", "2 rows")] {
        let answer = told_on(alloc, "order a: a", text.as_bytes(), NEVER, 2, &mut disks)?;
        assert_eq!(rt; answer.as_str(), wanted, "of {text:?}");
    }
    Ok(())
}

// The header `a`, and so many rows of a field of so many bytes.
fn long_text(alloc: Global, rows: u8, bytes: usize) -> Result<Vec<u8>, AllocError> {
    let mut text = Vec::from_slice(alloc, b"a\n")?;
    for _ in 0..rows {
        text.extend_from_slice(&vec![in alloc; b'x'; bytes]?)?;
        text.push(b'\n')?;
    }
    Ok(text)
}

#[test]
fn a_field_has_at_most_65536_bytes(rt: HostRuntime) -> Result<(), Fail> {
    for (bytes, wanted) in [(65_537, "row 1: too long"), (65_536, "1 rows")] {
        let text = long_text(rt.alloc(), 1, bytes)?;
        let answer = told_of(rt.alloc(), "order a: a", &text)?;
        assert_eq!(rt; answer.as_str(), wanted, "of {bytes} bytes");
    }
    Ok(())
}

// Whether all bytes are `x`.
fn is_plain(field: &[u8]) -> bool {
    for byte in field {
        if *byte != b'x' {
            return false;
        }
    }
    true
}

// Adds a field. A long one of the byte `x` alone is `x*` and its length.
fn show_field(alloc: Global, field: &[u8], shown: &mut Vec<u8>) -> Result<(), AllocError> {
    if field.len() > 100 && is_plain(field) {
        let length = format!(in alloc; "x*{}", field.len())?;
        return shown.extend_from_slice(length.as_bytes());
    }
    shown.extend_from_slice(field)
}

// Adds a row: each field and a comma, and `;` at the end.
fn show_row(alloc: Global, row: RowView<'_>, shown: &mut Vec<u8>) -> Result<(), AllocError> {
    for place in 0..row.count() {
        show_field(alloc, row.field(place), shown)?;
        shown.extend_from_slice(b",")?;
    }
    shown.extend_from_slice(b";")
}

// Adds the next row of a run.
fn show_next(
    alloc: Global,
    reader: &mut RunReader,
    run: &Run,
    disks: &mut Vec<Owner>,
    shown: &mut Vec<u8>,
) -> Result<(), Fail>
    requires { run_of reader.old ≡ run.now }
    ensures { OnOk result (run_of reader.new ≡ run.now) }
{
    if run.disk >= Shelf::count(disks) {
        return Err("no such disk".into());
    }
    match reader.advance(disks) {
        Ok(true) => Ok(show_row(alloc, reader.row(), shown)?),
        Ok(false) => Err("a row is missing".into()),
        Err(fault) => Err(fault.into()),
    }
}

// Adds the rows of a run.
fn show_run(
    alloc: Global,
    form: Form,
    run: &Run,
    disks: &mut Vec<Owner>,
    shown: &mut Vec<u8>,
) -> Result<(), Fail> {
    let mut reader = RunReader::new(alloc, run, form);
    for _ in 0..run.count {
        show_next(alloc, &mut reader, run, disks, shown)?;
    }
    Ok(())
}

// How many rows were landed, and the runs in their order: each one's disk and its rows.
fn show_runs(alloc: Global, landed: &Landed, disks: &mut Vec<Owner>) -> Result<Vec<u8>, Fail> {
    let mut shown = Vec::new(alloc);
    shown.extend_from_slice(format!(in alloc; "{} rows", landed.rows)?.as_bytes())?;
    for run in &landed.parts {
        shown.extend_from_slice(format!(in alloc; " disk {}: ", run.disk)?.as_bytes())?;
        let form = landed.plan.chain().form().copy()?;
        show_run(alloc, form, run, disks, &mut shown)?;
    }
    Ok(shown)
}

// What is landed of a text, in partitions of so many rows.
fn runs_of(alloc: Global, job: &str, text: &[u8], part: u64) -> Result<Vec<u8>, Fail> {
    let mut disks = disks_of(alloc, NEVER, NEVER)?;
    let mut source = source_of(alloc, text, NEVER)?;
    let landed = land_text(alloc, &mut source, job, 1000, part, &mut disks)??;
    show_runs(alloc, &landed, &mut disks)
}

#[test]
fn each_partition_is_a_run_on_the_disk_of_its_worker(rt: HostRuntime) -> Result<(), Fail> {
    let text = b"b,a\nx,1\ny,22\nz,333\nu,-4\nv,05\n";
    let runs = runs_of(rt.alloc(), "order number a: a", text, 2)?;
    let wanted = b"5 rows \
        disk 0: \0\0\0\0\0\0\0\x01,1,;\0\0\0\0\0\0\0\x02,22,; \
        disk 1: \0\0\0\0\0\0\0\x03,333,;\0\0\0\0\0\0\0\x04,-4,; \
        disk 0: \0\0\0\0\0\0\0\x05,05,;";
    assert_eq!(rt; runs.as_slice(), wanted.as_slice());
    Ok(())
}

#[test]
fn an_empty_field_of_a_value_column_is_landed(rt: HostRuntime) -> Result<(), Fail> {
    let text = b"city,price\nOslo,\nOslo,\"\"\nBergen,3\n";
    let runs = runs_of(rt.alloc(), "group city: sum price, max price", text, 2)?;
    let wanted = b"3 rows \
        disk 0: \0\0\0\0\0\0\0\x01,Oslo,,;\0\0\0\0\0\0\0\x02,Oslo,,; \
        disk 1: \0\0\0\0\0\0\0\x03,Bergen,3,;";
    assert_eq!(rt; runs.as_slice(), wanted.as_slice());
    Ok(())
}

#[test]
fn no_row_is_no_partition(rt: HostRuntime) -> Result<(), Fail> {
    let runs = runs_of(rt.alloc(), "order number a: a", b"b,a\n", 2)?;
    assert_eq!(rt; runs.as_slice(), b"0 rows".as_slice());
    Ok(())
}

// Where the runs are: each one's disk and file.
fn files_of(alloc: Global, landed: &Landed) -> Result<String, AllocError> {
    let mut files = String::new(alloc);
    for run in &landed.parts {
        files.push_str(format!(in alloc; "{}.{} ", run.disk, run.file)?.as_str())?;
    }
    Ok(files)
}

#[test]
fn each_landing_makes_new_files(rt: HostRuntime) -> Result<(), Fail> {
    let alloc = rt.alloc();
    let mut disks = disks_of(alloc, NEVER, NEVER)?;
    // A disk in memory numbers its files from 0, in the order in which they are made.
    for wanted in ["0.0 1.0 0.1 ", "0.2 1.1 0.3 ", "0.4 1.2 0.5 "] {
        let mut source = source_of(alloc, b"a\n1\n2\n3\n4\n5\n", NEVER)?;
        let landed = land_text(alloc, &mut source, "order a: a", 1000, 2, &mut disks)??;
        assert_eq!(rt; files_of(alloc, &landed)?.as_str(), wanted);
    }
    Ok(())
}

#[test]
fn a_partition_has_as_many_pages_as_it_fills(rt: HostRuntime) -> Result<(), Fail> {
    let text = long_text(rt.alloc(), 6, 60_000)?;
    let runs = runs_of(rt.alloc(), "order a: a", &text, 1000)?;
    let wanted = b"6 rows disk 0: \
        \0\0\0\0\0\0\0\x01,x*60000,;\0\0\0\0\0\0\0\x02,x*60000,;\0\0\0\0\0\0\0\x03,x*60000,;\
        \0\0\0\0\0\0\0\x04,x*60000,;\0\0\0\0\0\0\0\x05,x*60000,;\0\0\0\0\0\0\0\x06,x*60000,;";
    assert_eq!(rt; runs.as_slice(), wanted.as_slice());
    Ok(())
}

#[test]
fn each_failed_call_of_a_disk_names_its_number(rt: HostRuntime) -> Result<(), Fail> {
    // Disk 0 makes and writes the first and the third run, and disk 1 the second. There are no calls
    // behind these.
    for (first, second, wanted) in [
        (0, NEVER, "a call of disk 0 failed"),
        (1, NEVER, "a call of disk 0 failed"),
        (NEVER, 0, "a call of disk 1 failed"),
        (NEVER, 1, "a call of disk 1 failed"),
        (2, NEVER, "a call of disk 0 failed"),
        (3, NEVER, "a call of disk 0 failed"),
        (4, 2, "5 rows"),
    ] {
        let answer = told_by(rt.alloc(), b"a\n1\n2\n3\n4\n5\n", NEVER, first, second)?;
        assert_eq!(rt; answer.as_str(), wanted, "calls {first} and {second}");
    }
    Ok(())
}

#[test]
fn a_failed_read_is_no_end(rt: HostRuntime) -> Result<(), Fail> {
    for call in 0..2u64 {
        let answer = told_by(rt.alloc(), b"a\n1\n2\n", call, NEVER, NEVER)?;
        assert_eq!(rt; answer.as_str(), "input failed", "call {call}");
    }
    Ok(())
}
