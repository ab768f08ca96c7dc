//! What is counted of printed tables.

ghost use Rattle.std.specs.Prelude.{◌≡◌, [], slice_index_or, IfOk, IfSome, IsErrOf, IsSome, option_map};
ghost use Rattle.csv.specs.Records.{fields_of};
ghost use Rattle.fault_count.specs.Faults.{Rose};
ghost use Rattle.byte_io.specs.Records.{IsReading, rows_left, source_under};
ghost use Rattle.byte_io.specs.Rows.{rows_of};
ghost use Rattle.trial_input.specs.Tallies.{count_in, no_tally, tallied, tally_of};

use crate::source::TextSource;
use byte_io::{Origin, RecordFault, Records, Tap};
use csv::ByteRecord;
use row_form::parse_number;
use std::alloc::{AllocError, Global};
use std::marker::Brand;

/// What is counted of tables, as far as a `u64` counts: how many there are, how many fields the records of the last
/// one have and how many rows it has below its heading, and what the counts in the rows of the first come to.
#[derive(Clone, Copy)]
pub(crate) struct Tally {
    tables: u64,
    fields: usize,
    pub(crate) rows: u64,
    pub(crate) counted: u64,
}

/// The second field of a row, and an empty one where there is none.
fn second_field(row: &ByteRecord) -> &[u8]
    ensures { result.now ≡ slice_index_or (fields_of row.now) 1 [] }
{
    match row.get(1) {
        Some(field) => field,
        None => &[],
    }
}

/// The count in the second field of a row.
fn row_count(row: &ByteRecord) -> u64
    ensures { result ≡ count_in (fields_of row.now) }
{
    parse_number(second_field(row)).unwrap_or(0).unsigned_abs()
}

impl Tally {
    fn new() -> Tally
        ensures { result ≡ no_tally }
    {
        Tally {
            tables: 0,
            fields: 0,
            rows: 0,
            counted: 0,
        }
    }

    /// Counts one more record.
    fn add(&mut self, row: &ByteRecord)
        ensures { self.new ≡ tallied self.old (fields_of row.now) }
    {
        if row.len() != self.fields {
            self.tables = self.tables.saturating_add(1);
            self.fields = row.len();
            self.rows = 0;
            return;
        }
        self.rows = self.rows.saturating_add(1);
        if self.tables == 1 {
            self.counted = self.counted.saturating_add(row_count(row));
        }
    }
}

/// Counts the records of a reading to its end.
fn tally_records<T: Tap, O: Origin>(
    alloc: Global,
    records: &mut Records<T, O>,
) -> Result<Tally, RecordFault>
    requires reading { IsReading records.old }
    requires tells { IsSome (rows_left records.old) }
    ensures tally { IfOk result (λ tally. IfSome (rows_left records.old) (λ rows. tally ≡ tally_of rows)) }
    ensures fault { IsErrOf result RecordFault.ReadFault → Rose O.faults (T.faults (source_under records.new)) }
{
    let mut tally = Tally::new();
    let mut row = ByteRecord::new(alloc);
    'records: loop {
        match records.next_into(&mut row) {
            Ok(true) => tally.add(&row),
            Ok(false) => return Ok(tally),
            Err(fault) => return Err(fault),
        }
    }
}

/// Counts the records of a lent source, and hands it back.
fn tally_source<T: Tap, O: Origin>(alloc: Global, source: T) -> (Result<Tally, RecordFault>, T)
    requires name { T.name source ≡ O.name }
    requires faults { T.faults source ≡ O.faults }
    requires tells { IsSome (T.left source) }
    ensures tally { IfOk result.0 (λ tally. IfSome (T.left source) (λ bytes. tally ≡ tally_of (rows_of bytes))) }
    ensures fault { IsErrOf result.0 RecordFault.ReadFault → Rose O.faults (T.faults result.1) }
{
    let mut records = Records::<T, O>::new(alloc, source);
    let tally = tally_records(alloc, &mut records);
    (tally, records.finish())
}

/// Counts the records of a text.
pub(crate) fn tally_text(alloc: Global, text: &[u8]) -> Result<Tally, AllocError>
    ensures { IfOk result (λ tally. tally ≡ tally_of (rows_of text.now)) }
{
    let mut source = TextSource::new(text);
    let (tally, _last) = tally_source::<&mut TextSource, Brand>(alloc, &mut source);
    match tally {
        Ok(tally) => Ok(tally),
        // The source never fails.
        Err(RecordFault::ReadFault) => unreachable!(),
        Err(RecordFault::NoMemory) => Err(AllocError),
    }
}
