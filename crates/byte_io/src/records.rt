ghost use Rattle.std.specs.Prelude.{◌≡◌, ◌≤◌, IfOk, IfNone, IsErrOf, None, Ok, OnErr, OnOk, Some, false, if◌then◌else◌, option_map};
ghost use Rattle.std.specs.Io.KnownBytes.{IsAtEnd};
ghost use Rattle.fault_count.specs.Faults.{Rose};
ghost use Rattle.byte_io.specs.Rows.{rows_of};
ghost use Rattle.byte_io.specs.Records.{GivesRow, IsReading, is_live, rows_left, source_under};

use crate::feed::{Feed, Origin, Tap};
use csv::{ByteRecord, Reader, ReaderBuilder};
use std::alloc::Global;
use std::marker::PhantomData;
use thiserror::Error;

/// Why there is no next record. The reading is then over: use `finish` alone.
#[derive(Clone, Copy, Debug, PartialEq, Eq, Error)]
pub enum RecordFault {
    #[error("the source failed")]
    ReadFault,
    #[error("out of memory")]
    NoMemory,
}

/// The records of a CSV text that a lent source has still to give, one by one.
///
/// Records are those that the `csv` crate reads with its defaults, with no header row of its own and
/// of any number of fields. A byte order mark at the start is no part of the text.
#[derive(Drop)]
pub struct Records<T: Tap, O: Origin> {
    reader: Reader<Feed<T, O>>,
    alloc: Global,
    done: bool,
    live: bool,
}

impl<T: Tap, O: Origin> Records<T, O> {
    /// Begins to read. Nothing is read yet.
    pub fn new(alloc: Global, source: T) -> Records<T, O>
        requires name { T.name source ≡ O.name }
        requires faults { T.faults source ≡ O.faults }
        ensures rows { rows_left result ≡ option_map rows_of (T.left source) }
        ensures reading { IsReading result }
    {
        let feed: Feed<T, O> = Feed {
            source,
            failed: false,
            ended: false,
            origin: PhantomData,
        };
        let reader = ReaderBuilder::new()
            .has_headers(false)
            .flexible(true)
            .from_reader(alloc, feed);
        Records {
            reader,
            alloc,
            done: false,
            live: true,
        }
    }

    /// Whether no `Err` came yet.
    pub fn live(&self) -> bool
        ensures { result ≡ is_live self.now }
    {
        self.live
    }

    /// The next record, as a value of its own. `next_into` is the cheaper call in a loop.
    pub fn next(&mut self) -> Result<Option<ByteRecord>, RecordFault>
        requires reading { IsReading self.old }
        ensures rows { IfOk result (GivesRow (rows_left self.old) (rows_left self.new)) }
        ensures reading { OnOk result (IsReading self.new) }
        ensures end { IfOk result (λ r. IfNone r (IsAtEnd (T.left (source_under self.new)))) }
        ensures fault { IsErrOf result RecordFault.ReadFault → Rose O.faults (T.faults (source_under self.new)) }
        ensures over { OnErr result (is_live self.new ≡ false) }
    {
        let mut row = ByteRecord::new(self.alloc);
        match self.next_into(&mut row) {
            Ok(true) => Ok(Some(row)),
            Ok(false) => Ok(None),
            Err(fault) => Err(fault),
        }
    }

    /// Reads the next record into `row`, and answers whether there was one. False comes exactly at the
    /// end of the input.
    pub fn next_into(&mut self, row: &mut ByteRecord) -> Result<bool, RecordFault>
        requires reading { IsReading self.old }
        ensures rows { IfOk result (λ found. GivesRow (rows_left self.old) (rows_left self.new) (if found then Some row.new else None)) }
        ensures reading { OnOk result (IsReading self.new) }
        ensures end { IfOk result (λ found. found ≡ false → IsAtEnd (T.left (source_under self.new))) }
        ensures fault { IsErrOf result RecordFault.ReadFault → Rose O.faults (T.faults (source_under self.new)) }
        ensures over { OnErr result (is_live self.new ≡ false) }
    {
        match self.advance(row) {
            Ok(found) => Ok(found),
            Err(fault) => {
                self.live = false;
                Err(fault)
            }
        }
    }

    // Reads the next record, and leaves it to the caller to end the reading at an `Err`.
    fn advance(&mut self, row: &mut ByteRecord) -> Result<bool, RecordFault>
        requires reading { IsReading self.old }
        ensures rows { IfOk result (λ found. GivesRow (rows_left self.old) (rows_left self.new) (if found then Some row.new else None)) }
        ensures reading { OnOk result (IsReading self.new) }
        ensures end { IfOk result (λ found. found ≡ false → IsAtEnd (T.left (source_under self.new))) }
        ensures fault { IsErrOf result RecordFault.ReadFault → Rose O.faults (T.faults (source_under self.new)) }
    {
        if self.done {
            return Ok(false);
        }
        match self.reader.read_byte_record(row) {
            Ok(true) => Ok(true),
            Ok(false) => {
                // `csv` doesn't say that the source ended: this can't happen, and no clause rules it out.
                if !self.reader.get_ref().ended {
                    return Err(RecordFault::NoMemory);
                }
                self.done = true;
                Ok(false)
            }
            Err(_) => {
                if self.reader.get_ref().failed {
                    Err(RecordFault::ReadFault)
                } else {
                    Err(RecordFault::NoMemory)
                }
            }
        }
    }

    /// The source, lent back. Its count of faults isn't lower than at the start.
    pub fn finish(self) -> T
        ensures source { result ≡ source_under self }
        ensures same { T.name result ≡ O.name }
        ensures later { O.faults ≤ T.faults result }
    {
        let Records {
            reader,
            alloc: _,
            done: _,
            live: _,
        } = self;
        let Feed {
            source,
            failed: _,
            ended: _,
            origin: _,
        } = reader.into_inner();
        source
    }
}
