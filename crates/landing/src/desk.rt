//! What is kept from row to row.

ghost use Rattle.std.specs.Prelude.{◌≡◌, IfErr, None, OnOk, Some, false, if◌then◌else◌};
ghost use Rattle.std.specs.Io.KnownBytes.{IsAtEnd};
ghost use Rattle.fault_count.specs.Faults.{Rose};
ghost use Rattle.byte_io.specs.Records.{GivesRow, IsReading, rows_left, source_under};
ghost use Rattle.landing.specs.Explaining.{Explains, Never};

use crate::fault::LandFault;
use byte_io::{Origin, RecordFault, Records, Tap};
use csv::ByteRecord;
use row_page::RowBuf;
use std::alloc::Global;

/// The record in hand, unless the records have ended, and the landed row that is made of it. Their memory is
/// used again from row to row.
#[derive(Drop)]
pub(crate) struct Desk {
    pub(crate) more: bool,
    pub(crate) row: ByteRecord,
    pub(crate) landed: RowBuf,
}

impl Desk {
    /// A desk with nothing in hand.
    pub(crate) fn new(alloc: Global) -> Desk {
        Desk {
            more: false,
            row: ByteRecord::new(alloc),
            landed: RowBuf::new(alloc),
        }
    }

    /// Takes the next record in hand, unless there is none.
    pub(crate) fn take<T: Tap, O: Origin>(
        &mut self,
        records: &mut Records<T, O>,
    ) -> Result<(), LandFault>
        requires reading { IsReading records.old }
        ensures rows { OnOk result (GivesRow (rows_left records.old) (rows_left records.new)
            (if self.new.more then Some self.new.row else None)) }
        ensures reading { OnOk result (IsReading records.new) }
        ensures end { OnOk result (self.new.more ≡ false → IsAtEnd (T.left (source_under records.new))) }
        ensures err { IfErr result
            (Explains Never (Rose O.faults (T.faults (source_under records.new))) Never) }
    {
        match records.next_into(&mut self.row) {
            Ok(more) => {
                self.more = more;
                Ok(())
            }
            Err(RecordFault::ReadFault) => Err(LandFault::ReadFault),
            Err(RecordFault::NoMemory) => Err(LandFault::NoMemory),
        }
    }
}
