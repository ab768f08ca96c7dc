// The table of a query's result, written in blocks.
ghost use Rattle.std.specs.Prelude.{◌≡◌, ◌<◌, ◌≤◌, ◌++◌, All, List, OnErr, OnOk, IfOk, IfSome, false, is_some, length, option_map, true};
ghost use Rattle.std.specs.Io.KnownBytes.{Appends};
ghost use Rattle.aggregate.specs.Totals.{Entry};
ghost use Rattle.byte_io.specs.Sinks.{AppendsPrefix};
ghost use Rattle.csv.specs.Writing.{default_writer, row_text};
ghost use Rattle.row_page.specs.Views.{fields_in};
ghost use Rattle.run_file.specs.Shelved.{LeavesFiles, faults_on, files_on};
ghost use Rattle.job_plan.specs.Entries.{kind_of};
ghost use Rattle.job_plan.specs.Plans.{heading_at, kept_at, kept_in, kind_at};
ghost use Rattle.job_plan.specs.Telling.{IsTold};
ghost use Rattle.result_table.specs.Ahead.{AreAhead, ReadsOn, IsOfKind};
ghost use Rattle.result_table.specs.Faults.{HasCauseRead, HasCauseWritten};
ghost use Rattle.result_table.specs.Results.{FindsNoDamage, HasCauseIn, HasResult, StopsAmong, TellsAnswer, count_in, table_of};
ghost use Rattle.result_table.specs.Table.{IsBetweenRows, text_in};
ghost use Rattle.result_table.specs.Told.{StopsIn, TellsEntries, WritesFront, rows_told};

use crate::entry_reader::EntryReader;
use crate::print_fault::PrintFault;
use crate::telling::{tell, tell_view};
use aggregate::Kind;
use byte_io::{Sink, SinkError, write_all_counted};
use csv::Writer;
use job_plan::Plan;
use job_text::Shape;
use row_page::RowView;
use run_file::Run;
use spill_disk::{Disk, Shelf};
use std::alloc::{AllocError, Global};

// How many bytes a block has at least, before it is written out.
const BLOCK: usize = 65536;

/// Prints the table of a query: its heading, then a row for each entry of its result, which is a run of the query's
/// entries, or none.
///
/// The bytes go out in blocks of about 64 KiB. After an `Err` a part of the table, from the front, was written. An
/// entry that can't be told as a row is damage, with the entries before it counted, also on a disk that doesn't tell.
pub fn print_table<D: Disk, H: Shelf<D>, W: Sink>(
    alloc: Global,
    shelf: &mut H,
    answer: Option<&Run>,
    plan: &Plan,
    query: u32,
    output: &mut W,
) -> Result<(), PrintFault>
    requires query { query < length (kept_in plan.now) }
    requires there { IfSome (option_map (λ run. run.now) answer) (λ run. run.disk < H.count_of shelf.old) }
    ensures ok { OnOk result ((entries : List Entry) →
        HasResult (files_on H.disk_of D.files shelf.old) (kind_at plan.now query)
        (option_map (λ run. run.now) answer.entry) entries →
        Appends (W.written output.old) (W.written output.new) (table_of plan.now query entries)) }
    ensures told { OnOk result ((entries : List Entry) →
        HasResult (files_on H.disk_of D.files shelf.old) (kind_at plan.now query)
        (option_map (λ run. run.now) answer.entry) entries →
        All (IsTold (kept_at plan.now query)) entries) }
    ensures rows { OnOk result ((told : List Entry)
        × (length told ≡ count_in (option_map (λ run. run.now) answer.entry))
        × All (IsTold (kept_at plan.now query)) told
        × Appends (W.written output.old) (W.written output.new) (table_of plan.now query told)) }
    ensures err { OnErr result ((entries : List Entry) →
        HasResult (files_on H.disk_of D.files shelf.old) (kind_at plan.now query)
        (option_map (λ run. run.now) answer.entry) entries →
        AppendsPrefix (W.written output.old) (W.written output.new) (table_of plan.now query entries)) }
    ensures front { OnErr result (WritesFront (kept_at plan.now query)
        (HasResult (files_on H.disk_of D.files shelf.old) (kind_at plan.now query)
        (option_map (λ run. run.now) answer.entry))
        0 (count_in (option_map (λ run. run.now) answer.entry))
        (row_text default_writer (heading_at plan.now query)) (W.written output.old) (W.written output.new) result) }
    ensures undamaged { (entries : List Entry) →
        HasResult (files_on H.disk_of D.files shelf.old) (kind_at plan.now query)
        (option_map (λ run. run.now) answer.entry) entries →
        All (IsTold (kept_at plan.now query)) entries → FindsNoDamage result }
    ensures stops { (entries : List Entry) →
        HasResult (files_on H.disk_of D.files shelf.old) (kind_at plan.now query)
        (option_map (λ run. run.now) answer.entry) entries →
        StopsAmong (kept_at plan.now query) entries result }
    ensures damaged { TellsAnswer (option_map (λ run. run.now) answer.entry) result }
    ensures cause { HasCauseIn (faults_on H.disk_of D.faults shelf.old) (faults_on H.disk_of D.faults shelf.new)
        (W.faults output.old) (W.faults output.new) result }
    ensures tells { is_some (W.written output.new) ≡ is_some (W.written output.old) }
    ensures later { W.faults output.old ≤ W.faults output.new }
    ensures shelf { LeavesFiles H.count_of H.named H.disk_of D.files D.faults shelf.old shelf.new }
{
    let text = heading_text(alloc, &plan.heading(query))?;
    let Some(run) = answer else {
        return write_out(output, &text);
    };
    let kind = plan.kind(query);
    let mut reader = EntryReader::new(alloc, run, kind)?;
    let mut field = Vec::new(alloc);
    print_entries(
        shelf,
        &mut reader,
        plan.kept(query),
        kind,
        &mut field,
        text,
        output,
    )
}

// The text of the first row.
pub(crate) fn heading_text(alloc: Global, view: &RowView<'_>) -> Result<Vec<u8>, AllocError>
    ensures { IfOk result (λ text. text.items ≡ row_text default_writer (fields_in view.now)) }
{
    let mut writer = Writer::from_writer(Vec::new(alloc));
    tell_view(&mut writer, view)?;
    match writer.into_inner() {
        Ok(text) => Ok(text),
        Err(_) => Err(AllocError),
    }
}

// Writes a block.
fn write_out<W: Sink>(output: &mut W, text: &[u8]) -> Result<(), PrintFault>
    ensures ok { OnOk result (Appends (W.written output.old) (W.written output.new) text.now) }
    ensures err { OnErr result (AppendsPrefix (W.written output.old) (W.written output.new) text.now) }
    ensures cause { HasCauseWritten (W.faults output.old) (W.faults output.new) result }
    ensures tells { is_some (W.written output.new) ≡ is_some (W.written output.old) }
    ensures later { W.faults output.old ≤ W.faults output.new }
{
    match write_all_counted(output, text) {
        Ok(()) => Ok(()),
        Err(SinkError::Failed) => Err(PrintFault::WriteFault),
        Err(SinkError::NoMemory) => Err(PrintFault::NoMemory),
    }
}

// Prints this text, and behind it the rows of the entries that are ahead.
pub(crate) fn print_entries<D: Disk, H: Shelf<D>, W: Sink>(
    shelf: &mut H,
    reader: &mut EntryReader,
    shape: &Shape,
    kind: &Kind,
    field: &mut Vec<u8>,
    text: Vec<u8>,
    output: &mut W,
) -> Result<(), PrintFault>
    requires there { reader.old.run.disk < H.count_of shelf.old }
    requires kind { kind.now ≡ kind_of shape.now }
    requires form { IsOfKind kind.now reader.old }
    requires given { reader.old.found ≤ reader.old.run.count }
    ensures ok { OnOk result ((told : List Entry) × TellsEntries shape.now
        (files_on H.disk_of D.files shelf.old reader.old.run.disk)
        (files_on H.disk_of D.files shelf.new reader.old.run.disk) reader.old reader.new told
        × Appends (W.written output.old) (W.written output.new) (text.items ++ rows_told shape.now told)) }
    ensures whole { OnOk result (reader.new.found ≡ reader.old.run.count) }
    ensures run { reader.new.run ≡ reader.old.run }
    ensures front { OnErr result (WritesFront shape.now
        (AreAhead (files_on H.disk_of D.files shelf.old reader.old.run.disk) reader.old)
        reader.old.found reader.old.run.count text.items (W.written output.old) (W.written output.new) result) }
    ensures stops { StopsIn shape.now (files_on H.disk_of D.files shelf.old reader.old.run.disk) reader.old result }
    ensures cause { HasCauseIn (faults_on H.disk_of D.faults shelf.old) (faults_on H.disk_of D.faults shelf.new)
        (W.faults output.old) (W.faults output.new) result }
    ensures tells { is_some (W.written output.new) ≡ is_some (W.written output.old) }
    ensures later { W.faults output.old ≤ W.faults output.new }
    ensures shelf { LeavesFiles H.count_of H.named H.disk_of D.files D.faults shelf.old shelf.new }
{
    let mut text = text;
    'blocks: loop {
        let (filled, more) = fill_block(shelf, reader, shape, kind, field, text)?;
        write_out(output, &filled)?;
        if !more {
            return Ok(());
        }
        text = filled;
        text.clear();
    }
}

// The text with the rows of some first entries behind it, and whether an entry may be left.
fn fill_block<D: Disk, H: Shelf<D>>(
    shelf: &mut H,
    reader: &mut EntryReader,
    shape: &Shape,
    kind: &Kind,
    field: &mut Vec<u8>,
    text: Vec<u8>,
) -> Result<(Vec<u8>, bool), PrintFault>
    requires there { reader.old.run.disk < H.count_of shelf.old }
    requires kind { kind.now ≡ kind_of shape.now }
    requires form { IsOfKind kind.now reader.old }
    ensures tells { IfOk result (λ p. (told : List Entry) × TellsEntries shape.now
        (files_on H.disk_of D.files shelf.old reader.old.run.disk)
        (files_on H.disk_of D.files shelf.new reader.old.run.disk) reader.old reader.new told
        × (p.0.items ≡ text.items ++ rows_told shape.now told)) }
    ensures whole { IfOk result (λ p. p.1 ≡ false → reader.new.found ≡ reader.old.run.count) }
    ensures more { IfOk result (λ p. p.1 ≡ true → ReadsOn reader.old reader.new) }
    ensures stops { StopsIn shape.now (files_on H.disk_of D.files shelf.old reader.old.run.disk) reader.old result }
    ensures run { reader.new.run ≡ reader.old.run }
    ensures form { IsOfKind kind.now reader.new }
    ensures cause { HasCauseRead
        (faults_on H.disk_of D.faults shelf.old) (faults_on H.disk_of D.faults shelf.new) result }
    ensures shelf { LeavesFiles H.count_of H.named H.disk_of D.files D.faults shelf.old shelf.new }
{
    let mut writer = Writer::from_writer(text);
    let more = put_rows(shelf, reader, shape, kind, field, &mut writer)?;
    match writer.into_inner() {
        Ok(filled) => Ok((filled, more)),
        Err(_) => Err(PrintFault::NoMemory),
    }
}

// Writes rows until a block is full or no entry is left, and says whether one may be left.
fn put_rows<D: Disk, H: Shelf<D>>(
    shelf: &mut H,
    reader: &mut EntryReader,
    shape: &Shape,
    kind: &Kind,
    field: &mut Vec<u8>,
    writer: &mut Writer<Vec<u8>>,
) -> Result<bool, PrintFault>
    requires between { IsBetweenRows writer.old }
    requires there { reader.old.run.disk < H.count_of shelf.old }
    requires kind { kind.now ≡ kind_of shape.now }
    requires form { IsOfKind kind.now reader.old }
    ensures tells { OnOk result ((told : List Entry) × TellsEntries shape.now
        (files_on H.disk_of D.files shelf.old reader.old.run.disk)
        (files_on H.disk_of D.files shelf.new reader.old.run.disk) reader.old reader.new told
        × (text_in writer.new ≡ text_in writer.old ++ rows_told shape.now told)) }
    ensures whole { IfOk result (λ more. more ≡ false → reader.new.found ≡ reader.old.run.count) }
    ensures more { IfOk result (λ more. more ≡ true → ReadsOn reader.old reader.new) }
    ensures stops { StopsIn shape.now (files_on H.disk_of D.files shelf.old reader.old.run.disk) reader.old result }
    ensures run { reader.new.run ≡ reader.old.run }
    ensures form { IsOfKind kind.now reader.new }
    ensures cause { HasCauseRead
        (faults_on H.disk_of D.faults shelf.old) (faults_on H.disk_of D.faults shelf.new) result }
    ensures shelf { LeavesFiles H.count_of H.named H.disk_of D.files D.faults shelf.old shelf.new }
{
    'entries: while reader.go_on(shelf)? {
        if !tell(writer, shape, kind, reader.key(), reader.value(), field)? {
            return Err(PrintFault::from(reader.damage()));
        }
        if writer.get_ref().len() >= BLOCK {
            return Ok(true);
        }
    }
    Ok(false)
}
