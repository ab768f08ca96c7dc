// Records against texts that were written by hand.
ghost use Rattle.std.specs.Prelude.{◌≡◌, ◌<◌, Some, OnOk};
ghost use Rattle.byte_io.specs.Records.{IsReading};
ghost use Rattle.byte_io.specs.Memory.{source_faults, source_left, source_turns};

use byte_io::{Failed, MemorySource, Origin, RecordFault, Records, Source, Tap};
use csv::ByteRecord;
use std::alloc::{AllocError, Global};
use std::marker::Brand;
use std::process::Abort;
use std::test::Fail;

// A source in memory that gives at most so many bytes a read.
#[derive(Drop)]
struct Pieces {
    inner: MemorySource,
    most: usize,
    ghost some: { 0 < most },
}

impl Source for Pieces {
    ghost left = { λ s. Some (source_left s.inner) };

    ghost turns = { λ s. source_turns s.inner };

    ghost faults = { λ s. source_faults s.inner };

    fn read(&mut self, buf: &mut [u8]) -> Result<usize, Failed> {
        let room = buf.len().min(self.most);
        self.inner.read(&mut buf[..room])
    }
}

// The next record, as a value.
fn next_row<T: Tap, O: Origin>(
    records: &mut Records<T, O>,
) -> Result<Option<ByteRecord>, RecordFault>
    requires { IsReading records.old }
    ensures { OnOk result (IsReading records.new) }
{
    records.next()
}

// Whether there is a next record, which is then in `row`.
fn next_into_row<T: Tap, O: Origin>(
    records: &mut Records<T, O>,
    row: &mut ByteRecord,
) -> Result<bool, RecordFault>
    requires { IsReading records.old }
    ensures { OnOk result (IsReading records.new) }
{
    records.next_into(row)
}

// Whether there is a next record, which is then in `row`, by `next` or by `next_into`.
fn advance<T: Tap, O: Origin>(
    records: &mut Records<T, O>,
    by_value: bool,
    row: &mut ByteRecord,
) -> Result<bool, RecordFault>
    requires { IsReading records.old }
    ensures { OnOk result (IsReading records.new) }
{
    if !by_value {
        return next_into_row(records, row);
    }
    match next_row(records)? {
        Some(next) => {
            *row = next;
            Ok(true)
        }
        None => Ok(false),
    }
}

// Adds a record as text: each field as `<field>`, and `;` at the end.
fn show_row(row: &ByteRecord, shown: &mut Vec<u8>) -> Result<(), AllocError> {
    for i in 0..row.len() {
        shown.extend_from_slice(b"<")?;
        if let Some(field) = row.get(i) {
            shown.extend_from_slice(field)?;
        }
        shown.extend_from_slice(b">")?;
    }
    shown.extend_from_slice(b";")
}

// Adds the records that are left, at most a hundred, and the fault that they end with, if one does. Asks
// once more at the end.
fn show_rows<T: Tap, O: Origin>(
    alloc: Global,
    records: &mut Records<T, O>,
    by_value: bool,
    shown: &mut Vec<u8>,
) -> Result<(), AllocError>
    requires { IsReading records.old }
{
    let mut row = ByteRecord::new(alloc);
    let mut ended = false;
    for _ in 0..100u8 {
        match advance(records, by_value, &mut row) {
            Ok(true) => show_row(&row, shown)?,
            Ok(false) if ended => return Ok(()),
            Ok(false) => ended = true,
            Err(RecordFault::ReadFault) => return shown.extend_from_slice(b"read fault"),
            Err(RecordFault::NoMemory) => return shown.extend_from_slice(b"no memory"),
        }
    }
    shown.extend_from_slice(b"and more")
}

// Adds all records, their fault, and whether the reading is then over for good.
fn read_rows<T: Tap, O: Origin>(
    alloc: Global,
    source: T,
    by_value: bool,
    shown: &mut Vec<u8>,
) -> (Result<(), AllocError>, T)
    requires name { T.name source ≡ O.name }
    requires faults { T.faults source ≡ O.faults }
{
    let mut records: Records<T, O> = Records::new(alloc, source);
    let mut answer = show_rows(alloc, &mut records, by_value, shown);
    if !records.live() && answer.is_ok() {
        answer = shown.extend_from_slice(b", over");
    }
    (answer, records.finish())
}

// What reading all records of a source shows.
pub fn reading_of<S: Source>(
    alloc: Global,
    source: &mut S,
    by_value: bool,
) -> Result<Vec<u8>, AllocError> {
    let mut shown = Vec::new(alloc);
    let (answer, _lent) = read_rows::<&mut S, Brand>(alloc, source, by_value, &mut shown);
    match answer {
        Ok(()) => Ok(shown),
        Err(_) => Err(AllocError),
    }
}

// What reading a text shows that comes in pieces, where the listed calls fail.
fn shown_of(
    alloc: Global,
    text: &[u8],
    fails: &[u64],
    most: usize,
    by_value: bool,
) -> Result<Vec<u8>, AllocError> {
    let mut source = Pieces {
        inner: MemorySource::new(text.to_vec(alloc)?, fails.to_vec(alloc)?),
        most: most.max(1),
    };
    reading_of(alloc, &mut source, by_value)
}

// A text's name, the text, and what it is read as.
const TEXTS: &[u8] = b"\
    plain rows|a,b\n1,2\n|<a><b>;<1><2>;~\
    no last line end|a,b\n1,2|<a><b>;<1><2>;~\
    quotes|\"a,b\",\"c\"\n|<a,b><c>;~\
    doubled quotes|\"say \"\"hi\"\"\",x\n|<say \"hi\"><x>;~\
    a quoted line feed|\"a\nb\",c\n|<a\nb><c>;~\
    a quoted CR LF|\"a\r\nb\"\r\nc\r\n|<a\r\nb>;<c>;~\
    CR LF|a,b\r\nc,d\r\n|<a><b>;<c><d>;~\
    CR alone|a\rb\r|<a>;<b>;~\
    a mark|\xef\xbb\xbfa,b\n|<a><b>;~\
    a mark and a quote|\xef\xbb\xbf\"a\",b\n|<a><b>;~\
    a second mark|\xef\xbb\xbf\xef\xbb\xbfa\n|<\xef\xbb\xbfa>;~\
    a mark within|a\n\xef\xbb\xbfb\n|<a>;<\xef\xbb\xbfb>;~\
    a mark cut short|\xef\xbba\n|<\xef\xbba>;~\
    a mark alone|\xef\xbb\xbf|~\
    an empty input||~\
    line ends alone|\n\n\r\n\r\r\n|~\
    blank lines|\na\n\n\r\nb\n\n|<a>;<b>;~\
    a line of a blank| \n\t, \n|< >;<\t>< >;~\
    bytes that are no text|\xff\xfe,\0,\x80\n|<\xff\xfe><\0><\x80>;~\
    an unclosed quote|a,\"b\nc,d\n|<a><b\nc,d\n>;~\
    a quote at the end|a\n\"|<a>;<>;~\
    text behind a quoted field|\"a\"b\"c\",d\n|<ab\"c\"><d>;~\
    a quote within a field|a\"b\",c\n|<a\"b\"><c>;~\
    empty fields|,\n\"\"\na,\n,b|<><>;<>;<a><>;<><b>;~\
    a comma at the end|a,|<a><>;~\
    rows of any length|a,b,c\nd\ne,f\n|<a><b><c>;<d>;<e><f>;";

// Reads a text, whole and in pieces, by both calls, and compares.
fn assert_reads(
    rt: &impl Abort,
    alloc: Global,
    about: &str,
    text: &[u8],
    wanted: &[u8],
) -> Result<(), AllocError> {
    for most in [65536, 1, 2, 7] {
        for by_value in [false, true] {
            let shown = shown_of(alloc, text, &[], most, by_value)?;
            assert_eq!(rt; shown.as_slice(), wanted, "{about}, by {most}");
        }
    }
    Ok(())
}

#[test]
fn records_are_those_of_csv_however_the_bytes_come(rt: HostRuntime) -> Result<(), Fail> {
    for row in TEXTS.split(|byte| *byte == b'~') {
        let mut parts = row.split(|byte| *byte == b'|');
        let about = str::from_utf8(parts.next().ok_or("a row without a name")?)?;
        let text = parts.next().ok_or("a row without a text")?;
        let wanted = parts.next().ok_or("a row without records")?;
        assert_reads(&rt, rt.alloc(), about, text, wanted)?;
    }
    Ok(())
}

// Reads three records from a source that fails at one call, and compares how much text they gave.
fn assert_faults(
    rt: &impl Abort,
    alloc: Global,
    most: usize,
    call: usize,
    len: usize,
) -> Result<(), AllocError> {
    let mut wanted = b"<abc>;<def>;<ghi>;"[..len.min(18)].to_vec(alloc)?;
    wanted.extend_from_slice(b"read fault, over")?;
    for by_value in [false, true] {
        let shown = shown_of(alloc, b"abc\ndef\nghi\n", &[call as u64], most, by_value)?;
        assert_eq!(rt; shown, wanted, "call {call} by {most}");
    }
    Ok(())
}

// A record has six bytes of text, and stands in four of the source. `csv` takes the first three bytes
// by themselves, to look for a byte order mark. The last call of each row would find the end.
#[test]
fn a_failed_read_is_a_fault_and_never_a_quiet_end(rt: HostRuntime) -> Result<(), Fail> {
    for row in [
        "1: 0 0 0 0 6 6 6 6 12 12 12 12 18",
        "2: 0 0 0 6 6 12 12 18",
        "7: 0 0 12 18",
        "65536: 0 0 18",
    ] {
        let (most, lens) = row.split_once(": ").ok_or("a row without lengths")?;
        for (call, len) in lens.split(' ').enumerate() {
            assert_faults(&rt, rt.alloc(), most.parse()?, call, len.parse()?)?;
        }
    }
    Ok(())
}
