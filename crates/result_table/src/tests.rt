// Tables printed of runs whose entries were made by hand, against texts that were written by hand.
ghost use Rattle.std.specs.Prelude.{◌≡◌, IfOk};
ghost use Rattle.job_plan.specs.Entries.{kind_of};

use crate::PrintFault;
use crate::entry_reader::EntryReader;
use crate::run_table::{heading_text, print_entries};
use aggregate::{Agg, AggList, Kind, put_field, put_partial};
use byte_io::MemorySink;
use item_lists::Listed;
use job_text::{KeyItem, Part, Shape};
use row_page::{Page, RowBuf};
use run_file::{Damage, Run, RunWriter};
use spill_disk::{Disk, MemoryDisk, One, VeilDisk};
use std::alloc::Global;
use std::test::Fail;

// A shape, and the kind of its entries.
#[derive(Drop)]
struct Query {
    shape: Shape,
    kind: Kind,
}

// Groups of two columns, with all four aggregates.
fn groups(alloc: Global) -> Result<Query, Fail>
    ensures { IfOk result (λ query. query.kind ≡ kind_of query.shape) }
{
    let mut columns = Vec::new(alloc);
    columns.push(0u32)?;
    columns.push(1u32)?;
    let mut parts = Vec::new(alloc);
    parts.push(part(Agg::Count, None))?;
    parts.push(part(Agg::Sum, Some(2)))?;
    parts.push(part(Agg::Min, Some(2)))?;
    parts.push(part(Agg::Max, Some(2)))?;
    let aggs = AggList::of(alloc, &[Agg::Count, Agg::Sum, Agg::Min, Agg::Max])?;
    Ok(Query {
        shape: Shape::Group {
            columns: Listed::of(columns),
            parts: Listed::of(parts),
        },
        kind: Kind::Group(aggs),
    })
}

// An aggregate of a column.
fn part(agg: Agg, column: Option<u32>) -> Part
    ensures { result.agg ≡ agg }
{
    Part { agg, column }
}

// Rows of three columns in the order of a number.
fn orders(alloc: Global) -> Result<Query, Fail>
    ensures { IfOk result (λ query. query.kind ≡ kind_of query.shape) }
{
    let mut keys = Vec::new(alloc);
    keys.push(KeyItem {
        column: 0,
        number: true,
        down: false,
    })?;
    let mut columns = Vec::new(alloc);
    columns.push(0u32)?;
    columns.push(1u32)?;
    columns.push(2u32)?;
    Ok(Query {
        shape: Shape::Order {
            keys: Listed::of(keys),
            columns: Listed::of(columns),
        },
        kind: Kind::Order,
    })
}

// Adds an entry to a page.
fn push_entry(alloc: Global, page: &mut Page, key: &[u8], value: &[u8]) -> Result<(), Fail> {
    if key.len() > 1000 || value.len() > 1000 {
        return Err("the entry is long".into());
    }
    let mut row = RowBuf::new(alloc);
    row.add(key)?;
    row.add(value)?;
    page.push(row.view())?;
    Ok(())
}

// A group's key, which spells these fields, each behind a `|`.
fn key_of(alloc: Global, fields: &str) -> Result<Vec<u8>, Fail> {
    let mut key = Vec::new(alloc);
    if let Some((_, fields)) = fields.split_once('|') {
        for field in fields.split('|') {
            put_field(&mut key, field.as_bytes(), false)?;
        }
    }
    Ok(key)
}

// A number, or none where there is a `-`.
fn partial_of(number: &str) -> Result<Option<i128>, Fail> {
    if number == "-" {
        return Ok(None);
    }
    Ok(Some(number.parse()?))
}

// A group's value, of these numbers.
fn value_of(alloc: Global, numbers: &str) -> Result<Vec<u8>, Fail> {
    let mut value = Vec::new(alloc);
    for number in numbers.split(' ') {
        put_partial(&mut value, partial_of(number)?)?;
    }
    Ok(value)
}

// A page of groups as `|FIELD|FIELD=COUNT SUM MIN MAX`, with a `/` between them.
pub(crate) fn page_of_groups(alloc: Global, groups: &str) -> Result<Page, Fail> {
    let mut page = Page::new(alloc, 1_000_000);
    for group in groups.split('/') {
        let (fields, numbers) = group.split_once('=').ok_or("a group without numbers")?;
        let key = key_of(alloc, fields)?;
        push_entry(alloc, &mut page, &key, &value_of(alloc, numbers)?)?;
    }
    Ok(page)
}

// A row of these fields, each behind a `|`.
fn row_of(alloc: Global, fields: &str) -> Result<RowBuf, Fail> {
    let mut row = RowBuf::new(alloc);
    let (_, fields) = fields.split_once('|').ok_or("a row without fields")?;
    for field in fields.split('|') {
        if field.len() > 100 || row.view().bytes().len() > 1000 {
            return Err("the row is long".into());
        }
        row.add(field.as_bytes())?;
    }
    Ok(row)
}

// A page of ordered rows, with a `/` between them, whose keys are 1, 2 and so on.
fn page_of_orders(alloc: Global, rows: &str) -> Result<Page, Fail> {
    let mut page = Page::new(alloc, 1_000_000);
    let mut key = 1u8;
    for row in rows.split('/') {
        let row = row_of(alloc, row)?;
        push_entry(alloc, &mut page, &[key], row.view().bytes())?;
        key = key.wrapping_add(1);
    }
    Ok(page)
}

// Writes a page as a run.
pub(crate) fn put_run(disk: &mut MemoryDisk, page: &Page) -> Result<Run, Fail>
    ensures { IfOk result (λ run. run.disk ≡ 0) }
{
    let mut writer = RunWriter::start(disk, 0)?;
    writer.write(disk, page)?;
    Ok(writer.finish())
}

// The text of the heading `k,n`.
fn heading_of(alloc: Global) -> Result<Vec<u8>, Fail> {
    let mut names = RowBuf::new(alloc);
    names.add(b"k")?;
    names.add(b"n")?;
    Ok(heading_text(alloc, &names.view())?)
}

// Prints a run's entries under the heading `k,n`.
fn print<D: Disk>(
    alloc: Global,
    disk: &mut D,
    run: &Run,
    query: &Query,
    output: &mut MemorySink,
) -> Result<Result<(), PrintFault>, Fail>
    requires run { run.now.disk ≡ 0 }
    requires kind { query.now.kind ≡ kind_of query.now.shape }
{
    let text = heading_of(alloc)?;
    let mut field = Vec::new(alloc);
    let mut reader = EntryReader::new(alloc, run, &query.kind)?;
    let mut one = One { disk };
    Ok(print_entries(
        &mut one,
        &mut reader,
        &query.shape,
        &query.kind,
        &mut field,
        text,
        output,
    ))
}

// How a page that is written as a run is printed, on a disk and to a sink that fail at these calls.
fn print_page(
    alloc: Global,
    page: &Page,
    query: &Query,
    disk_fails: &[u64],
    output: &mut MemorySink,
) -> Result<Result<(), PrintFault>, Fail>
    requires { query.now.kind ≡ kind_of query.now.shape }
{
    let mut disk = MemoryDisk::new(alloc, disk_fails.to_vec(alloc)?);
    let run = put_run(&mut disk, page)?;
    print(alloc, &mut disk, &run, query, output)
}

// What is printed of a page, which all goes well.
fn printed(alloc: Global, page: &Page, query: &Query) -> Result<MemorySink, Fail>
    requires { query.now.kind ≡ kind_of query.now.shape }
{
    let mut output = MemorySink::new(alloc, Vec::new(alloc));
    print_page(alloc, page, query, &[], &mut output)??;
    Ok(output)
}

// What is printed of these groups.
fn printed_groups(alloc: Global, groups_text: &str) -> Result<MemorySink, Fail> {
    printed(alloc, &page_of_groups(alloc, groups_text)?, &groups(alloc)?)
}

#[test]
fn a_group_is_told_by_its_fields_and_numbers(rt: HostRuntime) -> Result<(), Fail> {
    let told =
        "||a\0=2 -277 -9223372036854775808 9223372036854775807/|a,b|Oslo=1 5 5 5/|c|=3 - - -";
    let output = printed_groups(rt.alloc(), told)?;
    let wanted =
        b"k,n\n,a\0,2,-277,-9223372036854775808,9223372036854775807\n\"a,b\",Oslo,1,5,5,5\nc,,3,,,\n";
    assert_eq!(rt; output.bytes(), wanted.as_slice());
    Ok(())
}

#[test]
fn an_ordered_row_is_told_by_its_columns(rt: HostRuntime) -> Result<(), Fail> {
    let page = page_of_orders(rt.alloc(), "|-3||say \"hi\"/|17|a| b")?;
    let output = printed(rt.alloc(), &page, &orders(rt.alloc())?)?;
    let wanted = b"k,n\n-3,,\"say \"\"hi\"\"\"\n17,a, b\n";
    assert_eq!(rt; output.bytes(), wanted.as_slice());
    Ok(())
}

// Whether the second of two entries is damaged.
fn is_damaged(alloc: Global, page: &Page, query: &Query) -> Result<bool, Fail>
    requires { query.now.kind ≡ kind_of query.now.shape }
{
    let mut output = MemorySink::new(alloc, Vec::new(alloc));
    let damaged = PrintFault::Damaged(Damage {
        disk: 0,
        file: 0,
        kept: 2,
        found: 1,
    });
    match print_page(alloc, page, query, &[], &mut output)? {
        Err(PrintFault::NoMemory) => Err(PrintFault::NoMemory.into()),
        told => Ok(told == Err(damaged)),
    }
}

// Keys of one field, of three and of none, where there are two; sums past both ends of 64 bits, also beside missing
// numbers; a missing count.
const DAMAGED: &str = "|a|a=1 1 1 1/|b=1 1 1 1;|a|a=1 1 1 1/|b|c|d=1 1 1 1;|a|a=1 1 1 1/=1 1 1 1;\
    |a|a=1 1 1 1/|b|b=1 9223372036854775808 1 1;|a|a=1 1 1 1/|b|b=1 -9223372036854775809 1 1;\
    |a|a=1 1 1 1/|b|b=1 9223372036854775808 - -;|a|a=1 1 1 1/|b|b=- 1 1 1";

#[test]
fn an_entry_that_cannot_be_told_is_damaged(rt: HostRuntime) -> Result<(), Fail> {
    for told in DAMAGED.split(';') {
        let page = page_of_groups(rt.alloc(), told)?;
        let damaged = is_damaged(rt.alloc(), &page, &groups(rt.alloc())?)?;
        assert!(rt; damaged, "{told}");
    }
    let page = page_of_orders(rt.alloc(), "|1|a|b/|")?;
    let damaged = is_damaged(rt.alloc(), &page, &orders(rt.alloc())?)?;
    assert!(rt; damaged, "a row of one column");
    Ok(())
}

// How two groups are printed on a disk that doesn't tell, where this byte of the length of the second is set to 255.
fn print_veiled(alloc: Global, byte: usize) -> Result<Result<(), PrintFault>, Fail> {
    let page = page_of_groups(alloc, "|a|a=1 1 1 1/|b|b=1 1 1 1")?;
    let mut bytes = page.bytes().to_vec(alloc)?;
    let second = bytes.len() / 2;
    if let Some(length) = bytes.get_mut(second.wrapping_add(byte)) {
        *length = 255;
    }
    let mut disk = VeilDisk::new(alloc, Vec::new(alloc), Vec::new(alloc));
    let file = disk.create()?;
    disk.append(file, &bytes)?;
    let run = Run {
        disk: 0,
        file,
        bytes: bytes.len() as u64,
        count: 2,
        greatest: 1000,
    };
    let mut output = MemorySink::new(alloc, Vec::new(alloc));
    print(alloc, &mut disk, &run, &groups(alloc)?, &mut output)
}

#[test]
fn a_damaged_length_is_damage_behind_the_entries_before_it(rt: HostRuntime) -> Result<(), Fail> {
    let damaged = PrintFault::Damaged(Damage {
        disk: 0,
        file: 0,
        kept: 2,
        found: 1,
    });
    for byte in 0..4 {
        let answer = print_veiled(rt.alloc(), byte)?;
        assert_eq!(rt; answer, Err(damaged), "byte {byte}");
    }
    Ok(())
}

// A page of 3,000 groups, which fill three blocks.
fn many_groups(alloc: Global) -> Result<Page, Fail> {
    let mut page = Page::new(alloc, 1_000_000);
    for i in 10_000..13_000i64 {
        let fields = format!(in alloc; "|the first of two fields of the group with number {i}|b")?;
        let numbers = format!(in alloc; "1 {i} {i} {i}")?;
        let key = key_of(alloc, &fields)?;
        push_entry(alloc, &mut page, &key, &value_of(alloc, &numbers)?)?;
    }
    Ok(page)
}

// Their table.
fn many_groups_text(alloc: Global) -> Result<String, Fail> {
    let mut text = String::from_str(alloc, "k,n\n")?;
    for i in 10_000..13_000i64 {
        let row = format!(in alloc;
            "the first of two fields of the group with number {i},b,1,{i},{i},{i}\n"
        )?;
        text.push_str(&row)?;
    }
    Ok(text)
}

// How a page of groups is printed where this call of the sink fails, and what the sink then has.
fn print_failing(
    alloc: Global,
    page: &Page,
    failing: u64,
) -> Result<(Result<(), PrintFault>, MemorySink), Fail> {
    let mut output = MemorySink::new(alloc, [failing].to_vec(alloc)?);
    let answer = print_page(alloc, page, &groups(alloc)?, &[], &mut output)?;
    Ok((answer, output))
}

// Each write of the sink fails in turn, until a table makes fewer.
#[test]
fn a_failing_sink_has_taken_a_front_of_the_printed_run(rt: HostRuntime) -> Result<(), Fail> {
    let page = many_groups(rt.alloc())?;
    let wanted = many_groups_text(rt.alloc())?;
    for failing in 0..4u64 {
        let (answer, output) = print_failing(rt.alloc(), &page, failing)?;
        assert_eq!(rt;
            answer,
            Err(PrintFault::WriteFault),
            "a table of four writes, write {failing}"
        );
        assert!(rt; output.bytes() != wanted.as_bytes(), "write {failing}");
        assert!(rt; wanted.as_bytes().starts_with(output.bytes()), "a front");
        assert_eq!(rt;
            (output.bytes().len() / 65536) as u64,
            failing,
            "a block each"
        );
    }
    let (answer, output) = print_failing(rt.alloc(), &page, 4)?;
    assert_eq!(rt; answer, Ok(()), "a table of four writes");
    assert!(rt; output.bytes() == wanted.as_bytes(), "the table is whole");
    Ok(())
}

// How an ordered row is printed where this call of the disk fails.
fn print_unread(alloc: Global, failing: u64) -> Result<Result<(), PrintFault>, Fail> {
    let page = page_of_orders(alloc, "|1|a|b")?;
    let mut output = MemorySink::new(alloc, Vec::new(alloc));
    print_page(alloc, &page, &orders(alloc)?, &[failing], &mut output)
}

// Two calls write the run; the third reads it.
#[test]
fn a_failing_read_is_a_fault_of_its_disk(rt: HostRuntime) -> Result<(), Fail> {
    assert_eq!(rt;
        print_unread(rt.alloc(), 2)?,
        Err(PrintFault::DiskFault { disk: 0 })
    );
    assert_eq!(rt; print_unread(rt.alloc(), 3)?, Ok(()));
    Ok(())
}
