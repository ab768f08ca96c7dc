// Which rows of a page a filter puts into another one.
use crate::tests::checks::reads;
use crate::tests::filters::{filter_of, row_of};
use crate::{Filter, covers, select};
use row_page::{Page, PageFault, RowView};
use std::alloc::Global;
use std::process::Abort;
use std::test::Fail;

// The numbers of a page's rows, a filter, the room of the page that they are put into, and what it then has.
// Each row has 26 bytes with its length.
const SELECTED: &str = "\
1 2 3 4 5|number:>=:3|78|3 4 5 
1 2 3 4 5|number:>=:3|77|3 4 full
1 2 3 4 5|number:!=:3|60|1 2 full
5 1 4|number:!=:1|52|5 4 
5 1 4|all|52|5 1 full
|all|0|
7|number:=:7|26|7 
7|number:=:7|25|full
7|number:=:8|0|
1 2 3|none|0|";

// Puts a row with this number behind those of a page.
fn push(alloc: Global, page: &mut Page, number: &str) -> Result<(), Fail> {
    let row = row_of(alloc, b"a", number.as_bytes())?;
    Ok(page.push(row.view())?)
}

// A page of rows with these numbers.
fn page_of(alloc: Global, numbers: &str) -> Result<Page, Fail> {
    let mut page = Page::new(alloc, 1_000_000);
    for number in numbers.split_whitespace() {
        push(alloc, &mut page, number)?;
    }
    Ok(page)
}

// A row's number, and a space behind it.
fn put_number(numbers: &mut String, row: RowView) -> Result<(), Fail> {
    if row.count() != 3 {
        return Err("no row of two columns".into());
    }
    numbers.push_str(str::from_utf8(row.field(2))?)?;
    Ok(numbers.push(' ')?)
}

// The numbers of a page's rows, each with a space behind it.
fn numbers_of(alloc: Global, page: &Page) -> Result<String, Fail> {
    let mut numbers = String::new(alloc);
    for i in 0..page.rows() {
        put_number(&mut numbers, page.row(i))?;
    }
    Ok(numbers)
}

// Puts the rows that a filter keeps, where each row has its columns.
fn put(filter: &Filter, from: &Page, into: &mut Page) -> Result<(), PageFault> {
    for i in 0..from.rows() {
        if !covers(filter, from.row(i).count()) {
            return Err(PageFault::NoMemory);
        }
    }
    select(filter, from, into)
}

// What the rows that a filter keeps leave in a page.
fn put_all(alloc: Global, filter: &Filter, from: &Page, into: &mut Page) -> Result<String, Fail> {
    let end = match put(filter, from, into) {
        Ok(()) => "",
        Err(PageFault::Full) => "full",
        Err(PageFault::NoMemory) => "no memory",
    };
    let mut found = numbers_of(alloc, into)?;
    found.push_str(end)?;
    Ok(found)
}

// What a line's rows leave in the page that they are put into.
fn selected(alloc: Global, numbers: &str, filter: &str, room: &str) -> Result<String, Fail> {
    let from = page_of(alloc, numbers)?;
    let filter = filter_of(alloc, filter)?;
    let room: u32 = room.parse()?;
    put_all(
        alloc,
        &filter,
        &from,
        &mut Page::new(alloc, u64::from(room)),
    )
}

// The two parts of a text with a `|` between them.
fn parted(text: &str) -> Result<(&str, &str), Fail> {
    match text.split_once('|') {
        Some(parts) => Ok(parts),
        None => Err("too few parts".into()),
    }
}

fn check(rt: &impl Abort, alloc: Global, line: &str) -> Result<(), Fail> {
    let (numbers, rest) = parted(line)?;
    let (filter, rest) = parted(rest)?;
    let (room, expected) = parted(rest)?;
    reads(rt, selected(alloc, numbers, filter, room), expected, line)
}

#[test]
fn a_page_takes_the_kept_rows_that_fit(rt: HostRuntime) -> Result<(), Fail> {
    for line in SELECTED.split('\n') {
        check(&rt, rt.alloc(), line)?;
    }
    Ok(())
}

// What two rows of three leave in a page of two others.
fn kept_behind(alloc: Global) -> Result<String, Fail> {
    let from = page_of(alloc, "1 2 3")?;
    let filter = filter_of(alloc, "number:>:1")?;
    let mut into = page_of(alloc, "8 9")?;
    put_all(alloc, &filter, &from, &mut into)
}

#[test]
fn kept_rows_stand_behind_those_that_were_there(rt: HostRuntime) -> Result<(), Fail> {
    reads(&rt, kept_behind(rt.alloc()), "8 9 2 3 ", "the rows")
}
