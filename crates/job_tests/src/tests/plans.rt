// Plans and entries against examples that were worked by hand.
use crate::tests::jobs::job_of;
use csv::ByteRecord;
use job_plan::{Plan, PlanFault, plan};
use row_page::{RowBuf, RowView};
use std::alloc::{AllocError, Global};
use std::process::Abort;
use std::test::Fail;

// A header with these columns, which stand with commas between them.
fn header_of(alloc: Global, columns: &str) -> Result<ByteRecord, AllocError> {
    let mut header = ByteRecord::new(alloc);
    if columns.is_empty() {
        return Ok(header);
    }
    for column in columns.split(',') {
        header.push_field(column.as_bytes())?;
    }
    Ok(header)
}

/// The plan of a job over a header with these columns.
pub fn plan_over(alloc: Global, job: &str, columns: &str) -> Result<Result<Plan, PlanFault>, Fail> {
    let job = job_of(alloc, job)?;
    let header = header_of(alloc, columns)?;
    if header.len() > 1024 {
        return Err("a wide header".into());
    }
    Ok(plan(alloc, &job, &header))
}

// A plan has one query with this heading.
fn has_heading(rt: &impl Abort, plan: &Plan, heading: &[u8]) {
    assert_eq!(rt; plan.passes(), 1);
    assert_eq!(rt; plan.query_count(), 1);
    assert_eq!(rt; plan.heading(0).bytes(), heading);
}

/// A landed row of two columns.
pub fn row_of(alloc: Global, number: u64, first: &[u8], second: &[u8]) -> Result<RowBuf, Fail> {
    if first.len() > 1024 || second.len() > 1024 {
        return Err("a long field".into());
    }
    let mut row = RowBuf::new(alloc);
    row.add(&number.to_be_bytes())?;
    row.add(first)?;
    row.add(second)?;
    Ok(row)
}

// Puts the key and the value that a plan's one query makes of a row.
fn put_entry(
    plan: &Plan,
    row: RowView<'_>,
    key: &mut Vec<u8>,
    value: &mut Vec<u8>,
) -> Result<(), Fail> {
    if plan.query_count() != 1 || !plan.chain().form().accepts(row.again(), u64::MAX) {
        return Err("another number of queries, or a row of another form".into());
    }
    Ok(plan.entry(0, row, key, value)?)
}

// The same of a landed row with this number and these two fields.
fn put_entry_of(
    alloc: Global,
    plan: &Plan,
    number: u64,
    fields: [&[u8]; 2],
    key: &mut Vec<u8>,
    value: &mut Vec<u8>,
) -> Result<(), Fail> {
    let [first, second] = fields;
    let row = row_of(alloc, number, first, second)?;
    put_entry(plan, row.view(), key, value)
}

// The plan's query makes this key and this value of such a row, whatever stood in the vectors before.
fn makes(
    rt: &impl Abort,
    alloc: Global,
    plan: &Plan,
    number: u64,
    fields: [&[u8]; 2],
    wanted: [&[u8]; 2],
) -> Result<(), Fail> {
    let mut key = Vec::from_slice(alloc, b"old")?;
    let mut value = Vec::from_slice(alloc, b"old")?;
    put_entry_of(alloc, plan, number, fields, &mut key, &mut value)?;
    assert_eq!(rt; [key.as_slice(), value.as_slice()], wanted);
    Ok(())
}

const COUNT_AND_SUM: &str = "group city: count, sum price";

#[test]
fn a_group_has_its_fields_for_a_key_and_its_numbers_for_a_value(
    rt: HostRuntime,
) -> Result<(), Fail> {
    let alloc = rt.alloc();
    let plan = plan_over(alloc, COUNT_AND_SUM, "city,price")??;
    assert_eq!(rt; plan.places(), [0, 1].as_slice());
    let heading = b"\0\0\0\x04city\0\0\0\x05count\0\0\0\x09sum_price";
    has_heading(&rt, &plan, heading);
    let oslo = b"\x4f\x73\x6c\x6f\0\0";
    let numbers = b"\x01\0\0\0\0\0\0\0\0\0\0\0\0\0\0\0\x01\
        \x01\0\0\0\0\0\0\0\0\0\0\0\0\0\0\0\x03";
    makes(&rt, alloc, &plan, 1, [b"Oslo", b"3"], [oslo, numbers])?;
    let missing = b"\x01\0\0\0\0\0\0\0\0\0\0\0\0\0\0\0\x01\
        \0\0\0\0\0\0\0\0\0\0\0\0\0\0\0\0\0";
    makes(&rt, alloc, &plan, 2, [b"Oslo", b""], [oslo, missing])
}

#[test]
fn an_order_has_its_number_turned_round_and_the_row_for_a_key(rt: HostRuntime) -> Result<(), Fail> {
    let alloc = rt.alloc();
    let job = "order number amount down: order_id, amount";
    let plan = plan_over(alloc, job, "order_id,region,amount")??;
    assert_eq!(rt; plan.places(), [0, 2].as_slice());
    let heading = b"\0\0\0\x08order_id\0\0\0\x06amount";
    has_heading(&rt, &plan, heading);
    let turned = b"\x7f\xff\xff\xff\xff\xff\xff\xb4\0\0\0\0\0\0\0\x07";
    makes(
        &rt,
        alloc,
        &plan,
        7,
        [b"a9", b"75"],
        [turned, b"\0\0\0\x02a9\0\0\0\x0275"],
    )
}

#[test]
fn a_column_that_stands_twice_is_the_first(rt: HostRuntime) -> Result<(), Fail> {
    let alloc = rt.alloc();
    let plan = plan_over(alloc, COUNT_AND_SUM, "price,city,city,price")??;
    assert_eq!(rt; plan.places(), [0, 1].as_slice());
    let numbers = b"\x01\0\0\0\0\0\0\0\0\0\0\0\0\0\0\0\x01\
        \x01\xff\xff\xff\xff\xff\xff\xff\xff\xff\xff\xff\xff\xff\xff\xff\xff";
    makes(
        &rt,
        alloc,
        &plan,
        1,
        [b"-1", b"B\0"],
        [b"B\0\x01\0\0", numbers],
    )
}

// Why there is no plan.
fn told(alloc: Global, answer: Result<Plan, PlanFault>) -> Result<String, AllocError> {
    match answer {
        Ok(_) => String::from_str(alloc, "there is a plan"),
        Err(fault) => format!(in alloc; "{fault}"),
    }
}

// Why there is no plan of a job over a header with these columns.
fn told_of(alloc: Global, job: &str, columns: &str) -> Result<String, Fail> {
    let answer = plan_over(alloc, job, columns)?;
    Ok(told(alloc, answer)?)
}

// A header's columns, and the first one that is missing.
const MISSING: &str = "\
    : no column town\n\
    price: no column town\n\
    town: no column price\n\
    Town,price: no column town\n\
    city,town,prices: no column price";

#[test]
fn the_first_column_that_is_missing_is_told(rt: HostRuntime) -> Result<(), Fail> {
    for row in MISSING.lines() {
        let (columns, wanted) = row.split_once(": ").ok_or("a row without a column")?;
        let told = told_of(rt.alloc(), "group town: count, sum price", columns)?;
        assert_eq!(rt; told.as_str(), wanted, "of the columns {columns}");
    }
    let fault = PlanFault::NoMemory;
    assert_eq!(rt;
        format!(in rt.alloc(); "{fault}")?.as_str(),
        "out of memory"
    );
    Ok(())
}

#[test]
fn the_final_task_stands_behind_the_partitions(rt: HostRuntime) -> Result<(), Fail> {
    let plan = plan_over(rt.alloc(), COUNT_AND_SUM, "city,price")??;
    assert_eq!(rt; plan.passes(), 1);
    assert_eq!(rt; plan.task(4, 0, 0), 0);
    assert_eq!(rt; plan.task(4, 0, 3), 3);
    assert_eq!(rt; plan.task(4, 0, 4), 4);
    Ok(())
}
