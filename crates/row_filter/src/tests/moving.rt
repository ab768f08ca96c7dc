// Filters over other columns.
use crate::move_filter;
use crate::tests::checks::equals;
use crate::tests::filters::{filter_of, is_kept, row_of};
use std::alloc::Global;
use std::process::Abort;
use std::test::Fail;

// A filter over columns that are turned round, what it keeps of the row `ab,-2`, and of the row `-2,ab`.
const TURNED: &str = "\
text:=:ab|no|yes
number:<:0|no|yes
text:=:ab not|yes|no
text:=:x number:=:-2 or|no|yes
text:=:ab number:=:0 or not|no|no
text:=:-2 number:=:0 and|yes|no
all|yes|yes
none|no|no";

fn keeps_turned(alloc: Global, text: &str, row: [&str; 2]) -> Result<bool, Fail> {
    let moved = move_filter(alloc, &filter_of(alloc, text)?, &[1, 0])?;
    let [first, second] = row;
    let row = row_of(alloc, first.as_bytes(), second.as_bytes())?;
    is_kept(&moved, &row)
}

// What the filter keeps, as it stands in the table.
fn turned(alloc: Global, text: &str) -> Result<&'static str, Fail> {
    let first = keeps_turned(alloc, text, ["ab", "-2"])?;
    let second = keeps_turned(alloc, text, ["-2", "ab"])?;
    Ok(match (first, second) {
        (true, true) => "yes|yes",
        (true, false) => "yes|no",
        (false, true) => "no|yes",
        (false, false) => "no|no",
    })
}

fn check(rt: &impl Abort, alloc: Global, line: &str) -> Result<(), Fail> {
    match line.split_once('|') {
        Some((text, wanted)) => equals(rt, turned(alloc, text), wanted, text),
        None => Err("no answers".into()),
    }
}

#[test]
fn a_moved_filter_asks_the_other_columns(rt: HostRuntime) -> Result<(), Fail> {
    for line in TURNED.split('\n') {
        check(&rt, rt.alloc(), line)?;
    }
    Ok(())
}

// Whether a filter over a column without a place keeps a row by its first.
fn keeps_by_first(alloc: Global) -> Result<bool, Fail> {
    let moved = move_filter(alloc, &filter_of(alloc, "number:=:7")?, &[])?;
    let row = row_of(alloc, b"7", b"0")?;
    is_kept(&moved, &row)
}

#[test]
fn a_column_without_a_place_is_the_first(rt: HostRuntime) -> Result<(), Fail> {
    equals(&rt, keeps_by_first(rt.alloc()), true, "the row")
}
