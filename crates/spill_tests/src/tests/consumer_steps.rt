//! Steps that a task is taken through, and what has to come of them.

use crate::tests::consumer_task::Task;
use aggregate::{Agg, AggList, Finished, Kind, finish, put_partial};
use consumer_trait::{Consumer, Fed, Turn};
use row_page::{Page, RowView};
use std::alloc::{AllocError, Global};
use std::process::Abort;
use std::test::Fail;

/// What a task does, and what has to come of it.
#[derive(Clone, Copy)]
pub enum Step {
    /// It resets the consumer, which then has and uses nothing, and begins with an order.
    Order,
    /// The same with groups of these aggregates.
    Groups(&'static [Agg]),
    Grant(u64),
    /// It feeds a key, with a value of so many bytes.
    Feed(&'static [u8], usize, Fed),
    /// It feeds a row with a key of one byte, so many times, to a query that counts.
    Count(u8, usize, Fed),
    /// It feeds so many rows, each with a key of its own of four bytes, to a query that counts. All are taken.
    Keys(u32),
    /// It feeds a row with a key and a number, or none, to a query that counts and sums.
    Sum(&'static [u8], Option<i64>, Fed),
    /// A turn of a spill writes these keys, with values of so many bytes.
    Write(&'static [&'static [u8]], usize),
    /// A turn writes so many rows.
    Rows(usize),
    /// A turn writes just the last so many of so many keys of four bytes, ascending.
    Last(u32, u32),
    /// A turn writes these keys, with their counts and sums.
    Totals(&'static [(&'static [u8], i64, Option<i64>)]),
    /// A turn asks for so many bytes.
    Ask(u64),
    /// A turn gives so many bytes back.
    Freed(u64),
    Done,
    /// How many bytes the consumer uses.
    Used(u64),
    Least(u64),
    /// Whether an entry is in memory.
    Holds(bool),
    /// Whether it serves orders.
    ServesOrders(bool),
}

/// The value of one row in a query that counts.
const ONE: [u8; 17] = [1, 0, 0, 0, 0, 0, 0, 0, 0, 0, 0, 0, 0, 0, 0, 0, 1];

/// Whether the page's rows have these keys, and values of this length.
fn has_keys(page: &Page, keys: &[&[u8]], length: usize) -> bool {
    if page.rows() != keys.len() {
        return false;
    }
    for (i, key) in keys.iter().enumerate() {
        let row = page.row(i);
        if row.count() != 2 || row.field(0) != *key || row.field(1).len() != length {
            return false;
        }
    }
    true
}

/// The key that comes at a place: no two places below 1,000 have one.
fn key_at(place: u32) -> [u8; 4] {
    (place.wrapping_mul(7) % 1000).to_be_bytes()
}

/// Feeds so many rows, each with a key of its own. Whether all were taken.
fn takes_keys<C: Consumer>(task: &mut Task<C>, count: u32) -> Result<bool, Fail> {
    for place in 0..count {
        if task.feed(&key_at(place), &ONE)? != Fed::Taken {
            return Ok(false);
        }
    }
    Ok(true)
}

/// The last so many of so many keys, ascending.
fn last_keys(alloc: Global, count: u32, of: u32) -> Result<Vec<[u8; 4]>, AllocError> {
    let mut keys = Vec::new(alloc);
    for place in of.saturating_sub(count)..of {
        keys.push(key_at(place))?;
    }
    keys.sort()?;
    Ok(keys)
}

/// Whether the page's rows have these keys.
fn has_last(page: &Page, keys: &[[u8; 4]]) -> bool {
    if page.rows() != keys.len() {
        return false;
    }
    for (i, key) in keys.iter().enumerate() {
        let row = page.row(i);
        if row.count() != 2 || row.field(0) != key.as_slice() {
            return false;
        }
    }
    true
}

/// What is told of a value of the group at a place.
fn told_at(group: &Kind, value: &[u8], place: usize) -> Finished {
    let Kind::Group(aggs) = group else {
        return Finished::Wide;
    };
    if !group.takes(value) || place >= aggs.items().len() {
        return Finished::Wide;
    }
    finish(aggs, value, place)
}

/// The count that is told at the first place, and the sum at the second, which may be missing.
fn totals_in(group: &Kind, value: &[u8]) -> Option<(i64, Option<i64>)> {
    match (told_at(group, value, 0), told_at(group, value, 1)) {
        (Finished::Number(count), Finished::Number(sum)) => Some((count, Some(sum))),
        (Finished::Number(count), Finished::Missing) => Some((count, None)),
        _ => None,
    }
}

/// The key of a row of groups, with the numbers of a count and a sum.
pub fn group_in<'a>(group: &Kind, row: RowView<'a>) -> Option<(&'a [u8], i64, Option<i64>)> {
    if row.count() != 2 {
        return None;
    }
    let (count, sum) = totals_in(group, row.field(1))?;
    Some((row.field(0), count, sum))
}

/// The kind of groups that are counted and summed.
pub fn counts_and_sums(alloc: Global) -> Result<Kind, AllocError> {
    Ok(Kind::Group(AggList::of(alloc, &[Agg::Count, Agg::Sum])?))
}

/// Whether the page's rows are these groups.
fn has_groups(
    alloc: Global,
    page: &Page,
    groups: &[(&[u8], i64, Option<i64>)],
) -> Result<bool, AllocError> {
    let kind = counts_and_sums(alloc)?;
    if page.rows() != groups.len() {
        return Ok(false);
    }
    for (i, group) in groups.iter().enumerate() {
        if group_in(&kind, page.row(i)) != Some(*group) {
            return Ok(false);
        }
    }
    Ok(true)
}

/// The same number with more bits.
fn wide(number: Option<i64>) -> Option<i128> {
    match number {
        Some(number) => Some(i128::from(number)),
        None => None,
    }
}

/// Feeds a row with a key and a number, or none, to a query that counts and sums.
pub fn feed_sum<C: Consumer>(
    task: &mut Task<C>,
    value: &mut Vec<u8>,
    key: &[u8],
    number: Option<i64>,
) -> Result<Fed, Fail> {
    value.clear();
    put_partial(value, Some(1))?;
    put_partial(value, wide(number))?;
    task.feed(key, value)
}

/// The kind of groups of these aggregates.
pub fn groups_of(alloc: Global, aggs: &[Agg]) -> Result<Kind, Fail> {
    if aggs.is_empty() || aggs.len() > 8 {
        return Err("one to eight aggregates".into());
    }
    Ok(Kind::Group(AggList::of(alloc, aggs)?))
}

/// Begins anew with this kind. Whether nothing is left.
fn begins<C: Consumer>(task: &mut Task<C>, kind: Kind) -> Result<bool, Fail> {
    task.begin(kind)?;
    Ok(task.consumer.is_empty() && task.consumer.used() == 0)
}

fn begins_groups<C: Consumer>(
    alloc: Global,
    task: &mut Task<C>,
    aggs: &[Agg],
) -> Result<bool, Fail> {
    begins(task, groups_of(alloc, aggs)?)
}

fn is_granted<C: Consumer>(task: &mut Task<C>, bytes: u64) -> Result<bool, Fail> {
    task.grant(bytes)?;
    Ok(true)
}

fn feeds<C: Consumer>(
    alloc: Global,
    task: &mut Task<C>,
    key: &[u8],
    length: usize,
    answer: Fed,
) -> Result<bool, Fail> {
    Ok(task.feed(key, &vec![in alloc; 7; length]?)? == answer)
}

fn counts<C: Consumer>(
    alloc: Global,
    task: &mut Task<C>,
    byte: u8,
    length: usize,
    answer: Fed,
) -> Result<bool, Fail> {
    Ok(task.feed(&vec![in alloc; byte; length]?, &ONE)? == answer)
}

fn sums<C: Consumer>(
    alloc: Global,
    task: &mut Task<C>,
    key: &[u8],
    number: Option<i64>,
    answer: Fed,
) -> Result<bool, Fail> {
    feed_sum(task, &mut Vec::new(alloc), key, number).map(|fed| fed == answer)
}

/// Whether a turn is this one.
fn turns<C: Consumer>(task: &mut Task<C>, turn: Turn) -> Result<bool, Fail> {
    task.turn().map(|it| it == turn)
}

fn writes_last<C: Consumer>(
    alloc: Global,
    task: &mut Task<C>,
    count: u32,
    of: u32,
) -> Result<bool, Fail> {
    if !turns(task, Turn::Write)? {
        return Ok(false);
    }
    Ok(has_last(&task.page, &last_keys(alloc, count, of)?))
}

fn writes_groups<C: Consumer>(
    alloc: Global,
    task: &mut Task<C>,
    groups: &[(&[u8], i64, Option<i64>)],
) -> Result<bool, Fail> {
    if !turns(task, Turn::Write)? {
        return Ok(false);
    }
    Ok(has_groups(alloc, &task.page, groups)?)
}

/// Takes a step. Whether it came as it had to.
fn takes<C: Consumer>(alloc: Global, task: &mut Task<C>, step: Step) -> Result<bool, Fail> {
    match step {
        Step::Order => begins(task, Kind::Order),
        Step::Groups(aggs) => begins_groups(alloc, task, aggs),
        Step::Grant(bytes) => is_granted(task, bytes),
        Step::Feed(key, length, answer) => feeds(alloc, task, key, length, answer),
        Step::Count(byte, length, answer) => counts(alloc, task, byte, length, answer),
        Step::Keys(count) => takes_keys(task, count),
        Step::Sum(key, number, answer) => sums(alloc, task, key, number, answer),
        _ => comes(alloc, task, step),
    }
}

/// Whether a turn, or what the consumer says of itself, is as this step has it.
fn comes<C: Consumer>(alloc: Global, task: &mut Task<C>, step: Step) -> Result<bool, Fail> {
    match step {
        Step::Ask(bytes) => turns(task, Turn::Ask(bytes)),
        Step::Freed(bytes) => turns(task, Turn::Freed(bytes)),
        Step::Done => turns(task, Turn::Done),
        Step::Write(keys, length) => {
            Ok(turns(task, Turn::Write)? && has_keys(&task.page, keys, length))
        }
        Step::Rows(rows) => Ok(turns(task, Turn::Write)? && task.page.rows() == rows),
        Step::Last(count, of) => writes_last(alloc, task, count, of),
        Step::Totals(groups) => writes_groups(alloc, task, groups),
        _ => Ok(is_so(task, step)),
    }
}

/// Whether the consumer says of itself what this step has.
fn is_so<C: Consumer>(task: &Task<C>, step: Step) -> bool {
    match step {
        Step::Used(bytes) => task.consumer.used() == bytes,
        Step::Least(bytes) => task.consumer.least() == bytes,
        Step::Holds(some) => task.consumer.is_empty() != some,
        Step::ServesOrders(it) => task.consumer.serves(&Kind::Order) == it,
        _ => false,
    }
}

/// Whether so many steps came as they had to.
pub fn are_right(rt: &impl Abort, right: Result<usize, Fail>, steps: usize) -> Result<(), Fail> {
    assert_eq!(rt; right?, steps, "steps that came as they had to");
    Ok(())
}

/// How many steps came as they had to, up to the first that didn't.
pub fn count_right<C: Consumer>(
    alloc: Global,
    task: &mut Task<C>,
    steps: &[Step],
) -> Result<usize, Fail> {
    let mut right = 0usize;
    for step in steps {
        if !takes(alloc, task, *step)? {
            return Ok(right);
        }
        right = right.saturating_add(1);
    }
    Ok(right)
}
