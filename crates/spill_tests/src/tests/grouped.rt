//! A hundred thousand drawn entries, spilled in parts of every size, beside std's ordered map.

use crate::tests::consumer_steps::{counts_and_sums, feed_sum, group_in};
use crate::tests::consumer_task::Task;
use aggregate::Kind;
use consumer_trait::{Consumer, Fed, Turn};
use group_map::GroupMap;
use row_page::{Page, RowView};
use std::alloc::{AllocError, Global};
use std::collections::BTreeMap;
use std::process::Abort;
use std::test::Fail;

/// What a group comes to: how many rows it has, and their sum, which is missing where no row has a number.
type Totals = BTreeMap<Vec<u8>, (i64, Option<i64>)>;

/// The sum of two numbers, of which one or both may be missing.
fn joined(a: Option<i64>, b: Option<i64>) -> Option<i64> {
    match (a, b) {
        (Some(a), Some(b)) => Some(a.wrapping_add(b)),
        (None, b) => b,
        (a, None) => a,
    }
}

/// Adds rows to the group of this key.
fn add(
    alloc: Global,
    totals: &mut Totals,
    key: &[u8],
    count: i64,
    sum: Option<i64>,
) -> Result<(), AllocError> {
    if let Some(total) = totals.get_mut(key) {
        *total = (total.0.wrapping_add(count), joined(total.1, sum));
        return Ok(());
    }
    match totals.insert(key.to_vec(alloc)?, (count, sum)) {
        Ok(_) => Ok(()),
        Err(_) => Err(AllocError),
    }
}

/// Adds a row to `totals`. Its key stands above `last`, which then is that key.
fn take_row(
    alloc: Global,
    group: &Kind,
    row: RowView,
    last: &mut Vec<u8>,
    totals: &mut Totals,
) -> Result<(), Fail> {
    let (key, count, sum) = group_in(group, row).ok_or("a key, a count and a sum")?;
    if last.as_slice() >= key {
        return Err("the keys ascend, and each stands once".into());
    }
    last.clear();
    last.extend_from_slice(key)?;
    Ok(add(alloc, totals, key, count, sum)?)
}

/// Adds the rows on a page to `totals`. Their keys ascend, and stand above `last`, which is then
/// the last of them.
fn take_page(
    alloc: Global,
    page: &Page,
    last: &mut Vec<u8>,
    totals: &mut Totals,
) -> Result<(), Fail> {
    let group = counts_and_sums(alloc)?;
    for i in 0..page.rows() {
        take_row(alloc, &group, page.row(i), last, totals)?;
    }
    Ok(())
}

/// Spills the map, which is told so many bytes, and adds what it writes to `totals`.
fn spill<C: Consumer>(
    alloc: Global,
    task: &mut Task<C>,
    told: u64,
    totals: &mut Totals,
) -> Result<(), Fail> {
    let mut last = Vec::new(alloc);
    for _number in 0..u64::MAX {
        match task.turn()? {
            Turn::Write => take_page(alloc, &task.page, &mut last, totals)?,
            Turn::Freed(_) => {}
            Turn::Ask(asked) => task.grant(told.min(asked))?,
            Turn::Done => return Ok(()),
        }
    }
    Err("the spill has no end".into())
}

/// Spills the map until nothing is left.
fn spill_all<C: Consumer>(
    alloc: Global,
    task: &mut Task<C>,
    totals: &mut Totals,
) -> Result<(), Fail> {
    for _number in 0..u64::MAX {
        if task.consumer.is_empty() {
            return Ok(());
        }
        spill(alloc, task, 0, totals)?;
    }
    Err("the spills have no end".into())
}

/// Feeds a row with this key and number. Where there is no room, it spills, for which it is told half as many
/// bytes as it is granted then. The answer is whether it spilled.
fn feed_or_spill<C: Consumer>(
    alloc: Global,
    task: &mut Task<C>,
    spilled: &mut Totals,
    grant: u64,
    key: &[u8],
    number: Option<i64>,
) -> Result<bool, Fail> {
    if is_taken(alloc, task, key, number)? {
        return Ok(false);
    }
    spill(alloc, task, grant / 2, spilled)?;
    task.grant(grant)?;
    if !is_taken(alloc, task, key, number)? {
        return Err("there is room once it was granted".into());
    }
    Ok(true)
}

fn is_taken<C: Consumer>(
    alloc: Global,
    task: &mut Task<C>,
    key: &[u8],
    number: Option<i64>,
) -> Result<bool, Fail> {
    Ok(feed_sum(task, &mut Vec::new(alloc), key, number)? == Fed::Taken)
}

/// Makes it the key of this number: 8 bytes, or 9 to 40 of which 16 keys have the first 8, and four of these the length.
fn name(key: &mut Vec<u8>, number: u64, long: bool) -> Result<(), AllocError> {
    key.clear();
    if !long {
        return key.extend_from_slice(&number.to_be_bytes());
    }
    let front = number / 16;
    key.extend_from_slice(&front.to_be_bytes())?;
    let more = 1 + number % 4 * 8 + front % 8;
    key.extend_from_slice(&[(number % 16) as u8; 32][..more as usize])
}

/// What was fed and what was spilled, and the last key that was fed.
#[derive(Drop)]
struct Beside {
    plain: Totals,
    spilled: Totals,
    key: Vec<u8>,
}

/// The number of a draw, which is missing about every fourth time.
fn number_of(draw: u64) -> Option<i64> {
    if draw / 4096 % 4 == 0 {
        return None;
    }
    Some((draw / 65536 % 1000) as i64 - 500)
}

/// Feeds the row of a draw, where a map has spilled so often. Whether it spilled for it.
fn feed_drawn<C: Consumer>(
    alloc: Global,
    task: &mut Task<C>,
    row: &[u64; 7],
    spills: usize,
    draw: u64,
    beside: &mut Beside,
) -> Result<bool, Fail> {
    name(
        &mut beside.key,
        draw / 4294967296 % row[0].max(1),
        row[1] == 1,
    )?;
    let number = number_of(draw);
    add(alloc, &mut beside.plain, &beside.key, 1, number)?;
    let grant = row[2 + spills % 4];
    feed_or_spill(alloc, task, &mut beside.spilled, grant, &beside.key, number)
}

/// Feeds rows with pseudo-random keys to a consumer, as a row says, and adds them to `plain` as well. What
/// was spilled is added to `spilled`, and the answer is how often.
fn feed_beside<C: Consumer>(
    alloc: Global,
    task: &mut Task<C>,
    row: &[u64; 7],
    beside: &mut Beside,
) -> Result<usize, Fail> {
    let mut draw = 1u64;
    let mut spills = 0usize;
    for _number in 0..100000 {
        draw = draw
            .wrapping_mul(6364136223846793005)
            .wrapping_add(1442695040888963407);
        if feed_drawn(alloc, task, row, spills, draw, beside)? {
            spills = spills.saturating_add(1);
        }
    }
    spill_all(alloc, task, &mut beside.spilled)?;
    Ok(spills)
}

fn feed_map(alloc: Global, row: &[u64; 7], beside: &mut Beside) -> Result<usize, Fail> {
    let kind = counts_and_sums(alloc)?;
    let mut task = Task::begun(alloc, GroupMap::new(alloc), kind)?;
    feed_beside(alloc, &mut task, row, beside)
}

/// Whether what a map spilled comes to what it was fed, and it spilled often enough.
fn comes_back(alloc: Global, row: &[u64; 7]) -> Result<bool, Fail> {
    let mut beside = Beside {
        plain: BTreeMap::new(alloc),
        spilled: BTreeMap::new(alloc),
        key: Vec::new(alloc),
    };
    let spills = feed_map(alloc, row, &mut beside)?;
    Ok(beside.plain == beside.spilled && spills as u64 >= row[6])
}

/// A map that is fed as this row says comes to what an ordered map has. The row is how many keys there are at most, 1
/// where they are long, the four grants that come in turn whenever the map spilled, and how many spills there are at least.
fn check(rt: &impl Abort, alloc: Global, row: &[u64; 7]) -> Result<(), Fail> {
    assert!(rt; comes_back(alloc, row)?, "{} keys", row[0]);
    Ok(())
}

#[test]
fn spills_come_to_what_an_ordered_map_has(rt: HostRuntime) -> Result<(), Fail> {
    check(&rt, rt.alloc(), &[100, 0, 80, 200, 1000, 5000, 4])?;
    check(&rt, rt.alloc(), &[60000, 0, 100, 5000, 80000, 1048576, 12])?;
    check(&rt, rt.alloc(), &[5000, 1, 110, 5000, 80000, 1048576, 4])
}
