//! A hundred thousand drawn entries, spilled in parts of every size.

ghost use Rattle.std.specs.Prelude.{◌<◌, ◌≤◌, length};

use crate::tests::consumer_task::Task;
use aggregate::Kind;
use consumer_trait::{Consumer, Fed, Turn};
use row_page::Page;
use row_sorter::RowSorter;
use std::alloc::Global;
use std::process::Abort;
use std::test::Fail;

/// An entry: the first bytes of its key are the key.
#[derive(Clone, Copy, Drop)]
struct Pair {
    key: [u8; 8],
    count: usize,
    value: [u8; 8],
    ghost short: { count ≤ 8 },
}

impl Pair {
    fn key(&self) -> &[u8] {
        &self.key[..self.count]
    }
}

/// A number whose lower bits are mixed with the higher ones.
fn folded(number: u64, by: u32) -> u64
    requires { by < 64 }
{
    number ^ (number >> by)
}

/// The bits of a number, mixed.
fn mixed(number: u64) -> u64 {
    let mixed = number.wrapping_mul(0x9e37_79b9_7f4a_7c15);
    let mixed = folded(mixed, 29).wrapping_mul(0xbf58_476d_1ce4_e5b9);
    folded(mixed, 32)
}

/// The entry of a number: keys of up to 8 bytes of few kinds, so that many short ones are equal, and
/// values that are all different.
fn drawn(number: u64) -> Pair {
    let mixed = mixed(number);
    Pair {
        key: (mixed & 0x8103_8103_8103_8103).to_be_bytes(),
        count: (mixed >> 40) as usize % 9,
        value: number.to_be_bytes(),
    }
}

/// Feeds an entry, and grants what it needs where the sorter then uses at most `most`. Whether it was
/// taken.
fn feeds(task: &mut Task<RowSorter>, pair: &Pair, most: u64) -> Result<bool, Fail> {
    let Fed::Need { must, wish } = task.feed(pair.key(), &pair.value)? else {
        return Ok(true);
    };
    let room = most.saturating_sub(task.consumer.used());
    if must > room {
        return Ok(false);
    }
    task.grant(wish.min(room))?;
    match task.feed(pair.key(), &pair.value)? {
        Fed::Taken => Ok(true),
        Fed::Need { .. } => Err("an entry has no room".into()),
    }
}

/// How many of the page's rows are those of the entries in order.
fn count_same(page: &Page, pairs: &[Pair]) -> usize
    ensures { result ≤ length pairs.now }
{
    for (i, pair) in pairs.iter().enumerate() {
        if i >= page.rows() {
            return i;
        }
        let row = page.row(i);
        if row.count() != 2 || row.field(0) != pair.key() || row.field(1) != pair.value.as_slice() {
            return i;
        }
    }
    pairs.len()
}

/// Spills all, which has to come back as these entries in order.
fn spills(task: &mut Task<RowSorter>, pairs: &[Pair]) -> Result<(), Fail> {
    let mut left = pairs;
    for _ in 0..1000 {
        match task.turn()? {
            Turn::Ask(_) => return Err("it asks".into()),
            Turn::Write => {
                let same = count_same(&task.page, left);
                if same != task.page.rows() {
                    return Err("another row".into());
                }
                left = &left[same..];
            }
            Turn::Freed(_) => {}
            Turn::Done if left.is_empty() && task.consumer.used() == 0 => return Ok(()),
            Turn::Done => return Err("it ends early".into()),
        }
    }
    Err("it does not end".into())
}

/// Sorts the entries that were fed since the last spill as std does, and spills.
fn spills_sorted(task: &mut Task<RowSorter>, pairs: &mut Vec<Pair>) -> Result<(), Fail> {
    pairs.sort_by(|a, b| a.key().cmp(b.key()))?;
    spills(task, pairs)?;
    pairs.clear();
    Ok(())
}

/// Feeds the entry of a number, and spills first where the sorter would use more than `most`. Whether it spilled.
fn feeds_drawn(
    task: &mut Task<RowSorter>,
    pairs: &mut Vec<Pair>,
    number: u64,
    most: u64,
) -> Result<bool, Fail> {
    let pair = drawn(number);
    let fits = feeds(task, &pair, most)?;
    if !fits {
        spills_sorted(task, pairs)?;
        if !feeds(task, &pair, most)? {
            return Err("no room for one entry".into());
        }
    }
    pairs.push(pair)?;
    Ok(!fits)
}

/// Feeds so many entries, and spills where the sorter would use more than `most`. How often it spilled.
fn spills_drawn(
    task: &mut Task<RowSorter>,
    pairs: &mut Vec<Pair>,
    count: u64,
    most: u64,
) -> Result<u64, Fail> {
    let mut spilled = 1u64;
    task.begin(Kind::Order)?;
    for number in 0..count {
        if feeds_drawn(task, pairs, number, most)? {
            spilled = spilled.saturating_add(1);
        }
    }
    spills_sorted(task, pairs)?;
    Ok(spilled)
}

fn count_spills(alloc: Global, count: u64, most: u64) -> Result<u64, Fail> {
    let mut task = Task::of(alloc, RowSorter::new(alloc));
    let mut pairs = Vec::new(alloc);
    spills_drawn(&mut task, &mut pairs, count, most)
}

// So many spills come, where the sorter uses at most so many bytes.
fn check(rt: &impl Abort, alloc: Global, most: u64, spilled: u64) -> Result<(), Fail> {
    let found = count_spills(alloc, 100000, most)?;
    assert_eq!(rt; found, spilled, "at most {most} bytes");
    Ok(())
}

#[test]
fn each_spill_is_the_stable_sort_of_what_was_fed(rt: HostRuntime) -> Result<(), Fail> {
    check(&rt, rt.alloc(), 48, 100000)?;
    check(&rt, rt.alloc(), 200, 25000)?;
    check(&rt, rt.alloc(), 5000, 884)?;
    check(&rt, rt.alloc(), 300000, 15)?;
    check(&rt, rt.alloc(), 1 << 30, 1)
}
