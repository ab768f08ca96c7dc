// Lists of entries with keys of one byte, as pages and as runs.
ghost use Rattle.std.specs.Prelude.{◌-◌, ◌^◌, IfOk};
ghost use Rattle.run_file.specs.Several.{AreOn};

use crate::tests::entries::{push_entry, put_run};
use crate::tests::told::Told;
use crate::tests::words::parted;
use aggregate::{Agg, AggList, Kind};
use row_page::Page;
use run_file::Run;
use spill_disk::Disk;
use std::alloc::{AllocError, Global};
use std::collections::BTreeMap;
use std::test::Fail;

/// A key of one byte, and a number or none.
pub type Pair = (u8, Option<i64>);

/// Groups with one aggregate, or orders.
pub fn kind_of(alloc: Global, word: &str) -> Result<Kind, AllocError> {
    match word {
        "count" => Ok(Kind::Group(AggList::of(alloc, &[Agg::Count])?)),
        "sum" => Ok(Kind::Group(AggList::of(alloc, &[Agg::Sum])?)),
        "min" => Ok(Kind::Group(AggList::of(alloc, &[Agg::Min])?)),
        "max" => Ok(Kind::Group(AggList::of(alloc, &[Agg::Max])?)),
        _ => Ok(Kind::Order),
    }
}

// A pair as `a:1`, or as `a:none` where the number is missing.
fn pair_of(word: &str) -> Pair {
    let (key, number) = parted(word, ':');
    let key = key.as_bytes().first().copied().unwrap_or(0);
    (key, number.parse().ok())
}

// The pairs of a text as `a:1 c:-1`.
fn list_of(alloc: Global, text: &str, told: &mut Told) -> Vec<Pair> {
    let mut list = Vec::new(alloc);
    for word in text.split_whitespace() {
        told.need(list.push(pair_of(word)).is_ok());
    }
    list
}

/// The lists of a text, with a `/` between them. `none` is no list.
pub fn lists_of(alloc: Global, text: &str, told: &mut Told) -> Vec<Vec<Pair>> {
    let mut lists = Vec::new(alloc);
    if text == "none" {
        return lists;
    }
    for list in text.split('/') {
        let list = list_of(alloc, list, told);
        told.need(lists.push(list).is_ok());
    }
    lists
}

// The 17 bytes of a number, or of a missing one.
fn slot_of(number: Option<i64>) -> [u8; 17] {
    let mut slot = [0; 17];
    if let Some(number) = number {
        slot[0] = 1;
        slot[1..].copy_from_slice(&i128::from(number).to_be_bytes());
    }
    slot
}

// Puts a key with a number as a value of 17 bytes, or where it is short of 4.
fn push_pair(page: &mut Page, pair: Pair, is_short: bool, told: &mut Told) {
    let (key, number) = pair;
    if is_short {
        let short = u32::try_from(number.unwrap_or(0)).unwrap_or(0);
        return push_entry(page, &[key], &short.to_be_bytes(), told);
    }
    push_entry(page, &[key], &slot_of(number), told);
}

/// The page of these pairs.
pub fn page_of(alloc: Global, pairs: &[Pair], is_short: bool, told: &mut Told) -> Page {
    let mut page = Page::new(alloc, 1_000_000);
    for pair in pairs {
        push_pair(&mut page, *pair, is_short, told);
    }
    page
}

/// The page of the pairs of a text.
pub fn page_of_text(alloc: Global, text: &str, is_short: bool, told: &mut Told) -> Page {
    let list = list_of(alloc, text, told);
    page_of(alloc, &list, is_short, told)
}

/// Writes each list as a run, the first on the disk of this number, each other on that so many further.
pub fn put_lists<D: Disk>(
    alloc: Global,
    disk: &mut D,
    lists: &Vec<Vec<Pair>>,
    is_short: bool,
    first: u32,
    step: u32,
    told: &mut Told,
) -> Result<Vec<Run>, Fail>
    ensures { IfOk result (λ runs. AreOn (2 ^ 32 - 1) runs.items) }
{
    let mut runs = Vec::new(alloc);
    let mut number = first;
    for list in lists {
        if number > 100 {
            return Err("a disk of a high number".into());
        }
        let page = page_of(alloc, list, is_short, told);
        runs.push(put_run(disk, number, &page)?)?;
        number = number.saturating_add(step);
    }
    Ok(runs)
}

// The drawn number behind this one.
fn drawn_behind(drawn: u64) -> u64 {
    drawn
        .wrapping_mul(6364136223846793005)
        .wrapping_add(1442695040888963407)
}

// A drawn number, which is missing about every fourth time.
fn number_of(drawn: u64) -> Option<i64> {
    if (drawn >> 60) % 4 == 0 {
        return None;
    }
    Some(i64::from((drawn >> 40) as u32))
}

// Entries whose keys ascend, of so many places; each key stands there about every second time, and once where `times`
// is 1.
fn drawn_list(alloc: Global, seed: u64, places: u8, times: u8, told: &mut Told) -> Vec<Pair> {
    let mut list = Vec::new(alloc);
    let mut drawn = seed;
    for place in 0..places {
        drawn = drawn_behind(drawn);
        if drawn >> 63 == 1 {
            let pair = (place / times.max(1), number_of(drawn));
            told.need(list.push(pair).is_ok());
        }
    }
    list
}

/// So many drawn lists.
pub fn drawn_lists(
    alloc: Global,
    count: u64,
    places: u8,
    times: u8,
    told: &mut Told,
) -> Vec<Vec<Pair>> {
    let mut lists = Vec::new(alloc);
    for seed in 0..count {
        let list = drawn_list(alloc, seed, places, times, told);
        told.need(lists.push(list).is_ok());
    }
    lists
}

// All pairs, list by list.
fn all_of(alloc: Global, lists: &Vec<Vec<Pair>>, told: &mut Told) -> Vec<Pair> {
    let mut all = Vec::new(alloc);
    for list in lists {
        told.need(all.extend_from_slice(list).is_ok());
    }
    all
}

/// The page of all pairs by key, those of one key in the order of the lists.
pub fn sorted_page(alloc: Global, lists: &Vec<Vec<Pair>>, is_short: bool, told: &mut Told) -> Page {
    let mut all = all_of(alloc, lists, told);
    told.need(all.sort_by_key(|pair: &Pair| pair.0).is_ok());
    page_of(alloc, &all, is_short, told)
}

// The sum of two numbers, of which one or both may be missing.
fn sum(a: Option<i64>, b: Option<i64>) -> Option<i64> {
    match (a, b) {
        (Some(a), Some(b)) => Some(a.wrapping_add(b)),
        (None, b) => b,
        (a, None) => a,
    }
}

// Adds a number to the sum of its key.
fn add(sums: &mut BTreeMap<u8, Option<i64>>, pair: Pair, told: &mut Told) {
    let (key, number) = pair;
    let before = sums.get(&key).copied().unwrap_or(None);
    told.need(sums.insert(key, sum(before, number)).is_ok());
}

// The sum of each key's numbers, or none where all are missing.
fn sums_of(alloc: Global, pairs: &[Pair], told: &mut Told) -> BTreeMap<u8, Option<i64>> {
    let mut sums = BTreeMap::new(alloc);
    for pair in pairs {
        add(&mut sums, *pair, told);
    }
    sums
}

/// The page of the sum of each key's numbers.
pub fn summed_page(alloc: Global, lists: &Vec<Vec<Pair>>, told: &mut Told) -> Page {
    let all = all_of(alloc, lists, told);
    let sums = sums_of(alloc, &all, told);
    let mut page = Page::new(alloc, 1_000_000);
    for (key, sum) in &sums {
        push_pair(&mut page, (*key, *sum), false, told);
    }
    page
}
