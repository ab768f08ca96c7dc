//! Rows of a page that go through a filter.

ghost use Rattle.std.specs.Prelude.{All, IsTrue, length};
ghost use Rattle.row_filter.specs.Rows.{HasTestedColumns};

use crate::asked::{USAGE, number_at};
use item_lists::{Listed, Name};
use row_filter::{Comparison, Constant, Filter, covers, keeps};
use row_page::{Page, RowBuf};
use std::alloc::{AllocError, Global};
use std::io;

// How many rows the page has.
const PAGE_ROWS: u64 = 10_000;

const CITIES: [&str; 8] = [
    "Oslo",
    "Bergen",
    "Trondheim",
    "Stavanger",
    "Tromsø",
    "Drammen",
    "Ålesund",
    "Bodø",
];

// What the rows go through.
#[derive(Clone, Copy)]
enum Way {
    /// The empty `and`.
    All,
    Number,
    Text,
    Both,
}

fn way_of(word: &str) -> Option<Way> {
    match word {
        "all" => Some(Way::All),
        "number" => Some(Way::Number),
        "text" => Some(Way::Text),
        "both" => Some(Way::Both),
        _ => None,
    }
}

fn number_test() -> Filter {
    Filter::Test {
        column: 1,
        test: Comparison::Less,
        constant: Constant::Number(250_000),
    }
}

fn text_test(alloc: Global) -> Result<Filter, AllocError> {
    Ok(Filter::Test {
        column: 0,
        test: Comparison::AtLeast,
        constant: Constant::Text(Name::of(String::from_str(alloc, "Oslo")?)),
    })
}

fn filter_of(alloc: Global, way: Way) -> Result<Filter, AllocError> {
    let mut parts = Vec::new(alloc);
    match way {
        Way::All => {}
        Way::Number => return Ok(number_test()),
        Way::Text => return text_test(alloc),
        Way::Both => {
            parts.push(text_test(alloc)?)?;
            parts.push(number_test())?;
        }
    }
    Ok(Filter::And(Listed::of(parts)))
}

// A landed row of a text and a number below a million.
fn row_of(alloc: Global, city: &str, number: u64) -> Result<RowBuf, AllocError> {
    let number = format!(in alloc; "{number}")?;
    let mut row = RowBuf::new(alloc);
    if city.len() > 100 || number.len() > 100 {
        return Ok(row);
    }
    row.add(&[0, 0, 0, 0, 0, 0, 0, 1])?;
    row.add(city.as_bytes())?;
    row.add(number.as_bytes())?;
    Ok(row)
}

// The page of the drawn rows. The same come each time.
fn drawn_page(alloc: Global) -> Result<Page, AllocError> {
    let mut page = Page::new(alloc, 1 << 30);
    let mut drawn: u64 = 1;
    for _ in 0..PAGE_ROWS {
        drawn = drawn
            .wrapping_mul(6_364_136_223_846_793_005)
            .wrapping_add(1_442_695_040_888_963_407);
        let city = CITIES[(drawn >> 61) as usize % 8];
        let row = row_of(alloc, city, (drawn >> 20) % 1_000_000)?;
        if page.push(row.view()).is_err() {
            return Err(AllocError);
        }
    }
    Ok(page)
}

// Whether each row has the filter's columns.
fn all_covered(filter: &Filter, page: &Page) -> bool
    ensures { IsTrue result → All (λ row. HasTestedColumns (length row) filter.now) page.now.rows }
{
    for i in 0..page.rows() {
        if !covers(filter, page.row(i).count()) {
            return false;
        }
    }
    true
}

// How many of the page's rows the filter keeps.
fn count_kept(filter: &Filter, page: &Page) -> u64
    requires covers { All (λ row. HasTestedColumns (length row) filter.now) page.now.rows }
{
    let mut kept: u64 = 0;
    for i in 0..page.rows() {
        kept = kept.wrapping_add(u64::from(keeps(filter, page.row(i))));
    }
    kept
}

// How many rows are kept where the page is gone over so often.
fn work(alloc: Global, way: Way, passes: u64) -> Result<u64, AllocError> {
    let filter = filter_of(alloc, way)?;
    let page = drawn_page(alloc)?;
    let mut kept: u64 = 0;
    if all_covered(&filter, &page) {
        for _ in 0..passes {
            kept = kept.wrapping_add(count_kept(&filter, &page));
        }
    }
    Ok(kept)
}

// The way and the passes: both tests and one pass where there are no words.
fn wish_of(words: &[String]) -> Option<(Way, u64)> {
    let Some(way) = words.first() else {
        return Some((Way::Both, 1));
    };
    Some((way_of(way.as_str())?, number_at(words, 1)?))
}

/// Does what the words ask for, and prints how many rows were kept.
pub fn run(rt: &(impl Print + AllocGlobal), words: &[String]) -> io::Result<()> {
    let Some((way, passes)) = wish_of(words) else {
        return println!(rt; "{USAGE}");
    };
    match work(rt.alloc(), way, passes) {
        Ok(kept) => println!(rt; "kept {kept}"),
        Err(_) => println!(rt; "out of memory"),
    }
}
