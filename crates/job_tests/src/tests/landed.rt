// A plan, and the rows of an input that landed in partitions of four.
use crate::tests::plans::{plan_over, row_of};
use crate::tests::row_words::cut;
use job_plan::Plan;
use row_page::Page;
use run_file::{Run, RunWriter};
use spill_disk::{Disk, MemoryDisk};
use std::alloc::Global;
use std::test::Fail;

// So many rows a partition has.
pub const PART_ROWS: u64 = 4;

// The plan of a job over columns `n` and `t`.
pub fn plan_of(alloc: Global, job: &str) -> Result<Plan, Fail> {
    Ok(plan_over(alloc, job, "n,t")??)
}

// The page of rows that are words such as `7,a`, numbered from this number on.
pub fn page_of(alloc: Global, first: u64, words: &str) -> Result<Page, Fail> {
    let mut page = Page::new(alloc, 4096);
    let mut number = first;
    for word in words.split_whitespace() {
        let (n, t) = cut(word, ',');
        let row = row_of(alloc, number, n.as_bytes(), t.as_bytes())?;
        page.push(row.view())?;
        number = number.wrapping_add(1);
    }
    Ok(page)
}

// Writes each of these texts as a partition.
pub fn land(alloc: Global, disk: &mut MemoryDisk, parts: &[&str]) -> Result<Vec<Run>, Fail> {
    let mut runs = Vec::new(alloc);
    let mut first = 1u64;
    for words in parts {
        let page = page_of(alloc, first, words)?;
        runs.push(land_page(disk, &page)?)?;
        first = first.wrapping_add(PART_ROWS);
    }
    Ok(runs)
}

// Writes a page as a partition.
pub fn land_page<D: Disk>(disk: &mut D, page: &Page) -> Result<Run, Fail> {
    let mut writer = RunWriter::start(disk, 0)?;
    writer.write(disk, page)?;
    Ok(writer.finish())
}
