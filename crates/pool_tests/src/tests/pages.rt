// Pages and blocks as words.
ghost use Rattle.std.specs.Prelude.{◌≤◌, ◌^◌, length};

use crate::tests::words::put_after;
use eviction::Candidate;
use row_page::{Page, RowBuf};
use std::alloc::{AllocError, Global};
use std::string::String;
use std::test::Fail;

// A page of one row of this field: its size is 64 bytes, 32 for the row, 4 for the field's length, and the field.
pub fn page_of(alloc: Global, field: &[u8]) -> Result<Page, Fail> {
    if field.len() > 1 << 20 {
        return Err("a long field".into());
    }
    Ok(page_with(alloc, field)?)
}

// The same of a field that isn't long.
pub fn page_with(alloc: Global, field: &[u8]) -> Result<Page, AllocError>
    requires { length field.now ≤ 2 ^ 20 }
{
    let mut row = RowBuf::new(alloc);
    row.add(field)?;
    let mut page = Page::new(alloc, 1 << 21);
    match page.push(row.view()) {
        Ok(()) => Ok(page),
        Err(_) => Err(AllocError),
    }
}

// The blocks with their sizes, and which of them are pinned, each behind this mark.
pub fn put_blocks(text: &mut String, mark: &str, blocks: &[Candidate]) -> Result<(), Fail> {
    for block in blocks {
        put_block(text, mark, *block)?;
    }
    Ok(())
}

fn put_block(text: &mut String, mark: &str, block: Candidate) -> Result<(), Fail> {
    put_after(text, mark, u64::from(block.dataset))?;
    put_after(text, ".", u64::from(block.part))?;
    put_after(text, ":", block.size)?;
    text.push_str(if block.pinned { ":pinned" } else { "" })?;
    Ok(())
}
