// Blocks that a worker keeps and looks for.
use crate::tests::pages::page_with;
use crate::tests::words::{cut, number_or_zero};
use block_store::Block;
use memory_core::Admission;
use pool_ledger::Level;
use row_page::Page;
use std::alloc::{AllocError, Global};
use std::sync::Arc;

// The block of the words `D.P:L:B:N`: of dataset D, part P and level L, with one row whose one field is the byte B so many
// times; it has 100 bytes more than that.
pub fn block_of(alloc: Global, words: &str) -> Result<Arc<Block, Global>, AllocError> {
    let (name, rest) = cut(words, ':');
    let (level, rest) = cut(rest, ':');
    let (byte, count) = cut(rest, ':');
    let (dataset, part) = cut(name, '.');
    let page = page_of(alloc, byte.parse().unwrap_or(0), count.parse().unwrap_or(0))?;
    let block = Block {
        dataset: number_or_zero(dataset),
        part: number_or_zero(part),
        level: level_of(level),
        page,
    };
    Ok(Arc::new(alloc, block)?)
}

// Disk, if it is that word.
pub fn level_of(word: &str) -> Level {
    match word {
        "disk" => Level::Disk,
        _ => Level::Memory,
    }
}

fn page_of(alloc: Global, byte: u8, count: u8) -> Result<Page, AllocError> {
    let field = Vec::from_elem(alloc, byte, usize::from(count))?;
    page_with(alloc, &field)
}

// The word for what a look found: where the block was, or that it has other rows.
pub fn look_word(found: Option<(&'static str, Arc<Block, Global>)>, like: &Block) -> &'static str {
    match found {
        None => " miss",
        Some((word, block)) if block.page.bytes() == like.page.bytes() => word,
        _ => " other rows",
    }
}

pub fn kept_word(answer: Admission) -> &'static str {
    match answer {
        Admission::Admitted => " in",
        Admission::Refused => " refused",
        Admission::Resident => " resident",
    }
}
