// Blocks that a script of a state names, whose bytes tell the name.
use crate::tests::pages::page_of;
use crate::tests::words::{bytes, cut, number};
use block_store::Block;
use pool_ledger::Level;
use std::alloc::Global;
use std::sync::Arc;
use std::test::Fail;

// A block of a name, a size and a level.
pub fn block_of(alloc: Global, words: &str) -> Result<Arc<Block, Global>, Fail> {
    let (name, rest) = cut(words, ':');
    let (size, level) = cut(rest, ':');
    let (dataset, part) = cut(name, '.');
    let level = match level {
        "disk" => Level::Disk,
        "memory" => Level::Memory,
        _ => return Err("an unknown level".into()),
    };
    block(alloc, number(dataset)?, number(part)?, level, bytes(size)?)
}

// A block of this size: one row of one field, whose bytes tell the block's name.
fn block(
    alloc: Global,
    dataset: u32,
    part: u32,
    level: Level,
    size: u64,
) -> Result<Arc<Block, Global>, Fail> {
    // 64 for the page, 32 for the row, and 4 for the field's length.
    let length = size.checked_sub(100).ok_or("a block without a row")?;
    if length > 1 << 20 {
        return Err("a long field".into());
    }
    let name = dataset.wrapping_mul(16).wrapping_add(part);
    let field = vec![in alloc; (name % 256) as u8; length as usize]?;
    let block = Block {
        dataset,
        part,
        level,
        page: page_of(alloc, &field)?,
    };
    Ok(Arc::new(alloc, block)?)
}

// Whether the block has the rows that one of its name and size is made with.
pub fn is_made(alloc: Global, made: &Block) -> Result<bool, Fail> {
    let other = block(alloc, made.dataset, made.part, made.level, made.size())?;
    Ok(made.page.bytes() == other.page.bytes())
}
