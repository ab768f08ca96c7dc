// The blocks that a journal leaves in memory, worked out from its entries alone.
ghost use Rattle.std.specs.Prelude.{◌<◌, length, IfSome};

use eviction::Candidate;
use pool_ledger::{Entry, Event};
use std::alloc::Global;
use std::test::Fail;

// The blocks in memory after these entries, the least recently used first: an admission and a pin put a block last, an eviction
// and a removal take it out.
pub fn blocks_after(alloc: Global, entries: &[Entry]) -> Result<Vec<Candidate>, Fail> {
    let mut blocks = Vec::new(alloc);
    for entry in entries {
        match entry.event {
            Event::Admit {
                dataset,
                part,
                size,
                ..
            } => blocks.push(Candidate {
                dataset,
                part,
                size,
                pinned: is_pinned(entries, dataset, part),
            })?,
            Event::Pin {
                dataset,
                part,
                copy: false,
            } => put_last(&mut blocks, dataset, part)?,
            Event::Evict { dataset, part, .. } | Event::Remove { dataset, part, .. } => {
                take(&mut blocks, dataset, part);
            }
            _ => {}
        }
    }
    Ok(blocks)
}

fn put_last(blocks: &mut Vec<Candidate>, dataset: u32, part: u32) -> Result<(), Fail> {
    let block = take(blocks, dataset, part).ok_or("a pin of a block that isn't there")?;
    blocks.push(block)?;
    Ok(())
}

fn take(blocks: &mut Vec<Candidate>, dataset: u32, part: u32) -> Option<Candidate> {
    let place = place_of(blocks, dataset, part)?;
    Some(blocks.remove(place))
}

fn place_of(blocks: &[Candidate], dataset: u32, part: u32) -> Option<usize>
    ensures { IfSome result (λ place. place < length blocks.now) }
{
    blocks
        .iter()
        .position(|block| block.dataset == dataset && block.part == part)
}

// Whether pins of the block are left, after all entries.
fn is_pinned(entries: &[Entry], dataset: u32, part: u32) -> bool {
    let mut pins = 0u64;
    for entry in entries {
        match entry.event {
            Event::Pin {
                dataset: d,
                part: p,
                copy: false,
            } if d == dataset && p == part => pins = pins.wrapping_add(1),
            Event::Unpin {
                dataset: d,
                part: p,
            } if d == dataset && p == part => pins = pins.wrapping_sub(1),
            _ => {}
        }
    }
    pins > 0
}
