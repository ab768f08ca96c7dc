//! Entries that are fed to a consumer within a limit.

ghost use Rattle.std.specs.Prelude.{◌≡◌, ◌≤◌, ◌^◌, true, Some, IsSome, IfOk, OnOk};
ghost use Rattle.row_page.specs.Pages.{empty_page};
ghost use Rattle.consumer_trait.specs.States.{IsEntryBy, Rest, as_reset};

use crate::drawn::Drawn;
use aggregate::Kind;
use consumer_trait::{Consumer, Fed, Turn};
use row_page::{PAGE_ROOM, Page};
use std::alloc::{AllocError, Global};

// Spills a consumer, which is granted what it asks for, and answers how many rows that wrote.
fn spill<C: Consumer>(consumer: &mut C, page: &mut Page) -> Result<u64, AllocError>
    requires kind { IsSome (C.state consumer.old).kind }
    requires page { page.old ≡ empty_page }
    ensures kind { IfOk result (λ _. (C.state consumer.new).kind ≡ (C.state consumer.old).kind) }
    ensures rest { IfOk result (λ _. (C.state consumer.new).stage ≡ Rest) }
    ensures page { IfOk result (λ _. page.new ≡ empty_page) }
{
    let mut rows = 0u64;
    for _turn in 0..u64::MAX {
        match consumer.spill_turn(page)? {
            Turn::Ask(bytes) => {
                let free = (1 << 50) - consumer.used();
                consumer.granted(bytes.min(free));
            }
            Turn::Write => {
                rows = rows.saturating_add(page.rows() as u64);
                page.clear();
            }
            Turn::Freed(_) => {}
            Turn::Done => return Ok(rows),
        }
    }
    Err(AllocError)
}

/// Feeds an entry to a consumer that is granted at most `most` bytes: where that isn't enough it is spilled. Answers how
/// many spills there were, and how many rows they wrote.
pub fn feed_one<C: Consumer>(
    consumer: &mut C,
    page: &mut Page,
    key: &[u8],
    value: &[u8],
    most: u64,
) -> Result<(u64, u64), AllocError>
    requires kind { IsSome (C.state consumer.old).kind }
    requires rest { (C.state consumer.old).stage ≡ Rest }
    requires entry { IsEntryBy (C.state consumer.old).kind (record { key = key.now; value = value.now }) }
    requires page { page.old ≡ empty_page }
    requires most { most ≤ 2 ^ 40 }
    ensures kind { IfOk result (λ _. (C.state consumer.new).kind ≡ (C.state consumer.old).kind) }
    ensures rest { IfOk result (λ _. (C.state consumer.new).stage ≡ Rest) }
    ensures page { IfOk result (λ _. page.new ≡ empty_page) }
{
    let mut spills = 0u64;
    let mut rows = 0u64;
    for _attempt in 0..3 {
        let Fed::Need { must, wish } = consumer.feed(key, value)? else {
            return Ok((spills, rows));
        };
        let free = most.saturating_sub(consumer.used());
        if must <= free {
            consumer.granted(wish.min(free));
        } else {
            rows = rows.saturating_add(spill(consumer, page)?);
            spills = spills.saturating_add(1);
        }
    }
    Err(AllocError)
}

/// Feeds a new consumer so many drawn entries, each with a key of 8 to 12 bytes and a value of 34, that of a count and a sum,
/// and grants it at most `most` bytes: where that isn't enough it is spilled. Answers how many spills there were, the last one
/// at the end, and how many rows they wrote: none where the kind takes no such value.
pub fn feed_all<C: Consumer>(
    alloc: Global,
    consumer: &mut C,
    kind: &Kind,
    keys: u64,
    entries: u64,
    most: u64,
    key_bytes: usize,
) -> Result<(u64, u64), AllocError>
    requires serves { (C.state consumer.old).serves kind.now ≡ true }
    requires fresh { C.state consumer.old ≡ as_reset (C.state consumer.old) }
{
    let most = most.clamp(74, 1 << 40);
    // A count and a sum, each a 1 and a number. The sum is known only when the program runs, as a row's value is.
    let mut value = [0; 34];
    value[0] = 1;
    value[17] = 1;
    value[33] = (keys % 256) as u8;
    if !kind.takes(&value) {
        return Ok((0, 0));
    }
    consumer.begin(kind)?;
    let mut page = Page::new(alloc, PAGE_ROOM);
    let mut drawn = Drawn::new();
    let mut spills = 1u64;
    let mut rows = 0u64;
    // Of its bytes the last ones are the number that was drawn: keys that are longer begin alike.
    let mut key = [0; 12];
    let first = 12 - key_bytes.clamp(8, 12);
    for _entry in 0..entries {
        key[4..].copy_from_slice(&drawn.key(keys));
        let (more, written) = feed_one(consumer, &mut page, &key[first..], &value, most)?;
        spills = spills.saturating_add(more);
        rows = rows.saturating_add(written);
    }
    rows = rows.saturating_add(spill(consumer, &mut page)?);
    Ok((spills, rows))
}
