//! The first of the blocks in use order, of which no more are looked at than are asked for.

ghost use Rattle.std.specs.Prelude.{◌≡◌, ◌≤◌, ◌<◌, ◌+◌, ◌^◌, ◌∷◌, List, Option, [], map, MatchOption, IfSome};
ghost use Rattle.pool_ledger.specs.Blocks.{is_excepted};
ghost use Rattle.eviction.specs.Victims.{evictable, sizes};
ghost use Rattle.journal_replay.specs.declared.block_name.BlockName.{BlockName};
ghost use Rattle.journal_replay.specs.Checks.{front_in, go_first, is_gone};
ghost use Rattle.journal_replay.specs.Replays.{gone_of};
ghost use Rattle.journal_replay.specs.Tables.{candidate_in};
ghost use Rattle.journal_replay.specs.UseOrder.{candidates_of, entries_from, evictable_from, resident_in, AreStretches, HasRoom};

use crate::blocks::candidate_of;
use crate::pins::Pins;
use crate::placed::{Placed, first_from, next_start};
use crate::use_order::UseOrder;
use eviction::Candidate;
use pool_ledger::{Entry, Event};

/// Some blocks: how many, and their bytes.
#[derive(Clone, Copy, Debug, PartialEq, Eq)]
pub(crate) struct Freed {
    pub(crate) count: u64,
    pub(crate) bytes: u64,
}

/// The first blocks that may go and give this need. `None` is that all of them don't reach it.
pub(crate) fn front_of(
    order: &UseOrder,
    pins: &Pins,
    need: u64,
    except: Option<u32>,
) -> Option<Freed>
    requires stretches { AreStretches order.now.placed order.now.starts }
    requires room { HasRoom order.now.placed }
    requires some_need { 1 ≤ need }
    requires small { sizes (candidates_of pins.now order.now.placed.entries) ≤ 2 ^ 50 }
    ensures { result ≡ front_in except need (candidates_of pins.now order.now.placed.entries) }
{
    // For the proof: a number counts them.
    let _count = order.placed.len();
    let mut count = 0;
    let mut bytes = 0;
    let mut from = 0;
    while let Some((place, placed)) = next_other(order, from, except) {
        from = place + 1;
        let block = candidate_of(placed.name, placed.kept, pins);
        if block.may_go(except) {
            count += 1;
            bytes += block.size;
            if bytes >= need {
                return Some(Freed { count, bytes });
            }
        }
    }
    None
}

/// Whether the evictions are of the first blocks that may go, in order.
pub(crate) fn go_first(
    waiting: &[Entry],
    order: &UseOrder,
    pins: &Pins,
    except: Option<u32>,
) -> bool
    requires stretches { AreStretches order.now.placed order.now.starts }
    requires room { HasRoom order.now.placed }
    ensures { result ≡ go_first except (map gone_of waiting.now) (candidates_of pins.now order.now.placed.entries) }
{
    let mut found = 0;
    let mut from = 0;
    while found < waiting.len() {
        let Some((place, placed)) = next_other(order, from, except) else {
            return false;
        };
        from = place + 1;
        let block = candidate_of(placed.name, placed.kept, pins);
        if block.may_go(except) {
            if !is_gone(waiting[found], block) {
                return false;
            }
            found += 1;
        }
    }
    true
}

// The first block from this place on that isn't of the excepted dataset, with its place. It passes over each
// stretch of that dataset in one step.
fn next_other(order: &UseOrder, from: u64, except: Option<u32>) -> Option<(u64, Placed)>
    requires stretches { AreStretches order.now.placed order.now.starts }
    requires room { HasRoom order.now.placed }
    ensures next { (pins : List (Option BlockName)) → MatchOption result
        (evictable_from except pins from order.now.placed.entries ≡ [])
        (λ found. evictable_from except pins from order.now.placed.entries
        ≡ evictable except (candidate_in pins (resident_in found.1)
        ∷ candidates_of pins (entries_from (found.0 + 1) order.now.placed.entries))) }
    ensures later { IfSome result (λ found. (from ≤ found.0) × (found.0 + 1 < 2 ^ 64)) }
{
    // For the proof: no place stands twice.
    let _count = order.placed.len();
    let mut at = from;
    while let Some((place, placed)) = first_from(&order.placed, at) {
        if !is_excepted(placed.name.dataset, except) {
            return Some((place, placed));
        }
        let Some(start) = next_start(&order.starts, place + 1) else {
            return None;
        };
        at = start;
    }
    None
}

/// Whether the dataset is the excepted one.
pub(crate) fn is_excepted(dataset: u32, except: Option<u32>) -> bool
    ensures { result ≡ is_excepted except dataset }
{
    match except {
        Some(excepted) => dataset == excepted,
        None => false,
    }
}

// Whether the entry is the eviction of this block. Another entry counts as one of no bytes of the first
// block of dataset 0, and none is asked for.
fn is_gone(entry: Entry, block: Candidate) -> bool
    ensures { result ≡ is_gone (gone_of entry) block }
{
    let (dataset, part, size) = match entry.event {
        Event::Evict {
            dataset,
            part,
            size,
            ..
        } => (dataset, part, size),
        _ => (0, 0, 0),
    };
    dataset == block.dataset && part == block.part && size == block.size
}
