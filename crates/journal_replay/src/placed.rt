//! Blocks by the places of their last uses in the journal: the next one, the one before, and where stretches of
//! one dataset begin.

ghost use Rattle.std.specs.Prelude.{◌≡◌, ◌≤◌, ◌<◌, ◌+◌, ◌∷◌, ℕ, false, [], IfNone, IfSome, MatchOption};
ghost use Rattle.journal_replay.specs.UseOrder.{block_by, entries_from, is_start};

use crate::block_name::BlockName;
use crate::blocks::Kept;
use std::collections::{BTreeMap, BTreeSet};

/// A block with its name.
#[derive(Clone, Copy, Debug, PartialEq, Eq)]
pub(crate) struct Placed {
    pub(crate) name: BlockName,
    pub(crate) kept: Kept,
}

/// The blocks by their places.
pub(crate) type PlacedBlocks = BTreeMap<u64, Placed>;

/// The first block from this place on, with its place.
pub(crate) fn first_from(blocks: &PlacedBlocks, from: u64) -> Option<(u64, Placed)>
    ensures list { MatchOption result (entries_from from blocks.now.entries ≡ [])
        (λ found. entries_from from blocks.now.entries ≡ found ∷ entries_from (found.0 + 1) blocks.now.entries) }
    ensures found { IfSome result (λ found. (from ≤ found.0) × (block_by blocks.now found.0 ≡ Some found.1)) }
    ensures least { (q : ℕ) (placed : Placed) → block_by blocks.now q ≡ Some placed → from ≤ q
        → IfSome result (λ found. found.0 ≤ q) }
    ensures none { IfNone result ((q : ℕ) (placed : Placed) → block_by blocks.now q ≡ Some placed → q < from) }
{
    match blocks.range(from..).next() {
        Some((place, placed)) => Some((*place, *placed)),
        None => None,
    }
}

/// The last block before this place, with its place.
pub(crate) fn last_before(blocks: &PlacedBlocks, place: u64) -> Option<(u64, Placed)>
    ensures found { IfSome result (λ found. (found.0 < place) × (block_by blocks.now found.0 ≡ Some found.1)) }
    ensures greatest { (q : ℕ) (placed : Placed) → block_by blocks.now q ≡ Some placed → q < place
        → IfSome result (λ found. q ≤ found.0) }
    ensures none { IfNone result ((q : ℕ) (placed : Placed) → block_by blocks.now q ≡ Some placed → place ≤ q) }
{
    match blocks.range(..place).next_back() {
        Some((place, placed)) => Some((*place, *placed)),
        None => None,
    }
}

/// The first place from this one on at which a stretch begins.
pub(crate) fn next_start(starts: &BTreeSet<u64>, from: u64) -> Option<u64>
    ensures found { IfSome result (λ start. from ≤ start) }
    ensures within { IfSome result (λ start. (q : ℕ) → from ≤ q → q < start → is_start starts.now q ≡ false) }
    ensures none { IfNone result ((q : ℕ) → from ≤ q → is_start starts.now q ≡ false) }
{
    match starts.range(from..).next() {
        Some(start) => Some(*start),
        None => None,
    }
}
