ghost use Rattle.std.specs.Prelude.{ℕ, ◌≡◌, ◌≤◌, ◌<◌, ◌^◌, length, take, IfSome, IfNone};
ghost use Rattle.std.specs.Option.{option_map};
ghost use Rattle.pool_ledger.specs.Blocks.{front_reaching};
ghost use Rattle.eviction.specs.Victims.{evictable, sizes};

use crate::candidate::Candidate;

/// Among how many of the first blocks the victims are. None where all that may go don't free `need`
/// bytes: then nothing is to be evicted.
///
/// The blocks stand in use order, the least recently used first. The victims are those of the first
/// blocks that may be evicted: the ones that aren't pinned, and not of the dataset that is excepted.
/// Source: Spark, `MemoryStore.evictBlocksToFreeSpace`.
pub fn victims(list: &[Candidate], need: u64, except: Option<u32>) -> Option<usize>
    requires some_need { 1 ≤ need }
    requires small { sizes list.now ≤ 2 ^ 50 }
    ensures front { option_map (λ count. evictable except (take count list.now)) result
        ≡ front_reaching (λ block. block.size) need (evictable except list.now) }
    ensures within { IfSome result (λ count. count ≤ length list.now) }

    // They free what is needed, and fewer of the first blocks don't.
    ensures reach { IfSome result (λ count. need ≤ sizes (evictable except (take count list.now))) }
    ensures least { IfSome result (λ count. (fewer : ℕ) → fewer < count
        → sizes (evictable except (take fewer list.now)) < need) }
    ensures none { IfNone result (sizes (evictable except list.now) < need) }
{
    let mut reached: u64 = 0;
    for (index, block) in list.iter().enumerate() {
        if block.may_go(except) {
            reached += block.size;
            if reached >= need {
                return Some(index + 1);
            }
        }
    }
    None
}
