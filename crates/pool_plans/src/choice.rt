//! Which blocks of a list go.

ghost use Rattle.std.specs.Prelude.{◌≡◌, ◌≤◌, ◌<◌, ◌^◌, ◌==◌, [], if◌then◌else◌, length, take, unwrap_or};
ghost use Rattle.pool_ledger.specs.History.{maximum};
ghost use Rattle.pool_ledger.specs.Blocks.{evictable, sizes, stored, victims};
ghost use Rattle.pool_ledger.specs.Legal.{IsPermitted};
ghost use Rattle.pool_ledger.specs.Sizes.{IsInRange};
ghost use Rattle.pool_laws.specs.Laws.{KeepsLaws};
ghost use Rattle.eviction.specs.Victims.{evictable as going, sizes as bytes_of};
ghost use Rattle.pool_plans.specs.Listed.{listed};

use eviction::{Candidate, victims};
use pool_laws::{permitted_histories_keep_laws, sums_stay_small};
use pool_ledger::Ledger;

// The blocks that go: how many, and their bytes.
#[derive(Clone, Copy)]
pub(crate) struct Freed {
    pub(crate) count: u64,
    pub(crate) bytes: u64,
}

// The blocks that give this need, the first of those that may go; none where all of them don't reach it.
pub(crate) fn freed_by(ledger: &Ledger, list: &[Candidate], need: u64, except: Option<u32>) -> Freed
    requires small { stored ledger.now.history ≤ 2 ^ 50 }
    requires listed { 0 < need → list.now ≡ listed ledger.now.history }
    ensures count { result.count ≡ length (if need == 0 then [] else unwrap_or (victims ledger.now.history need except) []) }
    ensures bytes { result.bytes ≡ sizes (if need == 0 then [] else unwrap_or (victims ledger.now.history need except) []) }
    ensures first { take result.count (evictable ledger.now.history except)
        ≡ (if need == 0 then [] else unwrap_or (victims ledger.now.history need except) []) }
    ensures few { result.count ≤ length (evictable ledger.now.history except) }
    ensures stored { result.bytes ≤ stored ledger.now.history }
{
    if need == 0 {
        return Freed { count: 0, bytes: 0 };
    }
    match victims(list, need, except) {
        Some(among) => sum_of(&list[..among], except),
        None => Freed { count: 0, bytes: 0 },
    }
}

// The blocks of the list that may go.
fn sum_of(list: &[Candidate], except: Option<u32>) -> Freed
    requires small { bytes_of list.now ≤ 2 ^ 50 }
    ensures count { result.count ≡ length (going except list.now) }
    ensures bytes { result.bytes ≡ bytes_of (going except list.now) }
{
    let mut count = 0;
    let mut bytes = 0;
    for block in list {
        if block.may_go(except) {
            count += 1;
            bytes += block.size;
        }
    }
    Freed { count, bytes }
}

// The laws of a ledger's history, and the range of its sizes. It does nothing when run.
pub(crate) fn ledger_keeps_laws(ledger: &Ledger)
    requires { IsPermitted ledger.now.setup ledger.now.history }
    ensures laws { KeepsLaws ledger.now.setup ledger.now.history }
    ensures range { IsInRange ledger.now.setup.maximum ledger.now.setup.region ledger.now.setup.workers }
    ensures small { maximum ledger.now.setup ledger.now.history ≤ 2 ^ 41 }
{
    permitted_histories_keep_laws();
    sums_stay_small();
    let _range = ledger.setup().max();
}
