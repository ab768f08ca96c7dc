//! The consumer that spills next, and attempts on the pool.

ghost use Rattle.std.specs.Prelude.{◌≡◌, ◌-◌, ◌<◌, ◌≤◌, ◌^◌, length, map, IfOk, OnOk};
ghost use Rattle.task_pool.specs.Asks.{FirstAsks};
ghost use Rattle.task_pool.specs.Pools.{Goes, IsAtWork};
ghost use Rattle.task_memory.specs.Asks.{Settles, Tries, top_of};
ghost use Rattle.task_memory.specs.Chosen.{IsChoice, candidate_by, use_by};
ghost use Rattle.task_memory.specs.Stacks.{ArePicks, IsNext};

use crate::ask::Ask;
use crate::fault::Fault;
use consumer_trait::{Consumer, is_empty_at, used_at};
use spill_choice::choose;
use std::alloc::Global;
use task_pool::{Pool, pools_go_on};

// What the consumer at a place counts with: whoever asks comes last.
fn use_of<C: Consumer>(consumers: &[C], asker: usize, place: usize) -> u64
    requires within { place < length consumers.now }
    ensures { result ≡ use_by (map C.state consumers.now) asker place }
{
    if place == asker {
        return 0;
    }
    used_at(consumers, place)
}

// Whether the consumer at a place rests and has an entry in memory.
fn is_candidate<C: Consumer>(consumers: &[C], resting: &[bool], place: usize) -> bool
    requires within { place < length consumers.now }
    requires flags { length resting.now ≡ length consumers.now }
    ensures { result ≡ candidate_by (map C.state consumers.now) resting.now place }
{
    if !resting[place] {
        return false;
    }
    !is_empty_at(consumers, place)
}

// The consumer to spill for what the asker lacks, by its place. Consumers are numbered as in `picks`: of equal uses
// the one with the higher number is chosen.
pub(crate) fn choose_next<C: Consumer>(
    alloc: Global,
    consumers: &[C],
    picks: &[usize],
    resting: &[bool],
    asker: usize,
    remainder: u64,
) -> Result<Option<usize>, Fault>
    requires picked { ArePicks picks.now (map C.state consumers.now) }
    requires flags { length resting.now ≡ length consumers.now }
    ensures next { IfOk result (IsNext (map C.state consumers.now) resting.now) }
    ensures chosen { IfOk result (IsChoice (map C.state consumers.now) resting.now picks.now asker remainder) }
{
    let mut uses = Vec::new(alloc);
    let mut candidates = Vec::new(alloc);
    for j in 0..picks.len() {
        let used = use_of(consumers, asker, picks[j]);
        let candidate = is_candidate(consumers, resting, picks[j]);
        if uses.push(used).is_err() || candidates.push(candidate).is_err() {
            return Err(Fault::NoMemory);
        }
    }
    match choose(&uses, &candidates, remainder) {
        Some(consumer) => Ok(Some(picks[consumer])),
        None => Ok(None),
    }
}

// Attempts `want` bytes for the innermost ask.
pub(crate) fn try_pool<P: Pool>(pool: &mut P, asks: &mut Vec<Ask>, want: u64) -> Result<(), Fault>
    requires at_work { IsAtWork (P.state pool.old) }
    requires stack { 1 ≤ length asks.old.items }
    requires some { 1 ≤ want }
    requires most { want ≤ 2 ^ 50 }
    requires small { (top_of asks.old.items).got ≤ 2 ^ 50 }
    ensures tries { OnOk result
        (Tries (P.state pool.old).account (P.state pool.new).account asks.old.items asks.new.items want) }
    ensures kept { length asks.new.items ≡ length asks.old.items }
    ensures first { OnOk result (FirstAsks want (P.state pool.old).worker (P.state pool.new).worker) }
    ensures goes { Goes (P.state pool.old) (P.state pool.new) }
{
    let Ok(got) = pool.acquire(want) else {
        return Err(Fault::NoMemory);
    };
    let top = asks.len() - 1;
    asks[top].got += got;
    Ok(())
}

// Gives back what a spill freed, and attempts what the innermost ask still lacks.
pub(crate) fn settle<P: Pool>(pool: &mut P, asks: &mut Vec<Ask>, freed: u64) -> Result<(), Fault>
    requires at_work { IsAtWork (P.state pool.old) }
    requires stack { 1 ≤ length asks.old.items }
    requires most { (top_of asks.old.items).need ≤ 2 ^ 50 }
    ensures settles { OnOk result
        (Settles (P.state pool.old).account (P.state pool.new).account asks.old.items asks.new.items freed) }
    ensures kept { length asks.new.items ≡ length asks.old.items }
    ensures goes { Goes (P.state pool.old) (P.state pool.new) }
{
    // For the proof: no call is a way to go on, and so are two calls.
    pools_go_on();
    if pool.release(freed).is_err() {
        return Err(Fault::NoMemory);
    }
    let top = asks[asks.len() - 1];
    if top.got >= top.need {
        return Ok(());
    }
    try_pool(pool, asks, top.need - top.got)
}
