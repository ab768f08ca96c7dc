//! What is read off the list of blocks: plans, for which it is filled only where blocks have to go, and what of a
//! dataset may be removed.

ghost use Rattle.std.specs.Prelude.{◌≡◌, ◌≤◌, ◌^◌, length, take, map, count_by, Some, None};
ghost use Rattle.pool_ledger.specs.History.{open_task};
ghost use Rattle.pool_ledger.specs.Blocks.{evictable};
ghost use Rattle.pool_ledger.specs.Answers.{growth, answer, admission};
ghost use Rattle.block_store.specs.Stores.{AreApart, candidate_of};
ghost use Rattle.memory_core.specs.Changes.{may_be_removed};
ghost use Rattle.memory_core.specs.Choices.{least_in};
ghost use Rattle.memory_core.specs.Steady.{IsAmid};

use crate::choice::{count_of, least_of};
use crate::pool::Pool;
use eviction::Candidate;
use pool_plans::{
    AdmissionPlan, AttemptPlan, need_of_admission, plan_admission, plan_attempt, room_for_attempt,
};
use spill_disk::Disk;

impl<K: Disk> Pool<K> {
    // The plan for an ask of this task.
    pub(crate) fn plan_attempt(&mut self, worker: u32, task: u32, asked: u64) -> AttemptPlan
        requires amid { IsAmid self.old.setup self.old.history self.old.cache }
        requires its_task { open_task self.old.history worker ≡ Some task }
        requires few_asked { asked ≤ 2 ^ 50 }
        ensures moved { result.moved ≡ (growth self.old.setup self.old.history asked).moved }
        ensures evictions { result.evictions ≡ length (growth self.old.setup self.old.history asked).evicted }
        ensures got { result.got ≡ answer self.old.setup self.old.history task asked }
        ensures first { take result.evictions (evictable self.old.history None) ≡ (growth self.old.setup self.old.history asked).evicted }
        ensures few { result.evictions ≤ length (evictable self.old.history None) }
        ensures known { result.evictions ≤ length self.old.cache.blocks }
        ensures same { self.new ≡ self.old }
    {
        let room = room_for_attempt(&self.ledger, asked);
        if room.need == 0 {
            return plan_attempt(&self.ledger, room, &[], task, asked);
        }
        plan_attempt(&self.ledger, room, self.store.list(), task, asked)
    }

    // The plan for a block of this size that isn't in memory.
    pub(crate) fn plan_admission(&mut self, dataset: u32, size: u64) -> AdmissionPlan
        requires amid { IsAmid self.old.setup self.old.history self.old.cache }
        ensures admitted { result.admitted ≡ (admission self.old.setup self.old.history dataset size).admitted }
        ensures borrowed { result.borrowed ≡ (admission self.old.setup self.old.history dataset size).borrowed }
        ensures evictions { result.evictions ≡ length (admission self.old.setup self.old.history dataset size).evicted }
        ensures first { take result.evictions (evictable self.old.history (Some dataset)) ≡ (admission self.old.setup self.old.history dataset size).evicted }
        ensures few { result.evictions ≤ length (evictable self.old.history (Some dataset)) }
        ensures same { self.new ≡ self.old }
    {
        if need_of_admission(&self.ledger, size) == 0 {
            return plan_admission(&self.ledger, &[], dataset, size);
        }
        plan_admission(&self.ledger, self.store.list(), dataset, size)
    }

    // How many blocks of a dataset may be removed: those in memory that no pin keeps.
    pub(crate) fn removable(&mut self, dataset: u32) -> u64
        ensures count { result ≡ count_by (may_be_removed dataset) self.old.cache.blocks }
        ensures same { self.new ≡ self.old }
    {
        count_of(self.store.list(), dataset)
    }

    // The one of the least part of these.
    pub(crate) fn next_to_remove(&mut self, dataset: u32) -> Option<Candidate>
        ensures found { result ≡ least_in dataset (map candidate_of self.old.cache.blocks) }
        ensures apart { AreApart self.old.cache.blocks }
        ensures same { self.new ≡ self.old }
    {
        least_of(self.store.list(), dataset)
    }
}
