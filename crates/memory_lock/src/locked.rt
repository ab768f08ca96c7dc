//! The state under the lock: each call's conditions and effects in words of a worker's own entries.

ghost use Rattle.std.specs.Prelude.{◌≡◌, ◌<◌, ◌≤◌, ◌+◌, ◌^◌, Option, unwrap_or, Some, None, [], ◌∷◌, ◌++◌, false, min, IfOk, OnOk, OnErr};
ghost use Rattle.std.specs.Arc.{arc_value};
ghost use Rattle.row_page.specs.Spelling.{page_cost};
ghost use Rattle.pool_ledger.specs.Blocks.{worker_pin};
ghost use Rattle.pool_ledger.specs.History.{CanGrow, held, open_task, was_begun};
ghost use Rattle.pool_ledger.specs.Journal.{journal_of};
ghost use Rattle.pool_ledger.specs.Sizes.{IsInRange};
ghost use Rattle.pool_ledger.specs.Workers.{Continues, entries_of};
ghost use Rattle.pool_ledger.specs.declared.entry.Event.TheVariants.{Begin, Release, End, Unpin, Grow};
ghost use Rattle.pool_laws.specs.Growing.{entry_by};
ghost use Rattle.memory_core.specs.Attempts.{granted_in, KeepsFloor};
ghost use Rattle.memory_core.specs.Caches.{AreGiven};
ghost use Rattle.memory_core.specs.Changes.{IsNamed};
ghost use Rattle.memory_lock.specs.Fitting.{FitsBasis, OwnEntriesDecide, TasksFitPool, own_in};
ghost use Rattle.memory_lock.specs.Workers.{AddsAttempt, AdmissionGrows, HandsRows, IsAtMost, PinGrows, RemovalGrows};

use crate::basis::Basis;
use block_store::Block;
use memory_core::{Admission, Attempted, MemoryState, Pinned};
use pool_laws::{own_entries_tell, permitted_histories_keep_laws, sums_stay_small};
use pool_ledger::{Journal, Setup};
use spill_disk::Disk;
use std::alloc::{AllocError, Global};
use std::marker::Model;
use std::mem;
use std::sync::Arc;
use turn_lock::Kept;

// A memory state that lies under the lock, behind a pointer: so a turn moves no more than that.
#[derive(Drop)]
pub(crate) struct Locked<K: Disk> {
    inside: Box<Inside<K>>,
}

// What is behind the pointer: the state, and of which workers the open task has asked before.
#[derive(Drop)]
struct Inside<K: Disk> {
    state: MemoryState<K>,
    asked: [bool; 16],
}

impl<K: Disk> Model for Locked<K> {
    ghost use Rattle.std.specs.Coded.{codes};
    ghost use Rattle.memory_core.specs.Caches.{Memory, files_coded};

    ghost Value = { Memory };

    ghost coded = { Prim.hlevel (codes, files_coded) };

    ghost view = { λ locked. locked.inside.value.state };
}

impl<K: Disk, B: Basis> Kept<B> for Locked<K> {
    ghost use Rattle.pool_ledger.specs.Journal.{journal_of};
    ghost use Rattle.memory_lock.specs.Fitting.{FitsBasis};

    ghost history = { λ locked. journal_of locked.history };

    ghost fact = { λ locked. FitsBasis B.sizes B.owner B.rows locked };
}

// What a task holds is within the pool, by its owner's entries.
fn tasks_fit_the_pool()
    ensures { TasksFitPool }
{
    own_entries_tell();
    permitted_histories_keep_laws();
    sums_stay_small();
}

// A worker's own entries tell what the whole journal would.
fn own_entries_decide()
    ensures { OwnEntriesDecide }
{
    own_entries_tell();
}

impl<K: Disk> Locked<K> {
    // An empty state over this store disk.
    pub(crate) fn new(alloc: Global, setup: Setup, store: K) -> Result<Locked<K>, AllocError>
        ensures setup { IfOk result (λ locked. locked.setup ≡ setup) }
        ensures empty { IfOk result (λ locked. locked.history ≡ []) }
        ensures blocks { IfOk result (λ locked. locked.cache.blocks ≡ []) }
        ensures copies { IfOk result (λ locked. locked.cache.copies ≡ []) }
        ensures files { IfOk result (λ locked. locked.cache.files ≡ K.files store) }
    {
        let inside = Inside {
            state: MemoryState::new(alloc, setup, store),
            asked: [false; 16],
        };
        Ok(Locked {
            inside: Box::new(alloc, inside)?,
        })
    }

    // Begins the worker's task.
    pub(crate) fn begin<B: Basis>(&mut self, worker: u32, task: u32) -> Result<(), AllocError>
        requires fits { FitsBasis B.sizes B.owner B.rows self.old }
        requires known { worker < B.sizes.workers }
        requires owner { B.owner task ≡ Some worker }
        requires free { open_task (own_in worker self.old) worker ≡ None }
        requires fresh { was_begun (own_in worker self.old) task ≡ false }
        ensures fits { FitsBasis B.sizes B.owner B.rows self.new }
        ensures own { Continues worker (journal_of self.old.history) (journal_of self.new.history) }
        ensures ok { OnOk result (entries_of worker (journal_of self.new.history)
            ≡ entries_of worker (journal_of self.old.history) ++ entry_by worker (Begin task) ∷ []) }
        ensures nothing { OnOk result (held (own_in worker self.new) task ≡ 0) }
        ensures err { OnErr result (journal_of self.new.history ≡ journal_of self.old.history) }
    {
        own_entries_decide();
        let state = &mut self.inside.state;
        let begun = state.begin(worker, task);
        let _legal = state.entries();
        begun
    }

    // Whether the next attempt of the worker's task is its first: contracts say nothing of it.
    pub(crate) fn asks_first(&mut self, worker: u32) -> bool
        ensures { self.new ≡ self.old }
    {
        match self.inside.asked.get_mut(worker as usize) {
            Some(asked) => !mem::replace(asked, true),
            None => false,
        }
    }

    // An attempt of the worker's task.
    pub(crate) fn attempt<B: Basis>(
        &mut self,
        worker: u32,
        task: u32,
        asked: u64,
    ) -> Result<Attempted, AllocError>
        requires fits { FitsBasis B.sizes B.owner B.rows self.old }
        requires known { worker < B.sizes.workers }
        requires its_task { open_task (own_in worker self.old) worker ≡ Some task }
        requires some_asked { 1 ≤ asked }
        requires few_asked { asked ≤ 2 ^ 50 }
        requires range { IsInRange B.sizes.maximum B.sizes.region B.sizes.workers }
        ensures fits { FitsBasis B.sizes B.owner B.rows self.new }
        ensures own { Continues worker (journal_of self.old.history) (journal_of self.new.history) }
        ensures ok { IfOk result (λ got. AddsAttempt worker task asked (granted_in got)
            (entries_of worker (journal_of self.old.history)) (entries_of worker (journal_of self.new.history))) }
        ensures few { IfOk result (λ got. IsAtMost asked (granted_in got)) }
        ensures grows { IfOk result (λ got. held (own_in worker self.new) task
            ≡ held (own_in worker self.old) task + unwrap_or (granted_in got) 0) }
        ensures holds { held (own_in worker self.new) task ≤ 2 ^ 41 }
        ensures floor { IfOk result (KeepsFloor B.sizes (held (own_in worker self.old) task) asked) }
        ensures err { OnErr result (journal_of self.new.history ≡ journal_of self.old.history) }
    {
        own_entries_decide();
        tasks_fit_the_pool();
        let state = &mut self.inside.state;
        let answer = state.attempt(worker, task, asked);
        let _legal = state.entries();
        answer
    }

    // A release of the worker's task.
    pub(crate) fn release<B: Basis>(
        &mut self,
        worker: u32,
        task: u32,
        bytes: u64,
    ) -> Result<u64, AllocError>
        requires fits { FitsBasis B.sizes B.owner B.rows self.old }
        requires known { worker < B.sizes.workers }
        requires its_task { open_task (own_in worker self.old) worker ≡ Some task }
        ensures fits { FitsBasis B.sizes B.owner B.rows self.new }
        ensures own { Continues worker (journal_of self.old.history) (journal_of self.new.history) }
        ensures freed { IfOk result (λ freed. freed ≡ min bytes (held (own_in worker self.old) task)) }
        ensures ok { IfOk result (λ freed. entries_of worker (journal_of self.new.history)
            ≡ entries_of worker (journal_of self.old.history) ++ entry_by worker (Release task freed) ∷ []) }
        ensures err { OnErr result (journal_of self.new.history ≡ journal_of self.old.history) }
    {
        own_entries_decide();
        let state = &mut self.inside.state;
        let freed = state.release(worker, task, bytes);
        let _legal = state.entries();
        freed
    }

    // A growth of both pools together by the worker, which is the first.
    pub(crate) fn grow<B: Basis>(&mut self, worker: u32, bytes: u64) -> Result<(), AllocError>
        requires fits { FitsBasis B.sizes B.owner B.rows self.old }
        requires known { worker < B.sizes.workers }
        requires can { CanGrow B.sizes (own_in worker self.old) worker bytes }
        ensures fits { FitsBasis B.sizes B.owner B.rows self.new }
        ensures own { Continues worker (journal_of self.old.history) (journal_of self.new.history) }
        ensures ok { OnOk result (entries_of worker (journal_of self.new.history)
            ≡ entries_of worker (journal_of self.old.history) ++ entry_by worker (Grow bytes) ∷ []) }
        ensures err { OnErr result (journal_of self.new.history ≡ journal_of self.old.history) }
    {
        own_entries_decide();
        let state = &mut self.inside.state;
        let grown = state.grow(worker, bytes);
        let _legal = state.entries();
        grown
    }

    // The end of the worker's task.
    pub(crate) fn end<B: Basis>(&mut self, worker: u32, task: u32) -> u64
        requires fits { FitsBasis B.sizes B.owner B.rows self.old }
        requires known { worker < B.sizes.workers }
        requires its_task { open_task (own_in worker self.old) worker ≡ Some task }
        ensures fits { FitsBasis B.sizes B.owner B.rows self.new }
        ensures own { Continues worker (journal_of self.old.history) (journal_of self.new.history) }
        ensures freed { result ≡ held (own_in worker self.old) task }
        ensures ok { entries_of worker (journal_of self.new.history)
            ≡ entries_of worker (journal_of self.old.history) ++ entry_by worker (End task result) ∷ [] }
    {
        own_entries_decide();
        let state = &mut self.inside.state;
        let freed = state.end(worker, task);
        let _legal = state.entries();
        if let Some(asked) = self.inside.asked.get_mut(worker as usize) {
            *asked = false;
        }
        freed
    }

    // Keeps a block in memory, if there is room.
    pub(crate) fn admit<B: Basis>(
        &mut self,
        worker: u32,
        block: Arc<Block, Global>,
    ) -> Result<Admission, AllocError>
        requires fits { FitsBasis B.sizes B.owner B.rows self.old }
        requires known { worker < B.sizes.workers }
        requires rows { AreGiven B.rows (arc_value block).dataset (arc_value block).part (arc_value block).page.rows }
        ensures fits { FitsBasis B.sizes B.owner B.rows self.new }
        ensures own { Continues worker (journal_of self.old.history) (journal_of self.new.history) }
        ensures ok { IfOk result (λ answer. AdmissionGrows answer (arc_value block) (page_cost (arc_value block).page.rows) worker
            (entries_of worker (journal_of self.old.history)) (entries_of worker (journal_of self.new.history)) self.new.history) }
        ensures err { OnErr result (journal_of self.new.history ≡ journal_of self.old.history) }
    {
        let state = &mut self.inside.state;
        let answer = state.admit(worker, block);
        let _legal = state.entries();
        answer
    }

    // Pins a block for the worker, if it is in memory, or reads its copy.
    pub(crate) fn pin<B: Basis>(
        &mut self,
        worker: u32,
        dataset: u32,
        part: u32,
    ) -> Result<Pinned, AllocError>
        requires fits { FitsBasis B.sizes B.owner B.rows self.old }
        requires known { worker < B.sizes.workers }
        requires free { worker_pin (own_in worker self.old) worker ≡ None }
        ensures fits { FitsBasis B.sizes B.owner B.rows self.new }
        ensures own { Continues worker (journal_of self.old.history) (journal_of self.new.history) }
        ensures ok { IfOk result (λ pinned. PinGrows pinned worker dataset part
            (entries_of worker (journal_of self.old.history)) (entries_of worker (journal_of self.new.history)) self.new.history) }
        ensures rows { IfOk result (λ pinned. HandsRows B.rows pinned dataset part) }
        ensures named { IfOk result (λ pinned. IsNamed pinned dataset part) }
        ensures err { OnErr result (journal_of self.new.history ≡ journal_of self.old.history) }
    {
        own_entries_decide();
        let state = &mut self.inside.state;
        let pinned = state.pin(worker, dataset, part);
        let _legal = state.entries();
        pinned
    }

    // Gives the worker's pin back.
    pub(crate) fn unpin<B: Basis>(&mut self, worker: u32, dataset: u32, part: u32)
        requires fits { FitsBasis B.sizes B.owner B.rows self.old }
        requires known { worker < B.sizes.workers }
        requires its_pin { worker_pin (own_in worker self.old) worker ≡ Some (record { dataset = dataset; part = part }) }
        ensures fits { FitsBasis B.sizes B.owner B.rows self.new }
        ensures own { Continues worker (journal_of self.old.history) (journal_of self.new.history) }
        ensures adds { entries_of worker (journal_of self.new.history)
            ≡ entries_of worker (journal_of self.old.history) ++ entry_by worker (Unpin dataset part) ∷ [] }
    {
        own_entries_decide();
        let state = &mut self.inside.state;
        state.unpin(worker, dataset, part);
        let _legal = state.entries();
    }

    // Removes a dataset's blocks but for pinned ones, and forgets its copies.
    pub(crate) fn remove<B: Basis>(&mut self, worker: u32, dataset: u32) -> Result<(), AllocError>
        requires fits { FitsBasis B.sizes B.owner B.rows self.old }
        requires known { worker < B.sizes.workers }
        ensures fits { FitsBasis B.sizes B.owner B.rows self.new }
        ensures own { Continues worker (journal_of self.old.history) (journal_of self.new.history) }
        ensures ok { OnOk result (RemovalGrows dataset worker
            (entries_of worker (journal_of self.old.history)) (entries_of worker (journal_of self.new.history)) self.new.history) }
        ensures err { OnErr result (journal_of self.new.history ≡ journal_of self.old.history) }
    {
        let state = &mut self.inside.state;
        let removed = state.remove(worker, dataset);
        let _legal = state.entries();
        removed
    }

    // The journal at the end, and the store disk.
    pub(crate) fn close(self) -> (Journal, K)
        ensures journal { result.0 ≡ journal_of self.history }
    {
        let Locked { inside } = self;
        let Inside { state, asked: _ } = Box::into_inner(inside);
        state.close()
    }
}
