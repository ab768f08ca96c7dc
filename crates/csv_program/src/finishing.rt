//! The final task of a pass.

ghost use Rattle.std.specs.Prelude.{◌≡◌, ◌≢◌, ◌≤◌, ◌<◌, ◌-◌, ◌^◌, false, List, ℕ, Err, IfOk, IsSome, None, OnOk, Some, is_some, length, map, slice_index_or};
ghost use Rattle.aggregate.specs.Totals.{Entry};
ghost use Rattle.memory_lock.specs.Crew.{AreWorkers};
ghost use Rattle.memory_lock.specs.Workers.{IsFree, KeepsPin, SeesMore, own_of};
ghost use Rattle.pool_ledger.specs.History.{was_begun};
ghost use Rattle.task_memory.specs.RunLists.{lists_of, most_entry_cost};
ghost use Rattle.task_runner.specs.Answers.{HasCauseAmong};
ghost use Rattle.task_runner.specs.Finals.{AreMergedTo, HaveLists, KeepsOtherFiles, MergeTotals};
ghost use Rattle.task_runner.specs.PassViews.{parts_of, queries_of, task_for};
ghost use Rattle.task_runner.specs.Queries.{IsPass};
ghost use Rattle.task_runner.specs.RunsApart.{AllOfLists, AreAllApart};
ghost use Rattle.task_runner.specs.Works.{IfNoRoom, MayWork, ShowsNoRoom, Works};
ghost use Rattle.turn_lock.specs.Passes.{WorkerView};
ghost use Rattle.csv_program.specs.Posts.{DamagedOn, post_faults, post_files};

use consumer_trait::Consumer;
use memory_lock::{Basis, Worker};
use run_file::Run;
use spill_disk::Disk;
use std::sync::Wait;
use task_runner::{Executor, Pass, Post, WorkFault, run_final, swap_consumers, take_consumers};

/// Does the final task of a pass, by the first worker.
pub fn finish<K: Disk, D: Disk, C: Consumer, B: Basis, R: Wait>(
    executor: &Executor<'_, R, K, B>,
    workers: &mut Vec<Worker<B>>,
    pass: &Pass<'_>,
    posts: &mut Vec<Post<D, C>>,
    lists: Vec<Vec<Run>>,
) -> Result<Vec<Option<Run>>, WorkFault>
    requires workers { AreWorkers executor.now.manager.now B.sizes.workers workers.old.items }
    requires some { 1 ≤ B.sizes.workers }
    requires pass { IsPass pass.now }
    requires owner { B.owner (task_for pass.now (parts_of pass.now)) ≡ Some 0 }
    requires free { (any : WorkerView) → IsFree (slice_index_or workers.old.items 0 any) }
    requires fresh { (any : WorkerView)
        → was_begun (own_of (slice_index_or workers.old.items 0 any)) (task_for pass.now (parts_of pass.now)) ≡ false }
    requires posts { B.sizes.workers ≤ length posts.old.items }
    requires few_posts { length posts.old.items < 2 ^ 32 - 1 }
    requires count { length lists.items ≡ queries_of pass.now }
    requires there { AllOfLists (λ run. run.disk < length posts.old.items) (lists_of lists.items) }
    requires bounded { AllOfLists (λ run. run.greatest ≤ most_entry_cost) (lists_of lists.items) }
    ensures merged { IfOk result (λ answers. AreMergedTo (lists_of lists.items) answers.items) }
    ensures answer { (entries : ℕ → List (List Entry)) →
        IsSome (post_files D.files posts.old 0) →
        HaveLists (post_files D.files posts.old) pass.now (lists_of lists.items) entries →
        AreAllApart (λ disk. disk) (lists_of lists.items) →
        MergeTotals (post_files D.files posts.new) pass.now entries result }

    // The first worker's own entries.
    ensures workers { AreWorkers executor.now.manager.now B.sizes.workers workers.new.items }
    ensures works { OnOk result ((any : WorkerView) → Works (task_for pass.now (parts_of pass.now))
        (slice_index_or workers.old.items 0 any) (slice_index_or workers.new.items 0 any)) }
    ensures may_work { (any : WorkerView) → MayWork (task_for pass.now (parts_of pass.now))
        (slice_index_or workers.old.items 0 any) (slice_index_or workers.new.items 0 any) }
    ensures free { (any : WorkerView) → IsFree (slice_index_or workers.new.items 0 any) }
    ensures pin { (any : WorkerView)
        → KeepsPin (slice_index_or workers.old.items 0 any) (slice_index_or workers.new.items 0 any) }
    ensures sees { (any : WorkerView)
        → SeesMore (slice_index_or workers.old.items 0 any) (slice_index_or workers.new.items 0 any) }
    ensures no_room { IfNoRoom result (λ asked held floor. (any : WorkerView)
        → ShowsNoRoom B.sizes (own_of (slice_index_or workers.new.items 0 any))
        (task_for pass.now (parts_of pass.now)) asked held floor) }
    ensures others { (worker : ℕ) (any : WorkerView) → worker ≢ 0
        → slice_index_or workers.new.items worker any ≡ slice_index_or workers.old.items worker any }

    // The posts.
    ensures kept { map (λ post. post.consumers) posts.new.items ≡ map (λ post. post.consumers) posts.old.items }
    ensures same_posts { length posts.new.items ≡ length posts.old.items }
    ensures tells { (place : ℕ)
        → is_some (post_files D.files posts.new place) ≡ is_some (post_files D.files posts.old place) }
    ensures files { KeepsOtherFiles (λ disk. disk) (post_files D.files posts.old) (post_files D.files posts.new)
        (lists_of lists.items) }
    ensures later { (place : ℕ) → post_faults D.faults posts.old place ≤ post_faults D.faults posts.new place }
    ensures cause { HasCauseAmong (post_faults D.faults posts.old) (post_faults D.faults posts.new) result }
    ensures named { (count : ℕ) → 0 < count → AllOfLists (λ run. run.disk < count) (lists_of lists.items)
        → DamagedOn result (λ post. post < count) }
{
    merge_aside(executor, &mut workers[0], pass, posts, lists)
}

// The same by this worker. The consumers are kept aside: a merge on the posts as a shelf says nothing of them.
fn merge_aside<K: Disk, D: Disk, C: Consumer, B: Basis, R: Wait>(
    executor: &Executor<'_, R, K, B>,
    worker: &mut Worker<B>,
    pass: &Pass<'_>,
    posts: &mut Vec<Post<D, C>>,
    lists: Vec<Vec<Run>>,
) -> Result<Vec<Option<Run>>, WorkFault>
    requires manager { worker.old.lock ≡ executor.now.manager.now }
    requires pass { IsPass pass.now }
    requires owner { B.owner (task_for pass.now (parts_of pass.now)) ≡ Some worker.old.number }
    requires free { IsFree worker.old }
    requires fresh { was_begun (own_of worker.old) (task_for pass.now (parts_of pass.now)) ≡ false }
    requires some { 0 < length posts.old.items }
    requires few_posts { length posts.old.items < 2 ^ 32 - 1 }
    requires count { length lists.items ≡ queries_of pass.now }
    requires there { AllOfLists (λ run. run.disk < length posts.old.items) (lists_of lists.items) }
    requires bounded { AllOfLists (λ run. run.greatest ≤ most_entry_cost) (lists_of lists.items) }
    ensures merged { IfOk result (λ answers. AreMergedTo (lists_of lists.items) answers.items) }
    ensures answer { (entries : ℕ → List (List Entry)) →
        IsSome (post_files D.files posts.old 0) →
        HaveLists (post_files D.files posts.old) pass.now (lists_of lists.items) entries →
        AreAllApart (λ disk. disk) (lists_of lists.items) →
        MergeTotals (post_files D.files posts.new) pass.now entries result }

    // The worker's own entries.
    ensures works { OnOk result (Works (task_for pass.now (parts_of pass.now)) worker.old worker.new) }
    ensures may_work { MayWork (task_for pass.now (parts_of pass.now)) worker.old worker.new }
    ensures free { IsFree worker.new }
    ensures pin { KeepsPin worker.old worker.new }
    ensures no_room { IfNoRoom result (λ asked held floor. ShowsNoRoom B.sizes (own_of worker.new)
        (task_for pass.now (parts_of pass.now)) asked held floor) }
    ensures sees { SeesMore worker.old worker.new }
    ensures rests { worker.new.base ≡ None }

    // The posts.
    ensures kept { map (λ post. post.consumers) posts.new.items ≡ map (λ post. post.consumers) posts.old.items }
    ensures same_posts { length posts.new.items ≡ length posts.old.items }
    ensures tells { (place : ℕ)
        → is_some (post_files D.files posts.new place) ≡ is_some (post_files D.files posts.old place) }
    ensures files { KeepsOtherFiles (λ disk. disk) (post_files D.files posts.old) (post_files D.files posts.new)
        (lists_of lists.items) }
    ensures later { (place : ℕ) → post_faults D.faults posts.old place ≤ post_faults D.faults posts.new place }
    ensures cause { HasCauseAmong (post_faults D.faults posts.old) (post_faults D.faults posts.new) result }
    ensures named { (count : ℕ) → 0 < count → AllOfLists (λ run. run.disk < count) (lists_of lists.items)
        → DamagedOn result (λ post. post < count) }
{
    let Ok(mut aside) = take_consumers(executor.alloc, posts) else {
        let _number = worker.number();
        return Err(WorkFault::NoMemory);
    };
    let answers = run_final(executor, worker, pass, posts, lists);
    swap_consumers(posts, &mut aside);
    // That it rests is known with its number.
    let _number = worker.number();
    answers
}
