//! The workers of a pass, and what they come to.

ghost use Rattle.std.specs.Prelude.{◌≡◌, ◌≤◌, ◌<◌, ◌^◌, All, List, ℕ, IfOk, None, ⊤, length, map, slice_index_or};
ghost use Rattle.memory_lock.specs.Workers.{own_of};
ghost use Rattle.run_file.specs.Shelved.{faults_on, files_on};
ghost use Rattle.spill_disk.specs.Shelves.{disk_at};
ghost use Rattle.turn_lock.specs.Passes.{WorkerView};
ghost use Rattle.task_runner.specs.AllWorkers.{Finished, Reached};
ghost use Rattle.task_runner.specs.Answers.{HasCauseAmong, NamesSomePost};
ghost use Rattle.task_runner.specs.AtOnce.{MayDoAll, TellsLowest};
ghost use Rattle.task_runner.specs.Consumers.{HasConsumers};
ghost use Rattle.task_runner.specs.PartAnswers.{HoldsAll, SaysAll};
ghost use Rattle.task_runner.specs.Queries.{IsPass};
ghost use Rattle.task_runner.specs.Workers.{IfSound};
ghost use Rattle.task_runner.specs.Works.{IfNoRoom, ShowsNoRoom};

use crate::answers::{all_of, no_answers};
use crate::at_once::run_at_once;
use crate::gate::Gate;
use crate::pass::Pass;
use crate::post::Post;
use crate::work_fault::WorkFault;
use consumer_trait::Consumer;
use lineage::Executor;
use memory_lock::{Basis, Worker};
use run_file::Run;
use spill_disk::Disk;
use std::sync::Wait;
use std::thread::Threads;

/// Does the tasks of all workers at the same time. Answers what each worker answers, in the order of their places, or the fault of
/// the first that failed; the others have then done all their tasks, or failed too.
pub(crate) fn run_each<
    K: Disk + Send,
    D: Disk + Send,
    C: Consumer + Send,
    B: Basis + Send + Sync,
    R: Threads + Wait + Sync,
    G: Gate + Sync,
>(
    executor: &Executor<'_, R, K, B>,
    workers: &mut Vec<Worker<B>>,
    pass: &Pass<'_>,
    posts: &mut Vec<Post<D, C>>,
    gate: &G,
) -> Result<Vec<Vec<Option<Run>>>, WorkFault>
    requires pass { IsPass pass.now }
    requires may { MayDoAll executor.now.manager.now B.owner pass.now workers.old.items }
    requires basis { SaysAll (files_on (disk_at (λ post. post.disk)) D.files posts.old) B.rows pass.now
        (length workers.old.items) }
    requires posts { length workers.old.items ≤ length posts.old.items }
    requires few_posts { length posts.old.items < 2 ^ 32 }
    requires consumers { All (λ post. HasConsumers (map C.state post.consumers.items)) posts.old.items }
    ensures finished { IfOk result (λ all. Finished C.state D.files D.faults (length workers.old.items)
        (length workers.old.items) B.rows pass.now workers.old.items workers.new.items
        posts.old.items posts.new.items (map (λ answers. answers.items) all.items)) }
    ensures reached { Reached C.state D.files D.faults (length workers.old.items) (length workers.old.items) pass.now
        workers.old.items workers.new.items posts.old.items posts.new.items }
    ensures sound { (rows : ℕ → List (List (List ℕ))) →
        HoldsAll (files_on (disk_at (λ post. post.disk)) D.files posts.old) B.rows pass.now
        (length workers.old.items) rows →
        IfSound (λ _. ⊤) result }
    ensures no_room { IfNoRoom result (λ asked held floor. (worker task : ℕ) × (worker < length workers.old.items)
        × ((any : WorkerView) → ShowsNoRoom B.sizes (own_of (slice_index_or workers.new.items worker any)) task
        asked held floor)) }
    ensures names { NamesSomePost (length workers.old.items) result }
    ensures lowest { TellsLowest pass.now (length workers.old.items) workers.old.items workers.new.items result }
    ensures workers { length workers.new.items ≡ length workers.old.items }
    ensures rests { (place : ℕ) (any : WorkerView) → place < length workers.old.items
        → (slice_index_or workers.new.items place any).base ≡ None }
    ensures cause { HasCauseAmong (faults_on (disk_at (λ post. post.disk)) D.faults posts.old)
        (faults_on (disk_at (λ post. post.disk)) D.faults posts.new) result }
{
    let count = workers.len();
    let Ok(mut answers) = no_answers(executor.alloc, count) else {
        return Err(WorkFault::NoMemory);
    };
    run_at_once(executor, count, workers, pass, posts, &mut answers, gate);
    all_of(executor.alloc, answers)
}
