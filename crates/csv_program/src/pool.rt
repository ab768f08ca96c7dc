//! The tasks of a run in a pool of its own.

ghost use Rattle.std.specs.Prelude.{◌≡◌, ◌≤◌, ◌<◌, ◌+◌, ◌*◌, ◌-◌, ◌%◌, ◌^◌, false, All, List, ℕ, Err, IfNone, IfOk, IfSome, None, OnOk, Some, is_some, length, map, slice_index, slice_index_or};
ghost use Rattle.job_answer.specs.Parts.{PartsTellAll};
ghost use Rattle.row_form.specs.Forms.{columns_of};
ghost use Rattle.job_plan.specs.Plans.{first_task_of, form_in, kept_in, passes_in};
ghost use Rattle.memory_lock.specs.Workers.{own_of};
ghost use Rattle.pool_ledger.specs.Journal.{history_of};
ghost use Rattle.pool_ledger.specs.Legal.{IsLegal};
ghost use Rattle.task_runner.specs.Answers.{HasCauseAmong};
ghost use Rattle.task_runner.specs.Blocks.{TellsTask};
ghost use Rattle.task_runner.specs.Charging.{IsPartCharged};
ghost use Rattle.task_runner.specs.Consumers.{HasConsumers, KeepsConsumers};
ghost use Rattle.task_runner.specs.PartAnswers.{HoldsAll, SaysAll};
ghost use Rattle.task_runner.specs.Pass.{FeedsParts, states_at};
ghost use Rattle.run_file.specs.Several.{KeepsAll};
ghost use Rattle.task_runner.specs.PassViews.{parts_of, queries_of};
ghost use Rattle.task_runner.specs.Queries.{IsPass};
ghost use Rattle.task_runner.specs.Workers.{IfSound};
ghost use Rattle.task_runner.specs.Works.{IfNoRoom, ShowsNoRoom};
ghost use Rattle.turn_lock.specs.Passes.{WorkerView};
ghost use Rattle.csv_program.specs.Cached.{EachTells, GoesBehind, TellsPasses};
ghost use Rattle.csv_program.specs.Charges.{EachCharges, ChargesPlan};
ghost use Rattle.csv_program.specs.Doing.{AreBetween, EachBegins, EachRemoves, EachSees, OwnsPass};
ghost use Rattle.csv_program.specs.Feeds.{FeedsPlan};
ghost use Rattle.csv_program.specs.Passing.{ArePut, HavePass, LeavesPosts};
ghost use Rattle.csv_program.specs.Posts.{DamagedOn, post_faults, post_files};
ghost use Rattle.csv_program.specs.QueryResults.{HasPasses, HaveResults, HoldsParts, SaysParts, totals_of_parts};
ghost use Rattle.job_ending.specs.Removals.{RemovesLate, free_from};
ghost use Rattle.job_ending.specs.Tasks.{BeginsAll, FollowsPlan, owner_of};
ghost use Rattle.csv_program.specs.Shortage.{ShowsShort};

use crate::clearing::remove_blocks;
use crate::finishing::finish;
use consumer_trait::Consumer;
use job_answer::parts_tell_all;
use job_ending::RunCall;
use job_plan::Plan;
use memory_lock::{Basis, Manager, Worker};
use pool_laws::legal_journals_are_safe;
use pool_ledger::Journal;
use run_file::Run;
use spill_disk::Disk;
use std::alloc::{AllocError, Global};
use std::sync::Wait;
use std::thread::Threads;
use task_runner::{Executor, Gate, Pass, Post, WorkFault, run_workers};

/// Does all tasks of a plan over landed partitions, in a pool of these sizes, pass by pass: those of the partitions,
/// each worker in a thread of its own, and then the pass's final one on this thread, which merges the runs of each of
/// its queries into the query's answer. Behind the last pass that needs a kept dataset its blocks are removed. The answers
/// stand in the order of the plan's queries. There is no journal exactly where no pool could be made.
pub fn run_tasks<
    K: Disk + Send,
    D: Disk + Send,
    C: Consumer + Send,
    B: Basis + Send + Sync,
    R: Threads + Wait + Sync,
    G: Gate + Sync,
>(
    rt: &R,
    alloc: Global,
    asked: &RunCall,
    store: K,
    plan: &Plan,
    parts: &[Run],
    posts: &mut Vec<Post<D, C>>,
    gate: &G,
) -> (Result<Vec<Option<Run>>, WorkFault>, Option<Journal>)
    requires basis { asked.now.pool ≡ B.sizes }
    requires owner { (task : ℕ)
        → B.owner task ≡ owner_of 0 0 asked.now.pool.workers (length parts.now) (length (passes_in plan.now)) task }
    requires rows { is_some (K.files store) ≡ false → (dataset part : ℕ) → B.rows dataset part ≡ None }
    requires said { SaysParts (post_files D.files posts.old) B.rows plan.now parts.now asked.now.part_rows
        asked.now.pool.workers }
    requires posts { asked.now.pool.workers ≤ length posts.old.items }
    requires few_posts { length posts.old.items < 2 ^ 32 - 1 }
    requires few { length parts.now ≤ 10000000 }
    requires short { All (λ run. run.greatest ≤ 36 + 4 * columns_of (form_in plan.now) + 65536) parts.now }
    requires first { first_task_of plan.now ≡ 0 }
    requires passes { HasPasses plan.now }
    requires consumers { All (λ post. HasConsumers (map C.state post.consumers.items)) posts.old.items }
    ensures count { IfOk result.0 (λ answers. length answers.items ≡ length (kept_in plan.now)) }
    ensures answer { (rows : ℕ → List (List (List ℕ))) →
        HoldsParts (post_files D.files posts.old) B.rows plan.now parts.now asked.now.part_rows
        asked.now.pool.workers rows →
        IfSound (λ answers. HaveResults (post_files D.files posts.new) plan.now
        (totals_of_parts plan.now (length parts.now) rows) answers.items) result.0 }
    ensures there { IfOk result.0 (λ answers.
        All (λ answer. IfSome answer (λ run. run.disk < asked.now.pool.workers)) answers.items) }

    // The posts.
    ensures fed { OnOk result.0 ((rows : ℕ → List (List (List ℕ))) →
        HoldsParts (post_files D.files posts.old) B.rows plan.now parts.now asked.now.part_rows
        asked.now.pool.workers rows →
        (worker : ℕ) → worker < asked.now.pool.workers → FeedsPlan (states_at C.state posts.old.items worker)
        (states_at C.state posts.new.items worker) plan.now (length parts.now) rows asked.now.pool.workers worker) }
    ensures others { (place : ℕ) → asked.now.pool.workers ≤ place
        → states_at C.state posts.new.items place ≡ states_at C.state posts.old.items place }
    ensures consumers { (place : ℕ)
        → KeepsConsumers (states_at C.state posts.old.items place) (states_at C.state posts.new.items place) }
    ensures same_posts { length posts.new.items ≡ length posts.old.items }
    ensures files { KeepsAll (post_files D.files posts.old) (post_files D.files posts.new) }
    ensures later { (place : ℕ) → post_faults D.faults posts.old place ≤ post_faults D.faults posts.new place }
    ensures cause { HasCauseAmong (post_faults D.faults posts.old) (post_faults D.faults posts.new) result.0 }
    ensures named { DamagedOn result.0 (λ post. post < asked.now.pool.workers) }

    // The journal.
    ensures none { IfNone result.1 (result.0 ≡ Err WorkFault.NoMemory) }
    ensures legal { IfSome result.1 (λ journal. IsLegal asked.now.pool (history_of journal)) }
    ensures tasks { IfSome result.1 (λ journal.
        FollowsPlan (owner_of 0 0 asked.now.pool.workers (length parts.now) (length (passes_in plan.now))) journal) }
    ensures all { OnOk result.0 (IfSome result.1 (λ journal.
        BeginsAll 0 (length parts.now) (length (passes_in plan.now)) journal)) }
    ensures charged { OnOk result.0 ((rows : ℕ → List (List (List ℕ))) →
        HoldsParts (post_files D.files posts.old) B.rows plan.now parts.now asked.now.part_rows
        asked.now.pool.workers rows → IfSome result.1 (λ journal.
        ChargesPlan (states_at C.state posts.old.items) plan.now (length parts.now) rows asked.now.pool.workers journal)) }
    ensures told { OnOk result.0 (IfSome result.1 (λ journal. TellsPasses plan.now asked.now.pool.workers
        (length parts.now) (length (passes_in plan.now)) journal)) }
    ensures removes { OnOk result.0 (IfSome result.1
        (RemovesLate plan.now asked.now.pool.workers (length parts.now))) }
    ensures gone { OnOk result.0 (IfSome result.1
        (GoesBehind plan.now (length parts.now) (length (passes_in plan.now)))) }
    ensures no_room { IfNoRoom result.0 (λ wanted held floor.
        IfSome result.1 (λ journal. ShowsShort asked.now.pool journal wanted held floor)) }
{
    // The range of all sizes is known with one of them.
    let pool = asked.pool;
    let _range = pool.max();
    parts_tell_all();
    legal_journals_are_safe();
    let Ok((manager, mut workers)) = Manager::<K, B>::start(alloc, pool, store) else {
        return (Err(WorkFault::NoMemory), None);
    };
    let executor = Executor {
        rt,
        alloc,
        manager: &manager,
    };
    let answers = run_passes(
        &executor,
        &mut workers,
        plan,
        parts,
        asked.part_rows,
        posts,
        gate,
    );
    let (journal, _store) = manager.close(workers);
    (answers, Some(journal))
}

// Does the tasks of all passes with these workers, one pass after the other. An error of a pass ends all.
fn run_passes<
    K: Disk + Send,
    D: Disk + Send,
    C: Consumer + Send,
    B: Basis + Send + Sync,
    R: Threads + Wait + Sync,
    G: Gate + Sync,
>(
    executor: &Executor<'_, R, K, B>,
    workers: &mut Vec<Worker<B>>,
    plan: &Plan,
    parts: &[Run],
    part_rows: u64,
    posts: &mut Vec<Post<D, C>>,
    gate: &G,
) -> Result<Vec<Option<Run>>, WorkFault>
    requires workers { AreBetween executor.now.manager.now B.owner B.sizes.workers 0 workers.old.items }
    requires new { EachRemoves (free_from plan.now (length parts.now)) B.sizes.workers 0 workers.old.items }
    requires some { 1 ≤ B.sizes.workers }
    requires owner { (task : ℕ)
        → B.owner task ≡ owner_of 0 0 B.sizes.workers (length parts.now) (length (passes_in plan.now)) task }
    requires said { SaysParts (post_files D.files posts.old) B.rows plan.now parts.now part_rows B.sizes.workers }
    requires posts { B.sizes.workers ≤ length posts.old.items }
    requires few_posts { length posts.old.items < 2 ^ 32 - 1 }
    requires few { length parts.now ≤ 10000000 }
    requires short { All (λ run. run.greatest ≤ 36 + 4 * columns_of (form_in plan.now) + 65536) parts.now }
    requires first { first_task_of plan.now ≡ 0 }
    requires passes { HasPasses plan.now }
    requires consumers { All (λ post. HasConsumers (map C.state post.consumers.items)) posts.old.items }
    requires told { PartsTellAll }
    ensures count { IfOk result (λ answers. length answers.items ≡ length (kept_in plan.now)) }
    ensures answer { (rows : ℕ → List (List (List ℕ))) →
        HoldsParts (post_files D.files posts.old) B.rows plan.now parts.now part_rows B.sizes.workers rows →
        IfSound (λ answers. HaveResults (post_files D.files posts.new) plan.now
        (totals_of_parts plan.now (length parts.now) rows) answers.items) result }
    ensures there { IfOk result (λ answers.
        All (λ answer. IfSome answer (λ run. run.disk < B.sizes.workers)) answers.items) }

    // The posts.
    ensures fed { OnOk result ((rows : ℕ → List (List (List ℕ))) →
        HoldsParts (post_files D.files posts.old) B.rows plan.now parts.now part_rows B.sizes.workers rows →
        (worker : ℕ) → worker < B.sizes.workers → FeedsPlan (states_at C.state posts.old.items worker)
        (states_at C.state posts.new.items worker) plan.now (length parts.now) rows B.sizes.workers worker) }
    ensures posts { LeavesPosts C.state D.files D.faults B.sizes.workers posts.old posts.new }
    ensures cause { HasCauseAmong (post_faults D.faults posts.old) (post_faults D.faults posts.new) result }
    ensures named { DamagedOn result (λ post. post < B.sizes.workers) }

    // The workers' own entries.
    ensures workers { AreBetween executor.now.manager.now B.owner B.sizes.workers
        (length (passes_in plan.now) * (length parts.now + 1)) workers.new.items }
    ensures begun { OnOk result (EachBegins B.owner B.sizes.workers
        (length (passes_in plan.now) * (length parts.now + 1)) workers.new.items) }
    ensures charged { OnOk result ((rows : ℕ → List (List (List ℕ))) →
        HoldsParts (post_files D.files posts.old) B.rows plan.now parts.now part_rows B.sizes.workers rows →
        EachCharges (states_at C.state posts.old.items) plan.now (length parts.now) rows B.sizes.workers
        (length (passes_in plan.now)) workers.new.items) }
    ensures told { OnOk result (EachTells plan.now B.sizes.workers (length parts.now) (length (passes_in plan.now))
        workers.new.items) }
    ensures removes { OnOk result (EachRemoves (free_from plan.now (length parts.now)) B.sizes.workers
        (length (passes_in plan.now) * (length parts.now + 1)) workers.new.items) }
    ensures gone { OnOk result ((any : WorkerView) → GoesBehind plan.now (length parts.now)
        (length (passes_in plan.now)) (slice_index_or workers.new.items 0 any).seen) }
    ensures no_room { IfNoRoom result (λ asked held floor. (worker task : ℕ) × (worker < B.sizes.workers)
        × ((any : WorkerView)
        → ShowsNoRoom B.sizes (own_of (slice_index_or workers.new.items worker any)) task asked held floor)) }
{
    let Ok(mut answers) = no_answers(executor.alloc, plan.query_count()) else {
        return Err(WorkFault::NoMemory);
    };
    // For the proof: the plan's datasets are a chain.
    let _chain = plan.chain();
    for number in 0..plan.passes() {
        let queries = plan.queries(number);
        let pass = Pass {
            plan,
            dataset: plan.dataset(number),
            queries,
            parts,
            part_rows,
            first: plan.task(parts.len() as u32, number, 0),
        };
        match work(executor, workers, &pass, posts, gate) {
            Ok(found) => put_answers(&mut answers, queries, &found),
            Err(fault) => return Err(fault),
        }
        let Ok(()) = remove_blocks(executor, workers, plan.removed(number)) else {
            return Err(WorkFault::NoMemory);
        };
    }
    Ok(answers)
}

// A list of so many places without an answer.
fn no_answers(alloc: Global, count: u32) -> Result<Vec<Option<Run>>, AllocError>
    ensures count { IfOk result (λ answers. length answers.items ≡ count) }
    ensures none { IfOk result (λ answers. All (λ answer. answer ≡ None) answers.items) }
{
    let mut answers = Vec::new(alloc);
    for _ in 0..count {
        answers.push(None)?;
    }
    Ok(answers)
}

// Puts the answers to these queries at the queries' places.
fn put_answers(answers: &mut Vec<Option<Run>>, queries: &[u32], found: &[Option<Run>])
    requires known { (i : ℕ) → i < length queries.now → slice_index queries.now i < length answers.old.items }
    requires found { length found.now ≡ length queries.now }
    ensures { ArePut queries.now found.now answers.old.items answers.new.items (length queries.now) }
{
    for i in 0..queries.len() {
        answers[queries[i] as usize] = found[i];
    }
}

// Does all tasks of a pass with these workers: each worker's own, and the final one by the first.
fn work<
    K: Disk + Send,
    D: Disk + Send,
    C: Consumer + Send,
    B: Basis + Send + Sync,
    R: Threads + Wait + Sync,
    G: Gate + Sync,
>(
    executor: &Executor<'_, R, K, B>,
    workers: &mut Vec<Worker<B>>,
    pass: &Pass<'_>,
    posts: &mut Vec<Post<D, C>>,
    gate: &G,
) -> Result<Vec<Option<Run>>, WorkFault>
    requires workers { AreBetween executor.now.manager.now B.owner B.sizes.workers pass.now.first workers.old.items }
    requires begun { EachBegins B.owner B.sizes.workers pass.now.first workers.old.items }
    requires some { 1 ≤ B.sizes.workers }
    requires owner { OwnsPass B.owner B.sizes.workers (parts_of pass.now) pass.now.first }
    requires said { SaysAll (post_files D.files posts.old) B.rows pass.now B.sizes.workers }
    requires posts { B.sizes.workers ≤ length posts.old.items }
    requires few_posts { length posts.old.items < 2 ^ 32 - 1 }
    requires pass { IsPass pass.now }
    requires consumers { All (λ post. HasConsumers (map C.state post.consumers.items)) posts.old.items }
    requires told { PartsTellAll }
    ensures count { IfOk result (λ answers. length answers.items ≡ queries_of pass.now) }
    ensures answer { (rows : ℕ → List (List (List ℕ))) →
        HoldsAll (post_files D.files posts.old) B.rows pass.now B.sizes.workers rows →
        IfSound (λ answers. HavePass (post_files D.files posts.new) pass.now rows answers.items) result }
    ensures there { IfOk result (λ answers.
        All (λ answer. IfSome answer (λ run. run.disk < B.sizes.workers)) answers.items) }

    // The posts.
    ensures fed { OnOk result ((worker : ℕ) → worker < B.sizes.workers
        → FeedsParts (states_at C.state posts.old.items worker) (states_at C.state posts.new.items worker)
        (post_files D.files posts.old worker) B.rows pass.now B.sizes.workers worker) }
    ensures posts { LeavesPosts C.state D.files D.faults B.sizes.workers posts.old posts.new }
    ensures cause { HasCauseAmong (post_faults D.faults posts.old) (post_faults D.faults posts.new) result }
    ensures named { DamagedOn result (λ post. post < B.sizes.workers) }

    // The workers' own entries.
    ensures workers { AreBetween executor.now.manager.now B.owner B.sizes.workers
        (pass.now.first + parts_of pass.now + 1) workers.new.items }
    ensures begun { OnOk result (EachBegins B.owner B.sizes.workers
        (pass.now.first + parts_of pass.now + 1) workers.new.items) }
    ensures sees { EachSees B.sizes.workers workers.old.items workers.new.items }
    ensures charged { OnOk result ((part : ℕ) (any : WorkerView) → part < parts_of pass.now
        → IsPartCharged (states_at C.state posts.old.items (part % B.sizes.workers))
        (post_files D.files posts.old (part % B.sizes.workers)) B.rows pass.now part
        (own_of (slice_index_or workers.new.items (part % B.sizes.workers) any))) }
    ensures told { OnOk result ((part : ℕ) (any : WorkerView) → part < parts_of pass.now
        → TellsTask pass.now part (slice_index_or workers.new.items (part % B.sizes.workers) any)) }
    ensures removes { OnOk result ((first : ℕ → ℕ)
        → EachRemoves first B.sizes.workers pass.now.first workers.old.items
        → EachRemoves first B.sizes.workers (pass.now.first + parts_of pass.now + 1) workers.new.items) }
    ensures no_room { IfNoRoom result (λ asked held floor. (worker task : ℕ) × (worker < B.sizes.workers)
        × ((any : WorkerView)
        → ShowsNoRoom B.sizes (own_of (slice_index_or workers.new.items worker any)) task asked held floor)) }
{
    let lists = match run_workers(executor, workers, pass, posts, gate) {
        Ok(lists) => lists,
        Err(fault) => return Err(fault),
    };
    if pass.parts.is_empty() {
        // Without a run nothing is read, so memory alone can be wanting.
        return match finish(executor, workers, pass, posts, lists) {
            Ok(answers) => Ok(answers),
            Err(_) => Err(WorkFault::NoMemory),
        };
    }
    finish(executor, workers, pass, posts, lists)
}
