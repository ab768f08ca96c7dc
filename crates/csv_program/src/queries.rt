//! The queries of a job over a landed input.

ghost use Rattle.std.specs.Prelude.{◌≡◌, ◌≤◌, ◌<◌, ◌+◌, ◌*◌, ◌-◌, ◌^◌, ℕ, false, All, List, [], None, Some, IfNone, IfSome, is_some, length, map};
ghost use Rattle.std.specs.Io.KnownBytes.{Appends, Keeps};
ghost use Rattle.byte_io.specs.Sinks.{AppendsPrefix};
ghost use Rattle.fault_count.specs.Faults.{Rose};
ghost use Rattle.pool_ledger.specs.Journal.{history_of};
ghost use Rattle.pool_ledger.specs.Legal.{IsLegal};
ghost use Rattle.journal_audit.specs.Text.{text_of};
ghost use Rattle.row_form.specs.Forms.{columns_of};
ghost use Rattle.job_plan.specs.Plans.{first_task_of, form_in, passes_in};
ghost use Rattle.landing.specs.Landed.{partition_of};
ghost use Rattle.task_runner.specs.Consumers.{HasConsumers, KeepsConsumers};
ghost use Rattle.task_runner.specs.Pass.{states_at};
ghost use Rattle.run_file.specs.Several.{KeepsAll};
ghost use Rattle.job_ending.specs.Endings.{MayEndAs, ending_of_totals, printed_in, totals_of};
ghost use Rattle.csv_program.specs.Feeds.{FeedsPlan};
ghost use Rattle.csv_program.specs.Basis.{StandAs};
ghost use Rattle.csv_program.specs.Cached.{GoesBehind, TellsPasses};
ghost use Rattle.csv_program.specs.Charges.{ChargesPlan};
ghost use Rattle.csv_program.specs.Posts.{post_faults, post_files};
ghost use Rattle.csv_program.specs.QueryResults.{HasPasses, SaysParts};
ghost use Rattle.job_ending.specs.Statuses.{IsCut, IsDamaged, IsDamagedOn, IsDiskFault, IsNoRoom, IsOfTasks, MakesPool, WritesNothing};
ghost use Rattle.job_ending.specs.Removals.{RemovesLate};
ghost use Rattle.job_ending.specs.Tasks.{BeginsAll, FollowsPlan, owner_of};
ghost use Rattle.csv_program.specs.Shortage.{ShowsShort};
ghost use Rattle.csv_program.specs.Telling.{status_of_work};
ghost use Rattle.job_ending.specs.Written.{GainsIfAsked};

use crate::pool::run_tasks;
use crate::record::Record;
use crate::table::print_answers;
use byte_io::Sink;
use consumer_trait::Consumer;
use job_answer::short_shapes_are_told;
use job_ending::{Outcome, RunCall, Status, unpooled};
use job_plan::Plan;
use memory_lock::Basis;
use run_file::Run;
use spill_disk::Disk;
use std::alloc::Global;
use std::sync::Wait;
use std::thread::Threads;
use task_runner::{Gate, Post, WorkFault};

/// Does the tasks of a plan over landed partitions, in the pool of what is asked for, checks the sums, writes the journal, if that
/// is asked for, and prints the tables.
pub fn run_queries<
    K: Disk + Send,
    D: Disk + Send,
    C: Consumer + Send,
    J: Sink,
    W: Sink,
    B: Basis + Send + Sync,
    R: Threads + Wait + Sync,
    G: Gate + Sync,
>(
    rt: &R,
    alloc: Global,
    asked: &RunCall,
    store: K,
    plan: &Plan,
    parts: &[Run],
    posts: &mut Vec<Post<D, C>>,
    journal: &mut J,
    output: &mut W,
    gate: &G,
) -> Outcome
    requires basis { asked.now.pool ≡ B.sizes }
    requires owner { (task : ℕ) → B.owner task ≡ owner_of 0 0 asked.now.pool.workers (length parts.now) (length (passes_in plan.now)) task }
    requires rows { is_some (K.files store) ≡ false → (dataset part : ℕ) → B.rows dataset part ≡ None }
    requires said { SaysParts (post_files D.files posts.old) B.rows plan.now parts.now asked.now.part_rows
        asked.now.pool.workers }
    requires parts { 1 ≤ asked.now.part_rows }
    requires some { 1 ≤ asked.now.pool.workers }
    requires posts { asked.now.pool.workers ≤ length posts.old.items }
    requires few_posts { length posts.old.items < 2 ^ 32 - 1 }
    requires few { length parts.now ≤ 10000000 }
    requires short { All (λ run. run.greatest ≤ 36 + 4 * columns_of (form_in plan.now) + 65536) parts.now }
    requires first { first_task_of plan.now ≡ 0 }
    requires passes { HasPasses plan.now }
    requires consumers { All (λ post. HasConsumers (map C.state post.consumers.items)) posts.old.items }
    ensures ending { (rows : List (List (List ℕ))) →
        StandAs B.rows (post_files D.files posts.old) asked.now plan.now parts.now rows →
        MayEndAs (ending_of_totals plan.now (totals_of plan.now rows)) result.status }

    // What is written.
    ensures done { (rows : List (List (List ℕ))) →
        StandAs B.rows (post_files D.files posts.old) asked.now plan.now parts.now rows →
        result.status ≡ Status.Done →
        Appends (W.written output.old) (W.written output.new) (printed_in (ending_of_totals plan.now (totals_of plan.now rows))) }
    ensures prefix { (rows : List (List (List ℕ))) →
        StandAs B.rows (post_files D.files posts.old) asked.now plan.now parts.now rows →
        IsCut result.status →
        AppendsPrefix (W.written output.old) (W.written output.new) (printed_in (ending_of_totals plan.now (totals_of plan.now rows))) }
    ensures nothing { WritesNothing result.status → Keeps (W.written output.old) (W.written output.new) }
    ensures gains { IfSome result.setup (λ setup. GainsIfAsked asked.now.journal result.status
        (text_of setup result.journal)
        (J.written journal.old) (J.written journal.new)) }
    ensures unpooled { IfNone result.setup (Keeps (J.written journal.old) (J.written journal.new)) }

    // The causes of statuses.
    ensures write { result.status ≡ Status.WriteFault → Rose (W.faults output.old) (W.faults output.new) }
    ensures recorded { result.status ≡ Status.JournalFault → Rose (J.faults journal.old) (J.faults journal.new) }
    ensures disk { IsDiskFault result.status (λ post. Rose (post_faults D.faults posts.old post) (post_faults D.faults posts.new post)) }
    ensures damaged { IsDamaged result.status (λ kept found. found < kept) }
    ensures named { IsDamagedOn result.status (λ post. post < asked.now.pool.workers) }
    ensures no_room { IsNoRoom result.status (ShowsShort asked.now.pool result.journal) }
    ensures of_tasks { IsOfTasks result.status }

    // The pool and its journal.
    ensures made { MakesPool result.status → result.setup ≡ Some asked.now.pool }
    ensures setup { IfSome result.setup (λ setup. setup ≡ asked.now.pool) }
    ensures none { IfNone result.setup (result.journal ≡ []) }
    ensures legal { IfSome result.setup (λ setup. IsLegal asked.now.pool (history_of result.journal)) }
    ensures tasks { FollowsPlan (owner_of 0 0 asked.now.pool.workers (length parts.now) (length (passes_in plan.now))) result.journal }
    ensures told { result.status ≡ Status.Done → TellsPasses plan.now asked.now.pool.workers (length parts.now)
        (length (passes_in plan.now)) result.journal }
    ensures removes { result.status ≡ Status.Done
        → RemovesLate plan.now asked.now.pool.workers (length parts.now) result.journal }
    ensures gone { result.status ≡ Status.Done
        → GoesBehind plan.now (length parts.now) (length (passes_in plan.now)) result.journal }
    ensures charged { result.status ≡ Status.Done → (rows : List (List (List ℕ))) →
        StandAs B.rows (post_files D.files posts.old) asked.now plan.now parts.now rows →
        ChargesPlan (states_at C.state posts.old.items) plan.now (length parts.now)
        (λ part. partition_of asked.now.part_rows part rows) asked.now.pool.workers result.journal }
    ensures all { result.status ≡ Status.Done → BeginsAll 0 (length parts.now) (length (passes_in plan.now)) result.journal }

    // The posts.
    ensures fed { result.status ≡ Status.Done → (rows : List (List (List ℕ))) →
        StandAs B.rows (post_files D.files posts.old) asked.now plan.now parts.now rows →
        (worker : ℕ) → worker < asked.now.pool.workers → FeedsPlan (states_at C.state posts.old.items worker)
        (states_at C.state posts.new.items worker) plan.now (length parts.now) (λ part. partition_of asked.now.part_rows part rows)
        asked.now.pool.workers worker }
    ensures others { (place : ℕ) → asked.now.pool.workers ≤ place
        → states_at C.state posts.new.items place ≡ states_at C.state posts.old.items place }
    ensures consumers { (place : ℕ) → KeepsConsumers (states_at C.state posts.old.items place) (states_at C.state posts.new.items place) }
    ensures files { KeepsAll (post_files D.files posts.old) (post_files D.files posts.new) }
    ensures later { (place : ℕ) → post_faults D.faults posts.old place ≤ post_faults D.faults posts.new place }
{
    short_shapes_are_told();
    let pool = asked.pool;
    let (told, entries) = run_tasks::<K, D, C, B, R, G>(
        rt, alloc, asked, store, plan, parts, posts, gate,
    );
    let Some(entries) = entries else {
        return unpooled(alloc, Status::NoMemory);
    };
    let status = match told {
        Ok(answers) => {
            let record = Record {
                asked: asked.journal,
                setup: pool,
                journal: &entries,
            };
            print_answers(alloc, posts, plan, &answers, &record, journal, output)
        }
        Err(fault) => status_of_fault(fault),
    };
    Outcome {
        status,
        setup: Some(pool),
        journal: entries,
    }
}

// The status that tells a fault of tasks.
fn status_of_fault(fault: WorkFault) -> Status
    ensures { result ≡ status_of_work fault }
{
    match fault {
        WorkFault::NoRoom { asked, held, floor } => Status::NoRoom { asked, held, floor },
        WorkFault::DiskFault { post } => Status::DiskFault { post },
        WorkFault::Damaged(damage) => Status::from(damage),
        WorkFault::NoMemory => Status::NoMemory,
    }
}
