//! The top call.

ghost use Rattle.std.specs.Prelude.{◌≡◌, ◌≢◌, ◌⊎◌, ◌≤◌, ◌<◌, ◌↔◌, ◌-◌, ◌^◌, ℕ, All, [], List, None, Some, IfNone, IfSome, IsSome, length, map};
ghost use Rattle.std.specs.Io.KnownBytes.{Appends, IsAtEnd, Keeps};
ghost use Rattle.byte_io.specs.Sinks.{AppendsPrefix};
ghost use Rattle.fault_count.specs.Faults.{Rose};
ghost use Rattle.journal_audit.specs.Text.{text_of};
ghost use Rattle.journal_replay.specs.Verdicts.{IsVerdict};
ghost use Rattle.journal_replay.specs.declared.verdict.Verdict.TheVariants.{Yes};
ghost use Rattle.landing.specs.Landed.{IsOfInput};
ghost use Rattle.landing.specs.declared.fault.LandFault.{LandFault};
ghost use Rattle.pool_ledger.specs.Journal.{history_of};
ghost use Rattle.pool_ledger.specs.Legal.{IsLegal};
ghost use Rattle.pool_laws.specs.SafeJournal.{IsSafeJournal};
ghost use Rattle.task_runner.specs.Consumers.{HasConsumers, KeepsConsumers};
ghost use Rattle.task_runner.specs.Pass.{states_at};
ghost use Rattle.run_file.specs.Several.{KeepsAll};
ghost use Rattle.words.specs.Texts.{texts};
ghost use Rattle.csv_program.specs.Charges.{ChargesRun};
ghost use Rattle.job_ending.specs.Calls.{ForNoRun, ForRun, IsRun, TellsCall, call_of};
ghost use Rattle.job_ending.specs.Complete.{FailsNothing, GrantsAll};
ghost use Rattle.csv_program.specs.Cached.{HasTasks};
ghost use Rattle.job_ending.specs.Endings.{MayEndAs, Prints, Refuses, checked_for, ending_of, partitions_of, printed_in, status_of};
ghost use Rattle.csv_program.specs.Feeds.{FeedsRun};
ghost use Rattle.job_ending.specs.Posts.{AllTell};
ghost use Rattle.csv_program.specs.Posts.{post_faults, post_files};
ghost use Rattle.job_ending.specs.Statuses.{IsCut, IsDamaged, IsDamagedOn, IsDiskFault, IsJudged, IsNoRoom, IsUnlanded, MakesPool, WritesNothing};
ghost use Rattle.job_ending.specs.Tasks.{BeginsAll, FollowsPlan};
ghost use Rattle.csv_program.specs.Shortage.{ShowsShort};
ghost use Rattle.job_ending.specs.Written.{GainsIfAsked};

use crate::asked::read_call;
use crate::audited::journal_is_audited;
use crate::input::land_on;
use crate::queries::run_queries;
use byte_io::{Sink, Source};
use consumer_trait::Consumer;
use job_answer::{plans_derive_rows, totals_tell_queries};
use job_ending::{Outcome, RunCall, Status, unpooled};
use landing::LandFault;
use pool_laws::legal_journals_are_safe;
use spill_disk::Disk;
use std::alloc::Global;
use std::marker::Brand;
use std::sync::Wait;
use std::thread::Threads;
use task_runner::{Gate, Post};

// The status that tells why an input couldn't be landed.
pub(crate) fn land_status(fault: LandFault) -> Status
    ensures { result ≡ status_of fault }
{
    match fault {
        LandFault::NoHeader => Status::NoHeader,
        LandFault::NoColumn { column } => Status::NoColumn { column },
        LandFault::Ragged { row } => Status::Ragged { row },
        LandFault::RowTooLong { row } => Status::RowTooLong { row },
        LandFault::BadNumber { row, column } => Status::BadNumber { row, column },
        LandFault::TooManyRows => Status::TooManyRows,
        LandFault::ReadFault => Status::ReadFault,
        LandFault::DiskFault { disk } => Status::DiskFault { post: disk },
        LandFault::NoMemory => Status::NoMemory,
    }
}

// Runs a job in its pool.
pub(crate) fn run_job<
    X: Threads + Wait + Sync,
    S: Source,
    W: Sink,
    J: Sink,
    D: Disk + Send,
    C: Consumer + Send,
    G: Gate + Sync,
>(
    rt: &X,
    alloc: Global,
    asked: &RunCall,
    input: &mut S,
    output: &mut W,
    journal: &mut J,
    posts: &mut Vec<Post<D, C>>,
    store: D,
    gate: &G,
) -> Outcome
    requires run { IsRun asked.now }
    requires posts { asked.now.pool.workers ≤ length posts.old.items }
    requires few_posts { length posts.old.items < 2 ^ 32 - 1 }
    requires consumers { All (λ post. HasConsumers (map C.state post.consumers.items)) posts.old.items }
    ensures ending { IfSome (S.left input.old) (λ bytes. AllTell asked.now (post_files D.files posts.old) (D.files store) →
        MayEndAs (ending_of asked.now bytes) result.status) }
    ensures refused { IfSome (S.left input.old) (λ bytes. (why : LandFault) → ending_of asked.now bytes ≡ Refuses why →
        (IsUnlanded result.status ⊎ (result.status ≡ status_of why)) × (result.setup ≡ None)) }
    ensures called { IfSome (S.left input.old) (λ bytes. (why : LandFault) → IsOfInput why →
        result.status ≡ status_of why → ending_of asked.now bytes ≡ Refuses why) }

    // What is written.
    ensures end { result.status ≡ Status.Done → IsAtEnd (S.left input.new) }
    ensures done { result.status ≡ Status.Done → IfSome (S.left input.old) (λ bytes.
        AllTell asked.now (post_files D.files posts.old) (D.files store) →
        Appends (W.written output.old) (W.written output.new) (printed_in (ending_of asked.now bytes))) }
    ensures prefix { IsCut result.status → IfSome (S.left input.old) (λ bytes.
        AllTell asked.now (post_files D.files posts.old) (D.files store) →
        AppendsPrefix (W.written output.old) (W.written output.new) (printed_in (ending_of asked.now bytes))) }
    ensures nothing { WritesNothing result.status → Keeps (W.written output.old) (W.written output.new) }
    ensures gains { IfSome result.setup (λ setup. GainsIfAsked asked.now.journal result.status
        (text_of setup result.journal)
        (J.written journal.old) (J.written journal.new)) }
    ensures kept { IfNone result.setup (Keeps (J.written journal.old) (J.written journal.new)) }

    // The causes of statuses.
    ensures read { result.status ≡ Status.ReadFault → Rose (S.faults input.old) (S.faults input.new) }
    ensures write { result.status ≡ Status.WriteFault → Rose (W.faults output.old) (W.faults output.new) }
    ensures recorded { result.status ≡ Status.JournalFault → Rose (J.faults journal.old) (J.faults journal.new) }
    ensures disk { IsDiskFault result.status (λ post.
        Rose (post_faults D.faults posts.old post) (post_faults D.faults posts.new post)) }
    ensures damaged { IsDamaged result.status (λ kept found. found < kept) }
    ensures named { IsDamagedOn result.status (λ post. post < asked.now.pool.workers) }
    ensures undamaged { AllTell asked.now (post_files D.files posts.old) (D.files store) →
        IsDamaged result.status (λ kept found. ⊥) }
    ensures no_room { IsNoRoom result.status (ShowsShort asked.now.pool result.journal) }
    ensures judged { IsJudged result.status }

    // The pool and its journal.
    ensures made { MakesPool result.status → result.setup ≡ Some asked.now.pool }
    ensures setup { IfSome result.setup (λ setup. setup ≡ asked.now.pool) }
    ensures none { IfNone result.setup (result.journal ≡ []) }
    ensures legal { IfSome result.setup (λ setup. IsLegal asked.now.pool (history_of result.journal)) }
    ensures tasks { IfSome result.setup (λ setup. (partitions : ℕ)
        × HasTasks asked.now.pool.workers partitions asked.now.job result.status result.journal
        × IfSome (S.left input.old) (λ bytes. partitions ≡ partitions_of asked.now bytes)) }
    ensures charged { result.status ≡ Status.Done → IfSome (S.left input.old) (λ bytes.
        AllTell asked.now (post_files D.files posts.old) (D.files store) →
        ChargesRun asked.now (checked_for asked.now bytes) (states_at C.state posts.old.items) result.journal) }

    // The posts.
    ensures fed { result.status ≡ Status.Done → IfSome (S.left input.old) (λ bytes.
        AllTell asked.now (post_files D.files posts.old) (D.files store) →
        (worker : ℕ) → worker < asked.now.pool.workers → FeedsRun asked.now (checked_for asked.now bytes) worker
        (states_at C.state posts.old.items worker) (states_at C.state posts.new.items worker)) }
    ensures others { (place : ℕ) → asked.now.pool.workers ≤ place
        → states_at C.state posts.new.items place ≡ states_at C.state posts.old.items place }
    ensures consumers { (place : ℕ) → KeepsConsumers (states_at C.state posts.old.items place)
        (states_at C.state posts.new.items place) }
    ensures files { KeepsAll (post_files D.files posts.old) (post_files D.files posts.new) }
{
    totals_tell_queries();
    plans_derive_rows();
    match land_on(alloc, asked, input, posts) {
        Ok(landed) => {
            run_queries::<D, D, C, J, W, Brand, X, G>(
                rt,
                alloc,
                asked,
                store,
                &landed.plan,
                &landed.parts,
                posts,
                journal,
                output,
                gate,
            )
        }
        Err(fault) => unpooled(alloc, land_status(fault)),
    }
}

/// Runs the job that the words ask for: lands the input on the disks of the workers' posts in partitions of 10,000 rows or as many
/// as the words say; goes over each dataset that queries name in a pass, in which a task of its worker groups and orders the
/// dataset's rows of each partition, and a final task merges what the tasks spilled; and prints the tables. The workers of a pass
/// run at the same time, each in a thread of its own, and share one memory pool; the final tasks run on this thread. Words are
/// `run [OPTION..] JOB`, with options for the workers, the pool's sizes and the rows (the crate `words`); a job is a text of the
/// language.
///
/// Worker `w` uses the post at place `w`, whose disk gets its partitions and its runs. Partitions stay, runs that were merged are
/// removed, and the runs that tables are printed from stay. Each post has sixteen consumers, of which the first eight serve
/// group queries and the others order queries.
///
/// The rows of a kept dataset in a partition are cached as a block of the pool, where there is room: a task has them from a pin or
/// from the copy that an eviction wrote to `store_disk`, or computes them again from the landed rows. Behind the last pass that
/// needs them its blocks are removed. Where the disks return what was written, the store disk changes no output.
///
/// With `--journal` the text of the pool's journal is written to `journal` when all sums are known to fit, before the first table.
///
/// The pool and its journal are after Spark's unified memory manager, and the spills after its TaskMemoryManager; the job language
/// and the statuses are this project's own. Want of memory has no clause; a test shows that a run with ample memory answers.
pub fn run<
    X: Threads + Wait + Sync,
    S: Source,
    W: Sink,
    J: Sink,
    D: Disk + Send,
    C: Consumer + Send,
    G: Gate + Sync,
>(
    rt: &X,
    alloc: Global,
    words: &[&str],
    input: &mut S,
    output: &mut W,
    journal: &mut J,
    posts: &mut Vec<Post<D, C>>,
    store_disk: D,
    gate: &G,
) -> Outcome
    requires consumers { All (λ post. HasConsumers (map C.state post.consumers.items)) posts.old.items }

    // The output is the plain answer over all that the input had left.
    ensures end { result.status ≡ Status.Done → IsAtEnd (S.left input.new) }
    ensures done { result.status ≡ Status.Done →
        ForRun (call_of (length posts.old.items) (texts words.now)) (λ asked.
        IfSome (S.left input.old) (λ bytes. AllTell asked (post_files D.files posts.old) (D.files store_disk) →
        Appends (W.written output.old) (W.written output.new) (printed_in (ending_of asked bytes)))) }

    // The status is the one that the words and the input call for, unless something outside fails or there is too little room or
    // memory.
    ensures told { TellsCall (call_of (length posts.old.items) (texts words.now)) result.status }
    ensures ending { ForRun (call_of (length posts.old.items) (texts words.now)) (λ asked.
        IfSome (S.left input.old) (λ bytes. AllTell asked (post_files D.files posts.old) (D.files store_disk) →
        MayEndAs (ending_of asked bytes) result.status)) }
    ensures refused { ForRun (call_of (length posts.old.items) (texts words.now)) (λ asked.
        IfSome (S.left input.old) (λ bytes. (why : LandFault) → ending_of asked bytes ≡ Refuses why →
        (IsUnlanded result.status ⊎ (result.status ≡ status_of why)) × (result.setup ≡ None))) }
    ensures called { ForRun (call_of (length posts.old.items) (texts words.now)) (λ asked.
        IfSome (S.left input.old) (λ bytes. (why : LandFault) → IsOfInput why → result.status ≡ status_of why →
        ending_of asked bytes ≡ Refuses why)) }
    ensures complete { ForRun (call_of (length posts.old.items) (texts words.now)) (λ asked.
        IfSome (S.left input.old) (λ bytes. AllTell asked (post_files D.files posts.old) (D.files store_disk) → (text : List ℕ) →
        ending_of asked bytes ≡ Prints text →
        FailsNothing (S.faults input.old) (S.faults input.new) (W.faults output.old) (W.faults output.new)
        (J.faults journal.old) (J.faults journal.new) (post_faults D.faults posts.old) (post_faults D.faults posts.new) →
        GrantsAll result.journal → (result.status ≡ Status.Done) ⊎ (result.status ≡ Status.NoMemory))) }

    // The causes of the other statuses.
    ensures read { result.status ≡ Status.ReadFault → Rose (S.faults input.old) (S.faults input.new) }
    ensures write { result.status ≡ Status.WriteFault → Rose (W.faults output.old) (W.faults output.new) }
    ensures recorded { result.status ≡ Status.JournalFault → Rose (J.faults journal.old) (J.faults journal.new) }
    ensures disk { IsDiskFault result.status (λ post. Rose (post_faults D.faults posts.old post) (post_faults D.faults posts.new post)) }
    ensures damaged { IsDamaged result.status (λ kept found. found < kept) }
    ensures named { ForRun (call_of (length posts.old.items) (texts words.now)) (λ asked.
        IsDamagedOn result.status (λ post. post < asked.pool.workers)) }
    ensures undamaged { ForRun (call_of (length posts.old.items) (texts words.now)) (λ asked.
        AllTell asked (post_files D.files posts.old) (D.files store_disk) → IsDamaged result.status (λ kept found. ⊥)) }
    ensures no_room { IfSome result.setup (λ pool. IsNoRoom result.status (ShowsShort pool result.journal)) }

    // What was written.
    ensures unread { ForNoRun (call_of (length posts.old.items) (texts words.now))
        ((input.new ≡ input.old) × (output.new ≡ output.old) × (journal.new ≡ journal.old) × (posts.new ≡ posts.old)) }
    ensures nothing { WritesNothing result.status → Keeps (W.written output.old) (W.written output.new) }
    ensures prefix { IsCut result.status →
        ForRun (call_of (length posts.old.items) (texts words.now)) (λ asked.
        IfSome (S.left input.old) (λ bytes. AllTell asked (post_files D.files posts.old) (D.files store_disk) →
        AppendsPrefix (W.written output.old) (W.written output.new) (printed_in (ending_of asked bytes)))) }

    // What the journal's sink gained.
    ensures gains { ForRun (call_of (length posts.old.items) (texts words.now)) (λ asked.
        IfSome result.setup (λ pool. GainsIfAsked asked.journal result.status (text_of pool result.journal)
        (J.written journal.old) (J.written journal.new))) }
    ensures kept { IfNone result.setup (Keeps (J.written journal.old) (J.written journal.new)) }

    // The pool, and its journal.
    ensures made { MakesPool result.status → IsSome result.setup }
    ensures setup { ForRun (call_of (length posts.old.items) (texts words.now)) (λ asked.
        IfSome result.setup (λ setup. setup ≡ asked.pool)) }
    ensures unpooled { ForNoRun (call_of (length posts.old.items) (texts words.now))
        (result.setup ≡ None) }
    ensures none { IfNone result.setup (result.journal ≡ []) }
    ensures legal { IfSome result.setup (λ pool. IsLegal pool (history_of result.journal)) }
    ensures safe { IfSome result.setup (λ pool. IsSafeJournal pool result.journal) }
    // The text of its journal is one that an audit answers Yes to.
    ensures audited { IfSome result.setup (λ pool. IsVerdict (text_of pool result.journal) (Yes (length result.journal))) }
    ensures tasks { ForRun (call_of (length posts.old.items) (texts words.now)) (λ asked.
        IfSome result.setup (λ setup. (partitions : ℕ)
        × HasTasks asked.pool.workers partitions asked.job result.status result.journal
        × IfSome (S.left input.old) (λ bytes. partitions ≡ partitions_of asked bytes))) }
    ensures charged { result.status ≡ Status.Done →
        ForRun (call_of (length posts.old.items) (texts words.now)) (λ asked.
        IfSome (S.left input.old) (λ bytes. AllTell asked (post_files D.files posts.old) (D.files store_disk) →
        ChargesRun asked (checked_for asked bytes) (states_at C.state posts.old.items) result.journal)) }

    // The posts' consumers.
    ensures fed { result.status ≡ Status.Done →
        ForRun (call_of (length posts.old.items) (texts words.now)) (λ asked.
        IfSome (S.left input.old) (λ bytes. AllTell asked (post_files D.files posts.old) (D.files store_disk) →
        (worker : ℕ) → worker < asked.pool.workers → FeedsRun asked (checked_for asked bytes) worker
        (states_at C.state posts.old.items worker) (states_at C.state posts.new.items worker))) }
    ensures others { ForRun (call_of (length posts.old.items) (texts words.now)) (λ asked.
        (place : ℕ) → asked.pool.workers ≤ place → states_at C.state posts.new.items place ≡ states_at C.state posts.old.items place) }
    ensures consumers { (place : ℕ) → KeepsConsumers (states_at C.state posts.old.items place) (states_at C.state posts.new.items place) }

    // Files that were on the posts' disks are as they were.
    ensures files { KeepsAll (post_files D.files posts.old) (post_files D.files posts.new) }
{
    legal_journals_are_safe();
    match read_call(alloc, posts.len(), words) {
        Ok(asked) => {
            let left = run_job(
                rt, alloc, &asked, input, output, journal, posts, store_disk, gate,
            );
            journal_is_audited(&left);
            left
        }
        Err(status) => unpooled(alloc, status),
    }
}
