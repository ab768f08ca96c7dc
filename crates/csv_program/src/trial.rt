//! A run over an input that is made from a number.

ghost use Rattle.std.specs.Prelude.{◌≡◌, ◌⊎◌, ◌≤◌, ◌<◌, ◌-◌, ◌^◌, ℕ, All, [], IfErr, IfNone, IfOk, IfSome, IsSome, None, OnOk, Some, length, map};
ghost use Rattle.std.specs.Io.KnownBytes.{Appends, Keeps};
ghost use Rattle.byte_io.specs.Sinks.{AppendsPrefix};
ghost use Rattle.fault_count.specs.Faults.{HasCauseAt, Rose};
ghost use Rattle.journal_audit.specs.Text.{text_of};
ghost use Rattle.journal_replay.specs.Verdicts.{IsVerdict};
ghost use Rattle.journal_replay.specs.declared.verdict.Verdict.TheVariants.{Yes};
ghost use Rattle.landing.specs.Checks.{Rows};
ghost use Rattle.pool_ledger.specs.Journal.{history_of};
ghost use Rattle.pool_ledger.specs.Legal.{IsLegal};
ghost use Rattle.pool_laws.specs.SafeJournal.{IsSafeJournal};
ghost use Rattle.task_runner.specs.Consumers.{HasConsumers, KeepsConsumers};
ghost use Rattle.task_runner.specs.Pass.{states_at};
ghost use Rattle.run_file.specs.Several.{KeepsAll};
ghost use Rattle.trial_input.specs.Generator.{heading, trial_rows, trial_text};
ghost use Rattle.trial_input.specs.Lines.{trial_lines, trial_output};
ghost use Rattle.trial_input.specs.Sinks.{text_taken};
ghost use Rattle.words.specs.Options.{AreInRange};
ghost use Rattle.words.specs.Texts.{texts};
ghost use Rattle.words.specs.Views.{trial_reading, work_reading};
ghost use Rattle.job_ending.specs.Calls.{ForNoRun, ForRun, IsRun, IsWhyNot, Runs, TellsCall};
ghost use Rattle.csv_program.specs.Charges.{ChargesRun};
ghost use Rattle.job_ending.specs.Complete.{FailsNothing, GrantsAll};
ghost use Rattle.csv_program.specs.Cached.{HasTasks};
ghost use Rattle.job_ending.specs.Endings.{MayEndAs, Prints, partitions_of};
ghost use Rattle.csv_program.specs.Feeds.{FeedsRun};
ghost use Rattle.job_ending.specs.Posts.{AllTell};
ghost use Rattle.csv_program.specs.Posts.{post_faults, post_files};
ghost use Rattle.job_ending.specs.Statuses.{IsDamaged, IsDamagedOn, IsDiskFault, IsJudged, IsNoRoom, MakesPool};
ghost use Rattle.csv_program.specs.PlanCalls.{PrintsNothing};
ghost use Rattle.csv_program.specs.Shortage.{ShowsShort};
ghost use Rattle.csv_program.specs.Trials.{IsOfTrial, IsOfTrialRun, IsSoundEnd, IsTrial, trial_in, trial_of};

use crate::asked::pool_for;
use crate::audited::journal_is_audited;
use crate::top::run_job;
use byte_io::{Sink, SinkError, write_all_counted};
use consumer_trait::Consumer;
use job_ending::{Outcome, RunCall, Status, unpooled};
use pool_laws::legal_journals_are_safe;
use pool_ledger::HeapTooSmall;
use spill_disk::Disk;
use std::alloc::Global;
use std::sync::Wait;
use std::thread::Threads;
use task_runner::{Gate, Post};
use trial_input::{
    TextSink, TextSource, trial_job, trial_lines, trial_text, trials_are_good, trials_fit,
};
use words::{TrialWords, WordsFault, begins_with, read_trial_words};

// The trial that words ask for, with so many posts; or the status that tells why there is none.
fn read_trial(alloc: Global, posts: usize, words: &[&str]) -> Result<RunCall, Status>
    ensures ok { IfOk result (λ asked. trial_of posts (texts words.now) ≡ Runs asked) }
    ensures trial { IfOk result IsTrial }
    ensures run { IfOk result IsRun }
    ensures enough { IfOk result (λ asked. asked.pool.workers ≤ posts) }
    ensures few_posts { IfOk result (λ _. posts < 2 ^ 32 - 1) }
    ensures why { IfErr result (IsWhyNot (trial_of posts (texts words.now))) }
    ensures ends { IfErr result IsOfTrial }
{
    if !begins_with(words, "trial") {
        return Err(Status::BadWords);
    }
    let said = match read_trial_words(alloc, words) {
        Ok(said) => said,
        Err(WordsFault::BadWords) => return Err(Status::BadWords),
        Err(WordsFault::NoMemory) => return Err(Status::NoMemory),
    };
    if (posts as u64) < said.options.workers {
        return Err(Status::BadWords);
    }
    // A shelf numbers its disks with 32 bits.
    if posts >= u32::MAX as usize {
        return Err(Status::NoMemory);
    }
    trial_for(alloc, said)
}

/// Refuses words that call for no trial with so many posts, by the status that tells why. It touches nothing.
pub fn judge_trial(alloc: Global, posts: usize, words: &[&str]) -> Result<(), Status>
    ensures ok { OnOk result (ForNoRun (trial_of posts (texts words.now)) ⊥) }
    ensures why { IfErr result (IsWhyNot (trial_of posts (texts words.now))) }
{
    match read_trial(alloc, posts, words) {
        Ok(_asked) => Ok(()),
        Err(status) => Err(status),
    }
}

// The trial of these words, by their heap.
fn trial_for(alloc: Global, said: TrialWords) -> Result<RunCall, Status>
    requires ranges { AreInRange (work_reading said.options) }
    requires some { 1 ≤ said.rows }
    requires rows { said.rows ≤ 1000000 }
    ensures ok { IfOk result (λ asked. trial_in (trial_reading said) ≡ Runs asked) }
    ensures trial { IfOk result IsTrial }
    ensures run { IfOk result IsRun }
    ensures workers { IfOk result (λ asked. asked.pool.workers ≡ said.options.workers) }
    ensures why { IfErr result (IsWhyNot (trial_in (trial_reading said))) }
    ensures ends { IfErr result IsOfTrial }
{
    let Ok(job) = trial_job(alloc) else {
        return Err(Status::NoMemory);
    };
    match pool_for(said.options) {
        Ok(pool) => Ok(RunCall {
            pool,
            job,
            max_rows: said.rows,
            part_rows: said.options.part_rows,
            journal: false,
        }),
        Err(HeapTooSmall) => Err(Status::HeapTooSmall),
    }
}

// Runs the trial's job over its text, into memory.
fn run_over<X: Threads + Wait + Sync, D: Disk + Send, C: Consumer + Send, G: Gate + Sync>(
    rt: &X,
    alloc: Global,
    asked: &RunCall,
    text: &[u8],
    printed: &mut TextSink,
    posts: &mut Vec<Post<D, C>>,
    store: D,
    gate: &G,
) -> Outcome
    requires run { IsRun asked.now }
    requires trial { IsTrial asked.now }
    requires text { text.now ≡ trial_text asked.now.max_rows }
    requires posts { asked.now.pool.workers ≤ length posts.old.items }
    requires few_posts { length posts.old.items < 2 ^ 32 - 1 }
    requires consumers { All (λ post. HasConsumers (map C.state post.consumers.items)) posts.old.items }
    ensures ends { IsOfTrialRun result.status }
    ensures ending { AllTell asked.now (post_files D.files posts.old) (D.files store) →
        MayEndAs (Prints (trial_output asked.now.max_rows)) result.status }
    ensures done { result.status ≡ Status.Done → AllTell asked.now (post_files D.files posts.old) (D.files store) →
        Appends (Some (text_taken printed.old)) (Some (text_taken printed.new)) (trial_output asked.now.max_rows) }

    // The causes of statuses.
    ensures disk { IsDiskFault result.status (λ post.
        Rose (post_faults D.faults posts.old post) (post_faults D.faults posts.new post)) }
    ensures damaged { IsDamaged result.status (λ kept found. found < kept) }
    ensures named { IsDamagedOn result.status (λ post. post < asked.now.pool.workers) }
    ensures no_room { IsNoRoom result.status (ShowsShort asked.now.pool result.journal) }

    // The pool and its journal.
    ensures made { MakesPool result.status → result.setup ≡ Some asked.now.pool }
    ensures setup { IfSome result.setup (λ setup. setup ≡ asked.now.pool) }
    ensures none { IfNone result.setup (result.journal ≡ []) }
    ensures legal { IfSome result.setup (λ setup. IsLegal asked.now.pool (history_of result.journal)) }
    ensures tasks { IfSome result.setup (λ setup. (partitions : ℕ)
        × HasTasks asked.now.pool.workers partitions asked.now.job result.status result.journal
        × (partitions ≡ partitions_of asked.now (trial_text asked.now.max_rows))) }
    ensures charged { result.status ≡ Status.Done → AllTell asked.now (post_files D.files posts.old) (D.files store) →
        ChargesRun asked.now (Rows heading (trial_rows asked.now.max_rows)) (states_at C.state posts.old.items) result.journal }

    // The posts.
    ensures fed { result.status ≡ Status.Done → AllTell asked.now (post_files D.files posts.old) (D.files store) →
        (worker : ℕ) → worker < asked.now.pool.workers → FeedsRun asked.now (Rows heading (trial_rows asked.now.max_rows)) worker
        (states_at C.state posts.old.items worker) (states_at C.state posts.new.items worker) }
    ensures others { (place : ℕ) → asked.now.pool.workers ≤ place
        → states_at C.state posts.new.items place ≡ states_at C.state posts.old.items place }
    ensures consumers { (place : ℕ) → KeepsConsumers (states_at C.state posts.old.items place)
        (states_at C.state posts.new.items place) }
    ensures files { KeepsAll (post_files D.files posts.old) (post_files D.files posts.new) }
{
    trials_are_good();
    trials_fit();
    let mut input = TextSource::new(text);
    let mut journal = TextSink::new(alloc);
    run_job(
        rt,
        alloc,
        asked,
        &mut input,
        printed,
        &mut journal,
        posts,
        store,
        gate,
    )
}

// Writes the lines of a trial of so many rows, by what its run printed.
fn write_lines<W: Sink>(
    alloc: Global,
    rows: u64,
    printed: &[u8],
    output: &mut W,
) -> Result<(), SinkError>
    requires few { rows ≤ 1000000 }
    ensures done { printed.now ≡ trial_output rows →
        OnOk result (Appends (W.written output.old) (W.written output.new) (trial_lines rows)) }
    ensures prefix { printed.now ≡ trial_output rows →
        AppendsPrefix (W.written output.old) (W.written output.new) (trial_lines rows) }
    ensures cause { HasCauseAt SinkError.Failed (W.faults output.old) (W.faults output.new) result }
{
    let Ok(lines) = trial_lines(alloc, rows, printed) else {
        return Err(SinkError::NoMemory);
    };
    write_all_counted(output, &lines)
}

// The same, but for how it ended.
fn ended_as(outcome: Outcome, status: Status) -> Outcome
    ensures status { result.status ≡ status }
    ensures setup { result.setup ≡ outcome.setup }
    ensures journal { result.journal ≡ outcome.journal }
{
    Outcome {
        status,
        setup: outcome.setup,
        journal: outcome.journal,
    }
}

// Runs the trial's job, and writes its lines.
fn run_trial<X: Threads + Wait + Sync, W: Sink, D: Disk + Send, C: Consumer + Send, G: Gate + Sync>(
    rt: &X,
    alloc: Global,
    asked: &RunCall,
    output: &mut W,
    posts: &mut Vec<Post<D, C>>,
    store: D,
    gate: &G,
) -> Outcome
    requires run { IsRun asked.now }
    requires trial { IsTrial asked.now }
    requires posts { asked.now.pool.workers ≤ length posts.old.items }
    requires few_posts { length posts.old.items < 2 ^ 32 - 1 }
    requires consumers { All (λ post. HasConsumers (map C.state post.consumers.items)) posts.old.items }
    ensures ends { IsOfTrial result.status }
    ensures judged { IsJudged result.status }
    ensures sound { AllTell asked.now (post_files D.files posts.old) (D.files store) → IsSoundEnd result.status }
    ensures complete { AllTell asked.now (post_files D.files posts.old) (D.files store) →
        FailsNothing 0 0 (W.faults output.old) (W.faults output.new) 0 0 (post_faults D.faults posts.old)
        (post_faults D.faults posts.new) →
        GrantsAll result.journal → (result.status ≡ Status.Done) ⊎ (result.status ≡ Status.NoMemory) }

    // What is written.
    ensures done { result.status ≡ Status.Done → AllTell asked.now (post_files D.files posts.old) (D.files store) →
        Appends (W.written output.old) (W.written output.new) (trial_lines asked.now.max_rows) }
    ensures prefix { AllTell asked.now (post_files D.files posts.old) (D.files store) →
        AppendsPrefix (W.written output.old) (W.written output.new) (trial_lines asked.now.max_rows) }
    ensures nothing { PrintsNothing result.status → Keeps (W.written output.old) (W.written output.new) }

    // The causes of statuses.
    ensures write { result.status ≡ Status.WriteFault → Rose (W.faults output.old) (W.faults output.new) }
    ensures disk { IsDiskFault result.status (λ post.
        Rose (post_faults D.faults posts.old post) (post_faults D.faults posts.new post)) }
    ensures damaged { IsDamaged result.status (λ kept found. found < kept) }
    ensures named { IsDamagedOn result.status (λ post. post < asked.now.pool.workers) }
    ensures no_room { IsNoRoom result.status (ShowsShort asked.now.pool result.journal) }

    // The pool and its journal.
    ensures made { MakesPool result.status → result.setup ≡ Some asked.now.pool }
    ensures setup { IfSome result.setup (λ setup. setup ≡ asked.now.pool) }
    ensures none { IfNone result.setup (result.journal ≡ []) }
    ensures legal { IfSome result.setup (λ setup. IsLegal asked.now.pool (history_of result.journal)) }
    ensures tasks { IfSome result.setup (λ setup. (partitions : ℕ)
        × HasTasks asked.now.pool.workers partitions asked.now.job result.status result.journal
        × (partitions ≡ partitions_of asked.now (trial_text asked.now.max_rows))) }
    ensures charged { result.status ≡ Status.Done → AllTell asked.now (post_files D.files posts.old) (D.files store) →
        ChargesRun asked.now (Rows heading (trial_rows asked.now.max_rows)) (states_at C.state posts.old.items) result.journal }

    // The posts.
    ensures fed { result.status ≡ Status.Done → AllTell asked.now (post_files D.files posts.old) (D.files store) →
        (worker : ℕ) → worker < asked.now.pool.workers → FeedsRun asked.now (Rows heading (trial_rows asked.now.max_rows)) worker
        (states_at C.state posts.old.items worker) (states_at C.state posts.new.items worker) }
    ensures others { (place : ℕ) → asked.now.pool.workers ≤ place
        → states_at C.state posts.new.items place ≡ states_at C.state posts.old.items place }
    ensures consumers { (place : ℕ) → KeepsConsumers (states_at C.state posts.old.items place)
        (states_at C.state posts.new.items place) }
    ensures files { KeepsAll (post_files D.files posts.old) (post_files D.files posts.new) }
{
    let Ok(text) = trial_text(alloc, asked.max_rows) else {
        return unpooled(alloc, Status::NoMemory);
    };
    let mut printed = TextSink::new(alloc);
    let outcome = run_over(rt, alloc, asked, &text, &mut printed, posts, store, gate);
    let Status::Done = outcome.status else {
        return outcome;
    };
    match write_lines(alloc, asked.max_rows, printed.bytes(), output) {
        Ok(()) => outcome,
        Err(SinkError::Failed) => ended_as(outcome, Status::WriteFault),
        Err(SinkError::NoMemory) => ended_as(outcome, Status::NoMemory),
    }
}

/// Runs a job that is always the same over an input that is made from a number, as `run` does, and prints three lines: how many
/// rows there were, how many groups the last query has, and what the counts of the first query's groups come to. Words are
/// `trial [OPTION..] N`, with the options of `run` but `--max-rows` and `--journal`, and `N` rows, 1 to 1,000,000.
///
/// The statuses are those of a run over the rows: 0, 2, 4, 11, 12, 14, 16, 17 and 18 alone. 11 and 17 come only where a disk
/// doesn't tell. The lines are written when the run is done; where the disks tell, what was written is a front of them after any
/// status.
///
/// The generator's step is that of Knuth's MMIX; the job and the lines are this project's own. Want of memory has no clause; a
/// test shows that a trial with ample memory answers.
pub fn trial<X: Threads + Wait + Sync, W: Sink, D: Disk + Send, C: Consumer + Send, G: Gate + Sync>(
    rt: &X,
    alloc: Global,
    words: &[&str],
    output: &mut W,
    posts: &mut Vec<Post<D, C>>,
    store_disk: D,
    gate: &G,
) -> Outcome
    requires consumers { All (λ post. HasConsumers (map C.state post.consumers.items)) posts.old.items }

    // The output is the lines of so many rows.
    ensures done { result.status ≡ Status.Done → ForRun (trial_of (length posts.old.items) (texts words.now)) (λ asked.
        AllTell asked (post_files D.files posts.old) (D.files store_disk) →
        Appends (W.written output.old) (W.written output.new) (trial_lines asked.max_rows)) }
    ensures prefix { ForRun (trial_of (length posts.old.items) (texts words.now)) (λ asked.
        AllTell asked (post_files D.files posts.old) (D.files store_disk) →
        AppendsPrefix (W.written output.old) (W.written output.new) (trial_lines asked.max_rows)) }
    ensures nothing { PrintsNothing result.status → Keeps (W.written output.old) (W.written output.new) }
    ensures unread { ForNoRun (trial_of (length posts.old.items) (texts words.now))
        ((output.new ≡ output.old) × (posts.new ≡ posts.old)) }

    // The status is the one that the words call for, unless something outside fails or there is too little room or memory.
    ensures told { TellsCall (trial_of (length posts.old.items) (texts words.now)) result.status }
    ensures ends { IsOfTrial result.status }
    ensures sound { ForRun (trial_of (length posts.old.items) (texts words.now)) (λ asked.
        AllTell asked (post_files D.files posts.old) (D.files store_disk) → IsSoundEnd result.status) }
    ensures complete { ForRun (trial_of (length posts.old.items) (texts words.now)) (λ asked.
        AllTell asked (post_files D.files posts.old) (D.files store_disk) →
        FailsNothing 0 0 (W.faults output.old) (W.faults output.new) 0 0 (post_faults D.faults posts.old)
        (post_faults D.faults posts.new) →
        GrantsAll result.journal → (result.status ≡ Status.Done) ⊎ (result.status ≡ Status.NoMemory)) }

    // The causes of the other statuses.
    ensures write { result.status ≡ Status.WriteFault → Rose (W.faults output.old) (W.faults output.new) }
    ensures disk { IsDiskFault result.status (λ post. Rose (post_faults D.faults posts.old post) (post_faults D.faults posts.new post)) }
    ensures damaged { IsDamaged result.status (λ kept found. found < kept) }
    ensures named { ForRun (trial_of (length posts.old.items) (texts words.now)) (λ asked.
        IsDamagedOn result.status (λ post. post < asked.pool.workers)) }
    ensures no_room { IfSome result.setup (λ pool. IsNoRoom result.status (ShowsShort pool result.journal)) }

    // The pool, and its journal.
    ensures made { MakesPool result.status → IsSome result.setup }
    ensures setup { ForRun (trial_of (length posts.old.items) (texts words.now)) (λ asked.
        IfSome result.setup (λ setup. setup ≡ asked.pool)) }
    ensures unpooled { ForNoRun (trial_of (length posts.old.items) (texts words.now)) (result.setup ≡ None) }
    ensures none { IfNone result.setup (result.journal ≡ []) }
    ensures legal { IfSome result.setup (λ pool. IsLegal pool (history_of result.journal)) }
    ensures safe { IfSome result.setup (λ pool. IsSafeJournal pool result.journal) }
    // The text of its journal is one that an audit answers Yes to.
    ensures audited { IfSome result.setup (λ pool. IsVerdict (text_of pool result.journal) (Yes (length result.journal))) }
    ensures tasks { ForRun (trial_of (length posts.old.items) (texts words.now)) (λ asked.
        IfSome result.setup (λ setup. (partitions : ℕ)
        × HasTasks asked.pool.workers partitions asked.job result.status result.journal
        × (partitions ≡ partitions_of asked (trial_text asked.max_rows)))) }
    ensures charged { result.status ≡ Status.Done → ForRun (trial_of (length posts.old.items) (texts words.now)) (λ asked.
        AllTell asked (post_files D.files posts.old) (D.files store_disk) →
        ChargesRun asked (Rows heading (trial_rows asked.max_rows)) (states_at C.state posts.old.items) result.journal) }

    // The posts' consumers, and their files.
    ensures fed { result.status ≡ Status.Done → ForRun (trial_of (length posts.old.items) (texts words.now)) (λ asked.
        AllTell asked (post_files D.files posts.old) (D.files store_disk) →
        (worker : ℕ) → worker < asked.pool.workers → FeedsRun asked (Rows heading (trial_rows asked.max_rows)) worker
        (states_at C.state posts.old.items worker) (states_at C.state posts.new.items worker)) }
    ensures others { ForRun (trial_of (length posts.old.items) (texts words.now)) (λ asked.
        (place : ℕ) → asked.pool.workers ≤ place → states_at C.state posts.new.items place ≡ states_at C.state posts.old.items place) }
    ensures consumers { (place : ℕ) → KeepsConsumers (states_at C.state posts.old.items place) (states_at C.state posts.new.items place) }
    ensures files { KeepsAll (post_files D.files posts.old) (post_files D.files posts.new) }
{
    legal_journals_are_safe();
    match read_trial(alloc, posts.len(), words) {
        Ok(asked) => {
            let left = run_trial(rt, alloc, &asked, output, posts, store_disk, gate);
            journal_is_audited(&left);
            left
        }
        Err(status) => unpooled(alloc, status),
    }
}
