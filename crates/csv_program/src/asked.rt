//! The run that the words of a call ask for.

ghost use Rattle.std.specs.Prelude.{◌≡◌, ◌≤◌, ◌<◌, ◌-◌, ◌^◌, IfErr, IfOk, OnOk};
ghost use Rattle.job_text.specs.Jobs.{IsJob};
ghost use Rattle.job_text.specs.Text.{read_of};
ghost use Rattle.pool_ledger.specs.Sizes.{smallest_heap};
ghost use Rattle.words.specs.Options.{AreInRange};
ghost use Rattle.words.specs.Texts.{texts};
ghost use Rattle.words.specs.Views.{run_reading, work_reading};
ghost use Rattle.job_ending.specs.Calls.{ForNoRun, IsRun, IsWhyNot, Runs, call_of, call_with, pool_of};

use job_ending::{RunCall, Status};
use job_text::{JobFault, read};
use pool_ledger::{HeapTooSmall, Setup};
use std::alloc::Global;
use words::{RunWords, WordsFault, WorkOptions, read_run_call};

/// The run that words ask for, with so many posts; or the status that tells why there is none.
pub fn read_call(alloc: Global, posts: usize, words: &[&str]) -> Result<RunCall, Status>
    ensures ok { IfOk result (λ asked. call_of posts (texts words.now) ≡ Runs asked) }
    ensures run { IfOk result IsRun }
    ensures enough { IfOk result (λ asked. asked.pool.workers ≤ posts) }
    ensures few_posts { IfOk result (λ _. posts < 2 ^ 32 - 1) }
    ensures why { IfErr result (IsWhyNot (call_of posts (texts words.now))) }
{
    let said = match read_run_call(alloc, words) {
        Ok(said) => said,
        Err(WordsFault::BadWords) => return Err(Status::BadWords),
        Err(WordsFault::NoMemory) => return Err(Status::NoMemory),
    };
    if (posts as u64) < said.options.workers {
        return Err(Status::BadWords);
    }
    // A shelf numbers its disks with 32 bits.
    if posts >= u32::MAX as usize {
        return Err(Status::NoMemory);
    }
    call_for(alloc, said)
}

/// Refuses words that call for no run with so many posts, by the status that tells why. It touches nothing.
pub fn judge_run(alloc: Global, posts: usize, words: &[&str]) -> Result<(), Status>
    ensures ok { OnOk result (ForNoRun (call_of posts (texts words.now)) ⊥) }
    ensures why { IfErr result (IsWhyNot (call_of posts (texts words.now))) }
{
    match read_call(alloc, posts, words) {
        Ok(_asked) => Ok(()),
        Err(status) => Err(status),
    }
}

// The run of these words, by their job and their heap.
fn call_for(alloc: Global, said: RunWords<'_>) -> Result<RunCall, Status>
    requires ranges { AreInRange (work_reading said.options) }
    requires rows { said.max_rows ≤ 10000000 }
    ensures ok { IfOk result (λ asked. call_with (run_reading said.entry) (read_of said.entry.job.now) ≡ Runs asked) }
    ensures run { IfOk result IsRun }
    ensures workers { IfOk result (λ asked. asked.pool.workers ≡ said.entry.options.workers) }
    ensures why { IfErr result (IsWhyNot (call_with (run_reading said.entry) (read_of said.entry.job.now))) }
{
    let job = match read(alloc, said.job) {
        Ok(job) => job,
        Err(JobFault::BadJob { place }) => return Err(Status::BadJob { place }),
        Err(JobFault::NoMemory) => return Err(Status::NoMemory),
    };
    match pool_for(said.options) {
        Ok(pool) => Ok(RunCall {
            pool,
            job,
            max_rows: said.max_rows,
            part_rows: said.options.part_rows,
            journal: said.journal,
        }),
        Err(HeapTooSmall) => Err(Status::HeapTooSmall),
    }
}

// The pool that options make.
pub(crate) fn pool_for(options: WorkOptions) -> Result<Setup, HeapTooSmall>
    requires ranges { AreInRange (work_reading options) }
    ensures ok { IfOk result (λ pool. pool ≡ pool_of (work_reading options)) }
    ensures heap { IfOk result (λ _. smallest_heap options.reserved ≤ options.heap) }
    ensures too_small { IfErr result (λ _. options.heap < smallest_heap options.reserved) }
{
    Setup::of(
        options.heap,
        options.reserved,
        options.fraction as u32,
        options.storage as u32,
        options.workers as u32,
    )
}
