//! The tasks of one worker in a pass.

ghost use Rattle.task_runner.specs.OneTask.{MayRunPart, RanNext, bench_by};
ghost use Rattle.task_runner.specs.OneWorker.{MayRunBench, RanBench};

use crate::gate::Gate;
use crate::pass::Pass;
use crate::post::Post;
use crate::task::run_task;
use crate::work_fault::WorkFault;
use consumer_trait::Consumer;
use lineage::Executor;
use memory_lock::{Basis, Worker};
use run_file::Run;
use spill_disk::Disk;
use std::sync::Wait;

// Does the task of one partition, and puts its answers behind the others.
fn next_task<K: Disk, D: Disk, C: Consumer, B: Basis, R: Wait, G: Gate>(
    executor: &Executor<'_, R, K, B>,
    worker: &mut Worker<B>,
    pass: &Pass<'_>,
    part: usize,
    post: &mut Post<D, C>,
    answers: &mut Vec<Option<Run>>,
    gate: &G,
) -> Result<(), WorkFault>
    requires may { MayRunPart executor.now.manager.now B.owner B.rows pass.now part
        (bench_by C.state D.files D.faults worker.old post.old) }
    ensures ran { RanNext B.sizes B.rows pass.now part (bench_by C.state D.files D.faults worker.old post.old)
        (bench_by C.state D.files D.faults worker.new post.new) answers.old.items answers.new.items result }
{
    let mut found = run_task(executor, worker, pass, part as u32, post, gate)?;
    match answers.append(&mut found) {
        Ok(()) => Ok(()),
        Err(_) => Err(WorkFault::NoMemory),
    }
}

/// Does all tasks of the worker at a place in a pass, one behind the other: with so many workers, those for the partitions
/// `place`, `place + workers` and so on. The answers, for each task a run or none for each query, stand in
/// the same order, and name the disk 0.
pub(crate) fn run_worker<K: Disk, D: Disk, C: Consumer, B: Basis, R: Wait, G: Gate>(
    executor: &Executor<'_, R, K, B>,
    worker: &mut Worker<B>,
    pass: &Pass<'_>,
    workers: usize,
    place: usize,
    post: &mut Post<D, C>,
    gate: &G,
) -> Result<Vec<Option<Run>>, WorkFault>
    requires may { MayRunBench executor.now.manager.now B.owner B.rows pass.now workers place
        (bench_by C.state D.files D.faults worker.old post.old) }
    ensures ran { RanBench B.sizes B.rows pass.now workers place (bench_by C.state D.files D.faults worker.old post.old)
        (bench_by C.state D.files D.faults worker.new post.new) result }
{
    let mut answers = Vec::new(executor.alloc);
    let mut part = place;
    'tasks: while part < pass.parts.len() {
        next_task(executor, worker, pass, part, post, &mut answers, gate)?;
        part = part.saturating_add(workers);
    }
    Ok(answers)
}
