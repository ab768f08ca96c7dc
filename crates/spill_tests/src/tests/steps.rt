// Steps of a script: calls on a task's memory.
ghost use Rattle.std.specs.Prelude.{◌≡◌, ◌≤◌, length, true, IfOk};
ghost use Rattle.spill_tests.specs.Scripts.{GoesAlong, IsFreed, IsSet};
ghost use Rattle.task_memory.specs.Scenes.{IsLive};
ghost use Rattle.task_memory.specs.Stacks.{IsDry};

use run_file::Run;
use std::alloc::AllocError;
use task_memory::{Memory, TaskFault};
use task_pool::pools_go_on;

/// One call. An entry's key is one byte, its value is empty.
#[derive(Clone, Copy)]
pub enum Step {
    Acquire {
        consumer: usize,
        must: u64,
        wish: u64,
    },
    Feed {
        consumer: usize,
        key: u8,
    },
    Drain {
        consumer: usize,
    },
    FreeLeasts,
    Room {
        must: u64,
        wish: u64,
    },
    GiveBack {
        bytes: u64,
    },
}

/// What a step was answered, and what each box uses then.
#[derive(Clone, Copy)]
pub struct Note {
    pub answer: Result<u64, TaskFault>,
    pub uses: [u64; 4],
}

/// What the steps of a script gave: the answers up to the first refusal, and the runs with their consumers.
#[derive(Drop)]
pub struct Answers {
    pub notes: Vec<Note>,
    pub runs: Vec<(usize, Run)>,
}

// The bytes that were got, or a refusal where there is no such consumer.
fn ask<M: Memory>(
    memory: &mut M,
    count: usize,
    consumer: usize,
    must: u64,
    wish: u64,
) -> Result<u64, TaskFault>
    requires set { IsSet (M.scene memory.old) count }
    ensures set { IfOk result (λ _. IsSet (M.scene memory.new) count) }
    ensures along { GoesAlong (M.scene memory.old) (M.scene memory.new) }
{
    pools_go_on();
    if consumer >= count {
        return Err(TaskFault::NoMemory);
    }
    let must = must.clamp(1, 1 << 50);
    let wish = wish.clamp(must, 1 << 50);
    let got = memory.acquire(consumer, must, wish)?;
    Ok(got)
}

// The same of an entry that is fed.
fn put<M: Memory>(memory: &mut M, count: usize, consumer: usize, key: u8) -> Result<u64, TaskFault>
    requires set { IsSet (M.scene memory.old) count }
    ensures set { IfOk result (λ _. IsSet (M.scene memory.new) count) }
    ensures along { GoesAlong (M.scene memory.old) (M.scene memory.new) }
{
    pools_go_on();
    if consumer >= count {
        return Err(TaskFault::NoMemory);
    }
    memory.feed(consumer, &[key], &[])?;
    Ok(0)
}

/// Puts a consumer's runs behind these.
pub fn note_runs(
    runs: &mut Vec<(usize, Run)>,
    consumer: usize,
    drained: &[Run],
) -> Result<(), AllocError> {
    for run in drained {
        runs.push((consumer, *run))?;
    }
    Ok(())
}

// The same of a drain. The runs are put behind these.
fn empty<M: Memory>(
    memory: &mut M,
    count: usize,
    consumer: usize,
    runs: &mut Vec<(usize, Run)>,
) -> Result<u64, TaskFault>
    requires set { IsSet (M.scene memory.old) count }
    ensures set { IfOk result (λ _. IsSet (M.scene memory.new) count) }
    ensures along { GoesAlong (M.scene memory.old) (M.scene memory.new) }
{
    pools_go_on();
    if consumer >= count {
        return Err(TaskFault::NoMemory);
    }
    let drained = memory.drain(consumer)?;
    if note_runs(runs, consumer, &drained).is_err() {
        return Err(TaskFault::NoMemory);
    }
    Ok(0)
}

// Takes a step with one of the consumers: how many bytes it got. Runs that it hands out are put behind these.
fn take_step<M: Memory>(
    memory: &mut M,
    count: usize,
    step: Step,
    runs: &mut Vec<(usize, Run)>,
) -> Result<u64, TaskFault>
    requires set { IsSet (M.scene memory.old) count }
    ensures set { IfOk result (λ _. IsSet (M.scene memory.new) count) }
    ensures along { GoesAlong (M.scene memory.old) (M.scene memory.new) }
{
    pools_go_on();
    match step {
        Step::Acquire {
            consumer,
            must,
            wish,
        } => ask(memory, count, consumer, must, wish),
        Step::Feed { consumer, key } => put(memory, count, consumer, key),
        Step::Drain { consumer } => empty(memory, count, consumer, runs),
        _ => Err(TaskFault::NoMemory),
    }
}

// What each of the four boxes uses. Those that aren't picked use nothing.
fn uses_of<M: Memory>(memory: &mut M, count: usize, picks: &[usize]) -> [u64; 4]
    requires live { IsLive (M.scene memory.old) }
    requires consumers { length (M.scene memory.old).stack.picks ≡ count }
    ensures same { M.scene memory.new ≡ M.scene memory.old }
{
    let mut uses = [0; 4];
    for consumer in 0..count {
        let used = memory.used(consumer);
        if let Some(place) = picks.get(consumer) {
            if *place < 4 {
                uses[*place] = used;
            }
        }
    }
    uses
}

/// Takes these steps up to the first refusal, and notes the answers. False where one was refused.
pub fn take_steps<M: Memory>(
    memory: &mut M,
    picks: &[usize],
    count: usize,
    steps: &[Step],
    answers: &mut Answers,
) -> Result<bool, AllocError>
    requires set { IsSet (M.scene memory.old) count }
    ensures set { IfOk result (λ went. went ≡ true → IsSet (M.scene memory.new) count) }
    ensures along { GoesAlong (M.scene memory.old) (M.scene memory.new) }
{
    pools_go_on();
    for step in steps {
        match take_step(memory, count, *step, &mut answers.runs) {
            Ok(got) => {
                let uses = uses_of(memory, count, picks);
                answers.notes.push(Note {
                    answer: Ok(got),
                    uses,
                })?;
            }
            Err(fault) => {
                answers.notes.push(Note {
                    answer: Err(fault),
                    uses: [0; 4],
                })?;
                return Ok(false);
            }
        }
    }
    Ok(true)
}

// Drains all consumers, of which none may have a run left.
fn drain_all<M: Memory>(
    memory: &mut M,
    count: usize,
    runs: &mut Vec<(usize, Run)>,
) -> Result<(), TaskFault>
    requires set { IsSet (M.scene memory.old) count }
    ensures set { IfOk result (λ _. IsSet (M.scene memory.new) count) }
    ensures dry { IfOk result (λ _. IsDry (M.scene memory.new).stack.states) }
    ensures along { GoesAlong (M.scene memory.old) (M.scene memory.new) }
{
    pools_go_on();
    for consumer in 0..count {
        let drained = memory.drain(consumer)?;
        if note_runs(runs, consumer, &drained).is_err() {
            return Err(TaskFault::NoMemory);
        }
    }
    Ok(())
}

// Frees the leasts, of consumers that are drained first.
fn free<M: Memory>(
    memory: &mut M,
    count: usize,
    runs: &mut Vec<(usize, Run)>,
) -> Result<(), TaskFault>
    requires set { IsSet (M.scene memory.old) count }
    ensures freed { IfOk result (λ _. IsFreed (M.scene memory.new) count 0) }
    ensures along { GoesAlong (M.scene memory.old) (M.scene memory.new) }
{
    pools_go_on();
    drain_all(memory, count, runs)?;
    memory.free_leasts()?;
    Ok(())
}

// Gets bytes beside the consumers, or gives such bytes back: how many it got, and how many there are then.
fn take_room<M: Memory>(
    memory: &mut M,
    count: usize,
    roomed: u64,
    step: Step,
) -> Result<(u64, u64), TaskFault>
    requires freed { IsFreed (M.scene memory.old) count roomed }
    ensures freed { IfOk result (λ answer. IsFreed (M.scene memory.new) count answer.1) }
    ensures along { GoesAlong (M.scene memory.old) (M.scene memory.new) }
{
    pools_go_on();
    match step {
        Step::Room { must, wish } => {
            let must = must.clamp(1, 1 << 50);
            let wish = wish.clamp(must, 1 << 50);
            let got = memory.room(must, wish)?;
            Ok((got, roomed.saturating_add(got)))
        }
        Step::GiveBack { bytes } if bytes <= roomed => {
            memory.give_back(bytes)?;
            Ok((0, roomed - bytes))
        }
        _ => Err(TaskFault::NoMemory),
    }
}

// Takes such steps up to the first refusal, and notes the answers.
fn take_rooms<M: Memory>(
    memory: &mut M,
    picks: &[usize],
    count: usize,
    steps: &[Step],
    answers: &mut Answers,
) -> Result<(), AllocError>
    requires freed { IsFreed (M.scene memory.old) count 0 }
    ensures along { GoesAlong (M.scene memory.old) (M.scene memory.new) }
{
    pools_go_on();
    let mut roomed = 0u64;
    for step in steps {
        match take_room(memory, count, roomed, *step) {
            Ok((got, now)) => {
                roomed = now;
                let uses = uses_of(memory, count, picks);
                answers.notes.push(Note {
                    answer: Ok(got),
                    uses,
                })?;
            }
            Err(fault) => {
                answers.notes.push(Note {
                    answer: Err(fault),
                    uses: [0; 4],
                })?;
                return Ok(());
            }
        }
    }
    Ok(())
}

// How many steps stand before the leasts are freed.
fn count_before(steps: &[Step]) -> usize
    ensures { result ≤ length steps.now }
{
    for i in 0..steps.len() {
        if let Step::FreeLeasts = steps[i] {
            return i;
        }
    }
    steps.len()
}

// Frees the leasts, and takes the steps behind that.
fn take_freed<M: Memory>(
    memory: &mut M,
    picks: &[usize],
    count: usize,
    steps: &[Step],
    answers: &mut Answers,
) -> Result<(), AllocError>
    requires set { IsSet (M.scene memory.old) count }
    ensures along { GoesAlong (M.scene memory.old) (M.scene memory.new) }
{
    pools_go_on();
    match free(memory, count, &mut answers.runs) {
        Ok(()) => {
            answers.notes.push(Note {
                answer: Ok(0),
                uses: [0; 4],
            })?;
            take_rooms(memory, picks, count, steps, answers)
        }
        Err(fault) => {
            answers.notes.push(Note {
                answer: Err(fault),
                uses: [0; 4],
            })?;
            Ok(())
        }
    }
}

/// Takes the steps of a whole script up to the first refusal, and notes the answers.
pub fn take_all<M: Memory>(
    memory: &mut M,
    picks: &[usize],
    count: usize,
    steps: &[Step],
    answers: &mut Answers,
) -> Result<(), AllocError>
    requires set { IsSet (M.scene memory.old) count }
    ensures along { GoesAlong (M.scene memory.old) (M.scene memory.new) }
{
    pools_go_on();
    let before = count_before(steps);
    let went = take_steps(memory, picks, count, &steps[..before], answers)?;
    if !went || before >= steps.len() {
        return Ok(());
    }
    take_freed(memory, picks, count, &steps[before + 1..], answers)
}
