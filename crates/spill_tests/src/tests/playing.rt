// A task with four part spillers in boxes, all or some of which are its own.
ghost use Rattle.std.specs.Prelude.{◌≡◌, [], ℕ, map, true, Some, IfOk};
ghost use Rattle.aggregate.specs.declared.kind.Kind.TheVariants.{Order};
ghost use Rattle.memory_lock.specs.Crew.{IsWorker};
ghost use Rattle.spill_tests.specs.Scripts.{AreFour, AreOrders, ArePlacesOfFour};
ghost use Rattle.task_memory.specs.Scenes.{IsLive};
ghost use Rattle.task_memory.specs.Words.{begun_scene};
ghost use Rattle.task_pool.specs.Pools.{Goes, IsAtWork};
ghost use Rattle.task_pool.specs.Workers.{SeesMore};

use crate::spiller::PartSpiller;
use crate::tests::scripts::Parts;
use crate::tests::steps::{Answers, Step, note_runs, take_all};
use aggregate::Kind;
use consumer_trait::Consumer;
use memory_lock::{Basis, Manager, Worker};
use pool_ledger::{Journal, Setup};
use run_file::Run;
use spill_disk::{Disk, MemoryDisk};
use std::alloc::{AllocError, Global};
use std::sync::Wait;
use task_account::Account;
use task_memory::{Spills, Started, TaskFault, TaskMemory, start};
use task_pool::{Pool, pools_go_on};

/// What is played: the leasts of the four boxes, how they spill, the disk's calls that fail, and the steps.
#[derive(Clone, Copy)]
pub struct Setting<'a> {
    pub leasts: &'a [u64; 4],
    pub parts: &'a [Parts; 4],
    pub fails: &'a [u64],
    pub steps: &'a [Step],
}

/// What a task leaves: what its steps gave, whether its memory was live at its end, if it started, and the bytes that it
/// held then.
#[derive(Drop)]
pub struct Left {
    pub answers: Answers,
    pub live: Result<bool, TaskFault>,
    pub freed: u64,
    pub disk: MemoryDisk,
}

// A part spiller with this least, in a box.
fn boxed(alloc: Global, least: u64, parts: Parts) -> Result<Box<dyn Consumer + Send>, AllocError>
    ensures { IfOk result (λ boxed. (state boxed).serves Order ≡ true) }
{
    let (asks, most, part, early) = parts;
    let least = least.min(1 << 32);
    let asks = asks.min(1 << 50);
    let most = most.max(1);
    let part = part.max(1);
    let early = early.min(16);
    Ok(Box::new(
        alloc,
        PartSpiller::new(alloc, least, asks, most, part, early),
    )?)
}

// Four part spillers with these leasts.
fn boxes_of(
    alloc: Global,
    leasts: &[u64; 4],
    parts: &[Parts; 4],
) -> Result<[Box<dyn Consumer + Send>; 4], AllocError>
    ensures { IfOk result (λ boxes. AreFour (map (λ b. state b) boxes)) }
{
    let [first, second, third, fourth] = *leasts;
    let [one, two, three, four] = *parts;
    let first = boxed(alloc, first, one)?;
    let second = boxed(alloc, second, two)?;
    let third = boxed(alloc, third, three)?;
    let fourth = boxed(alloc, fourth, four)?;
    Ok([first, second, third, fourth])
}

// Puts the runs that the consumers have behind these.
fn note_left<C: Consumer, P: Pool, D: Disk>(
    memory: &mut TaskMemory<'_, C, P, D, Spills>,
    count: usize,
    runs: &mut Vec<(usize, Run)>,
) -> Result<(), AllocError>
    ensures { memory.new.pool ≡ memory.old.pool }
{
    for consumer in 0..count {
        note_runs(runs, consumer, &memory.take_left(consumer))?;
    }
    Ok(())
}

// Takes these steps with a memory of boxes that were begun, and ends it: whether it was live then.
fn live_over<C: Consumer, P: Pool, D: Disk>(
    pool: &mut P,
    boxes: &mut [C],
    disk: &mut D,
    started: Started,
    picks: &[usize],
    steps: &[Step],
    answers: &mut Answers,
) -> Result<bool, AllocError>
    requires live { IsLive (begun_scene (map C.state boxes.old) (P.state pool.old) (D.files disk.old) (D.faults disk.old)
        started.spills started.leasts) }
    requires orders { AreOrders (map C.state boxes.old) }
    requires picks { started.spills.picks.items ≡ picks.now }
    ensures goes { Goes (P.state pool.old) (P.state pool.new) }
{
    let count = picks.len();
    let mut memory = TaskMemory::of(pool, boxes, disk, started.spills, started.leasts);
    let outcome = take_all(&mut memory, picks, count, steps, answers);
    let live = memory.live();
    let taken = note_left(&mut memory, count, &mut answers.runs);
    memory.end();
    outcome?;
    taken?;
    Ok(live)
}

// Starts a memory of the boxes at `picks`, takes these steps, and ends it: whether it was live then.
fn live_through<C: Consumer, P: Pool, D: Disk>(
    alloc: Global,
    pool: &mut P,
    boxes: &mut [C],
    disk: &mut D,
    picks: &[usize],
    kinds: &[Kind],
    steps: &[Step],
    answers: &mut Answers,
) -> Result<bool, TaskFault>
    requires at_work { IsAtWork (P.state pool.old) }
    requires nothing { (P.state pool.old).account.held ≡ 0 }
    requires four { AreFour (map C.state boxes.old) }
    requires places { ArePlacesOfFour picks.now kinds.now }
    ensures goes { Goes (P.state pool.old) (P.state pool.new) }
{
    pools_go_on();
    let started = start(alloc, pool, boxes, picks, kinds)?;
    match live_over(pool, boxes, disk, started, picks, steps, answers) {
        Ok(live) => Ok(live),
        Err(_) => Err(TaskFault::NoMemory),
    }
}

// A new worker's task, whose number is the worker's, that lives through these steps, and what it leaves.
fn play_task<B: Basis, R: Wait>(
    rt: &R,
    alloc: Global,
    manager: &Manager<MemoryDisk, B>,
    worker: &mut Worker<B>,
    picks: &[usize],
    kinds: &[Kind],
    play: Setting<'_>,
) -> Result<Left, AllocError>
    requires manager { worker.old.lock ≡ manager.now }
    requires new { worker.old.seen ≡ [] }
    requires owner { B.owner worker.old.number ≡ Some worker.old.number }
    requires places { ArePlacesOfFour picks.now kinds.now }
    ensures sees { SeesMore worker.old worker.new }
{
    let mut boxes = boxes_of(alloc, play.leasts, play.parts)?;
    let mut disk = MemoryDisk::new(alloc, play.fails.to_vec(alloc)?);
    let mut answers = Answers {
        notes: Vec::new(alloc),
        runs: Vec::new(alloc),
    };
    let number = worker.number();
    let task = manager.begin(rt, worker, number)?;
    let mut account = Account::of(rt, manager, worker, task);
    let live = live_through(
        alloc,
        &mut account,
        &mut boxes,
        &mut disk,
        picks,
        kinds,
        play.steps,
        &mut answers,
    );
    let freed = account.end();
    Ok(Left {
        answers,
        live,
        freed,
        disk,
    })
}

// The same where the boxes 2 and 0 are consumers 0 and 1, if `some`; else the four boxes are the consumers, in order.
#[tactic(auto, using(crate::proofs::Scripted::two_of_four, crate::proofs::Scripted::all_of_four))]
fn play_picked<B: Basis, R: Wait>(
    rt: &R,
    alloc: Global,
    manager: &Manager<MemoryDisk, B>,
    worker: &mut Worker<B>,
    some: bool,
    setting: Setting<'_>,
) -> Result<Left, AllocError>
    requires manager { worker.old.lock ≡ manager.now }
    requires new { worker.old.seen ≡ [] }
    requires owner { B.owner worker.old.number ≡ Some worker.old.number }
    ensures sees { SeesMore worker.old worker.new }
{
    if some {
        let kinds = [Kind::Order, Kind::Order];
        return play_task(rt, alloc, manager, worker, &[2, 0], &kinds, setting);
    }
    let kinds = [Kind::Order, Kind::Order, Kind::Order, Kind::Order];
    play_task(rt, alloc, manager, worker, &[0, 1, 2, 3], &kinds, setting)
}

/// The same with the worker, that rests then.
pub fn play<B: Basis, R: Wait>(
    rt: &R,
    alloc: Global,
    manager: &Manager<MemoryDisk, B>,
    mut worker: Worker<B>,
    some: bool,
    setting: Setting<'_>,
) -> Result<(Worker<B>, Left), AllocError>
    requires worker { IsWorker manager.now B.sizes.workers worker.number worker }
    requires new { worker.seen ≡ [] }
    requires owner { B.owner worker.number ≡ Some worker.number }
    ensures { IfOk result (λ after. IsWorker manager.now B.sizes.workers worker.number after.0) }
{
    let left = play_picked(rt, alloc, manager, &mut worker, some, setting)?;
    // That it rests is known with it.
    let _number = worker.number();
    Ok((worker, left))
}

/// The same in a pool of one worker, with its journal.
pub fn play_alone<B: Basis, R: Wait>(
    rt: &R,
    alloc: Global,
    setup: Setup,
    some: bool,
    given: Setting<'_>,
) -> Result<(Journal, Left), AllocError>
    requires basis { setup ≡ B.sizes }
    requires workers { B.sizes.workers ≡ 1 }
    requires owner { (task : ℕ) → B.owner task ≡ Some task }
{
    let store = MemoryDisk::new(alloc, Vec::new(alloc));
    let (manager, mut workers) = Manager::<MemoryDisk, B>::start(alloc, setup, store)?;
    let Some(worker) = workers.pop() else {
        unreachable!()
    };
    let (worker, left) = play(rt, alloc, &manager, worker, some, given)?;
    workers.push(worker)?;
    let (journal, _) = manager.close(workers);
    Ok((journal, left))
}
