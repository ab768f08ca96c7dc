// A state that plays scripts, and tells what it is answered.
ghost use Rattle.std.specs.Prelude.{◌≡◌, Some, None, IfSome, IfNone};
ghost use Rattle.pool_ledger.specs.Blocks.{worker_pin};
ghost use Rattle.pool_ledger.specs.History.{open_task, was_begun};
ghost use Rattle.pool_ledger.specs.Journal.{history_of};

use crate::tests::entries::put_entries;
use crate::tests::made_blocks::{block_of, is_made};
use crate::tests::pages::put_blocks;
use crate::tests::replay::blocks_after;
use crate::tests::words::{bytes, cut, number, put_after};
use block_store::Block;
use memory_core::{Admission, Attempted, MemoryState, Pinned};
use pool_ledger::{Entry, Event, Setup};
use spill_disk::{Disk, MemoryDisk};
use std::alloc::Global;
use std::string::String;
use std::sync::Arc;
use std::test::Fail;

// A state whose setup has so many workers, and the bytes of its region.
#[derive(Drop)]
struct Game {
    state: MemoryState<MemoryDisk>,
    workers: u32,
    region: u64,
    ghost crew: { state.setup.workers ≡ workers },
}

// What a step is answered.
#[derive(Clone, Copy)]
enum Answer {
    Nothing,
    Bytes(u64),
    Word(&'static str),
}

// What a script is answered, and what is left: the journal, the blocks in memory, the least recently used first,
// how many files were made and how many of them have bytes, and the bytes of the storage pool.
#[derive(Drop)]
pub struct Told {
    pub answers: String,
    pub left: String,
}

// Plays the steps of a script from a state of these sizes, over a disk that fails at these calls. The sizes are the bytes of
// both pools, the storage fraction in thousandths, the number of workers, and how many of them, from 0 on, have begun a task;
// a name may follow.
pub fn play_script(alloc: Global, sizes: &str, fails: &[u64], steps: &str) -> Result<Told, Fail> {
    let (mut game, tasks) = game_of(alloc, sizes, fails)?;
    let answers = game.play(alloc, tasks, steps)?;
    let left = game.close(alloc)?;
    Ok(Told { answers, left })
}

// A state of these sizes, and how many workers begin a task.
fn game_of(alloc: Global, sizes: &str, fails: &[u64]) -> Result<(Game, u32), Fail> {
    let (max, rest) = cut(sizes, ' ');
    let (storage, rest) = cut(rest, ' ');
    let (workers, rest) = cut(rest, ' ');
    let (tasks, _) = cut(rest, ' ');
    let tasks = number(tasks)?;
    let max = bytes(max)?;
    let storage = number(storage)?;
    let game = new_game(alloc, max, storage, number(workers)?, fails)?;
    Ok((game, tasks))
}

fn new_game(
    alloc: Global,
    max: u64,
    storage: u32,
    workers: u32,
    fails: &[u64],
) -> Result<Game, Fail> {
    if max < 1 || max > 1 << 40 || storage > 1000 || workers < 1 || workers > 16 {
        return Err("numbers out of range".into());
    }
    let setup = Setup::of(max, 0, 1000, storage, workers)?;
    let region = setup.region();
    let disk = MemoryDisk::new(alloc, fails.to_vec(alloc)?);
    Ok(Game {
        state: MemoryState::new(alloc, setup, disk),
        workers,
        region,
    })
}

impl Game {
    // Begins tasks of so many workers, plays the steps, and writes them down with their answers. A task that is begun later
    // has the number of its step, counted from that of the first.
    fn play(&mut self, alloc: Global, tasks: u32, steps: &str) -> Result<String, Fail> {
        self.state.reserve(8)?;
        for worker in 0..tasks {
            self.begin(worker, worker)?;
        }
        let mut answers = String::new(alloc);
        let mut task = tasks;
        for word in steps.split_whitespace() {
            self.play_word(alloc, word, task, &mut answers)?;
            task = task.wrapping_add(1);
        }
        Ok(answers)
    }

    fn play_word(
        &mut self,
        alloc: Global,
        word: &str,
        task: u32,
        answers: &mut String,
    ) -> Result<(), Fail> {
        let (step, _) = cut(word, '=');
        let answer = self.step(alloc, step, task)?;
        answers.push_str(if answers.is_empty() { "" } else { " " })?;
        answers.push_str(step)?;
        put_answer(answers, answer)
    }

    fn step(&mut self, alloc: Global, step: &str, task: u32) -> Result<Answer, Fail> {
        let (kind, rest) = cut(step, ':');
        let (worker, rest) = cut(rest, ':');
        let worker = number(worker)?;
        match kind {
            "begin" => self.begin(worker, task),
            "ask" => self.ask(worker, bytes(rest)?),
            "release" => self.release(worker, bytes(rest)?),
            "end" => self.end(worker),
            "admit" => self.admit(worker, block_of(alloc, rest)?),
            "pin" => self.pin(alloc, worker, rest),
            "unpin" => self.unpin(worker),
            "remove" => self.remove(worker, number(rest)?),
            "grow" => self.grow(worker, bytes(rest)?),
            _ => Err("an unknown step".into()),
        }
    }

    // Begins a task that is new, of a worker that has none.
    fn begin(&mut self, worker: u32, task: u32) -> Result<Answer, Fail> {
        let entries = self.state.entries();
        if worker >= self.workers || open_of(entries, worker).is_some() || is_begun(entries, task) {
            return Err("a begin that can't come".into());
        }
        self.state.begin(worker, task)?;
        Ok(Answer::Nothing)
    }

    fn ask(&mut self, worker: u32, asked: u64) -> Result<Answer, Fail> {
        let task = open_of(self.state.entries(), worker).ok_or("a worker without a task")?;
        if worker >= self.workers || asked < 1 || asked > 1 << 50 {
            return Err("an ask that can't come".into());
        }
        match self.state.attempt(worker, task, asked)? {
            Attempted::Granted(granted) => Ok(Answer::Bytes(granted)),
            Attempted::Wait => Ok(Answer::Word("=wait")),
        }
    }

    fn release(&mut self, worker: u32, bytes: u64) -> Result<Answer, Fail> {
        let task = open_of(self.state.entries(), worker).ok_or("a worker without a task")?;
        if worker >= self.workers {
            return Err("an unknown worker".into());
        }
        let freed = self.state.release(worker, task, bytes)?;
        Ok(Answer::Bytes(freed))
    }

    fn end(&mut self, worker: u32) -> Result<Answer, Fail> {
        let task = open_of(self.state.entries(), worker).ok_or("a worker without a task")?;
        if worker >= self.workers {
            return Err("an unknown worker".into());
        }
        Ok(Answer::Bytes(self.state.end(worker, task)))
    }

    fn admit(&mut self, worker: u32, block: Arc<Block, Global>) -> Result<Answer, Fail> {
        if worker >= self.workers {
            return Err("an unknown worker".into());
        }
        let word = match self.state.admit(worker, block)? {
            Admission::Admitted => "=in",
            Admission::Refused => "=refused",
            Admission::Resident => "=resident",
        };
        Ok(Answer::Word(word))
    }

    // A pin of a block of this name. What is found has to have the rows that a block of its name and size is made with.
    fn pin(&mut self, alloc: Global, worker: u32, name: &str) -> Result<Answer, Fail> {
        let (dataset, part) = cut(name, '.');
        let (word, found) = match self.find(worker, number(dataset)?, number(part)?)? {
            Pinned::Hit(block) => ("=hit", block),
            Pinned::OnDisk(block) => ("=copy", block),
            Pinned::Miss => return Ok(Answer::Word("=miss")),
        };
        if !is_made(alloc, &found)? {
            return Err("a block with other rows".into());
        }
        Ok(Answer::Word(word))
    }

    fn find(&mut self, worker: u32, dataset: u32, part: u32) -> Result<Pinned, Fail> {
        if worker >= self.workers || pin_of_worker(self.state.entries(), worker).is_some() {
            return Err("a pin that can't come".into());
        }
        Ok(self.state.pin(worker, dataset, part)?)
    }

    fn unpin(&mut self, worker: u32) -> Result<Answer, Fail> {
        let pinned = pin_of_worker(self.state.entries(), worker);
        let (dataset, part) = pinned.ok_or("a worker without a pin")?;
        if worker >= self.workers {
            return Err("an unknown worker".into());
        }
        self.state.unpin(worker, dataset, part);
        Ok(Answer::Nothing)
    }

    fn remove(&mut self, worker: u32, dataset: u32) -> Result<Answer, Fail> {
        if worker >= self.workers {
            return Err("an unknown worker".into());
        }
        self.state.remove(worker, dataset)?;
        Ok(Answer::Nothing)
    }

    fn grow(&mut self, worker: u32, bytes: u64) -> Result<Answer, Fail> {
        if worker >= self.workers || worker != 0 || bytes < 1 || bytes > 1 << 36 {
            return Err("a growth that can't come".into());
        }
        if self.state.max() > (1 << 41) - bytes {
            return Err("a growth past what a pool may have".into());
        }
        self.state.grow(worker, bytes)?;
        Ok(Answer::Nothing)
    }

    // What is left.
    fn close(self, alloc: Global) -> Result<String, Fail> {
        let blocks = blocks_text(alloc, self.state.entries())?;
        let Game { state, region, .. } = self;
        let (journal, disk) = state.close();
        left_text(alloc, journal.entries(), blocks.as_str(), disk, region)
    }
}

// The blocks that these entries leave in memory.
fn blocks_text(alloc: Global, entries: &[Entry]) -> Result<String, Fail> {
    let blocks = blocks_after(alloc, entries)?;
    let mut text = String::new(alloc);
    put_blocks(&mut text, " ", &blocks)?;
    Ok(text)
}

// What is left, as lines. The storage pool began with so many bytes.
fn left_text(
    alloc: Global,
    entries: &[Entry],
    blocks: &str,
    disk: MemoryDisk,
    region: u64,
) -> Result<String, Fail> {
    let [created, left] = files(disk);
    let storage = storage_pool(region, entries);
    let mut journal = String::new(alloc);
    put_entries(&mut journal, entries, true)?;
    Ok(format!(in alloc;
        "journal{journal}\nblocks{blocks}\nfiles {created} {left}\nstorage {storage}"
    )?)
}

fn put_answer(text: &mut String, answer: Answer) -> Result<(), Fail> {
    match answer {
        Answer::Nothing => {}
        Answer::Bytes(bytes) => put_after(text, "=", bytes)?,
        Answer::Word(word) => text.push_str(word)?,
    }
    Ok(())
}

// How many files were made on a disk, and how many of them have bytes.
fn files(disk: MemoryDisk) -> [u64; 2] {
    let mut disk = disk;
    let created = disk.created();
    let mut left = 0u64;
    for file in 0..created {
        if has_bytes(&mut disk, file) {
            left = left.wrapping_add(1);
        }
    }
    [created, left]
}

fn has_bytes(disk: &mut MemoryDisk, file: u64) -> bool {
    let mut buf = [0u8; 1];
    // One call of the disk may fail, and the next one doesn't.
    match disk.read_at(file, 0, &mut buf) {
        Ok(count) => count > 0,
        Err(_) => disk.read_at(file, 0, &mut buf).unwrap_or(0) > 0,
    }
}

// The bytes of the storage pool after these entries, from the bytes of its region on.
fn storage_pool(region: u64, entries: &[Entry]) -> u64 {
    let mut bytes = region;
    for entry in entries {
        match entry.event {
            Event::Admit { borrowed, .. } | Event::Refused { borrowed, .. } => {
                bytes = bytes.wrapping_add(borrowed);
            }
            Event::Attempt { moved, .. } => bytes = bytes.wrapping_sub(moved),
            _ => {}
        }
    }
    bytes
}

// The worker's open task, found by a walk.
fn open_of(entries: &[Entry], worker: u32) -> Option<u32>
    ensures { result ≡ open_task (history_of entries.now) worker }
{
    let mut open = None;
    for entry in entries {
        if entry.worker == worker {
            match entry.event {
                Event::Begin { task } => open = Some(task),
                Event::End { .. } => open = None,
                _ => {}
            }
        }
    }
    open
}

// Whether the task was begun, found by a walk.
fn is_begun(entries: &[Entry], task: u32) -> bool
    ensures { result ≡ was_begun (history_of entries.now) task }
{
    let mut begun = false;
    for entry in entries {
        if let Event::Begin { task: other } = entry.event {
            begun = begun || other == task;
        }
    }
    begun
}

// The block that the worker has pinned, found by a walk.
fn pin_of_worker(entries: &[Entry], worker: u32) -> Option<(u32, u32)>
    ensures pin { IfSome result (λ name. worker_pin (history_of entries.now) worker
        ≡ Some (record { dataset = name.0; part = name.1 })) }
    ensures none { IfNone result (worker_pin (history_of entries.now) worker ≡ None) }
{
    let mut pinned = None;
    for entry in entries {
        if entry.worker == worker {
            match entry.event {
                Event::Pin {
                    dataset,
                    part,
                    copy: false,
                } => pinned = Some((dataset, part)),
                Event::Unpin { .. } => pinned = None,
                _ => {}
            }
        }
    }
    pinned
}
