ghost use Rattle.std.specs.Prelude.{◌≡◌, ◌+◌, ◌-◌, ◌≤◌, ◌<◌, [], ◌∷◌, ◌++◌, ◌^◌, reverse, length, IsOk, OnOk, OnErr, vec_len, vec_capacity};
ghost use Rattle.pool_ledger.specs.Sizes.{Sizes, IsInRange};
ghost use Rattle.pool_ledger.specs.History.{held, exec, active, execution_pool, storage_pool, is_active, maximum, open_task};
ghost use Rattle.pool_ledger.specs.Blocks.{stored};
ghost use Rattle.pool_ledger.specs.Journal.{history_of, journal_of};
ghost use Rattle.pool_ledger.specs.Recorded.{CanFollow, IsRecorded};
ghost use Rattle.pool_ledger.specs.Kept.{AreKept};

use crate::entry::{Entry, Event};
use crate::holding::Holding;
use crate::journal::Journal;
use crate::setup::Setup;
use std::alloc::{AllocError, Global};
use std::marker::Model;

/// The entries of one pool, in order, with the sums over them. A contract sees the setup, the entries as
/// a history, the newest first, and `spare`, the number of entries for which there is room.
#[derive(Drop)]
pub struct Ledger {
    setup: Setup,
    entries: Vec<Entry>,
    spare: u64,
    seats: [Option<Holding>; 16],
    exec: u64,
    stored: u64,
    max: u64,
    pool: u64,
    active: u64,
}

impl Model for Ledger {
    ghost use Rattle.std.specs.Prelude.{ℕ, ◌≤◌, ◌+◌, reverse, vec_len, vec_capacity};
    ghost use Rattle.pool_ledger.specs.Accounts.{Accounts, AreSums};

    ghost Value = { Accounts };

    ghost view = { λ l. record { setup = l.setup; history = reverse l.entries.items; spare = l.spare } };

    ghost invariant = { λ l. AreSums l.setup (reverse l.entries.items) l.seats l.exec l.stored l.max l.pool l.active
        × (vec_len l.entries + l.spare ≤ vec_capacity l.entries) };
}

impl Ledger {
    /// An empty ledger, whose storage pool has the region's bytes. It takes no memory.
    pub fn new(alloc: Global, setup: Setup) -> Ledger
        ensures setup { result.setup ≡ setup }
        ensures empty { result.history ≡ [] }
        ensures spare { result.spare ≡ 0 }
    {
        Ledger {
            setup,
            entries: Vec::new(alloc),
            spare: 0,
            seats: [None; 16],
            exec: 0,
            stored: 0,
            max: setup.max(),
            pool: setup.max() - setup.region(),
            active: 0,
        }
    }

    /// The sizes that the pool started with.
    pub fn setup(&self) -> &Setup
        ensures { result.now ≡ self.now.setup }
    {
        &self.setup
    }

    /// The bytes of both pools together.
    pub fn max(&self) -> u64
        ensures { result ≡ maximum self.now.setup self.now.history }
    {
        self.max
    }

    /// The bytes that all tasks hold.
    pub fn exec(&self) -> u64
        ensures { result ≡ exec self.now.history }
    {
        self.exec
    }

    /// The bytes of the blocks in memory.
    pub fn stored(&self) -> u64
        ensures { result ≡ stored self.now.history }
    {
        self.stored
    }

    /// The bytes of the execution pool.
    pub fn execution_pool(&self) -> u64
        ensures { result ≡ execution_pool self.now.setup self.now.history }
    {
        self.pool
    }

    /// The bytes of the storage pool.
    pub fn storage_pool(&self) -> u64
        ensures { result ≡ storage_pool self.now.setup self.now.history }
    {
        self.max - self.pool
    }

    /// The number of active tasks.
    pub fn active(&self) -> u64
        ensures { result ≡ active self.now.history }
    {
        self.active
    }

    /// The bytes that the task holds.
    pub fn held(&self, task: u32) -> u64
        ensures { result ≡ held self.now.history task }
    {
        self.look_up(task).held
    }

    /// Whether the task is active: it is from its first attempt until a release or its end leaves it with
    /// nothing.
    pub fn is_active(&self, task: u32) -> bool
        ensures { result ≡ is_active self.now.history task }
    {
        self.look_up(task).active
    }

    /// The task that the worker has begun and not ended.
    pub fn open_task(&self, worker: u32) -> Option<u32>
        ensures { result ≡ open_task self.now.history worker }
    {
        let seats = &self.seats;
        if worker >= 16 {
            return None;
        }
        match seats[worker as usize] {
            Some(open) => Some(open.task),
            None => None,
        }
    }

    /// The journal so far, the oldest entry first.
    pub fn entries(&self) -> &[Entry]
        ensures journal { result.now ≡ journal_of self.now.history }
        ensures history { history_of result.now ≡ self.now.history }
    {
        &self.entries
    }

    /// The number of entries for which there is room.
    pub fn spare(&self) -> u64
        ensures { result ≡ self.now.spare }
    {
        self.spare
    }

    /// Makes room for `n` entries. After an `Err`, which is want of memory, all is as before; it doesn't
    /// come where there is room for them.
    pub fn reserve(&mut self, n: u64) -> Result<(), AllocError>
        ensures ok { OnOk result (n ≤ self.new.spare) }
        ensures enough { n ≤ self.old.spare → IsOk result }
        ensures keeps { self.old.spare ≤ self.new.spare }
        ensures err { OnErr result (self.new ≡ self.old) }
        ensures setup { self.new.setup ≡ self.old.setup }
        ensures history { self.new.history ≡ self.old.history }
    {
        if n > self.spare {
            self.entries.reserve(n as usize)?;
            self.spare = n;
        }
        Ok(())
    }

    /// Adds an entry that can come next, for which there is room: its task or block is as it has to be,
    /// what is freed is held, what is borrowed is in the execution pool, a growth is one that may be, and no
    /// sum passes the bytes of both pools. That the entry is one that the rules of the pool give isn't asked for.
    pub fn push(&mut self, entry: Entry)
        requires spare { 1 ≤ self.old.spare }
        requires next { CanFollow self.old.setup self.old.history entry }
        ensures history { self.new.history ≡ entry ∷ self.old.history }
        ensures spare { self.new.spare + 1 ≡ self.old.spare }
        ensures setup { self.new.setup ≡ self.old.setup }
    {
        let kept = self.kept_after(entry);
        self.record(entry, kept);
    }

    /// The whole journal. It takes no memory.
    pub fn close(self) -> Journal
        ensures journal { result ≡ journal_of self.history }
        ensures history { history_of result ≡ self.history }
    {
        Journal::of(self.entries)
    }

    // What is known of the task: kept, if a worker has it open.
    fn look_up(&self, task: u32) -> Holding
        ensures held { result.held ≡ held self.now.history task }
        ensures active { result.active ≡ is_active self.now.history task }
    {
        for seat in &self.seats {
            if let Some(open) = seat {
                if open.task == task {
                    return *open;
                }
            }
        }
        self.remembered(task)
    }

    // The same from the entries alone. An ended task may still hold bytes.
    fn remembered(&self, task: u32) -> Holding
        ensures held { result.held ≡ held self.now.history task }
        ensures active { result.active ≡ is_active self.now.history task }
    {
        let mut found = Holding::new(task);
        for entry in &self.entries {
            found = found.after(entry.event);
        }
        found
    }

    // The sums as they are, with the worker's open task.
    fn kept(&self, worker: u32) -> Kept
        requires { worker < self.now.setup.workers }
        ensures sums { AreKept self.now.setup self.now.history worker result }
        ensures range { IsInRange self.now.setup.maximum self.now.setup.region self.now.setup.workers }
        ensures recorded { IsRecorded self.now.setup self.now.history }
        ensures few { length self.now.history < 2 ^ 64 }
    {
        let _ = self.entries.len();
        Kept {
            seat: self.seats[worker as usize],
            exec: self.exec,
            stored: self.stored,
            max: self.max,
            pool: self.pool,
            active: self.active,
        }
    }

    // The sums after an entry that can come next.
    fn kept_after(&self, entry: Entry) -> Kept
        requires { CanFollow self.now.setup self.now.history entry }
        ensures { AreKept self.now.setup (entry ∷ self.now.history) entry.worker result }
    {
        let kept = self.kept(entry.worker);
        match (entry.event, kept.seat) {
            (Event::Begin { task }, _) => kept.with_seat(Some(Holding::new(task))),
            (Event::Attempt { moved, got, .. }, Some(open)) => {
                let next = open.granted(got.unwrap_or(0));
                Kept {
                    seat: Some(next),
                    exec: kept.exec - open.held + next.held,
                    pool: kept.pool + moved,
                    active: kept.active - open.mark() + 1,
                    ..kept
                }
            }
            (Event::Release { freed, .. }, Some(open)) => {
                let next = open.released(freed);
                Kept {
                    seat: Some(next),
                    exec: kept.exec - freed,
                    active: kept.active - open.mark() + next.mark(),
                    ..kept
                }
            }
            (Event::End { freed, .. }, Some(open)) => {
                let left = open.released(freed);
                Kept {
                    seat: None,
                    exec: kept.exec - open.held + left.held,
                    active: kept.active - open.mark() + left.mark(),
                    ..kept
                }
            }
            (Event::Evict { size, .. }, _) => kept.with_stored(kept.stored - size),
            (Event::Remove { size, .. }, _) => kept.with_stored(kept.stored - size),
            (Event::Admit { size, borrowed, .. }, _) => kept
                .with_stored(kept.stored + size)
                .with_pool(kept.pool - borrowed),
            (Event::Refused { borrowed, .. }, _) => kept.with_pool(kept.pool - borrowed),
            (Event::Pin { .. }, _) => kept,
            (Event::Grow { bytes }, _) => kept.grown(bytes),
            _ => kept,
        }
    }

    // Adds an entry and the sums after it.
    fn record(&mut self, entry: Entry, kept: Kept)
        requires spare { 1 ≤ self.old.spare }
        requires next { CanFollow self.old.setup self.old.history entry }
        requires sums { AreKept self.old.setup (entry ∷ self.old.history) entry.worker kept }
        ensures history { self.new.history ≡ entry ∷ self.old.history }
        ensures spare { self.new.spare + 1 ≡ self.old.spare }
        ensures setup { self.new.setup ≡ self.old.setup }
    {
        self.seats[entry.worker as usize] = kept.seat;
        self.exec = kept.exec;
        self.stored = kept.stored;
        self.max = kept.max;
        self.pool = kept.pool;
        self.active = kept.active;
        self.spare -= 1;
        append(&mut self.entries, entry);
    }
}

// The running sums, and one worker's open task.
#[derive(Clone, Copy)]
struct Kept {
    seat: Option<Holding>,
    exec: u64,
    stored: u64,
    max: u64,
    pool: u64,
    active: u64,
}

impl Kept {
    // The same sums, with another task at hand.
    fn with_seat(self, seat: Option<Holding>) -> Kept
        ensures { result ≡ record self { seat = seat } }
    {
        Kept { seat, ..self }
    }

    // The same sums, with so many bytes stored.
    fn with_stored(self, stored: u64) -> Kept
        ensures { result ≡ record self { stored = stored } }
    {
        Kept { stored, ..self }
    }

    // The same sums, with an execution pool of so many bytes.
    fn with_pool(self, pool: u64) -> Kept
        ensures { result ≡ record self { pool = pool } }
    {
        Kept { pool, ..self }
    }

    // The same sums, with so many bytes more in both pools together and in the execution pool.
    fn grown(self, bytes: u64) -> Kept
        requires max { self.max + bytes < 2 ^ 64 }
        requires pool { self.pool + bytes < 2 ^ 64 }
        ensures { result ≡ record self { max = self.max + bytes; pool = self.pool + bytes } }
    {
        Kept {
            max: self.max + bytes,
            pool: self.pool + bytes,
            ..self
        }
    }
}

// Adds an entry for which there is room.
fn append(entries: &mut Vec<Entry>, entry: Entry)
    requires { vec_len entries.old < vec_capacity entries.old }
    ensures items { entries.new.items ≡ entries.old.items ++ entry ∷ [] }
    ensures history { reverse entries.new.items ≡ entry ∷ reverse entries.old.items }
    ensures len { vec_len entries.new ≡ vec_len entries.old + 1 }
    ensures capacity { vec_capacity entries.old ≤ vec_capacity entries.new }
{
    let _ = entries.push(entry);
}
