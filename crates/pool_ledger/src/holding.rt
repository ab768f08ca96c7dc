ghost use Rattle.std.specs.Prelude.{◌≡◌, ◌+◌, ◌-◌, ◌≤◌, ◌<◌, ◌^◌, ◌==◌, ◌&&◌, true, false, not, cond, if◌then◌else◌};
ghost use Rattle.pool_ledger.specs.History.{granted_by, freed_by, active_after};

use crate::entry::Event;

/// What is kept of one task: the bytes that it holds, and whether it is active.
#[derive(Clone, Copy)]
pub struct Holding {
    /// The task's number.
    pub task: u32,
    /// How many bytes it holds.
    pub held: u64,
    /// Whether it counts when shares are made.
    pub active: bool,
}

impl Holding {
    /// A task that was just begun.
    pub fn new(task: u32) -> Holding
        ensures { result ≡ record { task = task; held = 0; active = false } }
    {
        Holding {
            task,
            held: 0,
            active: false,
        }
    }

    /// 1 if the task is active.
    pub fn mark(self) -> u64
        ensures { result ≡ cond self.active 1 0 }
    {
        if self.active { 1 } else { 0 }
    }

    /// The task after an attempt that granted these bytes.
    pub fn granted(self, bytes: u64) -> Holding
        requires { self.held + bytes < 2 ^ 64 }
        ensures { result ≡ record { task = self.task; held = self.held + bytes; active = true } }
    {
        Holding {
            task: self.task,
            held: self.held + bytes,
            active: true,
        }
    }

    /// The task after it freed these bytes.
    pub fn released(self, bytes: u64) -> Holding
        requires { bytes ≤ self.held }
        ensures { result
            ≡ record { task = self.task; held = self.held - bytes; active = self.active && not (self.held - bytes == 0) } }
    {
        let held = self.held - bytes;
        Holding {
            task: self.task,
            held,
            active: self.active && held != 0,
        }
    }

    /// The task after an event of any task.
    pub fn after(self, event: Event) -> Holding
        requires grants { self.held + granted_by self.task event < 2 ^ 64 }
        requires frees { freed_by self.task event ≤ self.held }
        ensures task { result.task ≡ self.task }
        ensures held { result.held ≡ self.held + granted_by self.task event - freed_by self.task event }
        ensures active { result.active ≡ active_after self.task event self.active result.held }
    {
        match event {
            Event::Attempt { task, got, .. } => {
                if task == self.task {
                    self.granted(got.unwrap_or(0))
                } else {
                    self
                }
            }
            Event::Release { task, freed } => self.released_by(task, freed),
            Event::End { task, freed } => self.released_by(task, freed),
            Event::Begin { .. }
            | Event::Evict { .. }
            | Event::Admit { .. }
            | Event::Refused { .. }
            | Event::Pin { .. }
            | Event::Unpin { .. }
            | Event::Remove { .. }
            | Event::Grow { .. } => self,
        }
    }

    // The task after this or another task freed these bytes.
    fn released_by(self, task: u32, bytes: u64) -> Holding
        requires { (if task == self.task then bytes else 0) ≤ self.held }
        ensures task { result.task ≡ self.task }
        ensures held { result.held ≡ self.held - (if task == self.task then bytes else 0) }
        ensures active { result.active ≡ (if task == self.task then self.active && not (result.held == 0) else self.active) }
    {
        if task == self.task {
            self.released(bytes)
        } else {
            self
        }
    }
}
