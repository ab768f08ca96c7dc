//! What is kept of a task's spills.

ghost use Rattle.std.specs.Prelude.{◌≡◌, ◌≤◌, ◌<◌, [], length, true, IfOk, OnOk, replicate, slice_set};
ghost use Rattle.row_page.specs.Pages.{empty_page};
ghost use Rattle.task_memory.specs.Asking.{Opens};
ghost use Rattle.task_memory.specs.RunLists.{lists_of, runs_at};

use crate::ask::Ask;
use crate::fault::Fault;
use row_page::{PAGE_ROOM, Page};
use run_file::Run;
use std::alloc::{AllocError, Global};
use std::mem;

/// The runs that a task's consumers spilled, and the asks that are being served. The task's own consumers are some
/// of a list; `picks` are their places in it, and each place of the list has its runs. `deepest` is the greatest number
/// of spills that were ever in progress at once.
#[derive(Drop)]
pub struct Spills {
    pub(crate) alloc: Global,
    pub(crate) picks: Vec<usize>,
    pub(crate) runs: Vec<Vec<Run>>,
    pub(crate) resting: Vec<bool>,
    pub(crate) asks: Vec<Ask>,
    pub(crate) deepest: usize,
    pub(crate) page: Page,
}

impl Spills {
    /// No spill yet, for the consumers at these places among so many.
    pub fn new(alloc: Global, picks: &[usize], count: usize) -> Result<Spills, AllocError>
        ensures picks { IfOk result (λ spills. spills.picks.items ≡ picks.now) }
        ensures runs { IfOk result (λ spills. lists_of spills.runs.items ≡ replicate count []) }
        ensures page { IfOk result (λ spills. spills.page ≡ empty_page) }
        ensures asks { IfOk result (λ spills. spills.asks.items ≡ []) }
        ensures deepest { IfOk result (λ spills. spills.deepest ≡ 0) }
    {
        let mut places = Vec::new(alloc);
        places.extend_from_slice(picks)?;
        let mut runs = Vec::new(alloc);
        for _number in 0..count {
            runs.push(Vec::new(alloc))?;
        }
        Ok(Spills {
            alloc,
            picks: places,
            runs,
            resting: Vec::new(alloc),
            asks: Vec::new(alloc),
            deepest: 0,
            page: Page::new(alloc, PAGE_ROOM),
        })
    }

    /// The places of the task's consumers, in their order.
    pub fn picks(&self) -> &[usize]
        ensures { result.now ≡ self.now.picks.items }
    {
        &self.picks
    }

    /// Takes the runs of the consumer at a place, in the order in which they were written; none where there is no such
    /// place. It takes no memory.
    pub(crate) fn take_runs(&mut self, place: usize) -> Vec<Run>
        ensures taken { result.items ≡ runs_at (lists_of self.old.runs.items) place }
        ensures runs { lists_of self.new.runs.items ≡ slice_set (lists_of self.old.runs.items) place [] }
        ensures picks { self.new.picks ≡ self.old.picks }
        ensures asks { self.new.asks ≡ self.old.asks }
        ensures page { self.new.page ≡ self.old.page }
        ensures deepest { self.new.deepest ≡ self.old.deepest }
    {
        if place >= self.runs.len() {
            return Vec::new(self.alloc);
        }
        mem::replace(&mut self.runs[place], Vec::new(self.alloc))
    }

    // Makes the stack that of one ask, where all `count` consumers rest.
    pub(crate) fn open(&mut self, count: usize, ask: Ask) -> Result<(), Fault>
        ensures opens { OnOk result (Opens count ask self.old self.new) }
        ensures few { length self.new.asks.items ≤ 1 }
        ensures deepest { self.new.deepest ≡ self.old.deepest }
        ensures page { self.new.page ≡ self.old.page }
    {
        self.resting.clear();
        self.asks.clear();
        if self.resting.resize(count, true).is_err() || self.asks.push(ask).is_err() {
            return Err(Fault::NoMemory);
        }
        Ok(())
    }
}
