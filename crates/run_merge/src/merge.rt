//! Runs that are read side by side.

ghost use Rattle.std.specs.Prelude.{◌≡◌, length};
ghost use Rattle.run_merge.specs.Heads.{AreAtEntries, AreFronts, AreOfKind, IsLent};
ghost use Rattle.run_merge.specs.Orders.{IsOrder};

use crate::giving::{give_alone, give_joined};
use crate::heads::{buffered_by, let_all_on};
use crate::queue::Queue;
use aggregate::Kind;
use row_form::Form;
use row_page::{RowBuf, RowView};
use run_file::{Run, RunFault, RunReader};
use spill_disk::{Disk, Shelf};
use std::alloc::{AllocError, Global};

/// Runs of one kind that are read side by side: it gives what their entries come to, the runs in
/// order, one entry at a time.
///
/// Each run's keys ascend; of equal keys the earlier run's entry comes first, and in a group they are
/// combined.
#[derive(Debug, Drop)]
pub struct Merge {
    readers: Vec<RunReader>,
    // which readers stand at a row that was not given yet
    heads: Vec<bool>,
    // the fronts of the keys of those
    fronts: Vec<u64>,
    // the places of those, the least key first, and of equal keys the first reader
    order: Queue,
    kind: Kind,
    value: Vec<u8>,
    // an entry that was put together, and the reader whose own row was given, if one's was
    row: RowBuf,
    given: Option<usize>,
    ghost flags: { length heads.items ≡ length readers.items },
    ghost front_counts: { length fronts.items ≡ length readers.items },
    ghost of_kind: { AreOfKind kind readers.items },
    ghost stand: { AreAtEntries kind readers.items heads.items },
    ghost lent: { IsLent kind readers.items given },
    ghost fronts_are: { AreFronts readers.items heads.items fronts.items },
    ghost in_order: { IsOrder readers.items heads.items order },
}

impl Merge {
    ghost use Rattle.std.specs.Prelude.{◌<◌, ◌≤◌, ◌^◌, ◌↔◌, List, ℕ, Option, None, Ok, true, false, sum_by, IfOk, OnOk};
    ghost use Rattle.std.specs.Borrow.{sem};
    ghost use Rattle.std.specs.Io.BufRead.{Rests};
    ghost use Rattle.aggregate.specs.Totals.{Entry};
    ghost use Rattle.row_page.specs.Views.{fields_in};
    ghost use Rattle.spill_disk.specs.Files.{Files};
    ghost use Rattle.run_file.specs.Shelved.{files_on, faults_on, LeavesFiles};
    ghost use Rattle.run_file.specs.Several.{AreOn, greatest_of};
    ghost use Rattle.run_merge.specs.Causes.{HasCauseAmong, IsDamageIn};
    ghost use Rattle.run_merge.specs.Giving.{AreComing};
    ghost use Rattle.run_merge.specs.Lending.{LendsFirst, LendsFormed, StandsAfter};
    ghost use Rattle.run_merge.specs.Merging.{runs_of, kind_of, kept_of, readers_open, row_of, left_of, Begins, IsToCome, ReadsOn, GivesFormed, Falls, TellsDamage};
    ghost use Rattle.run_merge.specs.contracts.merge.Merge.{the_row};

    /// A merge of these runs, whose entries are of this kind. It reads nothing yet.
    pub fn new(alloc: Global, runs: &[Run], kind: &Kind) -> Result<Merge, AllocError>
        ensures runs { IfOk result (λ merge. runs_of merge ≡ runs.now) }
        ensures kind { IfOk result (λ merge. kind_of merge ≡ kind.now) }
        ensures open { IfOk result (λ merge. readers_open merge ≡ length runs.now) }
        ensures begins { IfOk result Begins }
        ensures left { IfOk result (λ merge. left_of merge ≡ sum_by (λ run. run.count) runs.now) }
    {
        let mut readers = Vec::new(alloc);
        let mut heads = Vec::new(alloc);
        let mut fronts = Vec::new(alloc);
        for run in runs {
            readers.push(RunReader::new(alloc, run, Form::Entries(kind.copy()?)))?;
            heads.push(false)?;
            fronts.push(0)?;
        }
        Ok(Merge {
            readers,
            heads,
            fronts,
            order: Queue::new(alloc),
            kind: kind.copy()?,
            value: Vec::new(alloc),
            row: RowBuf::new(alloc),
            given: None,
        })
    }

    /// How many readers it has open: one for each of its runs.
    pub(crate) fn open(&self) -> usize
        ensures { result ≡ readers_open self.now }
    {
        self.readers.len()
    }

    /// How many bytes its readers keep of its runs' files: in all at most the sum of the runs' greatest
    /// costs of a row.
    pub fn buffered(&self) -> usize
        requires few { length (runs_of self.now) ≤ 2 ^ 16 }
        ensures count { result ≡ kept_of self.now }
        ensures bound { result ≤ sum_by (λ run. run.greatest) (runs_of self.now) }
    {
        buffered_by(&self.readers)
    }

    /// The row that it stands at, a key and a value. It is lent from the buffer of the reader that has it,
    /// or from the merge's own, where values were combined.
    #[inline(always)]
    pub fn row(&self) -> RowView<'_>
        ensures { fields_in result ≡ row_of self.now }
    {
        match self.given {
            Some(place) => self.readers[place].row(),
            None => self.row.view(),
        }
    }

    /// Goes on to the next entry, at which it then stands; `false` comes exactly at the end of all runs.
    /// All files of the shelf stay. A row that isn't well formed is damage, and one that would have 2^31
    /// bytes is want of memory. After an `Err` the merge is only dropped.
    pub fn advance<D: Disk, H: Shelf<D>>(&mut self, shelf: &mut H) -> Result<bool, RunFault>
        requires there { AreOn (H.count_of shelf.old) (runs_of self.old) }
        ensures gives { (entries : List Entry) →
            IsToCome (files_on H.disk_of D.files shelf.old) self.old entries →
            ReadsOn (files_on H.disk_of D.files shelf.new) self.new entries result }
        ensures end { (result ≡ Ok false) ↔ (left_of self.old ≡ 0) }
        ensures falls { Falls self.old self.new result }
        ensures formed { GivesFormed (greatest_of (runs_of self.new)) self.new result }
        ensures damaged { TellsDamage self.new result }
        ensures runs { runs_of self.new ≡ runs_of self.old }
        ensures kind { kind_of self.new ≡ kind_of self.old }
        ensures cause { HasCauseAmong
            (faults_on H.disk_of D.faults shelf.old) (faults_on H.disk_of D.faults shelf.new) result }
        ensures shelf { LeavesFiles H.count_of H.named H.disk_of D.files D.faults shelf.old shelf.new }
    {
        self.given = None;
        let_all_on(
            &mut self.readers,
            &mut self.heads,
            &mut self.fronts,
            &mut self.order,
            shelf,
        )?;
        if self.order.is_empty() {
            return Ok(false);
        }
        match self.give() {
            Ok(()) => Ok(true),
            Err(_) => Err(RunFault::NoMemory),
        }
    }

    /// The next entry as a row, lent as by `row`; `None` comes exactly at the end of all
    /// runs. All files of the shelf stay. Once the row is let go, the merge stands where `advance` leaves
    /// it.
    pub fn next<D: Disk, H: Shelf<D>>(
        &mut self,
        shelf: &mut H,
    ) -> Result<Option<RowView<'_>>, RunFault>
        requires there { AreOn (H.count_of shelf.old) (runs_of self.old) }
        ensures gives { (entries : List Entry) →
            IsToCome (files_on H.disk_of D.files shelf.old) self.old entries →
            LendsFirst entries result }
        ensures end { (result ≡ Ok None) ↔ (left_of self.old ≡ 0) }
        ensures formed { LendsFormed (kind_of self.old) (greatest_of (runs_of self.old)) result }
        ensures damaged { IsDamageIn (runs_of self.old) result }
        ensures* stands { sem 𝓛 (Rests the_row self.entry (StandsAfter
            (files_on H.disk_of D.files shelf.old) (files_on H.disk_of D.files shelf.new)
            self.old result)) }
        ensures cause { HasCauseAmong
            (faults_on H.disk_of D.faults shelf.old) (faults_on H.disk_of D.faults shelf.new) result }
        ensures shelf { LeavesFiles H.count_of H.named H.disk_of D.files D.faults shelf.old shelf.new }
    {
        match self.advance(shelf) {
            Ok(true) => Ok(Some(self.row())),
            Ok(false) => Ok(None),
            Err(fault) => Err(fault),
        }
    }

    /// Gives the entry of the first reader in the order, which has the least key.
    #[inline(always)]
    fn give(&mut self) -> Result<(), AllocError>
        requires some { 0 < length self.old.order }
        ensures gives { OnOk result ((files : ℕ → Option Files) (entries : List Entry) →
            AreComing files true self.old.kind self.old.readers.items self.old.heads.items entries →
            ReadsOn files self.new entries (Ok true)) }
        ensures formed { OnOk result (GivesFormed (greatest_of (runs_of self.new)) self.new (Ok true)) }
        ensures falls { OnOk result (Falls self.old self.new (Ok true)) }
        ensures readers { self.new.readers ≡ self.old.readers }
        ensures kind { self.new.kind ≡ self.old.kind }
    {
        match &self.kind {
            Kind::Order => {
                self.given = Some(give_alone(&self.readers, &mut self.heads, &mut self.order));
            }
            Kind::Group(aggs) => {
                self.given = give_joined(
                    aggs,
                    &self.readers,
                    &mut self.heads,
                    &self.fronts,
                    &mut self.order,
                    &mut self.value,
                    &mut self.row,
                )?;
            }
        }
        Ok(())
    }
}
