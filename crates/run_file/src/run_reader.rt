//! A run that is being read.

ghost use Rattle.std.specs.Prelude.{◌≡◌, ◌<◌, ◌≤◌, ◌+◌, ◌^◌, ◌↔◌, List, ℕ, true, false, length, take, drop, Option, None, Ok, IfErr, IfNone, IfOk, IfSome, OnOk, OnErr, is_some};
ghost use Rattle.std.specs.Borrow.{sem};
ghost use Rattle.std.specs.Io.BufRead.{Rests};
ghost use Rattle.aggregate.specs.declared.kind.Kind.{Kind};
ghost use Rattle.row_page.specs.Views.{fields_in};
ghost use Rattle.spill_disk.specs.Files.{Files};
ghost use Rattle.run_file.specs.declared.run.RunFault.{RunFault};
ghost use Rattle.run_file.specs.AtEntries.{IsAtEntry, entry_at};
ghost use Rattle.run_file.specs.Shelved.{files_on, faults_on, LeavesFiles};
ghost use Rattle.run_file.specs.Causes.{HasCauseOn, NotDamaged, damage_by};
ghost use Rattle.run_file.specs.Filling.{BeginsRow, ShowsFront, TakesAhead};
ghost use Rattle.run_file.specs.Readers.{known_ahead, most_kept};
ghost use Rattle.run_file.specs.Reading.{BeginsDamaged, ExplainsDamage, IsAtRow, IsAhead, Begins, ReadsOn, StaysAhead, GivesFirst, TellsDamage, TellsPlace, TakesRow, GivesFormed, Moves};
ghost use Rattle.run_file.specs.Lending.{StandsAfter};
ghost use Rattle.run_file.specs.contracts.run_reader.RunReader.{the_row};

use crate::kept::KeptBytes;
use crate::run::fault_of;
use crate::{Damage, Run, RunFault};
use row_form::Form;
use row_page::{RowView, split_piece};
use spill_disk::{Disk, Shelf};
use std::alloc::Global;
use std::marker::Model;

/// A run that is read row by row. Of its file it keeps at most the bytes of the greatest row, behind
/// their length.
#[derive(Debug, Drop)]
pub struct RunReader {
    run: Run,
    form: Form,
    kept: KeptBytes,
    found: u64,
}

impl Model for RunReader {
    ghost use Rattle.run_file.specs.Readers.{ReaderView, IsBounded};

    ghost Value = { ReaderView };

    ghost view = { λ r. record { run = r.run; form = r.form; found = r.found; kept = r.kept } };

    ghost invariant = { λ r. IsBounded r.run r.kept };
}

impl RunReader {
    /// A reader of this run, for rows of this form. It reads nothing yet.
    pub fn new(alloc: Global, run: &Run, form: Form) -> RunReader
        ensures run { result.run ≡ run.now }
        ensures form { result.form ≡ form }
        ensures found { result.found ≡ 0 }
        ensures begins { Begins result }
        ensures kept { result.kept.count ≡ 0 }
    {
        RunReader {
            run: *run,
            form,
            kept: KeptBytes::new(alloc),
            found: 0,
        }
    }

    /// How many bytes it keeps of its run's file, those of the row that it stands at among them: none
    /// before the first read, and never more than the greatest row takes there behind its length.
    pub fn buffered(&self) -> usize
        ensures count { result ≡ self.now.kept.count }
        ensures bound { result ≤ self.now.run.greatest }
        ensures most { result ≤ most_kept self.now.run }
        ensures small { result ≤ 2 ^ 33 }
    {
        self.kept.count()
    }

    /// The row that the reader stands at, lent from its buffer.
    #[inline(always)]
    pub fn row(&self) -> RowView<'_>
        requires { (row : List (List ℕ)) × IsAtRow self.now row }
        ensures at { IsAtRow self.now (fields_in result) }
        ensures only { (row : List (List ℕ)) → IsAtRow self.now row → fields_in result ≡ row }
    {
        RowView::of_known(self.kept.row())
    }

    /// The key of the entry that the reader stands at.
    #[inline(always)]
    pub fn key(&self) -> &[u8]
        requires { (kind : Kind) × ∥ IsAtEntry kind self.now ∥₁ }
        ensures { result.now ≡ (entry_at self.now).key }
    {
        self.row().field(0)
    }

    /// The value of the entry that the reader stands at.
    #[inline(always)]
    pub fn value(&self) -> &[u8]
        requires { (kind : Kind) × ∥ IsAtEntry kind self.now ∥₁ }
        ensures { result.now ≡ (entry_at self.now).value }
    {
        self.row().field(1)
    }

    /// Goes on to the next row, at which the reader then stands; `false` comes exactly after the run's
    /// count of rows. All files of the shelf stay. A row that isn't well formed is damage, and so is a
    /// length that no row of the run has: nothing grows for it. After an `Err` the same rows are ahead.
    #[inline(always)]
    pub fn advance<D: Disk, H: Shelf<D>>(&mut self, shelf: &mut H) -> Result<bool, RunFault>
        requires there { self.old.run.disk < H.count_of shelf.old }
        ensures gives { (rows : List (List (List ℕ))) →
            IsAhead (files_on H.disk_of D.files shelf.old self.old.run.disk) self.old rows →
            ReadsOn (files_on H.disk_of D.files shelf.new self.old.run.disk) self.new rows result }
        ensures stays { StaysAhead
            (files_on H.disk_of D.files shelf.old self.old.run.disk)
            (files_on H.disk_of D.files shelf.new self.old.run.disk) self.old self.new result }
        ensures end { (result ≡ Ok false) ↔ (self.old.run.count ≤ self.old.found) }
        ensures damaged { TellsDamage self.old self.new result }
        ensures why { ExplainsDamage
            (files_on H.disk_of D.files shelf.old self.old.run.disk) self.old result }
        ensures taken { TakesRow self.new result }
        ensures moved { Moves self.old self.new result }
        ensures fits { self.new.found < 2 ^ 64 }
        ensures cause { HasCauseOn self.old.run.disk
            (faults_on H.disk_of D.faults shelf.old self.old.run.disk)
            (faults_on H.disk_of D.faults shelf.new self.old.run.disk) result }
        ensures shelf { LeavesFiles H.count_of H.named H.disk_of D.files D.faults shelf.old shelf.new }
    {
        if self.found >= self.run.count {
            return Ok(false);
        }
        self.reach(shelf)?;
        self.step()
    }

    /// The next row, lent from the reader's buffer; `None` comes exactly after the run's count of rows.
    /// All files of the shelf stay. Once the row is let go, the reader stands where `advance` leaves it.
    pub fn next<D: Disk, H: Shelf<D>>(
        &mut self,
        shelf: &mut H,
    ) -> Result<Option<RowView<'_>>, RunFault>
        requires there { self.old.run.disk < H.count_of shelf.old }
        ensures gives { (rows : List (List (List ℕ))) →
            IsAhead (files_on H.disk_of D.files shelf.old self.old.run.disk) self.old rows →
            GivesFirst rows result }
        ensures end { (result ≡ Ok None) ↔ (self.old.run.count ≤ self.old.found) }
        ensures damaged { TellsPlace self.old result }
        ensures why { ExplainsDamage
            (files_on H.disk_of D.files shelf.old self.old.run.disk) self.old result }
        ensures taken { GivesFormed self.old result }
        ensures* stands { sem 𝓛 (Rests the_row self.entry (StandsAfter
            (files_on H.disk_of D.files shelf.old self.old.run.disk)
            (files_on H.disk_of D.files shelf.new self.old.run.disk) self.old result)) }
        ensures cause { HasCauseOn self.old.run.disk
            (faults_on H.disk_of D.faults shelf.old self.old.run.disk)
            (faults_on H.disk_of D.faults shelf.new self.old.run.disk) result }
        ensures shelf { LeavesFiles H.count_of H.named H.disk_of D.files D.faults shelf.old shelf.new }
    {
        if self.advance(shelf)? {
            return Ok(Some(self.row()));
        }
        Ok(None)
    }

    /// Reads on, unless a whole piece stands in front of what is kept.
    #[inline(always)]
    fn reach<D: Disk, H: Shelf<D>>(&mut self, shelf: &mut H) -> Result<(), RunFault>
        requires there { self.old.run.disk < H.count_of shelf.old }
        ensures ahead { known_ahead (files_on H.disk_of D.files shelf.old self.old.run.disk) self.new
            ≡ known_ahead (files_on H.disk_of D.files shelf.old self.old.run.disk) self.old }
        ensures shows { OnOk result (IfSome
            (known_ahead (files_on H.disk_of D.files shelf.old self.old.run.disk) self.new)
            (ShowsFront self.old.run self.new.kept.rest)) }
        ensures moved { self.new ≡ record self.old { kept = self.new.kept } }
        ensures fits { self.new.found < 2 ^ 64 }
        ensures cause { HasCauseOn self.old.run.disk
            (faults_on H.disk_of D.faults shelf.old self.old.run.disk)
            (faults_on H.disk_of D.faults shelf.new self.old.run.disk) result }
        ensures sound { NotDamaged result }
        ensures shelf { LeavesFiles H.count_of H.named H.disk_of D.files D.faults shelf.old shelf.new }
    {
        let disk = shelf.disk(self.run.disk);
        match self.kept.reach(disk, &self.run) {
            Ok(()) => Ok(()),
            Err(error) => Err(fault_of(self.run.disk, error)),
        }
    }

    /// Goes on to the row at the front of what is kept.
    #[inline(always)]
    fn step(&mut self) -> Result<bool, RunFault>
        requires left { self.old.found < self.old.run.count }
        ensures some { result ≡ Ok false → ⊥ }
        ensures takes { OnOk result (TakesAhead self.old self.new) }
        ensures damaged { TellsDamage self.old self.new result }
        ensures only { IfErr result (λ fault. fault ≡ damage_by self.old.run self.old.found) }
        ensures stays { OnErr result (self.new ≡ self.old) }
        ensures moved { Moves self.old self.new result }
        ensures fits { self.new.found < 2 ^ 64 }
    {
        let Some(size) = front_of(&self.form, self.run.greatest, self.kept.rest()) else {
            return Err(damage_of(&self.run, self.found));
        };
        self.kept.take(size);
        self.found += 1;
        Ok(true)
    }
}

/// How many bytes the well-formed row has that stands at the front, behind its length. Where none does,
/// the run is damaged.
#[inline(always)]
pub(crate) fn front_of(form: &Form, greatest: u64, bytes: &[u8]) -> Option<usize>
    ensures some { IfSome result (BeginsRow form.now greatest bytes.now) }
    ensures inside { IfSome result (λ size. 4 + size ≤ length bytes.now) }
    ensures none { IfNone result (BeginsDamaged form.now greatest bytes.now) }
{
    let Some((piece, _)) = split_piece(bytes) else {
        return None;
    };
    if !form.takes(piece, greatest) {
        return None;
    }
    Some(piece.len())
}

/// The damage of a run of which so many rows were found.
#[cold]
#[inline(never)]
pub(crate) fn damage_of(run: &Run, found: u64) -> RunFault
    ensures { result ≡ damage_by run.now found }
{
    RunFault::Damaged(Damage {
        disk: run.disk,
        file: run.file,
        kept: run.count,
        found,
    })
}
