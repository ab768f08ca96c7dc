// The entries of a run, one after the other.
ghost use Rattle.std.specs.Prelude.{◌≡◌};

use aggregate::Kind;
use row_form::Form;
use run_file::{Damage, Run, RunFault, RunReader};
use spill_disk::{Disk, Shelf};
use std::alloc::{AllocError, Global};
use std::marker::Model;

// A run that is read entry by entry, and how many entries are ahead. Contracts see its run's reader.
#[derive(Drop)]
pub(crate) struct EntryReader {
    reader: RunReader,
    run: Run,
    ahead: u64,
}

impl Model for EntryReader {
    ghost use Rattle.run_file.specs.Readers.{ReaderView};
    ghost use Rattle.result_table.specs.Ahead.{HasAhead};

    ghost Value = { ReaderView };

    ghost view = { λ r. r.reader };

    ghost invariant = { λ r. HasAhead r.reader r.run r.ahead };
}

impl EntryReader {
    ghost use Rattle.std.specs.Prelude.{◌<◌, ◌≤◌, ◌-◌, ◌↔◌, List, IfOk, Ok, false};
    ghost use Rattle.aggregate.specs.Totals.{Entry};
    ghost use Rattle.aggregate.specs.declared.kind.Kind.{Kind};
    ghost use Rattle.run_file.specs.AtEntries.{IsAtEntry, entry_at};
    ghost use Rattle.run_file.specs.Causes.{HasCauseOn, damage_by};
    ghost use Rattle.row_form.specs.Forms.{IsValueOf};
    ghost use Rattle.run_file.specs.Reading.{TellsPlace};
    ghost use Rattle.run_file.specs.Shelved.{LeavesFiles, faults_on, files_on};
    ghost use Rattle.result_table.specs.Ahead.{AreAhead, BeginsWith, GoesTo, IsOfKind, TakesEntry};

    // A reader of a run's entries, which are of this kind. It reads nothing yet.
    pub(crate) fn new(alloc: Global, run: &Run, kind: &Kind) -> Result<EntryReader, AllocError>
        ensures run { IfOk result (λ reader. reader.run ≡ run.now) }
        ensures kind { IfOk result (IsOfKind kind.now) }
        ensures none { IfOk result (λ reader. reader.found ≡ 0) }
        ensures begins { IfOk result (BeginsWith kind.now run.now) }
    {
        Ok(EntryReader {
            reader: RunReader::new(alloc, run, Form::Entries(kind.copy()?)),
            run: *run,
            ahead: run.count,
        })
    }

    // Goes on to the next entry, at which it then stands; `false` comes exactly after the run's count of
    // entries. All files of the shelf stay. An entry that isn't well formed is damage.
    pub(crate) fn go_on<D: Disk, H: Shelf<D>>(&mut self, shelf: &mut H) -> Result<bool, RunFault>
        requires there { self.old.run.disk < H.count_of shelf.old }
        ensures gives { (entries : List Entry) →
            AreAhead (files_on H.disk_of D.files shelf.old self.old.run.disk) self.old entries →
            GoesTo (files_on H.disk_of D.files shelf.new self.old.run.disk) self.new entries result }
        ensures end { (result ≡ Ok false) ↔ (self.old.run.count ≤ self.old.found) }
        ensures takes { TakesEntry self.old self.new result }
        ensures damaged { TellsPlace self.old result }
        ensures run { self.new.run ≡ self.old.run }
        ensures kind { (kind : Kind) → IsOfKind kind self.old → IsOfKind kind self.new }
        ensures cause { HasCauseOn self.old.run.disk
            (faults_on H.disk_of D.faults shelf.old self.old.run.disk)
            (faults_on H.disk_of D.faults shelf.new self.old.run.disk) result }
        ensures shelf { LeavesFiles H.count_of H.named H.disk_of D.files D.faults shelf.old shelf.new }
    {
        if self.reader.advance(shelf)? {
            self.ahead -= 1;
            return Ok(true);
        }
        Ok(false)
    }

    // The key of the entry that it stands at.
    pub(crate) fn key(&self) -> &[u8]
        requires { (kind : Kind) × IsAtEntry kind self.now }
        ensures { result.now ≡ (entry_at self.now).key }
    {
        self.reader.key()
    }

    // The value of the entry that it stands at.
    pub(crate) fn value(&self) -> &[u8]
        requires { (kind : Kind) × IsAtEntry kind self.now }
        ensures value { result.now ≡ (entry_at self.now).value }
        ensures kind { (kind : Kind) → IsAtEntry kind self.now → IsValueOf kind result.now }
    {
        self.reader.value()
    }

    // The damage of a run whose entry at hand can't be told.
    pub(crate) fn damage(&self) -> RunFault
        requires { 0 < self.now.found }
        ensures { result ≡ damage_by self.now.run (self.now.found - 1) }
    {
        RunFault::Damaged(Damage {
            disk: self.run.disk,
            file: self.run.file,
            kept: self.run.count,
            found: self.run.count - self.ahead - 1,
        })
    }
}
