//! Runs that are merged into one.

ghost use Rattle.std.specs.Prelude.{◌≡◌, ◌<◌, ◌≤◌, ◌∷◌, [], ◌↔◌, List, ℕ, None, Some, Ok, length, sum_by, IfOk, IfSome, IsSome};
ghost use Rattle.aggregate.specs.Totals.{Entry};
ghost use Rattle.aggregate.specs.declared.kind.Kind.TheVariants.{Order};
ghost use Rattle.run_file.specs.declared.run.Run.{Run};
ghost use Rattle.run_file.specs.Shelved.{files_on, faults_on, LeavesFiles, KeepsShelf};
ghost use Rattle.run_file.specs.Several.{KeepsOthers, AreApart, AreOn, HaveEntries, greatest_of};
ghost use Rattle.run_merge.specs.Causes.{HasCauseAmong, IsDamageAmong};
ghost use Rattle.run_merge.specs.Merged.{Merges, LeavesOnly, IsFresh, answered};

use crate::rounds::merge_rounds;
use aggregate::Kind;
use run_file::{Run, RunFault};
use spill_disk::{Disk, Shelf};
use std::alloc::Global;

/// Merges runs, in their order, into one run on the disk `to`; `None` comes exactly without a run, and one run alone
/// stays as it is. At most `fan_in` runs are merged at once, round by round. The merged runs' files are removed.
/// After an `Err` some of those may be gone, and files of runs that were being made stay.
pub fn merge_all<D: Disk, H: Shelf<D>>(
    alloc: Global,
    shelf: &mut H,
    runs: Vec<Run>,
    kind: &Kind,
    fan_in: usize,
    to: u32,
) -> Result<Option<Run>, RunFault>
    requires fan_in { 2 ≤ fan_in }
    requires to { to < H.count_of shelf.old }
    requires there { AreOn (H.count_of shelf.old) runs.items }
    ensures none { IfOk result (λ answer. (answer ≡ None) ↔ (runs.items ≡ [])) }
    ensures alone { (run : Run) → runs.items ≡ run ∷ [] → result ≡ Ok (Some run) }
    ensures still { length runs.items ≤ 1 →
        LeavesFiles H.count_of H.named H.disk_of D.files D.faults shelf.old shelf.new }
    ensures merges { (lists : List (List Entry)) →
        (2 ≤ length runs.items → IsSome (files_on H.disk_of D.files shelf.old to)) →
        HaveEntries (files_on H.disk_of D.files shelf.old) kind.now runs.items lists →
        AreApart (H.named shelf.old) runs.items →
        Merges (files_on H.disk_of D.files shelf.new) kind.now lists result }
    ensures on { IfOk result (λ answer. IfSome answer (λ run. 2 ≤ length runs.items → run.disk ≡ to)) }
    ensures bounded { IfOk result (λ answer. IfSome answer (λ run. run.greatest ≤ greatest_of runs.items)) }
    ensures counted { kind.now ≡ Order → IfOk result (λ answer. IfSome answer (λ run. run.count ≡ sum_by (λ each. each.count) runs.items)) }
    ensures files { IfOk result (λ answer. LeavesOnly (H.named shelf.old)
        (files_on H.disk_of D.files shelf.old) (files_on H.disk_of D.files shelf.new) runs.items (answered answer)) }
    ensures fresh { IfOk result (λ answer. IsFresh (H.named shelf.old)
        (files_on H.disk_of D.files shelf.old) runs.items (answered answer)) }
    ensures others { KeepsOthers (H.named shelf.old)
        (files_on H.disk_of D.files shelf.old) (files_on H.disk_of D.files shelf.new) runs.items }
    ensures damaged { IsDamageAmong (H.named shelf.old) (files_on H.disk_of D.files shelf.old) runs.items to result }
    ensures cause { HasCauseAmong
        (faults_on H.disk_of D.faults shelf.old) (faults_on H.disk_of D.faults shelf.new) result }
    ensures shelf { KeepsShelf H.count_of H.named H.disk_of D.files D.faults shelf.old shelf.new }
{
    if runs.len() < 2 {
        return Ok(runs.first().copied());
    }
    match merge_rounds(alloc, shelf, &runs, kind, fan_in, to) {
        Ok(run) => Ok(Some(run)),
        Err(fault) => Err(fault),
    }
}
