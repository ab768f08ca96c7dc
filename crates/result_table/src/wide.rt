// Sums that are too wide to be printed.
ghost use Rattle.std.specs.Prelude.{◌≡◌, ◌<◌, Err, IfOk, IfSome, List, None, OnErr, Option, Some, ℤ, length, option_map};
ghost use Rattle.std.specs.List.{list_any};
ghost use Rattle.aggregate.specs.Partial.{finished_of};
ghost use Rattle.aggregate.specs.Totals.{Entry};
ghost use Rattle.aggregate.specs.Values.{IsValueOf};
ghost use Rattle.aggregate.specs.declared.kind.Kind.TheVariants.{Group};
ghost use Rattle.run_file.specs.Causes.{HasCauseOn, NotDamaged};
ghost use Rattle.run_file.specs.Shelved.{LeavesFiles, faults_on, files_on};
ghost use Rattle.run_file.specs.Whole.{TellsDamageOf};
ghost use Rattle.job_plan.specs.Telling.{leaves_i64, value_partials};
ghost use Rattle.result_table.specs.Ahead.{AreAhead, IsOfKind};
ghost use Rattle.result_table.specs.Results.{HasCauseOfResult, HasResult, IsDamageOfResult, wide_key};

use crate::entry_reader::EntryReader;
use aggregate::{AggList, Finished, Key, Kind, finish};
use run_file::{Run, RunFault};
use spill_disk::{Disk, Shelf};
use std::alloc::Global;

/// The key of the first group of a result with a number outside `i64`, if there is one. It goes over the whole run,
/// or up to that group.
pub fn too_wide<D: Disk, H: Shelf<D>>(
    alloc: Global,
    shelf: &mut H,
    answer: Option<&Run>,
    aggs: &AggList,
) -> Result<Option<Key>, RunFault>
    requires there { IfSome (option_map (λ run. run.now) answer) (λ run. run.disk < H.count_of shelf.old) }
    ensures ok { IfOk result (λ key. (entries : List Entry) →
        HasResult (files_on H.disk_of D.files shelf.old) (Group aggs.now)
        (option_map (λ run. run.now) answer.entry) entries →
        key ≡ wide_key (length aggs.now) entries) }
    ensures undamaged { (entries : List Entry) →
        HasResult (files_on H.disk_of D.files shelf.old) (Group aggs.now)
        (option_map (λ run. run.now) answer.entry) entries →
        NotDamaged result }
    ensures damaged { IsDamageOfResult (option_map (λ run. run.now) answer.entry) result }
    ensures cause { HasCauseOfResult (option_map (λ run. run.now) answer.entry)
        (faults_on H.disk_of D.faults shelf.old) (faults_on H.disk_of D.faults shelf.new) result }
    ensures shelf { LeavesFiles H.count_of H.named H.disk_of D.files D.faults shelf.old shelf.new }
{
    let Some(run) = answer else {
        return Ok(None);
    };
    let Ok(copy) = aggs.copy() else {
        return Err(RunFault::NoMemory);
    };
    let Ok(mut reader) = EntryReader::new(alloc, run, &Kind::Group(copy)) else {
        return Err(RunFault::NoMemory);
    };
    first_wide(alloc, shelf, &mut reader, aggs)
}

// The key of the first of the entries that are ahead with a number outside `i64`.
fn first_wide<D: Disk, H: Shelf<D>>(
    alloc: Global,
    shelf: &mut H,
    reader: &mut EntryReader,
    aggs: &AggList,
) -> Result<Option<Key>, RunFault>
    requires there { reader.old.run.disk < H.count_of shelf.old }
    requires kind { IsOfKind (Group aggs.now) reader.old }
    ensures ok { IfOk result (λ key. (entries : List Entry) →
        AreAhead (files_on H.disk_of D.files shelf.old reader.old.run.disk) reader.old entries →
        key ≡ wide_key (length aggs.now) entries) }
    ensures whole { IfOk result (λ key. key ≡ None → reader.new.found ≡ reader.old.run.count) }
    ensures undamaged { (entries : List Entry) →
        AreAhead (files_on H.disk_of D.files shelf.old reader.old.run.disk) reader.old entries → NotDamaged result }
    ensures damaged { TellsDamageOf reader.old.run result }
    ensures cause { HasCauseOn reader.old.run.disk
        (faults_on H.disk_of D.faults shelf.old reader.old.run.disk)
        (faults_on H.disk_of D.faults shelf.new reader.old.run.disk) result }
    ensures shelf { LeavesFiles H.count_of H.named H.disk_of D.files D.faults shelf.old shelf.new }
{
    'entries: while reader.go_on(shelf)? {
        if has_wide(aggs, reader.value()) {
            return copy_key(alloc, reader.key());
        }
    }
    Ok(None)
}

// A key of its own with these bytes.
fn copy_key(alloc: Global, bytes: &[u8]) -> Result<Option<Key>, RunFault>
    ensures ok { IfOk result (λ key. key ≡ Some bytes.now) }
    ensures err { OnErr result (result ≡ Err RunFault.NoMemory) }
{
    match Vec::from_slice(alloc, bytes) {
        Ok(copy) => Ok(Some(Key::of(copy))),
        Err(_) => Err(RunFault::NoMemory),
    }
}

// Whether a value has a number outside `i64`.
fn has_wide(aggs: &AggList, value: &[u8]) -> bool
    requires { IsValueOf (Group aggs.now) value.now }
    ensures { result ≡ list_any leaves_i64 (value_partials (length aggs.now) value.now) }
{
    for place in 0..aggs.items().len() {
        if is_wide(finish(aggs, value, place)) {
            return true;
        }
    }
    false
}

// Whether what is told is that a number is outside `i64`.
fn is_wide(told: Finished) -> bool
    ensures { (partial : Option ℤ) → told ≡ finished_of partial → result ≡ leaves_i64 partial }
{
    matches!(told, Finished::Wide)
}
