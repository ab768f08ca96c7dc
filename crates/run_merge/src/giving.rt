//! The least entry of readers that are read side by side, as a row.

ghost use Rattle.std.specs.Prelude.{◌≡◌, ◌<◌, ◌+◌, ◌∷◌, [], List, ℕ, Option, Some, true, false, length, map, slice_index_or, slice_set, sum_by, IfOk, OnOk};
ghost use Rattle.aggregate.specs.declared.kind.Kind.TheVariants.{Group, Order};
ghost use Rattle.aggregate.specs.Fronts.{front_of};
ghost use Rattle.aggregate.specs.Totals.{Entry};
ghost use Rattle.aggregate.specs.Values.{IsValueOf};
ghost use Rattle.spill_disk.specs.Files.{Files};
ghost use Rattle.row_form.specs.declared.form.Form.TheVariants.{Entries};
ghost use Rattle.row_form.specs.Forms.{IsWellFormed};
ghost use Rattle.run_file.specs.Readers.{run_of};
ghost use Rattle.run_file.specs.Several.{greatest_of};
ghost use Rattle.run_merge.specs.Giving.{AreComing, IsTaken, Gives};
ghost use Rattle.run_merge.specs.Heads.{AreAtEntries, AreFronts, IsFirst, IsLent, OnlyFalls, one_if, row_lent};
ghost use Rattle.run_merge.specs.Orders.{BeginsApart, IsOrder};

use crate::order::has_key;
use crate::queue::Queue;
use aggregate::{AggList, combine, combine_is_associative, combined_values_stay_formed};
use row_page::RowBuf;
use run_file::RunReader;
use std::alloc::AllocError;

/// A row's encoding has fewer bytes than this.
const MOST_BYTES: usize = 1 << 31;

/// Makes the row of a key and a value. One that would be too long is want of memory too.
fn put_row(row: &mut RowBuf, key: &[u8], value: &[u8]) -> Result<(), AllocError>
    ensures { OnOk result (row.new ≡ key.now ∷ (value.now ∷ [])) }
{
    row.clear();
    if key.len() >= MOST_BYTES - 8 || value.len() >= MOST_BYTES - 8 - key.len() {
        return Err(AllocError);
    }
    row.add(key)?;
    row.add(value)
}

/// Takes the first reader out of the order: its row is given.
#[inline(always)]
fn take_first(readers: &[RunReader], heads: &mut Vec<bool>, order: &mut Queue) -> usize
    requires heads { length heads.old.items ≡ length readers.now }
    requires order { IsOrder readers.now heads.old.items order.old }
    requires some { 0 < length order.old }
    ensures first { IsFirst readers.now heads.old.items result }
    ensures was { result ≡ slice_index_or order.old 0 result }
    ensures heads { heads.new.items ≡ slice_set heads.old.items result false }
    ensures order { IsOrder readers.now heads.new.items order.new }
    ensures fewer { length order.new < length order.old }
    ensures falls { OnlyFalls heads.old.items heads.new.items }
    ensures one { sum_by one_if heads.new.items + 1 ≡ sum_by one_if heads.old.items }
{
    let first = order.leave();
    heads[first] = false;
    first
}

/// Gives the entry of the first reader as it is, whose place is answered: its own row is lent.
#[inline(always)]
pub(crate) fn give_alone(readers: &[RunReader], heads: &mut Vec<bool>, order: &mut Queue) -> usize
    requires heads { length heads.old.items ≡ length readers.now }
    requires stand { AreAtEntries Order readers.now heads.old.items }
    requires order { IsOrder readers.now heads.old.items order.old }
    requires some { 0 < length order.old }
    ensures gives { (row : List (List ℕ)) (files : ℕ → Option Files) (entries : List Entry) →
        AreComing files true Order readers.now heads.old.items entries →
        Gives files Order readers.now heads.new.items (row_lent readers.now (Some result) row) entries }
    ensures formed { (row : List (List ℕ)) →
        IsWellFormed (Entries Order) (greatest_of (map run_of readers.now)) (row_lent readers.now (Some result) row) }
    ensures lent { IsLent Order readers.now (Some result) }
    ensures order { IsOrder readers.now heads.new.items order.new }
    ensures heads { OnlyFalls heads.old.items heads.new.items }
    ensures one { sum_by one_if heads.new.items + 1 ≡ sum_by one_if heads.old.items }
{
    take_first(readers, heads, order)
}

/// Gives the entry of the first reader, with those of its key of later readers joined to it. Where there
/// is none of them, the reader's own row is lent, whose place is answered; else the entry is in `row`.
pub(crate) fn give_joined(
    aggs: &AggList,
    readers: &[RunReader],
    heads: &mut Vec<bool>,
    fronts: &[u64],
    order: &mut Queue,
    value: &mut Vec<u8>,
    row: &mut RowBuf,
) -> Result<Option<usize>, AllocError>
    requires heads { length heads.old.items ≡ length readers.now }
    requires as_many { length fronts.now ≡ length readers.now }
    requires stand { AreAtEntries (Group aggs.now) readers.now heads.old.items }
    requires fronts { AreFronts readers.now heads.old.items fronts.now }
    requires order { IsOrder readers.now heads.old.items order.old }
    requires some { 0 < length order.old }
    ensures gives { IfOk result (λ given. (files : ℕ → Option Files) (entries : List Entry) →
        AreComing files true (Group aggs.now) readers.now heads.old.items entries →
        Gives files (Group aggs.now) readers.now heads.new.items (row_lent readers.now given row.new) entries) }
    ensures formed { IfOk result (λ given.
        IsWellFormed (Entries (Group aggs.now)) (greatest_of (map run_of readers.now)) (row_lent readers.now given row.new)) }
    ensures lent { IfOk result (IsLent (Group aggs.now) readers.now) }
    ensures order { IsOrder readers.now heads.new.items order.new }
    ensures heads { OnlyFalls heads.old.items heads.new.items }
    ensures fewer { OnOk result (sum_by one_if heads.new.items < sum_by one_if heads.old.items) }
{
    let first = take_first(readers, heads, order);
    let reader = &readers[first];
    let key = reader.key();
    let front = fronts[first];
    value.clear();
    value.extend_from_slice(reader.value())?;
    if !join_others(aggs, readers, heads, fronts, order, key, front, value) {
        return Ok(Some(first));
    }
    put_row(row, key, value)?;
    Ok(None)
}

/// Joins the values of the readers next in the order that stand at the same key, and takes their rows as
/// given. Says whether there was one.
fn join_others(
    aggs: &AggList,
    readers: &[RunReader],
    heads: &mut Vec<bool>,
    fronts: &[u64],
    order: &mut Queue,
    key: &[u8],
    front: u64,
    value: &mut [u8],
) -> bool
    requires heads { length heads.old.items ≡ length readers.now }
    requires as_many { length fronts.now ≡ length readers.now }
    requires front { front ≡ front_of key.now }
    requires stand { AreAtEntries (Group aggs.now) readers.now heads.old.items }
    requires fronts { AreFronts readers.now heads.old.items fronts.now }
    requires order { IsOrder readers.now heads.old.items order.old }
    requires value { IsValueOf (Group aggs.now) value.old }
    ensures joins { (files : ℕ → Option Files) (entries : List Entry) →
        IsTaken files (Group aggs.now) readers.now heads.old.items
        (record { key = key.now; value = value.old }) entries →
        IsTaken files (Group aggs.now) readers.now heads.new.items
        (record { key = key.now; value = value.new }) entries }
    ensures apart { BeginsApart readers.now order.new key.now }
    ensures none { result ≡ false → value.new ≡ value.old }
    ensures value { IsValueOf (Group aggs.now) value.new }
    ensures order { IsOrder readers.now heads.new.items order.new }
    ensures heads { OnlyFalls heads.old.items heads.new.items }
{
    let mut joined = false;
    'others: while join_next(aggs, readers, heads, fronts, order, key, front, value) {
        joined = true;
    }
    joined
}

/// Joins the value of the next reader, if it stands at this key, and says whether it did.
fn join_next(
    aggs: &AggList,
    readers: &[RunReader],
    heads: &mut Vec<bool>,
    fronts: &[u64],
    order: &mut Queue,
    key: &[u8],
    front: u64,
    value: &mut [u8],
) -> bool
    requires heads { length heads.old.items ≡ length readers.now }
    requires as_many { length fronts.now ≡ length readers.now }
    requires front { front ≡ front_of key.now }
    requires stand { AreAtEntries (Group aggs.now) readers.now heads.old.items }
    requires fronts { AreFronts readers.now heads.old.items fronts.now }
    requires order { IsOrder readers.now heads.old.items order.old }
    requires value { IsValueOf (Group aggs.now) value.old }
    ensures joins { (files : ℕ → Option Files) (entries : List Entry) →
        IsTaken files (Group aggs.now) readers.now heads.old.items
        (record { key = key.now; value = value.old }) entries →
        IsTaken files (Group aggs.now) readers.now heads.new.items
        (record { key = key.now; value = value.new }) entries }
    ensures apart { result ≡ false → BeginsApart readers.now order.new key.now }
    ensures none { result ≡ false → value.new ≡ value.old }
    ensures value { IsValueOf (Group aggs.now) value.new }
    ensures fewer { result ≡ true → length order.new < length order.old }
    ensures order { IsOrder readers.now heads.new.items order.new }
    ensures heads { OnlyFalls heads.old.items heads.new.items }
{
    combine_is_associative();
    combined_values_stay_formed();
    if order.is_empty() {
        return false;
    }
    let next = order.first();
    let reader = &readers[next];
    if !has_key(reader, fronts[next], key, front) {
        return false;
    }
    combine(aggs, value, reader.value());
    take_first(readers, heads, order);
    true
}
