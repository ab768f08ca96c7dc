//! Where a job's columns stand in a header, and which of them are kept.

ghost use Rattle.std.specs.Prelude.{◌≡◌, ◌==◌, ◌<◌, ◌≤◌, ℕ, List, None, Some, IfOk, IfSome, IsErrOf, OnOk, length, map};
ghost use Rattle.std.specs.List.{position_from};
ghost use Rattle.csv.specs.Records.{field_at, fields_of};
ghost use Rattle.job_plan.specs.Columns.{missing, place};
ghost use Rattle.job_plan.specs.Making.{AreFound, ascending, place_in};
ghost use Rattle.job_plan.specs.Within.{is_named};

use crate::fault::PlanFault;
use csv::ByteRecord;
use item_lists::Name;
use std::alloc::{AllocError, Global};

// Whether the field at a place is this name.
fn field_is(header: &ByteRecord, place: u32, name: &Name) -> bool
    ensures { result ≡ is_named name.now (field_at (fields_of header.now) place) }
{
    match header.get(place as usize) {
        Some(field) => field == name.text().as_bytes(),
        None => false,
    }
}

// The first place of a column of this name.
fn place_of(header: &ByteRecord, name: &Name) -> Option<u32>
    requires { length (fields_of header.now) ≤ 1024 }
    ensures { result ≡ place name.now (fields_of header.now) }
{
    let count = header.len() as u32;
    for i in 0..count {
        if field_is(header, i, name) {
            return Some(i);
        }
    }
    None
}

// The fault that a column is missing, or want of memory for its name.
fn no_column(alloc: Global, name: &Name) -> PlanFault
    ensures { (column : List ℕ) → result ≡ PlanFault.NoColumn column → column ≡ name.now }
{
    match String::from_str(alloc, name.text()) {
        Ok(text) => PlanFault::NoColumn {
            column: Name::of(text),
        },
        Err(_) => PlanFault::NoMemory,
    }
}

/// The place in the header of each of these names.
pub(crate) fn find_places(
    alloc: Global,
    names: &[Name],
    header: &ByteRecord,
) -> Result<Vec<u32>, PlanFault>
    requires { length (fields_of header.now) ≤ 1024 }
    ensures ok { IfOk result (λ places. AreFound names.now (fields_of header.now) places.items) }
    ensures found { OnOk result (missing names.now (fields_of header.now) ≡ None) }
    ensures refused { (column : List ℕ) → IsErrOf result (PlanFault.NoColumn column) → missing names.now (fields_of header.now) ≡ Some column }
{
    let mut places = Vec::new(alloc);
    for name in names {
        let Some(place) = place_of(header, name) else {
            return Err(no_column(alloc, name));
        };
        if places.push(place).is_err() {
            return Err(PlanFault::NoMemory);
        }
    }
    Ok(places)
}

/// The numbers below `count` that stand in a list, ascending.
pub(crate) fn below(alloc: Global, count: u32, places: &[u32]) -> Result<Vec<u32>, AllocError>
    ensures found { IfOk result (λ found. found.items ≡ ascending places.now count) }
    ensures few { IfOk result (λ found. length found.items ≤ count) }
{
    (0..count)
        .filter(|place| places.contains(place))
        .collect(alloc)
}

/// Where a number stands in a list first.
pub(crate) fn index_of(list: &[u32], number: u32) -> Option<usize>
    ensures index { result ≡ position_from (λ p. p == number) 0 list.now }
    ensures within { IfSome result (λ index. index < length list.now) }
{
    list.iter().position(|item| *item == number)
}

// The same, or 0 where it doesn't stand.
fn index_in(list: &[u32], number: u32) -> u32
    requires { length list.now ≤ 1024 }
    ensures { result ≡ place_in list.now number }
{
    match index_of(list, number) {
        Some(index) => index as u32,
        None => 0,
    }
}

/// Where each of these places stands in a list of them.
pub(crate) fn indexes_in(
    alloc: Global,
    list: &[u32],
    places: &[u32],
) -> Result<Vec<u32>, AllocError>
    requires { length list.now ≤ 1024 }
    ensures { IfOk result (λ indexes. indexes.items ≡ map (place_in list.now) places.now) }
{
    let mut indexes = Vec::new(alloc);
    for place in places {
        indexes.push(index_in(list, *place))?;
    }
    Ok(indexes)
}
